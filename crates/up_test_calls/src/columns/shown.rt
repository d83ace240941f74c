//! What was read, as a text.
use std::alloc::{AllocError, Global};
use up_canon::file_name::FileName;
use up_canon::ident::Ident;
use up_plan::assigned::Assigned;
use up_plan::campaign::Item;
use up_plan::image::Need;

/// What has a text.
pub(crate) trait Shown {
    /// Appends its fields, a colon between.
    fn push(&self, alloc: Global, out: &mut String) -> Result<(), AllocError>;
}

impl Shown for Ident {
    fn push(&self, _: Global, out: &mut String) -> Result<(), AllocError> {
        out.push_str(self.text())
    }
}

impl Shown for FileName {
    fn push(&self, _: Global, out: &mut String) -> Result<(), AllocError> {
        out.push_str(self.text())
    }
}

impl Shown for Need {
    fn push(&self, alloc: Global, out: &mut String) -> Result<(), AllocError> {
        let text = format!(in alloc; "{}:{}", self.hardware.text(), self.release.get())?;
        out.push_str(text.as_str())
    }
}

impl Shown for Item {
    fn push(&self, alloc: Global, out: &mut String) -> Result<(), AllocError> {
        let text = format!(in alloc; "{}:{}", self.hardware.text(), self.file.text())?;
        out.push_str(text.as_str())
    }
}

impl Shown for Assigned {
    fn push(&self, alloc: Global, out: &mut String) -> Result<(), AllocError> {
        let text = format!(in alloc; "{}:{}", self.ecu.text(), self.file.text())?;
        out.push_str(text.as_str())
    }
}

/// How many items were read, and each of them.
pub(crate) fn fields_of<T: Shown>(alloc: Global, items: &[T]) -> Result<String, AllocError> {
    let mut out = format!(in alloc; "{}:", items.len())?;
    for item in items {
        out.push(' ')?;
        item.push(alloc, &mut out)?;
    }
    Ok(out)
}

/// The fields, and whether what was written of them is the column that they were read from; else the text.
pub(crate) fn again(
    alloc: Global,
    fields: String,
    written: Result<String, AllocError>,
    column: &str,
) -> Result<String, AllocError> {
    match written {
        Ok(text) => told(alloc, fields, text.as_str(), column),
        Err(refused) => Err(refused),
    }
}

fn told(alloc: Global, fields: String, written: &str, column: &str) -> Result<String, AllocError> {
    if written == column {
        format!(in alloc; "{fields}, the same again")
    } else {
        format!(in alloc; "{fields}, written {written}")
    }
}
