//! Texts that are changed in one place.
use crate::repeated::in_full;
use std::alloc::{AllocError, Global};

/// The text with the change `OLD | NEW`, made where OLD stands first; none where it doesn't stand.
pub(crate) fn changed(
    alloc: Global,
    text: &str,
    change: &str,
) -> Result<Option<String>, AllocError> {
    match change.split_once(" | ") {
        Some((old, new)) => replaced(alloc, text, old, new),
        None => Ok(None),
    }
}

fn replaced(alloc: Global, text: &str, old: &str, new: &str) -> Result<Option<String>, AllocError> {
    match text.split_once(old) {
        Some((before, after)) => joined(alloc, before, new, after),
        None => Ok(None),
    }
}

fn joined(
    alloc: Global,
    before: &str,
    new: &str,
    after: &str,
) -> Result<Option<String>, AllocError> {
    let made = format!(in alloc; "{before}{new}{after}")?;
    in_full(alloc, made.as_str())
}
