//! What is told of rows that were read, and of faults.
use crate::tables::shown::push_word;
use std::alloc::{AllocError, Global};
use up_tables::values::StoreFault;

/// The fault's name.
pub(crate) fn fault_text(alloc: Global, fault: StoreFault) -> Result<String, AllocError> {
    match fault {
        StoreFault::Memory => "Memory".to_string(alloc),
        StoreFault::Store => "Store".to_string(alloc),
    }
}

/// The row that was found, or `none`.
pub(crate) fn one(
    alloc: Global,
    found: Result<Option<String>, StoreFault>,
) -> Result<String, StoreFault> {
    match found {
        Ok(Some(row)) => Ok(row),
        Ok(None) => Ok("none".to_string(alloc)?),
        Err(fault) => Err(fault),
    }
}

/// The rows that were found, with ` ; ` between them.
pub(crate) fn all(
    alloc: Global,
    found: Result<Vec<String>, StoreFault>,
) -> Result<String, StoreFault> {
    match found {
        Ok(rows) => Ok(texts_of(alloc, rows.as_slice())?),
        Err(fault) => Err(fault),
    }
}

fn texts_of(alloc: Global, rows: &[String]) -> Result<String, AllocError> {
    let mut out = String::new(alloc);
    for row in rows {
        push(&mut out, row.as_str())?;
    }
    Ok(out)
}

fn push(out: &mut String, row: &str) -> Result<(), AllocError> {
    if !out.is_empty() {
        push_word(out, ";")?;
    }
    push_word(out, row)
}
