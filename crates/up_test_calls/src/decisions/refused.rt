//! Refusals as answers.
use std::alloc::{AllocError, Global};
use up_canon::refusal::Refusal;

/// The refusal as a text. Where memory was refused no test goes on.
pub(crate) fn refused(alloc: Global, refusal: Refusal) -> Result<String, AllocError> {
    match &refusal {
        Refusal::Memory => Err(AllocError),
        other => other.text(alloc),
    }
}

/// Why a line is unread.
pub(crate) fn unread(alloc: Global, refusal: Refusal) -> Result<String, AllocError> {
    let why = refused(alloc, refusal)?;
    format!(in alloc; "unread: {why}")
}
