//! What was answered, beside what the row says.
use std::alloc::{AllocError, Global};

/// The number of lines where both are equal, else both.
pub(crate) fn compared(alloc: Global, had: &str, wanted: &str) -> Result<String, AllocError> {
    if had == wanted {
        format!(in alloc; "{}", wanted.lines().count())
    } else {
        format!(in alloc; "DIFFERS: {had:?} in place of {wanted:?}")
    }
}
