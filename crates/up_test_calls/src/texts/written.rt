//! What was read, beside what is written of it again.
use std::alloc::{AllocError, Global};

/// The fields of what was read of the body, and whether its text written again is the body, or another envelope of what is
/// signed in the body; else the text.
pub(crate) fn written(
    alloc: Global,
    fields: &str,
    body: &str,
    signed: &str,
    text: &str,
) -> Result<String, AllocError> {
    let end = format!(in alloc; ",\"signed\":{signed}}}")?;
    if !text.ends_with(end.as_str()) {
        format!(in alloc; "{fields}, written {text}")
    } else if text == body {
        format!(in alloc; "{fields}, the same again")
    } else {
        format!(in alloc; "{fields}, signed anew")
    }
}
