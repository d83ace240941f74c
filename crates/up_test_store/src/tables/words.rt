//! Words, of which spaces part the statements and rows.
ghost use Rattle.std.specs.Prelude.{◌<◌, ◌^◌};

use hex::FromHexError;
use std::alloc::{AllocError, Global};

/// The first word, and what stands behind it.
pub(crate) fn first_of(text: &str) -> (&str, &str) {
    text.split_once(' ').unwrap_or((text, ""))
}

/// What stands before ` ; ` and behind it.
pub(crate) fn parts_of(text: &str) -> (&str, &str) {
    text.split_once(" ; ").unwrap_or((text, ""))
}

/// The word at a place, counted from 0.
pub(crate) fn word(text: &str, at: usize) -> &str {
    text.split(' ').nth(at).unwrap_or("")
}

/// The number at a place; 0 where none is that fits a column.
pub(crate) fn number(text: &str, at: usize) -> u64
    ensures { result < 2 ^ 63 }
{
    match word(text, at).parse::<u64>() {
        Ok(n) if n < 1 << 63 => n,
        _ => 0,
    }
}

/// The bytes of hex digits; none where they are no such.
pub(crate) fn bytes(alloc: Global, digits: &str) -> Result<Vec<u8>, AllocError> {
    match hex::decode(alloc, digits.as_bytes()) {
        Ok(bytes) => Ok(bytes),
        Err(FromHexError::OutOfMemory) => Err(AllocError),
        Err(_) => Ok(Vec::new(alloc)),
    }
}
