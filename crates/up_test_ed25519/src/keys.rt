//! Bytes in words of hex.
use hex::FromHexError;
use std::alloc::{AllocError, Global};
use up_canon::bytes::Bytes;

/// The bytes of a word, none where it is no hex.
pub(crate) fn bytes_of(alloc: Global, word: &str) -> Result<Option<Bytes>, AllocError> {
    match hex::decode(alloc, word.as_bytes()) {
        Ok(bytes) => Ok(Some(Bytes::new(bytes))),
        Err(FromHexError::OutOfMemory) => Err(AllocError),
        Err(_) => Ok(None),
    }
}

/// The lower-case hex of bytes.
pub(crate) fn hex_digits(alloc: Global, bytes: &[u8]) -> Result<String, AllocError> {
    hex::encode(alloc, bytes)
}

/// The bytes of a key, of a message behind an `x`, and of a signature, which may be missing.
pub(crate) fn three(
    alloc: Global,
    given: &str,
) -> Result<Option<(Bytes, Bytes, Bytes)>, AllocError> {
    let (key, rest) = given.split_once(" x").unwrap_or((given, "no message"));
    let (message, signature) = rest.split_once(' ').unwrap_or((rest, ""));
    match (
        bytes_of(alloc, key)?,
        bytes_of(alloc, message)?,
        bytes_of(alloc, signature)?,
    ) {
        (Some(key), Some(message), Some(signature)) => Ok(Some((key, message, signature))),
        _ => Ok(None),
    }
}
