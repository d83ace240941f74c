//! Bytes in words: `02*` is 32 times the byte 0x02, and other words are hex.
use hex::FromHexError;
use std::alloc::{AllocError, Global};
use up_canon::bytes::Bytes;

/// The bytes of a word, none where it is no hex.
pub(crate) fn bytes_of(alloc: Global, word: &str) -> Result<Option<Bytes>, AllocError> {
    match word.strip_suffix('*') {
        Some(digits) => decoded(alloc, digits.repeat(alloc, 32)?.as_str()),
        None => decoded(alloc, word),
    }
}

fn decoded(alloc: Global, digits: &str) -> Result<Option<Bytes>, AllocError> {
    match hex::decode(alloc, digits.as_bytes()) {
        Ok(bytes) => Ok(Some(Bytes::new(bytes))),
        Err(FromHexError::OutOfMemory) => Err(AllocError),
        Err(_) => Ok(None),
    }
}
