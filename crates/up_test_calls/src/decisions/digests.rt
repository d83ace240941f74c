//! Digests of texts.
use sha2::{Digest, Sha256};
use std::alloc::{AllocError, Global};
use up_canon::text::Text;

/// The SHA-256 of the texts with a newline after each, in lower case hex.
pub(crate) fn digest_of(alloc: Global, texts: &[&Text]) -> Result<String, AllocError> {
    let mut hasher = Sha256::new();
    for text in texts {
        hasher.update(text.as_str().as_bytes());
        hasher.update("\n".as_bytes());
    }
    hex::encode(alloc, hasher.finalize())
}
