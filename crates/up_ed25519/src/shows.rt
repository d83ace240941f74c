//! Public keys, read back from what a Root shows of them.
ghost use Rattle.std.specs.Prelude.{◌≡◌, IfOk, Ok};
ghost use Rattle.up_shown.specs.Showing.{ShowsKeys, showing};
ghost use Rattle.up_ed25519.specs.Scheme.{ed25519};
ghost use Rattle.up_ed25519.specs.Shows.{read_shown as read_shown_of, shown_by as shown_by_of};

use crate::scheme::Ed25519;
use hex::FromHexError;
use std::alloc::{AllocError, Global};
use up_canon::bytes::Bytes;
use up_shown::shows::Shows;
use up_sign::scheme::Scheme;

impl Shows for Ed25519 {
    ghost use Rattle.up_ed25519.specs.Shows.{shown_is_read};

    ghost reading = { λ _. read_shown_of };

    fn read_shown(&self, alloc: Global, shown: &str) -> Result<Option<Bytes>, AllocError> {
        read_key(alloc, shown)
    }

    ghost reads_shown = { λ _. shown_is_read };
}

/// The key whose hex text this is, in lower case.
#[tactic(auto, unfolding(crate::specs::Shows::read_shown))]
fn read_key(alloc: Global, shown: &str) -> Result<Option<Bytes>, AllocError>
    ensures { IfOk result (λ p. p ≡ read_shown_of shown.now) }
{
    match hex::decode(alloc, shown.as_bytes()) {
        Ok(key) => if_shown(alloc, key, shown),
        Err(FromHexError::OutOfMemory) => Err(AllocError),
        Err(_) => Ok(None),
    }
}

/// The bytes, where they are a key that is shown by this text.
fn if_shown(alloc: Global, key: Vec<u8>, shown: &str) -> Result<Option<Bytes>, AllocError>
    ensures { IfOk result (λ p. p ≡ shown_by_of shown.now (Ok key.items)) }
{
    if Ed25519.public_fits(&key) && Ed25519.shown(alloc, &key)?.as_str() == shown {
        Ok(Some(Bytes::new(key)))
    } else {
        Ok(None)
    }
}

/// The public key of each secret is shown so that it is read.
pub fn keys_are_shown()
    ensures { ShowsKeys (showing ed25519 read_shown_of) }
{}
