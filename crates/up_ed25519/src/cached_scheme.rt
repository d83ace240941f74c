//! The scheme, with public keys that stay decoded.
ghost use Rattle.std.specs.Prelude.{◌≡◌, IfOk};
ghost use Rattle.up_ed25519.specs.Scheme.{ed25519};

use crate::ready_keys::ReadyKeys;
use crate::scheme::Ed25519;
use crate::signer_keys::SignerKeys;
use crate::signing::sign_with;
use std::alloc::{AllocError, Global};
use up_canon::bytes::Bytes;
use up_shown::shows::Shows;
use up_sign::hmac_sha256::HmacKey;
use up_sign::scheme::Scheme;

/// Ed25519 for a program that verifies many signatures of the same keys: what it answers is what `Ed25519` does. It keeps at most
/// 4,093 public keys decoded, which take at most 9 MB, and the public keys of the last 16 secrets.
#[derive(Drop)]
pub struct CachedEd25519 {
    keys: ReadyKeys,
    signers: SignerKeys,
}

impl CachedEd25519 {
    /// The scheme, which keeps no key yet.
    pub fn new(alloc: Global) -> CachedEd25519 {
        CachedEd25519 {
            keys: ReadyKeys::new(alloc),
            signers: SignerKeys::new(alloc),
        }
    }
}

impl Scheme for CachedEd25519 {
    ghost use Rattle.up_ed25519.specs.Scheme.{ed25519};
    ghost use Rattle.up_ed25519.specs.Lawful.{ed25519_lawful};

    ghost rules = { λ _. ed25519 };

    fn method(&self) -> &str {
        "ed25519"
    }

    fn secret_fits(&self, secret: &[u8]) -> bool {
        Ed25519.secret_fits(secret)
    }

    // Whoever registers a key asks this first. So its multiples are made then, and not when a vehicle waits.
    fn public_fits(&self, public: &[u8]) -> bool {
        let fits = Ed25519.public_fits(public);
        if fits {
            self.keys.prepare(public);
        }
        fits
    }

    fn public(&self, alloc: Global, secret: &[u8]) -> Result<Vec<u8>, AllocError> {
        self.signers.public_of(secret).to_vec(alloc)
    }

    fn sign(&self, alloc: Global, secret: &[u8], message: &[u8]) -> Result<Vec<u8>, AllocError> {
        sign_with(secret, &self.signers.public_of(secret), message).to_vec(alloc)
    }

    fn verify(&self, public: &[u8], message: &[u8], signature: &[u8]) -> bool {
        self.keys.verify(public, message, signature)
    }

    fn sign_by(
        &self,
        alloc: Global,
        key: &HmacKey,
        secret: &[u8],
        message: &[u8],
    ) -> Result<Vec<u8>, AllocError> {
        Ed25519.sign_by(alloc, key, secret, message)
    }

    fn shown(&self, alloc: Global, public: &[u8]) -> Result<String, AllocError> {
        Ed25519.shown(alloc, public)
    }

    ghost lawful = { λ _. ed25519_lawful };
}

impl Shows for CachedEd25519 {
    ghost use Rattle.up_ed25519.specs.Shows.{read_shown, shown_is_read};

    ghost reading = { λ _. read_shown };

    fn read_shown(&self, alloc: Global, shown: &str) -> Result<Option<Bytes>, AllocError> {
        Ed25519.read_shown(alloc, shown)
    }

    ghost reads_shown = { λ _. shown_is_read };
}
