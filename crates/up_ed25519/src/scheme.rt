//! The scheme, as the rest of the product names it.
use crate::public_keys::is_public;
use crate::signing::{public_of, sign, sign_with};
use crate::verification::verify;
use std::alloc::{AllocError, Global};
use up_sign::hmac_sha256::{HmacKey, block_under};
use up_sign::scheme::Scheme;

/// Ed25519: secrets and public keys of 32 bytes, signatures of 64.
#[derive(Clone, Copy, Debug)]
pub struct Ed25519;

impl Scheme for Ed25519 {
    ghost use Rattle.up_ed25519.specs.Scheme.{ed25519};
    ghost use Rattle.up_ed25519.specs.Lawful.{ed25519_lawful};

    ghost rules = { λ _. ed25519 };

    fn method(&self) -> &str {
        "ed25519"
    }

    fn secret_fits(&self, secret: &[u8]) -> bool {
        secret.len() == 32
    }

    fn public_fits(&self, public: &[u8]) -> bool {
        is_public(public)
    }

    fn public(&self, alloc: Global, secret: &[u8]) -> Result<Vec<u8>, AllocError> {
        public_of(secret).to_vec(alloc)
    }

    fn sign(&self, alloc: Global, secret: &[u8], message: &[u8]) -> Result<Vec<u8>, AllocError> {
        sign(secret, message).to_vec(alloc)
    }

    fn verify(&self, public: &[u8], message: &[u8], signature: &[u8]) -> bool {
        verify(public, message, signature)
    }

    // The key's block begins with the public key, so that a signature takes one multiple and not two.
    fn sign_by(
        &self,
        alloc: Global,
        key: &HmacKey,
        secret: &[u8],
        message: &[u8],
    ) -> Result<Vec<u8>, AllocError> {
        let public = &block_under(key)[..32];
        sign_with(secret, public, message).to_vec(alloc)
    }

    fn shown(&self, alloc: Global, public: &[u8]) -> Result<String, AllocError> {
        shown_text(alloc, public)
    }

    ghost lawful = { λ _. ed25519_lawful };
}

ghost use Rattle.std.specs.Prelude.{◌≡◌, IfOk, string_bytes};
ghost use Rattle.up_ed25519.specs.Scheme.{shown_of};

/// The lower-case hex of a public key.
fn shown_text(alloc: Global, public: &[u8]) -> Result<String, AllocError>
    ensures { IfOk result (λ t. string_bytes t ≡ shown_of public.now) }
{
    if public.len() == 32 {
        hex::encode(alloc, public)
    } else {
        Ok(String::new(alloc))
    }
}
