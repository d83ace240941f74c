//! A second scheme, whose public parts are not its secrets.
use sha2::{Digest, Sha256};
use std::alloc::{AllocError, Global};
use up_sign::scheme::Scheme;

/// Tags are hashes of the public part, itself a hash of the secret, and the message.
#[derive(Clone, Copy, Debug)]
pub struct Hashed;

impl Scheme for Hashed {
    ghost use Rattle.up_test_common.specs.Hashed.{hashed, hashed_lawful};

    ghost rules = { λ _. hashed };

    fn method(&self) -> &str {
        "sha256-tag"
    }

    fn secret_fits(&self, secret: &[u8]) -> bool {
        !secret.is_empty()
    }

    fn public_fits(&self, public: &[u8]) -> bool {
        public.len() == 32
    }

    fn public(&self, alloc: Global, secret: &[u8]) -> Result<Vec<u8>, AllocError> {
        hashed_public(secret).to_vec(alloc)
    }

    fn sign(&self, alloc: Global, secret: &[u8], message: &[u8]) -> Result<Vec<u8>, AllocError> {
        digest_of(&hashed_public(secret)[..], message).to_vec(alloc)
    }

    fn verify(&self, public: &[u8], message: &[u8], signature: &[u8]) -> bool {
        signature == &digest_of(public, message)[..]
    }

    fn shown(&self, alloc: Global, _public: &[u8]) -> Result<String, AllocError> {
        "hash".to_string(alloc)
    }

    ghost lawful = { λ _. hashed_lawful };
}

ghost use Rattle.std.specs.Prelude.{◌≡◌, ◌++◌};
ghost use Rattle.sha2.specs.Sha256.{sha256};
ghost use Rattle.up_test_common.specs.Hashed.{hashed_public as hashed_public_of};

#[tactic(auto, unfolding(crate::specs::Hashed::hashed_public))]
fn hashed_public(secret: &[u8]) -> [u8; 32]
    ensures { result ≡ hashed_public_of secret.now }
{
    digest_of("public ".as_bytes(), secret)
}

fn digest_of(first: &[u8], second: &[u8]) -> [u8; 32]
    ensures { result ≡ sha256 (first.now ++ second.now) }
{
    let mut hasher = Sha256::new();
    hasher.update(first);
    hasher.update(second);
    hasher.finalize()
}
