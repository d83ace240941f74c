//! Signatures as a scheme gives them.
ghost use Rattle.std.specs.Prelude.{◌≡◌, IfOk, string_bytes};
ghost use Rattle.up_sign.specs.Hmac.{block_key};
ghost use Rattle.up_sign.specs.Schemes.{Rules, IsScheme};

use crate::hmac_sha256::HmacKey;
use std::alloc::{AllocError, Global};

/// A way to sign.
pub trait Scheme: Drop {
    /// What its calls answer.
    ghost rules: { Self → Rules };

    /// The name of the method, 1 to 64 bytes of printable ASCII.
    fn method(&self) -> &str
        ensures { result.now ≡ (rules self.now).method };

    /// Whether the bytes are a secret of this scheme.
    fn secret_fits(&self, secret: &[u8]) -> bool
        ensures { result ≡ (rules self.now).secret_fits secret.now };

    /// Whether the bytes are a public part of this scheme.
    fn public_fits(&self, public: &[u8]) -> bool
        ensures { result ≡ (rules self.now).public_fits public.now };

    /// The public part of a secret.
    fn public(&self, alloc: Global, secret: &[u8]) -> Result<Vec<u8>, AllocError>
        ensures { IfOk result (λ p. p.items ≡ (rules self.now).public_of secret.now) };

    /// The signature of a message.
    fn sign(&self, alloc: Global, secret: &[u8], message: &[u8]) -> Result<Vec<u8>, AllocError>
        ensures { IfOk result (λ g. g.items ≡ (rules self.now).tag secret.now message.now) };

    /// Whether the signature of a message is valid.
    fn verify(&self, public: &[u8], message: &[u8], signature: &[u8]) -> bool
        ensures { result ≡ (rules self.now).is_valid public.now message.now signature.now };

    /// What `sign` answers. `key` is the HMAC key of the secret's public part, with which its identifier is computed; a scheme
    /// that signs with that key need not hash it again.
    fn sign_by(
        &self,
        alloc: Global,
        key: &HmacKey,
        secret: &[u8],
        message: &[u8],
    ) -> Result<Vec<u8>, AllocError>
        requires { key.now ≡ block_key ((rules self.now).public_of secret.now) }
        ensures { IfOk result (λ g. g.items ≡ (rules self.now).tag secret.now message.now) }
    {
        self.sign(alloc, secret, message)
    }

    /// What `verify` answers. `key` is the HMAC key of the public part, with which its identifier is computed; a scheme that
    /// verifies with that key need not hash it again.
    fn verify_by(&self, key: &HmacKey, public: &[u8], message: &[u8], signature: &[u8]) -> bool
        requires { key.now ≡ block_key public.now }
        ensures { result ≡ (rules self.now).is_valid public.now message.now signature.now }
    {
        self.verify(public, message, signature)
    }

    /// The text that Root metadata shows of a public part, 0 to 1,024 bytes of printable ASCII.
    fn shown(&self, alloc: Global, public: &[u8]) -> Result<String, AllocError>
        ensures { IfOk result (λ t. string_bytes t ≡ (rules self.now).shown public.now) };

    /// A scheme keeps the laws.
    ghost lawful: { (k : Self) → IsScheme (rules k) };
}
