//! Public keys and signatures.
ghost use Rattle.std.specs.Prelude.{◌≡◌, ◌%◌, ◌++◌, length, drop, take};
ghost use Rattle.sha2.specs.Sha512.{sha512};
ghost use Rattle.up_curve.specs.Curve.{order, base as base_point, multiple};
ghost use Rattle.up_curve.specs.LittleEndian.{number};
ghost use Rattle.up_curve.specs.Encoding.{encode as encode_of};
ghost use Rattle.up_curve.specs.Signatures.{clamped as clamped_of, public_of as public_of_secret, signature_of};

use crate::verification::challenge;
use sha2::{Digest, Sha512};
use up_field::clamp::clamped;
use up_field::comb::times_base;
use up_field::encode::encode;
use up_field::order::{multiply_add, reduced};

/// The public key of a secret (RFC 8032, section 5.1.5).
pub fn public_of(secret: &[u8]) -> [u8; 32]
    ensures { result ≡ public_of_secret secret.now }
{
    let hash = expanded(secret);
    let a = scalar(&hash);
    multiple_of_base(&a)
}

/// The signature of a message (RFC 8032, section 5.1.6).
pub fn sign(secret: &[u8], message: &[u8]) -> [u8; 64]
    ensures { result ≡ signature_of secret.now message.now }
{
    let public = public_of(secret);
    sign_with(secret, &public, message)
}

/// The signature of a message, by a secret and its public key: half the work of `sign`.
pub fn sign_with(secret: &[u8], public: &[u8], message: &[u8]) -> [u8; 64]
    requires { public.now ≡ public_of_secret secret.now }
    ensures { result ≡ signature_of secret.now message.now }
{
    let hash = expanded(secret);
    let a = scalar(&hash);
    let r = nonce(&hash, message);
    let point = multiple_of_base(&r);
    let k = challenge(&point, public, message);
    let s = multiply_add(&r, &k, &a);
    joined(&point, &s)
}

/// The hash of a secret.
fn expanded(secret: &[u8]) -> [u8; 64]
    ensures { result ≡ sha512 secret.now }
{
    let mut hasher = Sha512::new();
    hasher.update(secret);
    hasher.finalize()
}

/// The secret scalar of a secret's hash.
fn scalar(hash: &[u8; 64]) -> [u8; 32]
    ensures { number result ≡ clamped_of (number (take 32 hash.now)) }
{
    let half = &hash[..32];
    clamped(half)
}

/// The secret number of a signature, by the second half of a secret's hash.
fn nonce(hash: &[u8; 64], message: &[u8]) -> [u8; 32]
    ensures { number result ≡ number (sha512 (drop 32 hash.now ++ message.now)) % order }
{
    let half = &hash[32..];
    let mut hasher = Sha512::new();
    hasher.update(half);
    hasher.update(message);
    let digest = hasher.finalize();
    reduced(&digest)
}

/// The bytes of a multiple of the base point.
fn multiple_of_base(scalar: &[u8; 32]) -> [u8; 32]
    ensures { result ≡ encode_of (multiple (number scalar.now) base_point) }
{
    let q = times_base(scalar);
    encode(q)
}

/// Two halves in one.
fn joined(first: &[u8; 32], second: &[u8; 32]) -> [u8; 64]
    ensures { result ≡ first.now ++ second.now }
{
    let mut out = [0; 64];
    out[..32].copy_from_slice(first);
    out[32..].copy_from_slice(second);
    out
}
