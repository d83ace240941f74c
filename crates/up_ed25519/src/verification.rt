//! Whether a signature is valid.
ghost use Rattle.std.specs.Prelude.{◌≡◌, ◌<◌, ℕ, length, take, drop, Some};
ghost use Rattle.up_field.specs.Points.{Writes};
ghost use Rattle.up_curve.specs.Curve.{Point, order, base as base_point, add, multiple};
ghost use Rattle.up_curve.specs.LittleEndian.{number};
ghost use Rattle.up_curve.specs.Encoding.{decode as decode_of};
ghost use Rattle.up_field.specs.Decoded.{IsMaybe};
ghost use Rattle.up_curve.specs.Signatures.{challenge_of, is_same_point, equation_holds, is_valid_of, is_valid};

use sha2::{Digest, Sha512};
use up_field::decode::decode;
use up_field::joint::joint;
use up_field::order::{is_below_order, negated, reduced};
use up_field::points::Extended;
use up_field::same::are_opposite;

/// Whether the signature of a message is valid under a public key (RFC 8032, section 5.1.7).
pub fn verify(public: &[u8], message: &[u8], signature: &[u8]) -> bool
    ensures { result ≡ is_valid public.now message.now signature.now }
{
    if signature.len() != 64 {
        return false;
    }
    if public.len() != 32 {
        return false;
    }
    sized(public, message, signature)
}

/// Whether a signature of 64 bytes is valid under a public key of 32.
fn sized(public: &[u8], message: &[u8], signature: &[u8]) -> bool
    requires key { length public.now ≡ 32 }
    requires signature { length signature.now ≡ 64 }
    ensures { result ≡ is_valid_of public.now message.now (take 32 signature.now) (drop 32 signature.now) }
{
    let r = &signature[..32];
    let s = &signature[32..];
    halves(public, message, r, s)
}

/// Whether the halves of a signature are valid.
fn halves(public: &[u8], message: &[u8], r: &[u8], s: &[u8]) -> bool
    requires key { length public.now ≡ 32 }
    requires first { length r.now ≡ 32 }
    requires second { length s.now ≡ 32 }
    ensures { result ≡ is_valid_of public.now message.now r.now s.now }
{
    if is_below_order(s) {
        let a = decode(public);
        let n = decode(r);
        let k = challenge(r, public, message);
        equation_of(s, &k, a, n, public, r)
    } else {
        false
    }
}

/// Whether the equation of a signature holds.
fn equation_of(
    s: &[u8],
    k: &[u8; 32],
    a: Option<Extended>,
    r: Option<Extended>,
    public: &[u8],
    nonce: &[u8],
) -> bool
    requires first { length s.now ≡ 32 }
    requires below { number s.now < order }
    requires public { IsMaybe a (decode_of public.now) }
    requires nonce { IsMaybe r (decode_of nonce.now) }
    ensures { result ≡ equation_holds (number s.now) (number k.now) (decode_of public.now) (decode_of nonce.now) }
{
    match (a, r) {
        (Some(a), Some(r)) => equation(s, k, a, r),
        _ => false,
    }
}

/// Whether [s]B = r + [k]a.
fn equation(s: &[u8], k: &[u8; 32], a: Extended, r: Extended) -> bool
    requires first { length s.now ≡ 32 }
    requires below { number s.now < order }
    ensures { (m n : Point) → Writes a m → Writes r n
        → result ≡ is_same_point (multiple (number s.now) base_point) (add n (multiple (number k.now) m)) }
{
    let n = negated(s);
    let t = joint(k, a, &n);
    are_opposite(r, t)
}

/// The number k that the hash of a signature's first half, a public key and a message writes, modulo the order.
pub(crate) fn challenge(r: &[u8], public: &[u8], message: &[u8]) -> [u8; 32]
    ensures { number result ≡ challenge_of r.now public.now message.now }
{
    let mut hasher = Sha512::new();
    hasher.update(r);
    hasher.update(public);
    hasher.update(message);
    let digest = hasher.finalize();
    reduced(&digest)
}
