//! Public keys whose point is decoded, with multiples of it.
ghost use Rattle.std.specs.Prelude.{◌≡◌, ◌<◌, ℕ, IfSome, bytes_eq, length};
ghost use Rattle.up_field.specs.Points.{Writes};
ghost use Rattle.up_curve.specs.Curve.{Point, order, base as base_point, add, multiple};
ghost use Rattle.up_curve.specs.LittleEndian.{number};
ghost use Rattle.up_curve.specs.Points.{IsPoint};
ghost use Rattle.up_curve.specs.Signatures.{is_same_point, is_valid_of, is_valid};
ghost use Rattle.up_field.specs.Tables.{AreMultiples};

use crate::verification::challenge;
use std::marker::Model;
use up_field::decode::decode;
use up_field::halves::{Multiples, joint_by, multiples_of};
use up_field::order::{is_below_order, negated};
use up_field::points::Extended;
use up_field::same::are_opposite;

/// A public key that is a point, with multiples of the point: 2,080 bytes. Contracts see it as the key's 32 bytes.
#[derive(Drop)]
pub(crate) struct ReadyKey {
    bytes: [u8; 32],
    multiples: Multiples,
}

impl Model for ReadyKey {
    ghost use Rattle.std.specs.Prelude.{List, ℕ};
    ghost use Rattle.up_ed25519.specs.Ready.{AreOfKey};

    ghost Value = { List ℕ };

    ghost view = { λ k. k.bytes };

    ghost invariant = { λ k. AreOfKey k.bytes k.multiples };
}

impl ReadyKey {
    /// The key of 32 bytes; none where they are no point.
    pub(crate) fn new(public: &[u8]) -> Option<ReadyKey>
        requires { length public.now ≡ 32 }
        ensures { IfSome result (λ key. key ≡ public.now) }
    {
        let point = decode(public)?;
        let mut bytes = [0; 32];
        bytes.copy_from_slice(public);
        let multiples = multiples_of(point);
        Some(ReadyKey { bytes, multiples })
    }

    /// Its 32 bytes.
    pub(crate) fn bytes(&self) -> &[u8; 32]
        ensures { result.now ≡ self.now }
    {
        &self.bytes
    }

    /// Whether the signature of a message is valid under the key (RFC 8032, section 5.1.7).
    pub(crate) fn verify(&self, message: &[u8], signature: &[u8]) -> bool
        ensures { result ≡ is_valid self.now message.now signature.now }
    {
        if signature.len() != 64 {
            return false;
        }
        let r = &signature[..32];
        let s = &signature[32..];
        self.halves(message, r, s)
    }

    /// Whether the halves of a signature are valid.
    fn halves(&self, message: &[u8], r: &[u8], s: &[u8]) -> bool
        requires first { length r.now ≡ 32 }
        requires second { length s.now ≡ 32 }
        ensures { result ≡ is_valid_of self.now message.now r.now s.now }
    {
        if !is_below_order(s) {
            return false;
        }
        let Some(point) = decode(r) else {
            return false;
        };
        let k = challenge(r, &self.bytes, message);
        equation(s, &k, &self.multiples, point)
    }
}

/// Whether [s]B = r + [k]a, by multiples of a.
fn equation(s: &[u8], k: &[u8; 32], a: &Multiples, r: Extended) -> bool
    requires first { length s.now ≡ 32 }
    requires below { number s.now < order }
    ensures { (m n : Point) → IsPoint m → AreMultiples a.now m → Writes r n
        → result ≡ is_same_point (multiple (number s.now) base_point) (add n (multiple (number k.now) m)) }
{
    let n = negated(s);
    let t = joint_by(k, a, &n);
    are_opposite(r, t)
}
