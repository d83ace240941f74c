//! The 32 bytes of a point.
ghost use Rattle.std.specs.Prelude.{◌≡◌, ℕ, ◌+◌, ◌*◌, ◌%◌, ◌/◌, ◌^◌, ◌<◌};
ghost use Rattle.up_curve.specs.Field.{p};
ghost use Rattle.up_field.specs.Points.{number, Writes};
ghost use Rattle.up_curve.specs.Curve.{Point, neutral};
ghost use Rattle.up_curve.specs.Encoding.{encode as encode_of};
ghost use Rattle.up_curve.specs.Signatures.{is_same_point};
ghost use Rattle.up_field.specs.Decoded.{IsReduced};

use crate::bytes::to_bytes;
use crate::canonical::canonical;
use crate::points::Extended;
use crate::power::inverse;
use crate::products::mul;
use crate::words::{Words, in_limbs};

/// The 32 bytes of a point.
pub fn encode(q: Extended) -> [u8; 32]
    ensures { (m : Point) → Writes q m → result ≡ encode_of m }
{
    let i = inverse(q.z);
    let x = quotient(q.x, i);
    let y = quotient(q.y, i);
    to_bytes(in_limbs(with_bit(y, x)))
}

/// A quotient, reduced.
fn quotient(x: Words, inverse: Words) -> Words
    ensures value { (a z : ℕ) → a < p → number x % p ≡ (a * z) % p → (z * number inverse) % p ≡ 1 → number result ≡ a }
    ensures limit { IsReduced result }
{
    canonical(mul(x, inverse))
}

/// A number and a bit above it.
#[inline(always)]
fn with_bit(y: Words, x: Words) -> Words
    requires { IsReduced y }
    ensures { number result ≡ number y + 2 ^ 255 * (number x % 2) }
{
    Words {
        a: y.a,
        b: y.b,
        c: y.c,
        d: y.d + x.a % 2 * (1 << 63),
    }
}
