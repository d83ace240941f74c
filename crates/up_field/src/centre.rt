//! Numbers in bits that are signs: the n-th is 2^n or -2^n.
ghost use Rattle.std.specs.Prelude.{◌≡◌, ◌+◌, ◌*◌, ◌-◌, ◌/◌, ◌%◌, ◌<◌, ◌^◌};
ghost use Rattle.up_curve.specs.Curve.{order};
ghost use Rattle.up_curve.specs.LittleEndian.{number};
ghost use Rattle.up_field.specs.Limbs.{IsScalar, IsTight, number_of};

use crate::bytes::from_bytes;
use crate::limbs::{Field, zero};
use crate::scalar::{joined, reduce};

/// The 255 bits that are signs of a number, modulo the order: where a bit is 0, its power of two is taken off.
pub(crate) fn centred(scalar: &[u8; 32]) -> Field
    ensures value { (2 * number_of result) % order ≡ (number scalar.now + (2 ^ 255 - 1)) % order }
    ensures limit { IsTight result }
{
    let n = from_bytes(scalar);
    let digits = joined(n, zero());
    halved(reduce(&digits))
}

/// Half of an odd number and 2^255 - 1: of the number, or of that and the order.
#[inline(always)]
fn halved(n: Field) -> Field
    requires { IsScalar n }
    ensures value { 2 * number_of result ≡ number_of n + (1 - n.l0 % 2) * order + (2 ^ 255 - 1) }
    ensures limit { IsTight result }
{
    let even = 1 - n.l0 % 2;
    let t0 = n.l0 + even * 671914833335277;
    let t1 = n.l1 + even * 1077929209154306 + (t0 >> 51);
    let t2 = n.l2 + even * 5471207 + (t1 >> 51);
    let t3 = n.l3 + (t2 >> 51);
    let t4 = n.l4 + even * 281474976710656 + (t3 >> 51);
    Field {
        l0: t0 % (1 << 51) / 2 + t1 % 2 * (1 << 50),
        l1: t1 % (1 << 51) / 2 + t2 % 2 * (1 << 50),
        l2: t2 % (1 << 51) / 2 + t3 % 2 * (1 << 50),
        l3: t3 % (1 << 51) / 2 + t4 % 2 * (1 << 50),
        l4: t4 / 2 + (1 << 50),
    }
}

/// The bits of five limbs at one place.
#[inline(always)]
pub(crate) fn digit(c: Field, j: u32) -> u64
    requires { j < 51 }
    ensures value { result
        ≡ c.l0 / 2 ^ j % 2 + 2 * (c.l1 / 2 ^ j % 2) + 4 * (c.l2 / 2 ^ j % 2) + 8 * (c.l3 / 2 ^ j % 2) + 16 * (c.l4 / 2 ^ j % 2) }
    ensures limit { result < 32 }
{
    (c.l0 >> j) % 2
        + (c.l1 >> j) % 2 * 2
        + (c.l2 >> j) % 2 * 4
        + (c.l3 >> j) % 2 * 8
        + (c.l4 >> j) % 2 * 16
}
