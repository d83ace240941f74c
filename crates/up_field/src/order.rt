//! Numbers below the order of the base point, as 32 bytes.
ghost use Rattle.std.specs.Prelude.{◌≡◌, ◌+◌, ◌*◌, ◌%◌, ◌<◌, ltb, length};
ghost use Rattle.up_curve.specs.Curve.{order};
ghost use Rattle.up_field.specs.Limbs.{IsLoose, IsScalar, IsTight, number_of};
ghost use Rattle.up_curve.specs.LittleEndian.{number, bytes};

use crate::bytes::{from_bytes, to_bytes};
use crate::limbs::Field;
use crate::scalar::{joined, product, reduce};

/// Whether the number that 32 bytes write is below the order.
pub fn is_below_order(bytes: &[u8]) -> bool
    requires { length bytes.now ≡ 32 }
    ensures { result ≡ ltb (number bytes.now) order }
{
    is_below(from_bytes(bytes))
}

/// Whether a number is below the order.
#[inline(always)]
fn is_below(n: Field) -> bool
    requires { IsLoose n }
    ensures { result ≡ ltb (number_of n) order }
{
    let m0 = n.l0 + 1579884980349971;
    let m1 = n.l1 + 1173870604530941 + (m0 >> 51);
    let m2 = n.l2 + 2251799808214040 + (m1 >> 51);
    let m3 = n.l3 + 2251799813685247 + (m2 >> 51);
    let m4 = n.l4 + 1970324836974591 + (m3 >> 51);
    m4 >> 51 == 0
}

/// The order without the number that 32 bytes write.
pub fn negated(bytes: &[u8]) -> [u8; 32]
    requires length { length bytes.now ≡ 32 }
    requires below { number bytes.now < order }
    ensures { number result + number bytes.now ≡ order }
{
    let n = from_bytes(bytes);
    let m = rest(n);
    to_bytes(m)
}

/// The order without a number below it.
#[inline(always)]
fn rest(n: Field) -> Field
    requires { IsScalar n }
    ensures value { number_of result + number_of n ≡ order }
    ensures limit { IsTight result }
{
    let m0 = 671914833335277 + (1 << 51) - n.l0;
    let m1 = 1077929209154306 + ((1 << 51) - 1) - n.l1 + (m0 >> 51);
    let m2 = 5471207 + ((1 << 51) - 1) - n.l2 + (m1 >> 51);
    let m3 = 0 + ((1 << 51) - 1) - n.l3 + (m2 >> 51);
    let m4 = 281474976710656 + (m3 >> 51) - (n.l4 + 1);
    Field {
        l0: m0 % (1 << 51),
        l1: m1 % (1 << 51),
        l2: m2 % (1 << 51),
        l3: m3 % (1 << 51),
        l4: m4,
    }
}

/// The number that 64 bytes write, modulo the order.
pub fn reduced(bytes: &[u8; 64]) -> [u8; 32]
    ensures { number result ≡ number bytes.now % order }
{
    let first = &bytes[..32];
    let second = &bytes[32..];
    let low = from_bytes(first);
    let high = from_bytes(second);
    let digits = joined(low, high);
    to_bytes(reduce(&digits))
}

/// r + k a modulo the order: the second half of a signature (RFC 8032, section 5.1.6).
pub fn multiply_add(r: &[u8; 32], k: &[u8; 32], a: &[u8; 32]) -> [u8; 32]
    ensures { result ≡ bytes 32 ((number r.now + number k.now * number a.now) % order) }
{
    let n = from_bytes(r);
    let c = from_bytes(k);
    let s = from_bytes(a);
    let digits = product(n, c, s);
    to_bytes(reduce(&digits))
}
