//! Numbers modulo 2^255 - 19 in their least form, and tests.
ghost use Rattle.std.specs.Prelude.{◌≡◌, ◌+◌, ◌-◌, ◌*◌, ◌/◌, ◌%◌, ◌<◌, ◌^◌, eqb, ltb};
ghost use Rattle.up_curve.specs.Field.{p};
ghost use Rattle.up_field.specs.Points.{number};

use crate::linear::{folded, low, sub};
use crate::words::Words;

/// Whether 2^255 - 19 goes once into a number.
#[inline(always)]
fn quotient(a: Words) -> u64
    requires { number a < 2 ^ 255 + 19 }
    ensures value { result ≡ (number a + 19) / 2 ^ 255 }
    ensures limit { result < 2 }
{
    let n0 = a.a as u128 + 19;
    let n1 = a.b as u128 + (n0 >> 64);
    let n2 = a.c as u128 + (n1 >> 64);
    let n3 = a.d as u128 + (n2 >> 64);
    (n3 >> 63) as u64
}

/// A number and 19 or 0, modulo 2^255.
#[inline(always)]
fn less(a: Words, q: u64) -> Words
    requires limit { number a < 2 ^ 255 + 19 }
    requires bit { q < 2 }
    ensures { number result ≡ (number a + 19 * q) % 2 ^ 255 }
{
    let n0 = a.a as u128 + (q * 19) as u128;
    let n1 = a.b as u128 + (n0 >> 64);
    let n2 = a.c as u128 + (n1 >> 64);
    let n3 = a.d as u128 + (n2 >> 64);
    Words {
        a: low(n0),
        b: low(n1),
        c: low(n2),
        d: (n3 % (1 << 63)) as u64,
    }
}

/// The number, reduced.
pub(crate) fn canonical(a: Words) -> Words
    ensures { number result ≡ number a % p }
{
    let b = folded(a, 0);
    less(b, quotient(b))
}

/// Whether a number is 0.
pub(crate) fn is_zero(a: Words) -> bool
    ensures { result ≡ eqb (number a % p) 0 }
{
    let c = canonical(a);
    c.a as u128 + c.b as u128 + c.c as u128 + c.d as u128 == 0
}

/// Whether two numbers are the same.
pub(crate) fn are_same(a: Words, b: Words) -> bool
    ensures { result ≡ eqb (number a % p) (number b % p) }
{
    is_zero(sub(a, b))
}

/// Whether a number of 255 bits is below 2^255 - 19.
pub(crate) fn is_reduced(a: Words) -> bool
    requires { number a < 2 ^ 255 }
    ensures { result ≡ ltb (number a) p }
{
    quotient(a) == 0
}
