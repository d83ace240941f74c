//! Products modulo 2^255 - 19.
ghost use Rattle.std.specs.Prelude.{◌≡◌, ◌+◌, ◌*◌, ◌%◌, ◌<◌, ◌^◌};
ghost use Rattle.up_curve.specs.Field.{p};
ghost use Rattle.up_field.specs.Points.{number};

use crate::linear::{folded, low};
use crate::words::{Words, zero};

/// The product of two numbers.
#[inline(always)]
pub(crate) fn mul(a: Words, b: Words) -> Words
    ensures { number result % p ≡ (number a * number b) % p }
{
    let (n0, r) = row(a, b.a, zero());
    let (n1, r) = row(a, b.b, r);
    let (n2, r) = row(a, b.c, r);
    let (n3, higher) = row(a, b.d, r);
    let lower = Words {
        a: n0,
        b: n1,
        c: n2,
        d: n3,
    };
    reduced(lower, higher)
}

/// A number in eight words, by its halves.
#[derive(Clone, Copy)]
pub(crate) struct Wide {
    pub lower: Words,
    pub higher: Words,
}

/// A product of two words, and two words more: the lower word of it, and the higher.
#[inline(always)]
pub(crate) fn product(a: u64, b: u64, r: u64, carry: u64) -> (u64, u64)
    ensures { result.0 + 2 ^ 64 * result.1 ≡ a * b + r + carry }
{
    let n = a as u128 * b as u128 + r as u128 + carry as u128;
    (low(n), (n >> 64) as u64)
}

/// A number times a word, and a number more: the lowest word of it, and the rest.
#[inline(always)]
fn row(a: Words, b: u64, r: Words) -> (u64, Words)
    ensures { result.0 + 2 ^ 64 * number result.1 ≡ number a * b + number r }
{
    let (lowest, carry) = product(a.a, b, r.a, 0);
    let (n0, carry) = product(a.b, b, r.b, carry);
    let (n1, carry) = product(a.c, b, r.c, carry);
    let (n2, n3) = product(a.d, b, r.d, carry);
    let rest = Words {
        a: n0,
        b: n1,
        c: n2,
        d: n3,
    };
    (lowest, rest)
}

/// The number of eight words: 2^256 is 38.
#[inline(always)]
pub(crate) fn reduced(lower: Words, higher: Words) -> Words
    ensures { number result % p ≡ (number lower + 2 ^ 256 * number higher) % p }
{
    let (n0, carry) = product(higher.a, 38, lower.a, 0);
    let (n1, carry) = product(higher.b, 38, lower.b, carry);
    let (n2, carry) = product(higher.c, 38, lower.c, carry);
    let (n3, carry) = product(higher.d, 38, lower.d, carry);
    let w = Words {
        a: n0,
        b: n1,
        c: n2,
        d: n3,
    };
    folded(w, carry)
}
