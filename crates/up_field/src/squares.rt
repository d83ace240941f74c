//! Squares modulo 2^255 - 19, by ten products of words.
ghost use Rattle.std.specs.Prelude.{◌≡◌, ◌+◌, ◌*◌, ◌%◌, ◌<◌, ◌^◌};
ghost use Rattle.up_curve.specs.Field.{p};
ghost use Rattle.up_field.specs.Points.{number};

use crate::linear::low;
use crate::products::{Wide, product, reduced};
use crate::words::Words;

/// The square of a number.
#[inline(always)]
pub(crate) fn square(a: Words) -> Words
    ensures { number result % p ≡ (number a * number a) % p }
{
    let m = crossed(a);
    let t = doubled(m);
    let n = squared(a, t);
    reduced(n.lower, n.higher)
}

/// The products of its different words, each once.
#[inline(always)]
fn crossed(a: Words) -> Wide
    ensures value { number result.lower + 2 ^ 256 * number result.higher
        ≡ 2 ^ 64 * (a.a * a.b) + 2 ^ 128 * (a.a * a.c) + 2 ^ 192 * (a.a * a.d) + 2 ^ 192 * (a.b * a.c)
        + 2 ^ 256 * (a.b * a.d) + 2 ^ 320 * (a.c * a.d) }
    ensures first { result.lower.a ≡ 0 }
    ensures last { result.higher.d ≡ 0 }
{
    let (n1, carry) = product(a.a, a.b, 0, 0);
    let (n2, carry) = product(a.a, a.c, 0, carry);
    let (n3, n4) = product(a.a, a.d, 0, carry);
    let (n3, carry) = product(a.b, a.c, n3, 0);
    let (n4, n5) = product(a.b, a.d, n4, carry);
    let (n5, n6) = product(a.c, a.d, n5, 0);
    Wide {
        lower: Words {
            a: 0,
            b: n1,
            c: n2,
            d: n3,
        },
        higher: Words {
            a: n4,
            b: n5,
            c: n6,
            d: 0,
        },
    }
}

/// Twice a number below 2^448 and above its lowest word.
#[inline(always)]
fn doubled(m: Wide) -> Wide
    requires last { m.higher.d ≡ 0 }
    ensures value { number result.lower + 2 ^ 256 * number result.higher ≡ 2 * (number m.lower + 2 ^ 256 * number m.higher) }
    ensures last { result.higher.d < 2 }
{
    Wide {
        lower: Words {
            a: m.lower.a % (1 << 63) * 2,
            b: m.lower.b % (1 << 63) * 2 + (m.lower.a >> 63),
            c: m.lower.c % (1 << 63) * 2 + (m.lower.b >> 63),
            d: m.lower.d % (1 << 63) * 2 + (m.lower.c >> 63),
        },
        higher: Words {
            a: m.higher.a % (1 << 63) * 2 + (m.lower.d >> 63),
            b: m.higher.b % (1 << 63) * 2 + (m.higher.a >> 63),
            c: m.higher.c % (1 << 63) * 2 + (m.higher.b >> 63),
            d: m.higher.c >> 63,
        },
    }
}

/// A word and a carry: the lower word of the sum, and the carry.
#[inline(always)]
fn carried(a: u64, carry: u64) -> (u64, u64)
    ensures { result.0 + 2 ^ 64 * result.1 ≡ a + carry }
{
    let n = a as u128 + carry as u128;
    (low(n), (n >> 64) as u64)
}

/// A number and the squares of another's words.
#[inline(always)]
fn squared(a: Words, t: Wide) -> Wide
    requires first { t.lower.a ≡ 0 }
    requires below { number t.lower + 2 ^ 256 * number t.higher + (a.a * a.a + 2 ^ 128 * (a.b * a.b) + 2 ^ 256 * (a.c * a.c) + 2 ^ 384 * (a.d * a.d)) < 2 ^ 512 }
    ensures { number result.lower + 2 ^ 256 * number result.higher
        ≡ number t.lower + 2 ^ 256 * number t.higher + (a.a * a.a + 2 ^ 128 * (a.b * a.b) + 2 ^ 256 * (a.c * a.c) + 2 ^ 384 * (a.d * a.d)) }
{
    let (n0, carry) = product(a.a, a.a, 0, 0);
    let (n1, carry) = carried(t.lower.b, carry);
    let (n2, carry) = product(a.b, a.b, t.lower.c, carry);
    let (n3, carry) = carried(t.lower.d, carry);
    let (n4, carry) = product(a.c, a.c, t.higher.a, carry);
    let (n5, carry) = carried(t.higher.b, carry);
    let (n6, carry) = product(a.d, a.d, t.higher.c, carry);
    Wide {
        lower: Words {
            a: n0,
            b: n1,
            c: n2,
            d: n3,
        },
        higher: Words {
            a: n4,
            b: n5,
            c: n6,
            d: t.higher.d + carry,
        },
    }
}
