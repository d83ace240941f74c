//! Numbers of 256 bits in four words, which are also those modulo 2^255 - 19, in any form.
ghost use Rattle.std.specs.Prelude.{◌≡◌, ◌+◌, ◌*◌, ◌/◌, ◌%◌, ◌^◌, ◌<◌};
ghost use Rattle.up_field.specs.Limbs.{IsLoose, number_of};
ghost use Rattle.up_field.specs.Points.{number};

use crate::limbs::Field;

/// A number in four words, the least first.
#[derive(Clone, Copy)]
pub struct Words {
    pub a: u64,
    pub b: u64,
    pub c: u64,
    pub d: u64,
}

/// The number 0.
#[inline(always)]
pub(crate) fn zero() -> Words
    ensures { number result ≡ 0 }
{
    Words {
        a: 0,
        b: 0,
        c: 0,
        d: 0,
    }
}

/// The number 1.
#[inline(always)]
pub(crate) fn one() -> Words
    ensures { number result ≡ 1 }
{
    Words {
        a: 1,
        b: 0,
        c: 0,
        d: 0,
    }
}

/// The same number, in words.
#[inline(always)]
pub(crate) fn in_words(n: Field) -> Words
    requires { IsLoose n }
    ensures { number result ≡ number_of n }
{
    Words {
        a: n.l0 + n.l1 % (1 << 13) * (1 << 51),
        b: n.l1 / (1 << 13) + n.l2 % (1 << 26) * (1 << 38),
        c: n.l2 / (1 << 26) + n.l3 % (1 << 39) * (1 << 25),
        d: n.l3 / (1 << 39) + n.l4 * (1 << 12),
    }
}

/// The same number, in limbs of 51 bits, of which the last has one more.
#[inline(always)]
pub(crate) fn in_limbs(w: Words) -> Field
    ensures value { number_of result ≡ number w }
    ensures limit { IsLoose result }
{
    Field {
        l0: w.a % (1 << 51),
        l1: w.a / (1 << 51) + w.b % (1 << 38) * (1 << 13),
        l2: w.b / (1 << 38) + w.c % (1 << 25) * (1 << 26),
        l3: w.c / (1 << 25) + w.d % (1 << 12) * (1 << 39),
        l4: w.d / (1 << 12),
    }
}

/// The lowest 255 bits of a number, and the last bit.
#[inline(always)]
pub(crate) fn split(w: Words) -> (Words, u64)
    ensures value { number result.0 ≡ number w % 2 ^ 255 }
    ensures bit { result.1 ≡ number w / 2 ^ 255 }
    ensures one { result.1 < 2 }
{
    let low = Words {
        a: w.a,
        b: w.b,
        c: w.c,
        d: w.d % (1 << 63),
    };
    (low, w.d >> 63)
}
