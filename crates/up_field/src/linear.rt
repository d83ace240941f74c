//! Sums and differences modulo 2^255 - 19, and choices without a branch.
ghost use Rattle.std.specs.Prelude.{◌≡◌, ◌+◌, ◌*◌, ◌%◌, ◌<◌, ◌≤◌, ◌^◌};
ghost use Rattle.up_curve.specs.Field.{p};
ghost use Rattle.up_field.specs.Choices.{IsChoice};
ghost use Rattle.up_field.specs.Points.{number};

use crate::words::Words;

/// The lowest word of a number.
#[inline(always)]
pub(crate) fn low(n: u128) -> u64
    ensures { result ≡ n % 2 ^ 64 }
{
    (n % (1 << 64)) as u64
}

/// The sum of a number and k times 2^256.
#[inline(always)]
pub(crate) fn folded(w: Words, k: u64) -> Words
    requires { k < 2 ^ 32 }
    ensures value { number result % p ≡ (number w + 2 ^ 256 * k) % p }
    ensures near { number result < 2 ^ 255 + 38 * k + 19 }
{
    let top = k * 2 + (w.d >> 63);
    let n0 = w.a as u128 + (top * 19) as u128;
    let n1 = w.b as u128 + (n0 >> 64);
    let n2 = w.c as u128 + (n1 >> 64);
    Words {
        a: low(n0),
        b: low(n1),
        c: low(n2),
        d: w.d % (1 << 63) + (n2 >> 64) as u64,
    }
}

/// The sum of two numbers.
#[inline(always)]
pub(crate) fn add(a: Words, b: Words) -> Words
    ensures { number result % p ≡ (number a + number b) % p }
{
    let n0 = a.a as u128 + b.a as u128;
    let n1 = a.b as u128 + b.b as u128 + (n0 >> 64);
    let n2 = a.c as u128 + b.c as u128 + (n1 >> 64);
    let n3 = a.d as u128 + b.d as u128 + (n2 >> 64);
    let w = Words {
        a: low(n0),
        b: low(n1),
        c: low(n2),
        d: low(n3),
    };
    folded(w, (n3 >> 64) as u64)
}

/// The sum of twice a number and another.
#[inline(always)]
pub(crate) fn twice_and(a: Words, b: Words) -> Words
    ensures { number result % p ≡ (number a + number a + number b) % p }
{
    let n0 = a.a as u128 * 2 + b.a as u128;
    let n1 = a.b as u128 * 2 + b.b as u128 + (n0 >> 64);
    let n2 = a.c as u128 * 2 + b.c as u128 + (n1 >> 64);
    let n3 = a.d as u128 * 2 + b.d as u128 + (n2 >> 64);
    let w = Words {
        a: low(n0),
        b: low(n1),
        c: low(n2),
        d: low(n3),
    };
    folded(w, (n3 >> 64) as u64)
}

/// The difference of two numbers.
#[inline(always)]
pub(crate) fn sub(a: Words, b: Words) -> Words
    ensures { (number result + number b) % p ≡ number a % p }
{
    let n0 = a.a as u128 + (0xffff_ffff_ffff_ffff - b.a) as u128 + 1;
    let n1 = a.b as u128 + (0xffff_ffff_ffff_ffff - b.b) as u128 + (n0 >> 64);
    let n2 = a.c as u128 + (0xffff_ffff_ffff_ffff - b.c) as u128 + (n1 >> 64);
    let n3 = a.d as u128 + (0xffff_ffff_ffff_ffff - b.d) as u128 + (n2 >> 64);
    let w = Words {
        a: low(n0),
        b: low(n1),
        c: low(n2),
        d: low(n3),
    };
    lessened(w, (n3 >> 64) as u64)
}

/// The sum of a number and k times 2^256, without 2^256.
#[inline(always)]
fn lessened(w: Words, k: u64) -> Words
    requires { k < 2 }
    ensures { (number result + 2 ^ 256) % p ≡ (number w + 2 ^ 256 * k) % p }
{
    let top = k * 2 + (w.d >> 63);
    let n0 = w.a as u128 + (top * 19) as u128 + 0xffff_ffff_ffff_ffc7;
    let n1 = w.b as u128 + 0xffff_ffff_ffff_ffff + (n0 >> 64);
    let n2 = w.c as u128 + 0xffff_ffff_ffff_ffff + (n1 >> 64);
    Words {
        a: low(n0),
        b: low(n1),
        c: low(n2),
        d: w.d % (1 << 63) + 0x7fff_ffff_ffff_ffff + (n2 >> 64) as u64,
    }
}

/// A word or 0, without a branch.
#[inline(always)]
fn kept(bit: u64, a: u64) -> u64
    requires { bit < 2 }
    ensures zero { bit ≡ 0 → result ≡ 0 }
    ensures one { bit ≡ 1 → result ≡ a }
    ensures limit { result ≤ a }
{
    a & (bit * 0xffff_ffff_ffff_ffff)
}

/// A word or another that is 0 where it isn't taken, without a branch.
#[inline(always)]
fn joined(bit: u64, a: u64, r: u64) -> u64
    requires bit { bit < 2 }
    requires clear { bit ≡ 1 → r ≡ 0 }
    ensures { IsChoice bit a r result }
{
    r + kept(bit, a)
}

/// A number or another that is 0 so far, without a branch.
#[inline(always)]
pub(crate) fn merged(bit: u64, a: Words, r: Words) -> Words
    requires bit { bit < 2 }
    requires clear { bit ≡ 1 → number r ≡ 0 }
    ensures { IsChoice bit a r result }
{
    Words {
        a: joined(bit, a.a, r.a),
        b: joined(bit, a.b, r.b),
        c: joined(bit, a.c, r.c),
        d: joined(bit, a.d, r.d),
    }
}

/// One of two numbers, without a branch.
#[inline(always)]
pub(crate) fn chosen(bit: u64, a: Words, b: Words) -> Words
    requires { bit < 2 }
    ensures { IsChoice bit a b result }
{
    Words {
        a: joined(bit, a.a, kept(1 - bit, b.a)),
        b: joined(bit, a.b, kept(1 - bit, b.b)),
        c: joined(bit, a.c, kept(1 - bit, b.c)),
        d: joined(bit, a.d, kept(1 - bit, b.d)),
    }
}
