//! Numbers modulo the order of the base point, in limbs.
ghost use Rattle.std.specs.Prelude.{◌≡◌, ◌+◌, ◌*◌, ◌%◌, ◌<◌, ◌^◌};
ghost use Rattle.up_curve.specs.Curve.{order};
ghost use Rattle.up_field.specs.Choices.{IsChoice};
ghost use Rattle.up_field.specs.Limbs.{IsLoose, IsScalar, IsTight, number_of};
ghost use Rattle.up_field.specs.Digits.{AreDigits, written};

use crate::limbs::{Field, zero};

/// The number that digits of 51 bits write, modulo the order. A digit may be larger than that.
pub(crate) fn reduce(digits: &[u128; 10]) -> Field
    requires { AreDigits digits.now }
    ensures value { number_of result ≡ written digits.now % order }
    ensures limit { IsScalar result }
{
    let mut r = zero();
    for i in 0..10usize {
        r = reduced(folded(r, digits[9 - i]));
    }
    r
}

/// The digits of a number of 512 bits, by its halves.
#[inline(always)]
pub(crate) fn joined(low: Field, high: Field) -> [u128; 10]
    requires first { IsLoose low }
    requires second { IsLoose high }
    ensures value { written result ≡ number_of low + 2 ^ 256 * number_of high }
    ensures limit { AreDigits result }
{
    [
        low.l0 as u128,
        low.l1 as u128,
        low.l2 as u128,
        low.l3 as u128,
        low.l4 as u128,
        (high.l0 * 2) as u128,
        (high.l1 * 2) as u128,
        (high.l2 * 2) as u128,
        (high.l3 * 2) as u128,
        (high.l4 * 2) as u128,
    ]
}

/// The digits of a sum of a number and a product.
pub(crate) fn product(r: Field, k: Field, a: Field) -> [u128; 10]
    requires first { IsLoose r }
    requires second { IsLoose k }
    requires third { IsLoose a }
    ensures value { written result ≡ number_of r + number_of k * number_of a }
    ensures limit { AreDigits result }
{
    let d0 = r.l0 as u128 + times(k.l0, a.l0);
    let d1 = r.l1 as u128 + times(k.l0, a.l1) + times(k.l1, a.l0);
    let d2 = r.l2 as u128 + times(k.l0, a.l2) + times(k.l1, a.l1) + times(k.l2, a.l0);
    let d3 = r.l3 as u128
        + times(k.l0, a.l3)
        + times(k.l1, a.l2)
        + times(k.l2, a.l1)
        + times(k.l3, a.l0);
    let d4 = r.l4 as u128
        + times(k.l0, a.l4)
        + times(k.l1, a.l3)
        + times(k.l2, a.l2)
        + times(k.l3, a.l1)
        + times(k.l4, a.l0);
    let d5 = times(k.l1, a.l4) + times(k.l2, a.l3) + times(k.l3, a.l2) + times(k.l4, a.l1);
    let d6 = times(k.l2, a.l4) + times(k.l3, a.l3) + times(k.l4, a.l2);
    let d7 = times(k.l3, a.l4) + times(k.l4, a.l3);
    let d8 = times(k.l4, a.l4);
    [d0, d1, d2, d3, d4, d5, d6, d7, d8, 0]
}

/// The product of two limbs.
#[inline(always)]
fn times(a: u64, b: u64) -> u128
    requires first { a < 2 ^ 52 }
    requires second { b < 2 ^ 52 }
    ensures value { result ≡ a * b }
    ensures limit { result < 2 ^ 104 }
{
    a as u128 * b as u128
}

/// 2^51 times a number, and a digit, modulo the order, or that and the order.
#[inline(always)]
fn folded(acc: Field, digit: u128) -> Field
    requires acc { IsScalar acc }
    requires digit { digit < 2 ^ 110 }
    ensures value { number_of result % order ≡ (2 ^ 51 * number_of acc + digit) % order }
    ensures below { number_of result < 2 * order }
    ensures limit { IsTight result }
{
    let q = ((acc.l3 >> 48) + acc.l4 * 8) as u128;
    let n0 = digit + (671914833335277 + (1 << 104)) - q * 671914833335277;
    let n1 = acc.l0 as u128 + (1077929209154306 + (1 << 104) - (1 << 53)) - q * 1077929209154306
        + (n0 >> 51);
    let n2 = acc.l1 as u128 + (5471207 + (1 << 104) - (1 << 53)) - q * 5471207 + (n1 >> 51);
    let n3 = acc.l2 as u128 + (1 << 53) + (n2 >> 51);
    let n4 = (acc.l3 % (1 << 48)) as u128 + (281474976710656 - 8) + (n3 >> 51);
    Field {
        l0: (n0 % (1 << 51)) as u64,
        l1: (n1 % (1 << 51)) as u64,
        l2: (n2 % (1 << 51)) as u64,
        l3: (n3 % (1 << 51)) as u64,
        l4: n4 as u64,
    }
}

/// The number modulo the order, of one below twice the order.
fn reduced(n: Field) -> Field
    requires limit { IsTight n }
    requires below { number_of n < 2 * order }
    ensures value { number_of result % order ≡ number_of n % order }
    ensures limit { IsScalar result }
{
    let m0 = n.l0 + 1579884980349971;
    let m1 = n.l1 + 1173870604530941 + (m0 >> 51);
    let m2 = n.l2 + 2251799808214040 + (m1 >> 51);
    let m3 = n.l3 + 2251799813685247 + (m2 >> 51);
    let m4 = n.l4 + 1970324836974591 + (m3 >> 51);
    let bit = m4 >> 51;
    Field {
        l0: choice(bit, m0 % (1 << 51), n.l0),
        l1: choice(bit, m1 % (1 << 51), n.l1),
        l2: choice(bit, m2 % (1 << 51), n.l2),
        l3: choice(bit, m3 % (1 << 51), n.l3),
        l4: choice(bit, m4 % (1 << 51), n.l4),
    }
}

/// One of two limbs, without a branch.
pub(crate) fn choice(bit: u64, a: u64, b: u64) -> u64
    requires bit { bit < 2 }
    requires first { a < 2 ^ 51 }
    requires second { b < 2 ^ 51 }
    ensures { IsChoice bit a b result }
{
    a * bit + b * (1 - bit)
}
