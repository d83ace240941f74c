//! Powers with fixed exponents.
ghost use Rattle.std.specs.Prelude.{◌≡◌, ◌+◌, ◌*◌, ◌-◌, ◌/◌, ◌%◌, ◌<◌, ◌^◌};
ghost use Rattle.up_curve.specs.Field.{p};
ghost use Rattle.up_field.specs.Points.{number};
ghost use Rattle.up_field.specs.Powers.{IsPower};

use crate::products::mul;
use crate::squares::square;
use crate::words::Words;

/// A number squared n times.
fn squares(a: Words, n: u32) -> Words
    ensures { IsPower (number result) (number a) (2 ^ n) }
{
    let mut r = a;
    for i in 0..n {
        r = square(r);
    }
    r
}

/// The powers with 11 and 2^250 - 1.
fn towards(a: Words) -> (Words, Words)
    ensures low { IsPower (number result.0) (number a) 11 }
    ensures high { IsPower (number result.1) (number a) (2 ^ 250 - 1) }
{
    let a2 = square(a);
    let a8 = squares(a2, 2);
    let a9 = mul(a, a8);
    let a11 = mul(a2, a9);
    let a22 = square(a11);
    let b5 = mul(a9, a22);
    let c5 = squares(b5, 5);
    let b10 = mul(c5, b5);
    let c10 = squares(b10, 10);
    let b20 = mul(c10, b10);
    let c20 = squares(b20, 20);
    let b40 = mul(c20, b20);
    let c40 = squares(b40, 10);
    let b50 = mul(c40, b10);
    let c50 = squares(b50, 50);
    let b100 = mul(c50, b50);
    let c100 = squares(b100, 100);
    let b200 = mul(c100, b100);
    let c200 = squares(b200, 50);
    let b250 = mul(c200, b50);
    (a11, b250)
}

/// The power with 2^255 - 21, which is the inverse.
pub(crate) fn inverse(a: Words) -> Words
    ensures { IsPower (number result) (number a) (p - 2) }
{
    let (a11, b) = towards(a);
    let c = squares(b, 5);
    mul(c, a11)
}

/// The power with 2^252 - 3.
pub(crate) fn root_power(a: Words) -> Words
    ensures { IsPower (number result) (number a) ((p - 5) / 8) }
{
    let (_, b) = towards(a);
    let c = squares(b, 2);
    mul(c, a)
}
