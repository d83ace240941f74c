//! Multiples of the base point, by numbers that may be secret.
ghost use Rattle.std.specs.Prelude.{◌≡◌, ℕ, ◌+◌, ◌*◌, ◌<◌, ◌^◌, length};
ghost use Rattle.up_field.specs.Comb.{Balances, column as column_of, eights, IsShare, spread, teeth};
ghost use Rattle.up_field.specs.Limbs.{IsTight};
ghost use Rattle.up_field.specs.Points.{Writes};
ghost use Rattle.up_curve.specs.Curve.{base as base_point, multiple};
ghost use Rattle.up_curve.specs.LittleEndian.{number};

use crate::affine::{Affine, sum_affine, turned};
use crate::centre::{centred, digit};
use crate::comb_table::comb_table;
use crate::limbs::Field;
use crate::pick::pick;
use crate::points::{Extended, neutral};
use crate::scalar::choice;
use crate::sides::twice;

/// A number times the base point. The number is secret: no branch and no place of a table depends on it.
pub fn times_base(scalar: &[u8; 32]) -> Extended
    ensures { Writes result (multiple (number scalar.now) base_point) }
{
    let c = centred(scalar);
    let r = column(neutral(), c, 2);
    let s = column(twice(r), c, 1);
    column(twice(s), c, 0)
}

/// A point and an entry of each row of the comb, by every third place of the number.
fn column(r: Extended, c: Field, i: u32) -> Extended
    requires limit { IsTight c }
    requires place { i < 3 }
    ensures { (s n : ℕ) → Balances r s n → Balances result (s + teeth * eights 17) (n + 2 * column_of 17 i c) }
{
    let mut q = r;
    for k in 0..17u32 {
        let d = digit(c, 3 * k + i);
        let e = entry(k as usize, d);
        q = sum_affine(q, e);
    }
    q
}

/// The multiple that a digit stands for in a row: its bits are signs.
fn entry(row: usize, d: u64) -> Affine
    requires row { row < 17 }
    requires digit { d < 32 }
    ensures { IsShare result (8 ^ row * teeth) (2 * (8 ^ row * spread d)) }
{
    let sign = d / 16;
    let place = choice(sign, d % 16, 15 - d % 16);
    let e = pick(comb_table(), row, place);
    turned(sign, e)
}
