//! Points by their coordinates, made ready for sums.
ghost use Rattle.std.specs.Prelude.{◌≡◌, ◌<◌};
ghost use Rattle.up_field.specs.Points.{Writes};
ghost use Rattle.up_field.specs.Affine.{Keeps};
ghost use Rattle.up_curve.specs.Curve.{Point, add as add_of};
ghost use Rattle.up_curve.specs.Laws.{negated};

use crate::linear::{chosen, sub};
use crate::points::Extended;
use crate::sides::{affine_sides, whole};
use crate::words::{Words, zero};

/// A point by the sum and the difference of its coordinates, y + x and y - x, and 2 d times their product.
#[derive(Clone, Copy)]
pub(crate) struct Affine {
    pub plus: Words,
    pub minus: Words,
    pub t: Words,
}

/// The sum of two points, one of them by its coordinates.
pub(crate) fn sum_affine(a: Extended, b: Affine) -> Extended
    ensures { (m n : Point) → Writes a m → Keeps b n → Writes result (add_of m n) }
{
    whole(affine_sides(a, b))
}

/// A point where the sign is 1, and the one with the other sign where it is 0, without a branch.
#[inline(always)]
pub(crate) fn turned(sign: u64, e: Affine) -> Affine
    requires { sign < 2 }
    ensures same { (m : Point) → Keeps e m → sign ≡ 1 → Keeps result m }
    ensures other { (m : Point) → Keeps e m → sign ≡ 0 → Keeps result (negated m) }
{
    let n = sub(zero(), e.t);
    Affine {
        plus: chosen(sign, e.plus, e.minus),
        minus: chosen(sign, e.minus, e.plus),
        t: chosen(sign, e.t, n),
    }
}
