//! Points made ready for sums.
ghost use Rattle.std.specs.Prelude.{◌≡◌, ◌%◌, ◌*◌, ◌+◌};
ghost use Rattle.up_curve.specs.Field.{p};
ghost use Rattle.up_field.specs.Cached.{Stores};
ghost use Rattle.up_field.specs.Points.{number, Writes};
ghost use Rattle.up_curve.specs.Curve.{d};
ghost use Rattle.up_curve.specs.Curve.{Point, add as add_of};
ghost use Rattle.up_curve.specs.Laws.{negated};

use crate::linear::{add, sub};
use crate::points::Extended;
use crate::products::mul;
use crate::sides::{cached_sides, whole};
use crate::words::{Words, zero};

/// A point made ready for sums: its coordinates' sum and difference, twice z, and twice d times t.
#[derive(Clone, Copy)]
pub struct Cached {
    pub plus: Words,
    pub minus: Words,
    pub z: Words,
    pub t: Words,
}

/// Two times d.
#[inline(always)]
fn two_d() -> Words
    ensures { number result % p ≡ (2 * d) % p }
{
    Words {
        a: 16993941304535871833,
        b: 63073048630374742,
        c: 1841551078520508720,
        d: 2596001775599221991,
    }
}

/// The same point, made ready for sums.
pub(crate) fn ready(a: Extended) -> Cached
    ensures { (m : Point) → Writes a m → Stores result m }
{
    Cached {
        plus: add(a.y, a.x),
        minus: sub(a.y, a.x),
        z: add(a.z, a.z),
        t: mul(a.t, two_d()),
    }
}

/// The point with the other sign, made ready for sums.
#[inline(always)]
pub(crate) fn opposite(e: Cached) -> Cached
    ensures { (m : Point) → Stores e m → Stores result (negated m) }
{
    Cached {
        plus: e.minus,
        minus: e.plus,
        z: e.z,
        t: sub(zero(), e.t),
    }
}

/// The sum of two points, one of them made ready.
pub(crate) fn sum_cached(a: Extended, b: Cached) -> Extended
    ensures { (m n : Point) → Writes a m → Stores b n → Writes result (add_of m n) }
{
    whole(cached_sides(a, b))
}
