//! Whether the sum of two points is the neutral one.
ghost use Rattle.std.specs.Prelude.{◌≡◌};
ghost use Rattle.up_field.specs.Points.{Writes};
ghost use Rattle.up_curve.specs.Curve.{Point, add as add_of, neutral};
ghost use Rattle.up_curve.specs.Signatures.{is_same_point};
ghost use Rattle.up_field.specs.Sides.{Lies};

use crate::cached::ready;
use crate::canonical::{are_same, is_zero};
use crate::points::Extended;
use crate::sides::{Projective, cached_sides, flat};

/// Whether the sum of two points is the neutral one.
pub fn are_opposite(a: Extended, b: Extended) -> bool
    ensures { (m n : Point) → Writes a m → Writes b n → result ≡ is_same_point (add_of m n) neutral }
{
    let s = cached_sides(a, ready(b));
    is_neutral(flat(s))
}

/// Whether a point is neutral.
fn is_neutral(a: Projective) -> bool
    ensures { (m : Point) → Lies a m → result ≡ is_same_point m neutral }
{
    let first = is_zero(a.x);
    let second = are_same(a.y, a.z);
    first && second
}
