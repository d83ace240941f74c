//! A sum of multiples, and digits' multiples more.
ghost use Rattle.std.specs.Prelude.{◌≡◌, ℕ, ◌+◌, ◌*◌, ◌%◌, ◌<◌, false, true, length};
ghost use Rattle.up_curve.specs.Curve.{Point, add as add_of, base as base_point, multiple};
ghost use Rattle.up_curve.specs.Laws.{negated};
ghost use Rattle.up_curve.specs.Points.{IsPoint};
ghost use Rattle.up_field.specs.Sides.{Yields};
ghost use Rattle.up_field.specs.Sparse.{IsDigit};
ghost use Rattle.up_field.specs.Tables.{AreOddMultiples, IsTable};

use crate::affine::{Affine, turned};
use crate::cached::{Cached, opposite};
use crate::sides::{Sides, affine_sides, cached_sides, whole};

/// A point's multiple by one digit more, and by another less.
#[inline(always)]
pub(crate) fn by_point(s: &mut Sides, t: &[Cached; 8], plus: u8, minus: u8)
    requires plus { IsDigit false plus }
    requires minus { IsDigit false minus }
    ensures { (m q : Point) → IsPoint m → IsTable t.now m → Yields s.old q
        → Yields s.new (add_of (add_of q (multiple plus m)) (negated (multiple minus m))) }
{
    point_more(s, t, plus);
    point_less(s, t, minus);
}

/// A point's multiple more.
#[inline(always)]
fn point_more(s: &mut Sides, t: &[Cached; 8], d: u8)
    requires { IsDigit false d }
    ensures { (m q : Point) → IsPoint m → IsTable t.now m → Yields s.old q → Yields s.new (add_of q (multiple d m)) }
{
    if d == 0 {
        return;
    }
    let e = t[d as usize / 2];
    *s = cached_sides(whole(*s), e);
}

/// A point's multiple less.
#[inline(always)]
fn point_less(s: &mut Sides, t: &[Cached; 8], d: u8)
    requires { IsDigit false d }
    ensures { (m q : Point) → IsPoint m → IsTable t.now m → Yields s.old q
        → Yields s.new (add_of q (negated (multiple d m))) }
{
    if d == 0 {
        return;
    }
    let e = opposite(t[d as usize / 2]);
    *s = cached_sides(whole(*s), e);
}

/// The multiple of a table of the base point's by one digit more, and by another less.
#[inline(always)]
pub(crate) fn by_base(s: &mut Sides, t: &[Affine; 64], plus: u8, minus: u8)
    requires plus { IsDigit true plus }
    requires minus { IsDigit true minus }
    ensures { (n : ℕ) (q : Point) → AreOddMultiples n t.now → Yields s.old q
        → Yields s.new (add_of (add_of q (multiple (n * plus) base_point)) (negated (multiple (n * minus) base_point))) }
{
    base_more(s, t, plus);
    base_less(s, t, minus);
}

/// The base point's multiple more.
#[inline(always)]
fn base_more(s: &mut Sides, t: &[Affine; 64], d: u8)
    requires { IsDigit true d }
    ensures { (n : ℕ) (q : Point) → AreOddMultiples n t.now → Yields s.old q
        → Yields s.new (add_of q (multiple (n * d) base_point)) }
{
    if d == 0 {
        return;
    }
    let e = t[d as usize / 2];
    *s = affine_sides(whole(*s), e);
}

/// The base point's multiple less.
#[inline(always)]
fn base_less(s: &mut Sides, t: &[Affine; 64], d: u8)
    requires { IsDigit true d }
    ensures { (n : ℕ) (q : Point) → AreOddMultiples n t.now → Yields s.old q
        → Yields s.new (add_of q (negated (multiple (n * d) base_point))) }
{
    if d == 0 {
        return;
    }
    let e = turned(0, t[d as usize / 2]);
    *s = affine_sides(whole(*s), e);
}
