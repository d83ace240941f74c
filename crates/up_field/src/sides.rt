//! Sums and doubles by the last four factors of their formulas, E, F, G and H (RFC 8032, section 5.1.4).
ghost use Rattle.std.specs.Prelude.{◌≡◌, ℕ, ◌%◌, ◌*◌};
ghost use Rattle.up_curve.specs.Field.{p};
ghost use Rattle.up_curve.specs.Coordinates.{Represents};
ghost use Rattle.up_curve.specs.Curve.{Point, add as add_of};
ghost use Rattle.up_field.specs.Affine.{Holds, Keeps};
ghost use Rattle.up_field.specs.Cached.{Stores};
ghost use Rattle.up_field.specs.Points.{number, Writes};
ghost use Rattle.up_field.specs.Sides.{Lies, Yields};

use crate::affine::Affine;
use crate::cached::Cached;
use crate::linear::{add, sub, twice_and};
use crate::points::{Extended, completed};
use crate::products::mul;
use crate::squares::square;
use crate::words::Words;

/// E, F, G and H.
#[derive(Clone, Copy)]
pub(crate) struct Sides {
    pub e: Words,
    pub f: Words,
    pub g: Words,
    pub h: Words,
}

/// A point without T, which only a sum needs.
#[derive(Clone, Copy)]
pub(crate) struct Projective {
    pub x: Words,
    pub y: Words,
    pub z: Words,
}

/// The same point, without T.
#[inline(always)]
pub(crate) fn without_t(a: Extended) -> Projective
    ensures { (m : Point) → Writes a m → Lies result m }
{
    Projective {
        x: a.x,
        y: a.y,
        z: a.z,
    }
}

/// The point, with T.
#[inline(always)]
pub(crate) fn whole(s: Sides) -> Extended
    ensures { (m : Point) → Yields s m → Writes result m }
{
    completed(s.e, s.f, s.g, s.h)
}

/// The point, without T.
#[inline(always)]
pub(crate) fn flat(s: Sides) -> Projective
    ensures { (m : Point) → Yields s m → Lies result m }
{
    Projective {
        x: mul(s.e, s.f),
        y: mul(s.g, s.h),
        z: mul(s.f, s.g),
    }
}

/// The point with T made again.
pub(crate) fn extended(a: Projective) -> Extended
    ensures { (m : Point) → Lies a m → Writes result m }
{
    Extended {
        x: mul(a.x, a.z),
        y: mul(a.y, a.z),
        z: square(a.z),
        t: mul(a.x, a.y),
    }
}

/// Twice a point.
#[inline(always)]
pub(crate) fn doubled(a: Projective) -> Sides
    ensures { (m : Point) → Lies a m → Yields result (add_of m m) }
{
    let s = square(a.x);
    let u = square(a.y);
    let z = square(a.z);
    let h = add(s, u);
    let n = add(a.x, a.y);
    let q = square(n);
    let e = sub(h, q);
    let g = sub(s, u);
    let f = twice_and(z, g);
    Sides { e, f, g, h }
}

/// Twice a point, with T.
pub(crate) fn twice(a: Extended) -> Extended
    ensures { (m : Point) → Writes a m → Writes result (add_of m m) }
{
    whole(doubled(without_t(a)))
}

/// The sum of two points, one of them by its coordinates.
#[inline(always)]
pub(crate) fn affine_sides(a: Extended, b: Affine) -> Sides
    ensures { (m n : Point) → Writes a m → Keeps b n → Yields result (add_of m n) }
{
    let z = add(a.z, a.z);
    summed_sides(a, b, z)
}

/// The sum of two points, one of them made ready.
#[inline(always)]
pub(crate) fn cached_sides(a: Extended, b: Cached) -> Sides
    ensures { (m n : Point) → Writes a m → Stores b n → Yields result (add_of m n) }
{
    let z = mul(a.z, b.z);
    let q = Affine {
        plus: b.plus,
        minus: b.minus,
        t: b.t,
    };
    summed_sides(a, q, z)
}

/// The sum of two points (RFC 8032, section 5.1.4). `z` is D, twice the product of the two points' z.
#[inline(always)]
fn summed_sides(a: Extended, b: Affine, z: Words) -> Sides
    ensures { (m n : Point) (x2 y2 z2 t2 : ℕ) → Writes a m → Represents x2 y2 z2 t2 n → Holds b x2 y2 t2
        → number z % p ≡ (number a.z * (2 * z2)) % p → Yields result (add_of m n) }
{
    let i = sub(a.y, a.x);
    let j = add(a.y, a.x);
    let s = mul(i, b.minus);
    let u = mul(j, b.plus);
    let c = mul(a.t, b.t);
    let e = sub(u, s);
    let f = sub(z, c);
    let g = add(z, c);
    let h = add(u, s);
    Sides { e, f, g, h }
}
