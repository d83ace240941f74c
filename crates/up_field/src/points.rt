//! Points of the curve, in extended homogeneous coordinates (RFC 8032, section 5.1.4).
ghost use Rattle.std.specs.Prelude.{◌≡◌, ◌%◌, ◌*◌, ◌+◌};
ghost use Rattle.up_curve.specs.Field.{p};
ghost use Rattle.up_field.specs.Points.{AreProducts, Writes};
ghost use Rattle.up_curve.specs.Curve.{neutral as neutral_point};

use crate::products::mul;
use crate::words::{Words, one, zero};

/// A point.
#[derive(Clone, Copy)]
pub struct Extended {
    pub x: Words,
    pub y: Words,
    pub z: Words,
    pub t: Words,
}

/// The neutral point.
pub fn neutral() -> Extended
    ensures { Writes result neutral_point }
{
    let o = one();
    let n = zero();
    Extended {
        x: n,
        y: o,
        z: o,
        t: n,
    }
}

/// The point of the last four factors of a formula, E, F, G and H (RFC 8032, section 5.1.4).
#[inline(always)]
pub(crate) fn completed(e: Words, f: Words, g: Words, h: Words) -> Extended
    ensures { AreProducts result e f g h }
{
    Extended {
        x: mul(e, f),
        y: mul(g, h),
        z: mul(f, g),
        t: mul(e, h),
    }
}
