//! The law of sums in four coordinates.
ghost use Rattle.up_curve.specs.Sums.{SumsAreWritten};

/// RFC 8032's formulas in extended homogeneous coordinates write the sum of two points.
pub fn sums_are_written()
    ensures { SumsAreWritten }
{}
