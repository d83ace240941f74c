//! Whether bytes are a public key.
ghost use Rattle.std.specs.Prelude.{◌≡◌, ℕ, Some};
ghost use Rattle.up_field.specs.Points.{Writes};
ghost use Rattle.up_curve.specs.Curve.{Point, multiple, neutral as neutral_point, order};
ghost use Rattle.up_curve.specs.Keys.{is_in_subgroup as is_in_subgroup_of, is_public as is_public_of};
ghost use Rattle.up_curve.specs.Signatures.{is_same_point};

use up_field::decode::decode;
use up_field::joint::joint;
use up_field::order::negated;
use up_field::points::{Extended, neutral};
use up_field::same::are_opposite;

/// Whether bytes are a public key: 32 that write a point (RFC 8032, section 5.1.3) which isn't neutral and is in the subgroup of the
/// base point's order. Under any other key signatures are valid that nobody made with a secret. It takes as long as a verification.
pub fn is_public(bytes: &[u8]) -> bool
    ensures { result ≡ is_public_of bytes.now }
{
    if bytes.len() != 32 {
        return false;
    }
    match decode(bytes) {
        Some(point) => is_in_subgroup(point),
        None => false,
    }
}

/// Whether a point isn't neutral and its multiple by the base point's order is.
fn is_in_subgroup(a: Extended) -> bool
    ensures { (m : Point) → Writes a m → result ≡ is_in_subgroup_of (Some m) }
{
    !is_neutral(a) && is_neutral(by_order(a))
}

/// The multiple of a point by the base point's order.
fn by_order(a: Extended) -> Extended
    ensures { (m : Point) → Writes a m → Writes result (multiple order m) }
{
    let zero = [0; 32];
    joint(&negated(&zero), a, &zero)
}

/// Whether a point is neutral.
fn is_neutral(a: Extended) -> bool
    ensures { (m : Point) → Writes a m → result ≡ is_same_point m neutral_point }
{
    are_opposite(a, neutral())
}
