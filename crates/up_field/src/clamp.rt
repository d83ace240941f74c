//! Secret scalars.
ghost use Rattle.std.specs.Prelude.{◌≡◌, ◌+◌, ◌*◌, ◌/◌, ◌%◌, ◌<◌, length};
ghost use Rattle.up_field.specs.Limbs.{IsLoose, IsTight, number_of};
ghost use Rattle.up_curve.specs.LittleEndian.{number, bytes};
ghost use Rattle.up_curve.specs.Signatures.{clamped as clamped_of};

use crate::bytes::{from_bytes, to_bytes};
use crate::limbs::Field;

/// The secret scalar that the first 32 bytes of a secret's hash are pruned to (RFC 8032, section 5.1.5).
pub fn clamped(half: &[u8]) -> [u8; 32]
    requires { length half.now ≡ 32 }
    ensures { number result ≡ clamped_of (number half.now) }
{
    let n = from_bytes(half);
    let m = cleared(n);
    to_bytes(m)
}

/// The number with its three lowest bits cleared and its two highest set to 1 and 0.
#[inline(always)]
fn cleared(n: Field) -> Field
    requires { IsLoose n }
    ensures value { number_of result ≡ clamped_of (number_of n) }
    ensures limit { IsTight result }
{
    Field {
        l0: n.l0 / 8 * 8,
        l1: n.l1,
        l2: n.l2,
        l3: n.l3,
        l4: n.l4 % (1 << 50) + (1 << 50),
    }
}
