//! Numbers of 256 bits as 32 bytes, the least significant first (RFC 8032, section 5.1.2).
ghost use Rattle.std.specs.Prelude.{◌≡◌, ◌+◌, ◌*◌, ◌/◌, ◌%◌, ◌<◌, ◌^◌, length};
ghost use Rattle.up_field.specs.Limbs.{IsLoose, IsTight, number_of};
ghost use Rattle.up_curve.specs.LittleEndian.{number, bytes};

use crate::limbs::Field;

/// 256 times a number, and a byte.
#[inline(always)]
fn pushed(a: Field, byte: u8) -> Field
    requires limit { IsTight a }
    requires small { number_of a < 2 ^ 248 }
    ensures value { number_of result ≡ 256 * number_of a + byte }
    ensures limit { IsLoose result }
{
    let m0 = a.l0 * 256 + byte as u64;
    let m1 = a.l1 * 256 + (m0 >> 51);
    let m2 = a.l2 * 256 + (m1 >> 51);
    let m3 = a.l3 * 256 + (m2 >> 51);
    Field {
        l0: m0 % (1 << 51),
        l1: m1 % (1 << 51),
        l2: m2 % (1 << 51),
        l3: m3 % (1 << 51),
        l4: a.l4 * 256 + (m3 >> 51),
    }
}

/// The number without its lowest byte.
#[inline(always)]
fn shifted(a: Field) -> Field
    requires { IsLoose a }
    ensures value { number_of result ≡ number_of a / 256 }
    ensures limit { IsLoose result }
{
    Field {
        l0: a.l0 / 256 + a.l1 % 256 * (1 << 43),
        l1: a.l1 / 256 + a.l2 % 256 * (1 << 43),
        l2: a.l2 / 256 + a.l3 % 256 * (1 << 43),
        l3: a.l3 / 256 + a.l4 % 256 * (1 << 43),
        l4: a.l4 / 256,
    }
}

/// The number that 32 bytes write.
pub(crate) fn from_bytes(bytes: &[u8]) -> Field
    requires { length bytes.now ≡ 32 }
    ensures value { number_of result ≡ number bytes.now }
    ensures limit { IsLoose result }
{
    let mut r = Field {
        l0: 0,
        l1: 0,
        l2: 0,
        l3: 0,
        l4: 0,
    };
    for i in 0..32usize {
        r = pushed(r, bytes[31 - i]);
    }
    r
}

/// The 32 bytes of a number.
pub(crate) fn to_bytes(a: Field) -> [u8; 32]
    requires { IsLoose a }
    ensures { result ≡ bytes 32 (number_of a) }
{
    let mut out = [0u8; 32];
    let mut r = a;
    for i in 0..32usize {
        out[i] = (r.l0 % 256) as u8;
        r = shifted(r);
    }
    out
}
