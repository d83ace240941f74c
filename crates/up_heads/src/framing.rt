//! The length of a request's body, and the checks of a head alone.
ghost use Rattle.std.specs.Prelude.{◌≡◌, ◌≤◌, All, length, map, IfSome, IfNone, min, ◌+◌, ◌*◌, [], ◌∷◌, true, false};
ghost use Rattle.std.specs.Char.{is_ascii_digit, digit_value};
ghost use Rattle.std.specs.Str.Parse.{digits_value};
ghost use Rattle.httparse.specs.Spans.{IsHeaderWithin, header_bytes};
ghost use Rattle.up_manifest.specs.Manifests.{largest_body};
ghost use Rattle.up_heads.specs.Framing.{is_number as number, framing_of, length_stated as stated};

use crate::check::Check;
use crate::fields::{count_of, value_of};
use httparse::spans::HeaderSpan;
use up_manifest::body::LARGEST_BODY;

/// One more than a body may have, in bytes.
const PAST_BODY: usize = LARGEST_BODY + 1;

/// The length of the body that a head's fields state, or the first of the checks of a head alone that fails.
#[tactic(auto, unfolding(crate::specs::Framing::framing_of))]
pub(crate) fn framing(
    bytes: &[u8],
    fields: &[HeaderSpan],
    minor: u8,
) -> Result<Option<usize>, Check>
    requires { All (IsHeaderWithin (length bytes.now)) fields.now }
    ensures { result ≡ framing_of minor (map (header_bytes bytes.now) fields.now) }
{
    let hosts = count_of(bytes, fields, b"host");
    if hosts > 1 || hosts == 0 && minor > 0 {
        return Err(Check::BadRequest);
    }
    if count_of(bytes, fields, b"transfer-encoding") > 0 {
        return Err(Check::NotImplemented);
    }
    if count_of(bytes, fields, b"content-length") > 1 {
        return Err(Check::BadRequest);
    }
    match value_of(bytes, fields, b"content-length") {
        Some(value) => length_of(value),
        None => Ok(None),
    }
}

/// The length of a body that a field states, or why there is none.
fn length_of(value: &[u8]) -> Result<Option<usize>, Check>
    ensures { result ≡ stated (value.now ∷ []) }
{
    match number_of(value) {
        Some(n) if n < PAST_BODY => Ok(Some(n)),
        Some(_) => Err(Check::TooLarge),
        None => Err(Check::BadRequest),
    }
}

/// The number that digits stand for, or one more than a body may have where it is greater; none for other bytes.
fn number_of(value: &[u8]) -> Option<usize>
    ensures some { IfSome result (λ n. (number value.now ≡ true)
        × (n ≡ min (digits_value 10 value.now) (largest_body + 1))) }
    ensures none { IfNone result (number value.now ≡ false) }
{
    if value.is_empty() {
        return None;
    }
    let mut number = 0;
    for byte in value {
        if !byte.is_ascii_digit() {
            return None;
        }
        number = with_digit(number, *byte);
    }
    Some(number)
}

/// The number with one digit more, as far as the limit.
fn with_digit(number: usize, byte: u8) -> usize
    requires small { number ≤ largest_body + 1 }
    requires digit { is_ascii_digit byte ≡ true }
    ensures { result ≡ min (number * 10 + digit_value byte) (largest_body + 1) }
{
    let more = number * 10 + usize::from(byte - b'0');
    if more < PAST_BODY { more } else { PAST_BODY }
}
