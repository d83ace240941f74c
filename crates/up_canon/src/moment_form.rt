//! The form of a moment's text: digits and signs at their places.
ghost use Rattle.std.specs.Prelude.{◌≡◌, ◌<◌, ◌+◌, length, true};
ghost use Rattle.up_canon.specs.Moments.{has_form as has_form_of, fits_sign as fits_sign_of, two_digits as two_digits_of};

/// Whether digits and signs stand where they do in a moment's text.
pub(crate) fn has_form(bytes: &[u8]) -> bool
    ensures form { result ≡ has_form_of bytes.now }
    ensures long { result ≡ true → length bytes.now ≡ 20 }
{
    let form = b"0000-00-00T00:00:00Z";
    if bytes.len() != 20 {
        return false;
    }
    for i in 0..20 {
        if !fits_sign(form[i], bytes[i]) {
            return false;
        }
    }
    true
}

/// Whether the byte may stand where the form has the sign, which has 0 for any digit.
fn fits_sign(sign: u8, byte: u8) -> bool
    ensures { result ≡ fits_sign_of sign byte }
{
    if sign == b'0' {
        byte.is_ascii_digit()
    } else {
        byte == sign
    }
}

/// The number that the two digits at that place spell.
pub(crate) fn two_digits(bytes: &[u8], place: usize) -> u64
    requires { place + 1 < length bytes.now }
    ensures value { result ≡ two_digits_of bytes.now place }
    ensures bound { result < 2300 }
{
    let tens = bytes[place].saturating_sub(b'0') as u64;
    let ones = bytes[place + 1].saturating_sub(b'0') as u64;
    tens * 10 + ones
}
