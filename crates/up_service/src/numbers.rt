//! Numbers among the words of the command line.
ghost use Rattle.std.specs.Prelude.{◌≡◌, get_or};
ghost use Rattle.up_service.specs.Jobs.{number_to};

/// The number that a text is in decimal, without leading zeros, from 1 to so many.
pub(crate) fn number(text: &str, most: u32) -> Option<u32>
    ensures { result ≡ number_to most text.now }
{
    if first_byte(text) <= b'0' {
        return None;
    }
    match text.parse::<u32>() {
        Ok(n) if n <= most => Some(n),
        _ => None,
    }
}

/// The first byte of a text, 0 where there is none.
fn first_byte(text: &str) -> u8
    ensures { result ≡ get_or text.now 0 0 }
{
    if text.is_empty() {
        0
    } else {
        text.as_bytes()[0]
    }
}
