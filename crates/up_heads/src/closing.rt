//! Whether the connection is closed behind a request.
ghost use Rattle.std.specs.Prelude.{◌≡◌, All, length, map};
ghost use Rattle.httparse.specs.Grammar.{skip_ows};
ghost use Rattle.httparse.specs.Spans.{IsHeaderWithin, header_bytes};
ghost use Rattle.up_heads.specs.Closing.{is_close as close_is, has_close as close_in, closes_by};

use crate::fields::is_named;
use httparse::spans::HeaderSpan;

/// Whether some field `connection` has the member `close`.
#[tactic(auto, unfolding(crate::specs::Closing::closes_by))]
pub(crate) fn closes(bytes: &[u8], fields: &[HeaderSpan]) -> bool
    requires { All (IsHeaderWithin (length bytes.now)) fields.now }
    ensures { result ≡ closes_by (map (header_bytes bytes.now) fields.now) }
{
    for field in fields {
        if is_named(bytes, field, b"connection") && has_close(field.value.of(bytes)) {
            return true;
        }
    }
    false
}

/// Whether a list, whose members commas part, has the member `close`.
fn has_close(value: &[u8]) -> bool
    ensures { result ≡ close_in value.now }
{
    let mut start = 0;
    for i in 0..value.len() {
        if value[i] != b',' {
            continue;
        }
        if is_close(&value[start..i]) {
            return true;
        }
        start = i + 1;
    }
    is_close(&value[start..])
}

/// Whether a member of a list is `close`, case ignored, with spaces and tabs around it.
#[tactic(auto, unfolding(crate::specs::Closing::is_close))]
fn is_close(member: &[u8]) -> bool
    ensures { result ≡ close_is member.now }
{
    let word = skip_spaces(member);
    if word.len() < 5 {
        return false;
    }
    word[..5].eq_ignore_ascii_case(b"close") && skip_spaces(&word[5..]).is_empty()
}

/// The bytes from the first that is no space or tab.
fn skip_spaces(bytes: &[u8]) -> &[u8]
    ensures { result.now ≡ skip_ows bytes.now }
{
    let mut at = 0;
    while at < bytes.len() && (bytes[at] == b' ' || bytes[at] == b'\t') {
        at += 1;
    }
    &bytes[at..]
}
