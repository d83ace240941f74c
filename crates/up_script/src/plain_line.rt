//! Deliveries in the form in which lines are written, read without a tree of their values.
ghost use Rattle.std.specs.Prelude.{◌≡◌, ◌<◌, ◌++◌, ◌∷◌, [], Ok, IsTrue, IfOk, IfSome, flat_map, length};
ghost use Rattle.up_canon.specs.Canon.{is_printable_text, escape_of};
ghost use Rattle.up_sign.specs.Schemes.{Rules};
ghost use Rattle.up_script.specs.AskedLines.{asked_in, asks_running};

use crate::asked::{Asked, What};
use memchr::memchr2;
use std::alloc::Global;
use up_canon::bytes::Bytes;
use up_canon::canonical_laws;
use up_canon::note::is_printable;
use up_machine::command::Command;
use up_manifest::cursor::{Cursor, Unread};

/// What a line asks, where it is the canonical text of a delivery with no member but `at`, `body` and `do`. Of any other
/// line, none, whether or not it asks something; none too where memory was refused, so that the general way says so.
pub(crate) fn plain_delivery(alloc: Global, line: &str) -> Option<Asked>
    ensures value { IfSome result (λ asked. (k : Rules) → asked_in k line.now ≡ Ok asked) }
    ensures running { IfSome result (λ asked. IsTrue (asks_running asked.what)) }
{
    match delivery(alloc, line) {
        Ok(asked) => Some(asked),
        Err(_) => None,
    }
}

fn delivery(alloc: Global, line: &str) -> Result<Asked, Unread>
    ensures value { IfOk result (λ asked. (k : Rules) → asked_in k line.now ≡ Ok asked) }
    ensures running { IfOk result (λ asked. IsTrue (asks_running asked.what)) }
{
    canonical_laws();
    let mut cursor = Cursor::new(line);
    cursor.pass("{\"at\":")?;
    let at = cursor.count()?;
    cursor.pass(",\"body\":\"")?;
    let text = text_before(&mut cursor, "\",\"do\":\"deliver\"}")?;
    let body = unescaped(alloc, text.as_bytes())?;
    if !are_printable(body.as_slice()) {
        return Err(Unread);
    }
    Ok(Asked {
        at,
        what: What::Call(Command::Deliver(Bytes::new(body))),
    })
}

/// The text in front of the last piece.
fn text_before<'a>(cursor: &mut Cursor<'a>, last: &str) -> Result<&'a str, Unread>
    ensures { IfOk result (λ text. cursor.old.rest.now ≡ text.now ++ last.now) }
{
    let text = cursor.cut(cursor.rest.len().saturating_sub(last.len()))?;
    if cursor.rest != last {
        return Err(Unread);
    }
    Ok(text)
}

/// The bytes of a text in which a backslash stands before each quote and each backslash.
fn unescaped(alloc: Global, text: &[u8]) -> Result<Vec<u8>, Unread>
    ensures { IfOk result (λ bytes. text.now ≡ flat_map escape_of bytes.items) }
{
    let mut bytes = Vec::with_capacity(alloc, text.len())?;
    let mut rest = text;
    'escapes: while let Some(place) = memchr2(b'"', b'\\', rest) {
        let (direct, behind) = rest.split_at(place);
        let Some((special, left)) = escape(behind) else {
            return Err(Unread);
        };
        bytes.extend_from_slice(direct)?;
        bytes.push(special)?;
        rest = left;
    }
    bytes.extend_from_slice(rest)?;
    Ok(bytes)
}

/// The quote or the backslash behind a backslash in front, and what is left.
fn escape(bytes: &[u8]) -> Option<(u8, &[u8])>
    ensures value { IfSome result (λ e. bytes.now ≡ flat_map escape_of (e.0 ∷ []) ++ e.1.now) }
    ensures shorter { IfSome result (λ e. length e.1.now < length bytes.now) }
{
    match bytes {
        [b'\\', b'"', left @ ..] => Some((b'"', left)),
        [b'\\', b'\\', left @ ..] => Some((b'\\', left)),
        _ => None,
    }
}

/// Whether each byte is printable ASCII. It looks at all of them, so that one step of the processor takes many.
fn are_printable(bytes: &[u8]) -> bool
    ensures { result ≡ is_printable_text bytes.now }
{
    let mut fits = true;
    for byte in bytes {
        fits &= is_printable(*byte);
    }
    fits
}
