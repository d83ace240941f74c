//! Members of objects in canonical text: a piece that ends with the key's colon, and the value behind it.
ghost use Rattle.std.specs.Prelude.{◌≡◌, ◌++◌, IsTrue, IfOk, decimal, length, true};
ghost use Rattle.std.specs.List.{list_all};
ghost use Rattle.hex.specs.Hex.{encode_lower};
ghost use Rattle.up_canon.specs.Build.{hashes_value};
ghost use Rattle.up_canon.specs.Canon.{is_printable_text, json_string, text as text_of};
ghost use Rattle.up_canon.specs.HexText.{is_hash, is_second_hash, second_hash_text};
ghost use Rattle.up_canon.specs.Moments.{moment_text};
ghost use Rattle.up_canon.specs.Names.{is_from_to, is_short_text};
ghost use Rattle.up_sign.specs.Schemes.{is_byte};

use std::alloc::Global;
use up_canon::bytes::Bytes;
use up_canon::count::Count;
use up_canon::file_name::FileName;
use up_canon::moment::Moment;
use up_canon::text::Text;
use up_manifest::cursor::{Cursor, Unread};

/// Takes a count.
pub(crate) fn count_behind(cursor: &mut Cursor<'_>, key: &str) -> Result<Count, Unread>
    ensures { IfOk result (λ n. cursor.old.rest.now ≡ key.now ++ (decimal n ++ cursor.new.rest.now)) }
{
    cursor.pass(key)?;
    cursor.count()
}

/// Takes a filename.
pub(crate) fn file_name_behind(
    alloc: Global,
    cursor: &mut Cursor<'_>,
    key: &str,
) -> Result<FileName, Unread>
    ensures { IfOk result (λ f. cursor.old.rest.now ≡ key.now ++ (json_string f ++ cursor.new.rest.now)) }
{
    let text = text_behind(cursor, key)?.to_string(alloc)?;
    FileName::new(text).ok_or(Unread)
}

/// Takes a moment.
pub(crate) fn moment_behind(cursor: &mut Cursor<'_>, key: &str) -> Result<Moment, Unread>
    ensures { IfOk result (λ m. cursor.old.rest.now ≡ key.now ++ (json_string (moment_text m) ++ cursor.new.rest.now)) }
{
    let text = text_behind(cursor, key)?;
    Moment::read(text).ok_or(Unread)
}

/// Takes a text of 1 byte or more, and of so many at most.
pub(crate) fn short_text_behind(
    alloc: Global,
    cursor: &mut Cursor<'_>,
    key: &str,
    most: usize,
) -> Result<Text, Unread>
    ensures value { IfOk result (λ t. cursor.old.rest.now ≡ key.now ++ (json_string t ++ cursor.new.rest.now)) }
    ensures fits { IfOk result (λ t. IsTrue (is_short_text 1 most t)) }
{
    let text = text_behind(cursor, key)?;
    if text.is_empty() || text.len() > most {
        return Err(Unread);
    }
    Ok(Text::new(text.to_string(alloc)?))
}

/// Takes a byte or more in hexadecimal digits in lower case, and so many at most.
pub(crate) fn bytes_behind(
    alloc: Global,
    cursor: &mut Cursor<'_>,
    key: &str,
    most: usize,
) -> Result<Bytes, Unread>
    ensures value { IfOk result
        (λ b. cursor.old.rest.now ≡ key.now ++ (json_string (encode_lower b) ++ cursor.new.rest.now)) }
    ensures fits { IfOk result (λ b. IsTrue (is_from_to 1 most (length b))) }
    ensures typed { IfOk result (λ b. IsTrue (list_all is_byte b)) }
{
    cursor.pass(key)?;
    let bytes = cursor.bytes(alloc)?;
    if bytes.is_empty() || bytes.len() > most {
        return Err(Unread);
    }
    Ok(Bytes::new(bytes))
}

/// Takes the object of a SHA-256 and, where there is one, a SHA-512.
pub(crate) fn hashes(cursor: &mut Cursor<'_>) -> Result<([u8; 32], Option<[u8; 64]>), Unread>
    ensures text { IfOk result (λ h. cursor.old.rest.now ≡ text_of (hashes_value h.0 h.1) ++ cursor.new.rest.now) }
    ensures typed { IfOk result (λ h. is_hash h.0 ≡ true) }
    ensures typed_second { IfOk result (λ h. is_second_hash h.1 ≡ true) }
{
    cursor.pass("{\"sha256\":")?;
    let sha256 = cursor.sha256()?;
    let sha512 = second_hash(cursor)?;
    cursor.pass("}")?;
    keeps_hash(&sha256);
    keeps_second(&sha512);
    Ok((sha256, sha512))
}

/// Notes for proofs that a SHA-256 is 32 bytes.
fn keeps_hash(hash: &[u8; 32])
    ensures { is_hash hash.now ≡ true }
{
    are_bytes(&hash[..]);
}

/// Notes for proofs that a SHA-512 is 64 bytes.
fn keeps_second(sha512: &Option<[u8; 64]>)
    ensures { is_second_hash sha512.now ≡ true }
{
    if let Some(hash) = sha512 {
        are_bytes(&hash[..]);
    }
}

fn are_bytes(hash: &[u8])
    ensures { list_all is_byte hash.now ≡ true }
{}

/// Takes the SHA-512 behind the SHA-256, where there is one.
fn second_hash(cursor: &mut Cursor<'_>) -> Result<Option<[u8; 64]>, Unread>
    ensures { IfOk result (λ hash. cursor.old.rest.now ≡ second_hash_text hash ++ cursor.new.rest.now) }
{
    if cursor.takes(",\"sha512\":") {
        return Ok(Some(cursor.sha512()?));
    }
    Ok(None)
}

/// Takes a text in quotes in which each byte stands for itself.
fn text_behind<'a>(cursor: &mut Cursor<'a>, key: &str) -> Result<&'a str, Unread>
    ensures value { IfOk result (λ t. cursor.old.rest.now ≡ key.now ++ (json_string t.now ++ cursor.new.rest.now)) }
    ensures printable { IfOk result (λ t. IsTrue (is_printable_text t.now)) }
{
    cursor.pass(key)?;
    cursor.quoted()
}
