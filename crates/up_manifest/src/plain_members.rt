//! Members of objects in the form in which Primaries write manifests: a piece that ends with the key's colon, and the value
//! behind it.
ghost use Rattle.std.specs.Prelude.{◌≡◌, ◌++◌, IsTrue, IfOk, decimal, length};
ghost use Rattle.std.specs.List.{list_all};
ghost use Rattle.hex.specs.Hex.{encode_lower};
ghost use Rattle.up_canon.specs.Canon.{is_printable_text, json_string};
ghost use Rattle.up_canon.specs.Moments.{moment_text};
ghost use Rattle.up_canon.specs.Names.{is_from_to, is_short_text};
ghost use Rattle.up_sign.specs.Schemes.{is_byte};

use crate::cursor::{Cursor, Unread};
use std::alloc::Global;
use up_canon::bytes::Bytes;
use up_canon::count::Count;
use up_canon::file_name::FileName;
use up_canon::ident::Ident;
use up_canon::moment::Moment;
use up_canon::note::Note;
use up_canon::text::Text;

/// Takes a count.
pub(crate) fn count_behind(cursor: &mut Cursor<'_>, key: &str) -> Result<Count, Unread>
    ensures { IfOk result (λ n. cursor.old.rest.now ≡ key.now ++ (decimal n ++ cursor.new.rest.now)) }
{
    cursor.pass(key)?;
    cursor.count()
}

/// Takes an identifier.
pub(crate) fn ident_behind(
    alloc: Global,
    cursor: &mut Cursor<'_>,
    key: &str,
) -> Result<Ident, Unread>
    ensures { IfOk result (λ i. cursor.old.rest.now ≡ key.now ++ (json_string i ++ cursor.new.rest.now)) }
{
    let text = text_behind(cursor, key)?.to_string(alloc)?;
    Ident::new(text).ok_or(Unread)
}

/// Takes a filename.
pub(crate) fn file_name_behind(
    alloc: Global,
    cursor: &mut Cursor<'_>,
    key: &str,
) -> Result<FileName, Unread>
    ensures { IfOk result (λ f. cursor.old.rest.now ≡ key.now ++ (json_string f ++ cursor.new.rest.now)) }
{
    let text = text_behind(cursor, key)?.to_string(alloc)?;
    FileName::new(text).ok_or(Unread)
}

/// Takes a note, in which there may be quotes and backslashes.
pub(crate) fn note_behind(alloc: Global, cursor: &mut Cursor<'_>, key: &str) -> Result<Note, Unread>
    ensures { IfOk result (λ n. cursor.old.rest.now ≡ key.now ++ (json_string n ++ cursor.new.rest.now)) }
{
    cursor.pass(key)?;
    let text = cursor.escaped(alloc, 256)?;
    Note::new(text).ok_or(Unread)
}

/// Takes a moment.
pub(crate) fn moment_behind(cursor: &mut Cursor<'_>, key: &str) -> Result<Moment, Unread>
    ensures { IfOk result (λ m. cursor.old.rest.now ≡ key.now ++ (json_string (moment_text m) ++ cursor.new.rest.now)) }
{
    let text = text_behind(cursor, key)?;
    Moment::read(text).ok_or(Unread)
}

/// Takes a text of 1 byte or more, and of so many at most.
pub(crate) fn short_text_behind(
    alloc: Global,
    cursor: &mut Cursor<'_>,
    key: &str,
    most: usize,
) -> Result<Text, Unread>
    ensures value { IfOk result (λ t. cursor.old.rest.now ≡ key.now ++ (json_string t ++ cursor.new.rest.now)) }
    ensures fits { IfOk result (λ t. IsTrue (is_short_text 1 most t)) }
{
    let text = text_behind(cursor, key)?;
    if text.is_empty() || text.len() > most {
        return Err(Unread);
    }
    Ok(Text::new(text.to_string(alloc)?))
}

/// Takes a byte or more in hexadecimal digits in lower case, and so many at most.
pub(crate) fn bytes_behind(
    alloc: Global,
    cursor: &mut Cursor<'_>,
    key: &str,
    most: usize,
) -> Result<Bytes, Unread>
    ensures value { IfOk result
        (λ b. cursor.old.rest.now ≡ key.now ++ (json_string (encode_lower b) ++ cursor.new.rest.now)) }
    ensures fits { IfOk result (λ b. IsTrue (is_from_to 1 most (length b))) }
    ensures typed { IfOk result (λ b. IsTrue (list_all is_byte b)) }
{
    cursor.pass(key)?;
    let bytes = cursor.bytes(alloc)?;
    if bytes.is_empty() || bytes.len() > most {
        return Err(Unread);
    }
    Ok(Bytes::new(bytes))
}

/// Takes a text in quotes in which each byte stands for itself.
fn text_behind<'a>(cursor: &mut Cursor<'a>, key: &str) -> Result<&'a str, Unread>
    ensures value { IfOk result (λ t. cursor.old.rest.now ≡ key.now ++ (json_string t.now ++ cursor.new.rest.now)) }
    ensures printable { IfOk result (λ t. IsTrue (is_printable_text t.now)) }
{
    cursor.pass(key)?;
    cursor.quoted()
}
