//! Writing parts of canonical text at the end of a string.
ghost use Rattle.std.specs.Prelude.{◌≡◌, ◌||◌, ◌==◌, ◌≤◌, ◌++◌, IsTrue, IfOk, OnOk, Some, codes, flat_map, length, not, string_bytes, decimal, true};
ghost use Rattle.std.specs.List.{list_all};
ghost use Rattle.hex.specs.Hex.{encode_lower};
ghost use Rattle.up_canon.specs.Build.{hashes_value};
ghost use Rattle.up_canon.specs.Canon.{is_printable, escape_of, json_string, text as text_of};
ghost use Rattle.up_canon.specs.HexText.{is_hash, is_sha512, is_second_hash, second_hash_text};
ghost use Rattle.up_canon.specs.Moments.{last_moment, moment_text};

use crate::calendar::shown_at;
use crate::file_name::FileName;
use crate::ident::Ident;
use crate::moment::Moment;
use std::alloc::{AllocError, Global};
use std::fmt::Write;
use std::str;

/// Appends printable ASCII in quotes, with a backslash before each quote and backslash of it. On an error `out` may hold any
/// text.
pub fn push_quoted(out: &mut String, text: &str) -> Result<(), AllocError>
    requires { IsTrue (list_all is_printable text.now) }
    ensures { IfOk result (λ _. string_bytes out.new ≡ string_bytes out.old ++ json_string text.now) }
{
    if is_straight(text.as_bytes()) {
        push_straight(out, text)
    } else {
        push_each_escaped(out, text)
    }
}

/// Whether no byte of it needs a backslash.
fn is_straight(bytes: &[u8]) -> bool
    ensures { result ≡ list_all (λ x. not ((x == 34) || (x == 92))) bytes.now }
{
    bytes.iter().all(|byte| *byte != b'"' && *byte != b'\\')
}

/// Appends a text that needs no backslash, in one piece.
fn push_straight(out: &mut String, text: &str) -> Result<(), AllocError>
    requires { flat_map escape_of text.now ≡ text.now }
    ensures { IfOk result (λ _. string_bytes out.new ≡ string_bytes out.old ++ json_string text.now) }
{
    out.push('"')?;
    out.push_str(text)?;
    out.push('"')?;
    Ok(())
}

fn push_each_escaped(out: &mut String, text: &str) -> Result<(), AllocError>
    requires { IsTrue (list_all is_printable text.now) }
    ensures { IfOk result (λ _. string_bytes out.new ≡ string_bytes out.old ++ json_string text.now) }
{
    out.push('"')?;
    for byte in text.as_bytes().iter() {
        push_escaped(out, *byte)?;
    }
    out.push('"')?;
    Ok(())
}

fn push_escaped(out: &mut String, byte: u8) -> Result<(), AllocError>
    requires { IsTrue (is_printable byte) }
    ensures { IfOk result (λ _. string_bytes out.new ≡ string_bytes out.old ++ escape_of byte) }
{
    if byte == b'"' || byte == b'\\' {
        out.push('\\')?;
    }
    out.push(char::from(byte))?;
    Ok(())
}

/// Appends the bytes as lower case hexadecimal digits in quotes, without memory of its own. On an error `out` may hold any
/// text.
pub fn push_hex(_alloc: Global, out: &mut String, bytes: &[u8]) -> Result<(), AllocError>
    ensures { IfOk result (λ _. string_bytes out.new ≡ string_bytes out.old ++ json_string (encode_lower bytes.now)) }
{
    out.push('"')?;
    push_digits(out, bytes)?;
    out.push('"')?;
    Ok(())
}

/// How many bytes are written at a time.
const AT_A_TIME: usize = 32;

/// Appends the digits of the bytes, some at a time.
fn push_digits(out: &mut String, bytes: &[u8]) -> Result<(), AllocError>
    ensures { IfOk result (λ _. string_bytes out.new ≡ string_bytes out.old ++ encode_lower bytes.now) }
{
    let mut rest = bytes;
    'pieces: while !rest.is_empty() {
        let (few, behind) = rest.split_at(rest.len().min(AT_A_TIME));
        push_few_digits(out, few)?;
        rest = behind;
    }
    Ok(())
}

fn push_few_digits(out: &mut String, bytes: &[u8]) -> Result<(), AllocError>
    requires { length bytes.now ≤ 32 }
    ensures { IfOk result (λ _. string_bytes out.new ≡ string_bytes out.old ++ encode_lower bytes.now) }
{
    let mut room = [0; 2 * AT_A_TIME];
    let digits = &mut room[..2 * bytes.len()];
    hex::encode_to_slice(bytes, digits).unwrap();
    out.push_str(str::from_utf8(digits).unwrap())
}

/// Appends the digits of a number. On an error `out` may hold any text.
pub fn push_number(out: &mut String, number: u64) -> Result<(), AllocError>
    ensures { IfOk result (λ _. string_bytes out.new ≡ string_bytes out.old ++ decimal number) }
{
    write!(out, "{number}")
}

/// Appends an identifier in quotes. On an error `out` may hold any text.
#[tactic(auto, using(crate::proofs::Written::ident_straight))]
pub fn push_ident(out: &mut String, ident: &Ident) -> Result<(), AllocError>
    ensures { IfOk result (λ _. string_bytes out.new ≡ string_bytes out.old ++ json_string ident.now) }
{
    push_straight(out, ident.text())
}

/// Appends a filename in quotes. On an error `out` may hold any text.
#[tactic(auto, using(crate::proofs::Written::file_name_straight))]
pub fn push_file_name(out: &mut String, name: &FileName) -> Result<(), AllocError>
    ensures { IfOk result (λ _. string_bytes out.new ≡ string_bytes out.old ++ json_string name.now) }
{
    push_straight(out, name.text())
}

/// Appends the text of a moment, `YYYY-MM-DDTHH:MM:SSZ`, in quotes. On an error `out` may hold any text.
pub fn push_moment(out: &mut String, moment: Moment) -> Result<(), AllocError>
    ensures value { IfOk result (λ _. string_bytes out.new ≡ string_bytes out.old ++ json_string (moment_text moment)) }
    ensures typed { moment ≤ last_moment }
{
    let shown = shown_at(moment.get());
    write!(out, "\"{shown}Z\"")
}

/// Appends the object of a SHA-256 and, where there is one, a SHA-512, each under the name of its hash function, in lower case
/// digits. On an error `out` may hold any text.
pub fn push_hashes(
    alloc: Global,
    out: &mut String,
    sha256: &[u8; 32],
    sha512: &Option<[u8; 64]>,
) -> Result<(), AllocError>
    ensures value { IfOk result
        (λ _. string_bytes out.new ≡ string_bytes out.old ++ text_of (hashes_value sha256.now sha512.now)) }
    ensures typed { is_hash sha256.now ≡ true }
    ensures typed_second { OnOk result (is_second_hash sha512.now ≡ true) }
{
    push_sha256(alloc, out, sha256)?;
    push_second_hash(alloc, out, sha512)?;
    out.push('}')?;
    Ok(())
}

fn push_sha256(alloc: Global, out: &mut String, hash: &[u8; 32]) -> Result<(), AllocError>
    ensures value { IfOk result
        (λ _. string_bytes out.new ≡ string_bytes out.old ++ (codes "{\"sha256\":" ++ json_string (encode_lower hash.now))) }
    ensures typed { is_hash hash.now ≡ true }
{
    out.push_str("{\"sha256\":")?;
    push_hex(alloc, out, &hash[..])
}

/// Appends the SHA-512 where there is one.
fn push_second_hash(
    alloc: Global,
    out: &mut String,
    sha512: &Option<[u8; 64]>,
) -> Result<(), AllocError>
    ensures value { IfOk result (λ _. string_bytes out.new ≡ string_bytes out.old ++ second_hash_text sha512.now) }
    ensures typed { OnOk result (is_second_hash sha512.now ≡ true) }
{
    match sha512 {
        Some(hash) => push_sha512(alloc, out, hash),
        None => Ok(()),
    }
}

fn push_sha512(alloc: Global, out: &mut String, hash: &[u8; 64]) -> Result<(), AllocError>
    ensures value { IfOk result (λ _. string_bytes out.new ≡ string_bytes out.old ++ second_hash_text (Some hash.now)) }
    ensures typed { is_sha512 hash.now ≡ true }
{
    out.push_str(",\"sha512\":")?;
    push_hex(alloc, out, &hash[..])
}
