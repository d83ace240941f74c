//! Values, names and what is written of them; hashes.
use serde_json::{Map, Value};
use sha2::{Digest, Sha256, Sha512};
use std::alloc::{AllocError, Global};
use up_canon::canonical::canonical;
use up_canon::count::Count;
use up_canon::each::each_of;
use up_canon::hex_text::{hex_at, hex_of};
use up_canon::ident::Ident;
use up_canon::json_text::value_within;
use up_canon::kinds::count_of;
use up_canon::listed::Listed;
use up_canon::name_readings::IdentReading;
use up_canon::note::has_printable_bytes;
use up_canon::writing::{push_hex, push_number, push_quoted};
use up_sign::hmac_sha256::hmac;

/// The canonical text of a value.
pub(crate) fn canonical_text(alloc: Global, value: &Value) -> Result<String, AllocError> {
    match canonical(alloc, value) {
        Ok(text) => Ok(text),
        Err(refusal) => refusal.text(alloc),
    }
}

/// The canonical text of the value that at most 9 bytes are, which are given in hex.
pub(crate) fn value_of_bytes(alloc: Global, value: &Value) -> Result<String, AllocError> {
    match hex_of(alloc, value, "bytes", 0, 100) {
        Ok(bytes) => value_in(alloc, bytes.as_slice()),
        Err(refusal) => refusal.text(alloc),
    }
}

fn value_in(alloc: Global, bytes: &[u8]) -> Result<String, AllocError> {
    match value_within(alloc, bytes, 9) {
        Ok(value) => canonical_text(alloc, &value),
        Err(refusal) => refusal.text(alloc),
    }
}

/// The text in quotes, where it is printable.
pub(crate) fn quoted(alloc: Global, text: &str) -> Result<String, AllocError> {
    if !has_printable_bytes(text.as_bytes()) {
        return "not printable".to_string(alloc);
    }
    let mut out = String::new(alloc);
    push_quoted(&mut out, text)?;
    Ok(out)
}

/// A count's digits.
pub(crate) fn count_written(alloc: Global, value: &Value) -> Result<String, AllocError> {
    match count_of(value, "count") {
        Ok(count) => digits(alloc, count),
        Err(name) => name.to_string(alloc),
    }
}

fn digits(alloc: Global, count: Count) -> Result<String, AllocError> {
    let mut out = String::new(alloc);
    push_number(&mut out, count.get())?;
    Ok(out)
}

/// The text of bytes, which are given in hex.
pub(crate) fn hex_written(alloc: Global, value: &Value) -> Result<String, AllocError> {
    match hex_of(alloc, value, "bytes", 0, 100) {
        Ok(bytes) => hex_text(alloc, bytes.as_slice()),
        Err(refusal) => refusal.text(alloc),
    }
}

fn hex_text(alloc: Global, bytes: &[u8]) -> Result<String, AllocError> {
    let mut out = String::new(alloc);
    push_hex(alloc, &mut out, bytes)?;
    Ok(out)
}

/// The bytes in lower case hex.
pub(crate) fn hex_digits(alloc: Global, bytes: &[u8]) -> Result<String, AllocError> {
    hex::encode(alloc, bytes)
}

/// The hashes of an image in lower case hex, with `+` before a second one.
pub(crate) fn hashes_digits(
    alloc: Global,
    sha256: &[u8; 32],
    sha512: &Option<[u8; 64]>,
) -> Result<String, AllocError> {
    let first = hex_digits(alloc, &sha256[..])?;
    match sha512 {
        Some(hash) => with_second(alloc, first.as_str(), hash),
        None => Ok(first),
    }
}

fn with_second(alloc: Global, first: &str, hash: &[u8; 64]) -> Result<String, AllocError> {
    let second = hex_digits(alloc, &hash[..])?;
    format!(in alloc; "{first}+{second}")
}

/// How two identifiers stand to each other.
pub(crate) fn order_of_names(alloc: Global, value: &Value) -> Result<String, AllocError> {
    match value.as_array() {
        Some(names) => order_of(alloc, names.as_slice()),
        None => "no names".to_string(alloc),
    }
}

fn order_of(alloc: Global, names: &[Value]) -> Result<String, AllocError> {
    match each_of::<IdentReading>(alloc, names, "names") {
        Ok(names) => order_in(&names).to_string(alloc),
        Err(refusal) => refusal.text(alloc),
    }
}

fn order_in(names: &Listed<Ident>) -> &'static str {
    match names.as_slice() {
        [first, second] => order(first, second),
        _ => "not two names",
    }
}

fn order(first: &Ident, second: &Ident) -> &'static str {
    if first == second {
        "equal"
    } else if first < second {
        "less"
    } else {
        "greater"
    }
}

/// The SHA-256 of a text (FIPS 180-4).
pub(crate) fn sha256_of_text(alloc: Global, text: &str) -> Result<String, AllocError> {
    hex_digits(alloc, &Sha256::digest(text.as_bytes())[..])
}

/// The SHA-512 of a text (FIPS 180-4).
pub(crate) fn sha512_of_text(alloc: Global, text: &str) -> Result<String, AllocError> {
    hex_digits(alloc, &Sha512::digest(text.as_bytes())[..])
}

/// The HMAC of a key and a message, which are given in hex (RFC 2104).
pub(crate) fn hmac_of(alloc: Global, members: &Map<String, Value>) -> Result<String, AllocError> {
    match hex_at(alloc, members, "key", 0, 1024) {
        Ok(key) => hmac_by(alloc, key.as_slice(), members),
        Err(refusal) => refusal.text(alloc),
    }
}

fn hmac_by(alloc: Global, key: &[u8], members: &Map<String, Value>) -> Result<String, AllocError> {
    match hex_at(alloc, members, "message", 0, 1024) {
        Ok(message) => hex_digits(alloc, &hmac(key, message.as_slice())[..]),
        Err(refusal) => refusal.text(alloc),
    }
}
