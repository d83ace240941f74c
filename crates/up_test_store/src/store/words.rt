//! Words, of which rows are made.
use crate::store::fault::Fault;
use hex::FromHexError;
use std::alloc::{AllocError, Global};
use up_canon::bytes::Bytes;
use up_canon::count::Count;
use up_canon::file_name::FileName;
use up_canon::ident::Ident;
use up_canon::moment::Moment;
use up_canon::text::Text;

/// The first word, and what stands behind it.
pub(crate) fn first_of(text: &str) -> (&str, &str) {
    text.split_once(' ').unwrap_or((text, ""))
}

/// What stands before ` ; ` and behind it.
pub(crate) fn parts_of(text: &str) -> (&str, &str) {
    text.split_once(" ; ").unwrap_or((text, ""))
}

/// The word at a place, counted from 0.
pub(crate) fn word(text: &str, at: usize) -> &str {
    text.split(' ').nth(at).unwrap_or("")
}

pub(crate) fn number(word: &str) -> Result<u64, Fault> {
    match word.parse::<u64>() {
        Ok(number) => Ok(number),
        Err(_) => Err(Fault::Misspelled),
    }
}

pub(crate) fn count(word: &str) -> Result<Count, Fault> {
    match Count::new(number(word)?) {
        Some(count) => Ok(count),
        None => Err(Fault::Misspelled),
    }
}

pub(crate) fn moment(word: &str) -> Result<Moment, Fault> {
    match Moment::new(number(word)?) {
        Some(moment) => Ok(moment),
        None => Err(Fault::Misspelled),
    }
}

pub(crate) fn ident(alloc: Global, word: &str) -> Result<Ident, Fault> {
    match Ident::new(word.to_string(alloc)?) {
        Some(name) => Ok(name),
        None => Err(Fault::Misspelled),
    }
}

pub(crate) fn file_name(alloc: Global, word: &str) -> Result<FileName, Fault> {
    match FileName::new(word.to_string(alloc)?) {
        Some(name) => Ok(name),
        None => Err(Fault::Misspelled),
    }
}

/// Names with commas between, or `-` for none.
pub(crate) fn idents(alloc: Global, words: &str) -> Result<Vec<Ident>, Fault> {
    let mut names = Vec::new(alloc);
    for name in words.split(',') {
        if name != "-" {
            names.push(ident(alloc, name)?)?;
        }
    }
    Ok(names)
}

/// Filenames with commas between, or `-` for none.
pub(crate) fn file_names(alloc: Global, words: &str) -> Result<Vec<FileName>, Fault> {
    let mut names = Vec::new(alloc);
    for name in words.split(',') {
        if name != "-" {
            names.push(file_name(alloc, name)?)?;
        }
    }
    Ok(names)
}

pub(crate) fn text(alloc: Global, word: &str) -> Result<Text, AllocError> {
    Ok(Text::new(word.to_string(alloc)?))
}

/// The bytes of hex digits.
pub(crate) fn bytes(alloc: Global, digits: &str) -> Result<Bytes, Fault> {
    match hex::decode(alloc, digits.as_bytes()) {
        Ok(bytes) => Ok(Bytes::new(bytes)),
        Err(FromHexError::OutOfMemory) => Err(Fault::Memory),
        Err(_) => Err(Fault::Misspelled),
    }
}

/// The SHA-256 of 64 hex digits.
fn sha256(alloc: Global, digits: &str) -> Result<[u8; 32], Fault> {
    let bytes = bytes(alloc, digits)?;
    match <[u8; 32]>::try_from(bytes.as_slice()) {
        Ok(hash) => Ok(hash),
        Err(_) => Err(Fault::Misspelled),
    }
}

/// The hashes of an image: a SHA-256, and behind a `+` a SHA-512 where it has one.
pub(crate) fn hashes(alloc: Global, digits: &str) -> Result<([u8; 32], Option<[u8; 64]>), Fault> {
    match digits.split_once('+') {
        Some((first, second)) => {
            let hash = sha256(alloc, first)?;
            Ok((hash, Some(sha512(alloc, second)?)))
        }
        None => Ok((sha256(alloc, digits)?, None)),
    }
}

/// The SHA-512 of 128 hex digits.
fn sha512(alloc: Global, digits: &str) -> Result<[u8; 64], Fault> {
    let bytes = bytes(alloc, digits)?;
    match <[u8; 64]>::try_from(bytes.as_slice()) {
        Ok(hash) => Ok(hash),
        Err(_) => Err(Fault::Misspelled),
    }
}

/// The hashes of an image as they are told.
pub(crate) fn hashes_digits(
    alloc: Global,
    sha256: &[u8; 32],
    sha512: &Option<[u8; 64]>,
) -> Result<String, AllocError> {
    let first = hex::encode(alloc, &sha256[..])?;
    match sha512 {
        Some(hash) => with_second(alloc, first.as_str(), hash),
        None => Ok(first),
    }
}

fn with_second(alloc: Global, first: &str, hash: &[u8; 64]) -> Result<String, AllocError> {
    let second = hex::encode(alloc, &hash[..])?;
    format!(in alloc; "{first}+{second}")
}

/// Appends a word, behind a space where any stands before it.
pub(crate) fn push_word(out: &mut String, word: &str) -> Result<(), AllocError> {
    if !out.is_empty() {
        out.push(' ')?;
    }
    out.push_str(word)
}

pub(crate) fn push_number(alloc: Global, out: &mut String, number: u64) -> Result<(), AllocError> {
    let digits = format!(in alloc; "{number}")?;
    push_word(out, digits.as_str())
}

/// The hex digits of bytes.
pub(crate) fn push_bytes(alloc: Global, out: &mut String, bytes: &[u8]) -> Result<(), AllocError> {
    let digits = hex::encode(alloc, bytes)?;
    push_word(out, digits.as_str())
}

/// Appends an item of a list behind a comma, if it isn't the first.
pub(crate) fn push_item(list: &mut String, item: &str) -> Result<(), AllocError> {
    if !list.is_empty() {
        list.push(',')?;
    }
    list.push_str(item)
}

/// Appends a list as one word, `-` where it is empty.
pub(crate) fn push_list(out: &mut String, list: &str) -> Result<(), AllocError> {
    push_word(out, if list.is_empty() { "-" } else { list })
}

/// Appends names as one word.
pub(crate) fn push_idents(
    alloc: Global,
    out: &mut String,
    names: &[Ident],
) -> Result<(), AllocError> {
    let mut list = String::new(alloc);
    for name in names {
        push_item(&mut list, name.text())?;
    }
    push_list(out, list.as_str())
}

/// Appends filenames as one word.
pub(crate) fn push_file_names(
    alloc: Global,
    out: &mut String,
    names: &[FileName],
) -> Result<(), AllocError> {
    let mut list = String::new(alloc);
    for name in names {
        push_item(&mut list, name.text())?;
    }
    push_list(out, list.as_str())
}

/// Parts one from another: appends ` ;` where any stands before.
pub(crate) fn push_part(out: &mut String) -> Result<(), AllocError> {
    if out.is_empty() {
        return Ok(());
    }
    out.push_str(" ;")
}
