//! Words, of which rows are made. No text of a file in them has a space; `-` stands for none.
use hex::FromHexError;
use std::alloc::{AllocError, Global};
use up_canon::bytes::Bytes;
use up_canon::listed::Listed;
use up_canon::moment::Moment;
use up_canon::text::Text;
use up_roles::repository::Repository;

/// The word at a place, counted from 0.
pub(crate) fn word(given: &str, at: usize) -> &str {
    given.split(' ').nth(at).unwrap_or("")
}

pub(crate) fn number(word: &str) -> u64 {
    word.parse::<u64>().unwrap_or(0)
}

/// The moment of so many seconds, or else 1970.
pub(crate) fn moment(word: &str) -> Option<Moment> {
    Moment::new(number(word))
}

pub(crate) fn repository(word: &str) -> Repository {
    match word {
        "director" => Repository::Director,
        _ => Repository::Image,
    }
}

pub(crate) fn text(alloc: Global, word: &str) -> Result<Text, AllocError> {
    Ok(Text::new(word.to_string(alloc)?))
}

pub(crate) fn text_or_none(alloc: Global, word: &str) -> Result<Option<Text>, AllocError> {
    if word == "-" {
        Ok(None)
    } else {
        Ok(Some(text(alloc, word)?))
    }
}

/// The secrets of a word, with commas between them; what is no hex is left out.
pub(crate) fn secrets(alloc: Global, word: &str) -> Result<Listed<Bytes>, AllocError> {
    let mut secrets = Vec::new(alloc);
    for digits in word.split(',') {
        match hex::decode(alloc, digits.as_bytes()) {
            Ok(secret) => secrets.push(Bytes::new(secret))?,
            Err(FromHexError::OutOfMemory) => return Err(AllocError),
            Err(_) => {}
        }
    }
    Ok(Listed::new(secrets))
}

/// None for `-`; no secrets for `none`.
pub(crate) fn secrets_or_none(
    alloc: Global,
    word: &str,
) -> Result<Option<Listed<Bytes>>, AllocError> {
    if word == "-" {
        Ok(None)
    } else {
        Ok(Some(secrets(alloc, word)?))
    }
}
