//! Texts with repetitions: `<*N*TEXT*>` stands for N times the text. Where the text has the sign `#`, a comma stands between, and
//! the sign for the numbers from 0 on.
use std::alloc::{AllocError, Global};

/// The text with its repetitions in full; none where one is spelled wrong.
pub(crate) fn in_full(alloc: Global, text: &str) -> Result<Option<String>, AllocError> {
    let (front, rest) = text.split_once("<*").unwrap_or((text, ""));
    let mut out = front.to_string(alloc)?;
    for piece in rest.split("<*") {
        if !push_piece(alloc, &mut out, piece)? {
            return Ok(None);
        }
    }
    Ok(Some(out))
}

/// Appends a piece, which begins with a number and a text that `*>` ends; whether it does.
fn push_piece(alloc: Global, out: &mut String, piece: &str) -> Result<bool, AllocError> {
    match piece.split_once("*>") {
        Some((repeated, rest)) => push_parts(alloc, out, repeated, rest),
        None => Ok(piece.is_empty()),
    }
}

fn push_parts(
    alloc: Global,
    out: &mut String,
    repeated: &str,
    rest: &str,
) -> Result<bool, AllocError> {
    let (number, text) = repeated.split_once('*').unwrap_or(("", ""));
    match number.parse::<usize>() {
        Ok(number) => {
            push_repeated(alloc, out, number, text)?;
            out.push_str(rest)?;
            Ok(true)
        }
        Err(_) => Ok(false),
    }
}

fn push_repeated(
    alloc: Global,
    out: &mut String,
    number: usize,
    text: &str,
) -> Result<(), AllocError> {
    if text.contains('#') {
        return push_counted(alloc, out, number, text);
    }
    let all = text.repeat(alloc, number)?;
    out.push_str(all.as_str())
}

fn push_counted(
    alloc: Global,
    out: &mut String,
    number: usize,
    text: &str,
) -> Result<(), AllocError> {
    for i in 0..number {
        if i > 0 {
            out.push(',')?;
        }
        let place = format!(in alloc; "{i}")?;
        let one = text.replace(alloc, "#", place.as_str())?;
        out.push_str(one.as_str())?;
    }
    Ok(())
}
