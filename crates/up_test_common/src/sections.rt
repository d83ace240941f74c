//! Sections of rows.
//!
//! A section is the words of a call and rows of it, `GIVEN => WANTED`. Where much of what is given repeats, a row `of TEXT` says a
//! text once, and rows behind it say what changes in it: `~ OLD | NEW => WANTED` gives the text with the first OLD replaced, and
//! `+ OLD | NEW => WANTED` keeps it so for the rows behind. `<*N*TEXT*>` is a text that is repeated.
use crate::calls::Calls;
use crate::changes::changed;
use crate::repeated::in_full;
use std::alloc::{AllocError, Global};

/// How many rows of the section are answered as they want, behind a line for each that isn't, or is no row.
pub fn told<C: Calls>(alloc: Global, calls: &mut C, section: &str) -> Result<String, AllocError> {
    let (call, rows) = section.split_once('\n').unwrap_or((section, ""));
    let mut out = String::new(alloc);
    let mut base = String::new(alloc);
    let mut right: u32 = 0;
    for row in rows.lines() {
        if is_right(alloc, calls, &mut out, &mut base, call, row)? {
            right = right.saturating_add(1);
        }
    }
    push_number(alloc, &mut out, call, right)?;
    Ok(out)
}

fn push_number(alloc: Global, out: &mut String, call: &str, right: u32) -> Result<(), AllocError> {
    let line = format!(in alloc; "{call}: {right}")?;
    out.push_str(line.as_str())
}

/// Whether the row wants an answer and gets it.
fn is_right<C: Calls>(
    alloc: Global,
    calls: &mut C,
    out: &mut String,
    base: &mut String,
    call: &str,
    row: &str,
) -> Result<bool, AllocError> {
    match row.split_once(" => ") {
        Some((given, wanted)) => is_answered(alloc, calls, out, base, call, (given, wanted)),
        None => begin(out, base, row),
    }
}

/// Takes the text of a row `of TEXT`.
fn begin(out: &mut String, base: &mut String, row: &str) -> Result<bool, AllocError> {
    match row.split_once(' ') {
        Some(("of", text)) => keep(base, text)?,
        _ => push_line(out, "no row", row)?,
    }
    Ok(false)
}

fn keep(base: &mut String, text: &str) -> Result<(), AllocError> {
    base.clear();
    base.push_str(text)
}

fn push_line(out: &mut String, what: &str, row: &str) -> Result<(), AllocError> {
    out.push_str(what)?;
    out.push_str(": ")?;
    out.push_str(row)?;
    out.push('\n')
}

fn is_answered<C: Calls>(
    alloc: Global,
    calls: &mut C,
    out: &mut String,
    base: &mut String,
    call: &str,
    row: (&str, &str),
) -> Result<bool, AllocError> {
    match full(alloc, base, row.0)? {
        Some(text) => is_wanted(alloc, calls, out, call, text.as_str(), row),
        None => {
            push_line(out, "no such text", row.0)?;
            Ok(false)
        }
    }
}

/// What is given in full; none where it is spelled wrong.
fn full(alloc: Global, base: &mut String, given: &str) -> Result<Option<String>, AllocError> {
    match given.split_once(' ') {
        Some(("~", change)) => changed(alloc, base.as_str(), change),
        Some(("+", change)) => kept(alloc, base, change),
        _ => in_full(alloc, given),
    }
}

/// The changed text, which is kept.
fn kept(alloc: Global, base: &mut String, change: &str) -> Result<Option<String>, AllocError> {
    let made = changed(alloc, base.as_str(), change)?;
    if let Some(text) = &made {
        keep(base, text.as_str())?;
    }
    Ok(made)
}

fn is_wanted<C: Calls>(
    alloc: Global,
    calls: &mut C,
    out: &mut String,
    call: &str,
    text: &str,
    row: (&str, &str),
) -> Result<bool, AllocError> {
    let had = calls.answer(alloc, call, text)?;
    let (given, wanted) = row;
    if calls.is_wanted(had.as_str(), wanted) {
        return Ok(true);
    }
    let line = format!(in alloc; "{call} of {given} is {had}, in place of {wanted}\n")?;
    out.push_str(line.as_str())?;
    Ok(false)
}
