//! Tables of numbers by name.
use std::alloc::{AllocError, Global};
use up_canon::table::Table;
use up_canon::text::Text;

/// What a table answers to words, of which `NAME=NUMBER` inserts and `NAME` asks; and then its number of names and its values.
pub(crate) fn table(alloc: Global, words: &str) -> Result<String, AllocError> {
    let mut table = Table::new(alloc);
    let mut out = String::new(alloc);
    for word in words.split(' ') {
        match word.split_once('=') {
            Some((name, number)) => put(alloc, &mut table, name, number)?,
            None => push_asked(alloc, &mut out, &table, word)?,
        }
    }
    push_values(alloc, &mut out, &table)?;
    Ok(out)
}

fn put(alloc: Global, table: &mut Table<u32>, name: &str, number: &str) -> Result<(), AllocError> {
    let name = Text::new(name.to_string(alloc)?);
    table.insert(name, number.parse().unwrap_or(0))
}

fn push_asked(
    alloc: Global,
    out: &mut String,
    table: &Table<u32>,
    name: &str,
) -> Result<(), AllocError> {
    let stands = table.contains(name);
    let line = match table.get(name) {
        Some(number) => format!(in alloc; "{name} {stands} {number}, ")?,
        None => format!(in alloc; "{name} {stands}, ")?,
    };
    out.push_str(line.as_str())
}

fn push_values(alloc: Global, out: &mut String, table: &Table<u32>) -> Result<(), AllocError> {
    let line = format!(in alloc; "{} values {:?}", table.len(), table.values())?;
    out.push_str(line.as_str())
}
