//! Rows of tables as they are told: each column in the spelling of statements.
use sqlite::Row;
use sqlite_value::value::ValueRef;
use std::alloc::{AllocError, Global};
use up_tables::reading::RowReading;
use up_tables::values::StoreFault;

/// Appends a word, behind a space where any stands before it.
pub(crate) fn push_word(out: &mut String, word: &str) -> Result<(), AllocError> {
    if !out.is_empty() {
        out.push(' ')?;
    }
    out.push_str(word)
}

/// Any row, told column by column.
pub(crate) struct Columns;

impl RowReading for Columns {
    ghost use Rattle.std.specs.Prelude.{⊤, []};

    type Item = String;

    ghost says = { λ _ _. ⊤ };

    ghost fits = { λ _. ⊥ };

    ghost line = { λ _. [] };

    fn read(alloc: Global, row: &Row) -> Result<String, StoreFault> {
        Ok(row_text(alloc, row)?)
    }
}

/// Its columns, a space between.
pub(crate) fn row_text(alloc: Global, row: &Row) -> Result<String, AllocError> {
    let mut out = String::new(alloc);
    for at in 0..row.column_count() {
        push_column(alloc, &mut out, row, at)?;
    }
    Ok(out)
}

/// Appends a number, a text, or bytes in hex, and a `-` for anything else.
fn push_column(alloc: Global, out: &mut String, row: &Row, at: usize) -> Result<(), AllocError> {
    match row.get_ref(at) {
        Ok(ValueRef::Int(number)) => { push_word(out, format!(in alloc; "{number}")?.as_str()) }
        Ok(ValueRef::Blob(bytes)) => push_word(out, hex::encode(alloc, bytes)?.as_str()),
        Ok(ValueRef::Text(text)) => push_word(out, str::from_utf8(text).unwrap_or("-")),
        _ => push_word(out, "-"),
    }
}
