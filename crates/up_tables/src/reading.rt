//! Rows that are read.

ghost use Rattle.std.specs.Prelude.{◌≡◌, ◌≤◌, ◌∷◌, Option, None, List, [], Ok, Err, map, length, string_bytes, IfOk, IfErr};
ghost use Rattle.std.specs.List.{AllByRecursion};
ghost use Rattle.std.specs.Option.{option_to_list};
ghost use Rattle.std.specs.Result.{IsOkAnd};
ghost use Rattle.sqlite.specs.declared.types.Value.TheVariants.{Text};
ghost use Rattle.up_tables.specs.Faults.{store_fault};
ghost use Rattle.up_tables.specs.Kinds.{ShowsOne, ShowsWords};
ghost use Rattle.up_tables.specs.Rows.{columns_at};
ghost use Rattle.up_tables.specs.Stored.{AreLines, EachSays, IsLine, IsTold, Tells};
ghost use Rattle.up_tables.specs.declared.values.StoreFault.TheVariants as StoreFault;

use crate::values::{StoreFault, fault_of, text_at};
use sqlite::{Error, Row};
use std::alloc::Global;

/// How a row of an answer is read as a value.
pub trait RowReading {
    ghost use Rattle.std.specs.Prelude.{◌≡◌, ◌≢◌, IfOk, IfErr};
    ghost use Rattle.sqlite.specs.Order.{Row as Values};
    ghost use Rattle.up_tables.specs.declared.values.StoreFault.TheVariants as StoreFault;

    /// What is read.
    type Item: Drop;

    // Which rows say a value, what the value's type says of it, and the row that is written for it.
    ghost says: { Values → Self.Item → Type 0 };

    ghost fits: { Self.Item → Type 0 };

    ghost line: { Self.Item → Values };

    /// Reads it; `Store` where the row is the line of no value.
    fn read(alloc: Global, row: &Row) -> Result<Self::Item, StoreFault>
        ensures said { IfOk result (says row.now) }
        ensures same { IfOk result (λ x. (y : Self.Item) → fits y → row.now ≡ line y → x ≡ y) }
        ensures fault { IfErr result (λ fault. fault ≡ StoreFault.Store → (y : Self.Item) → fits y → row.now ≢ line y) }
        ensures damaged { IfErr result (λ fault. fault ≡ StoreFault.Store → (y : Self.Item) → fits y
            → ¬ says row.now y) };
}

/// The text of the one row of an answer, none of none; `Store` where there are more, or the one column that is read has no text.
pub(crate) fn one_text(answer: Result<Vec<Row>, Error>) -> Result<Option<String>, StoreFault>
    ensures ok { IfOk result (λ found. IsOkAnd answer (λ rows.
        map (columns_at (0 ∷ [])) rows.items ≡ map (λ s. Text (string_bytes s) ∷ []) (option_to_list found))) }
    ensures fault { IfErr answer (λ e. result ≡ Err (store_fault e)) }
    ensures kinds { IfOk answer (λ rows. IfErr result (λ fault. fault ≡ StoreFault.Store
        → ¬ ShowsOne ShowsWords rows.items)) }
    ensures none { IfOk answer (λ rows. rows.items ≡ [] → result ≡ Ok None) }
    ensures several { IfOk answer (λ rows. 2 ≤ length rows.items → result ≡ Err StoreFault.Store) }
{
    match answer {
        Ok(rows) => text_of(&rows),
        Err(error) => Err(fault_of(error)),
    }
}

/// The text of the one row, none of none; `Store` where there are more, or its one column has no text.
fn text_of(rows: &[Row]) -> Result<Option<String>, StoreFault>
    ensures ok { IfOk result (λ found. map (columns_at (0 ∷ [])) rows.now ≡ map (λ s. Text (string_bytes s) ∷ [])
        (option_to_list found)) }
    ensures kinds { IfErr result (λ fault. fault ≡ StoreFault.Store → ¬ ShowsOne ShowsWords rows.now) }
    ensures none { rows.now ≡ [] → result ≡ Ok None }
    ensures several { 2 ≤ length rows.now → result ≡ Err StoreFault.Store }
{
    match rows {
        [] => Ok(None),
        [row] => match text_at(row, 0) {
            Ok(text) => Ok(Some(text)),
            Err(fault) => Err(fault),
        },
        _ => Err(StoreFault::Store),
    }
}

/// The value of the one row of an answer, none of none; `Store` where there are more, or the row is the line of no value.
pub(crate) fn one_value<R: RowReading>(
    alloc: Global,
    answer: Result<Vec<Row>, Error>,
) -> Result<Option<R::Item>, StoreFault>
    ensures ok { IfOk result (λ found. IsOkAnd answer (λ rows. IsTold R.says R.fits R.line rows.items found)) }
    ensures fault { IfErr answer (λ e. result ≡ Err (store_fault e)) }
    ensures kinds { IfOk answer (λ rows. IfErr result (λ fault. fault ≡ StoreFault.Store
        → ¬ AreLines R.fits R.line rows.items)) }
    ensures damaged { IfOk answer (λ rows. IfErr result (λ fault. fault ≡ StoreFault.Store → (found : Option R.Item)
        → AllByRecursion R.fits (option_to_list found) → ¬ EachSays R.says rows.items (option_to_list found))) }
    ensures none { IfOk answer (λ rows. rows.items ≡ [] → result ≡ Ok None) }
    ensures several { IfOk answer (λ rows. 2 ≤ length rows.items → result ≡ Err StoreFault.Store) }
{
    match answer {
        Ok(rows) => value_of::<R>(alloc, &rows),
        Err(error) => Err(fault_of(error)),
    }
}

/// The value of the one row, none of none; `Store` where there are more, or the row is the line of no value.
fn value_of<R: RowReading>(alloc: Global, rows: &[Row]) -> Result<Option<R::Item>, StoreFault>
    ensures ok { IfOk result (IsTold R.says R.fits R.line rows.now) }
    ensures kinds { IfErr result (λ fault. fault ≡ StoreFault.Store → ¬ AreLines R.fits R.line rows.now) }
    ensures damaged { IfErr result (λ fault. fault ≡ StoreFault.Store → (found : Option R.Item) → AllByRecursion R.fits
        (option_to_list found) → ¬ EachSays R.says rows.now (option_to_list found)) }
    ensures none { rows.now ≡ [] → result ≡ Ok None }
    ensures several { 2 ≤ length rows.now → result ≡ Err StoreFault.Store }
{
    match rows {
        [] => Ok(None),
        [row] => match R::read(alloc, row) {
            Ok(found) => Ok(Some(found)),
            Err(fault) => Err(fault),
        },
        _ => Err(StoreFault::Store),
    }
}

/// The value of each row of an answer; `Store` where a row is the line of no value.
pub(crate) fn each_value<R: RowReading>(
    alloc: Global,
    answer: Result<Vec<Row>, Error>,
) -> Result<Vec<R::Item>, StoreFault>
    ensures ok { IfOk result (λ read. IsOkAnd answer
        (λ rows. EachSays (Tells R.says R.fits R.line) rows.items read.items)) }
    ensures fault { IfErr answer (λ e. result ≡ Err (store_fault e)) }
    ensures kinds { IfOk answer (λ rows. IfErr result (λ fault. fault ≡ StoreFault.Store → ¬ AllByRecursion
        (IsLine R.fits R.line) rows.items)) }
    ensures damaged { IfOk answer (λ rows. IfErr result (λ fault. fault ≡ StoreFault.Store
        → (read : List R.Item) → AllByRecursion R.fits read → ¬ EachSays R.says rows.items read)) }
{
    match answer {
        Ok(rows) => values_of::<R>(alloc, &rows),
        Err(error) => Err(fault_of(error)),
    }
}

/// The value of each row; `Store` where one is the line of no value.
fn values_of<R: RowReading>(alloc: Global, rows: &[Row]) -> Result<Vec<R::Item>, StoreFault>
    ensures ok { IfOk result (λ read. EachSays (Tells R.says R.fits R.line) rows.now read.items) }
    ensures kinds { IfErr result (λ fault. fault ≡ StoreFault.Store → ¬ AllByRecursion
        (IsLine R.fits R.line) rows.now) }
    ensures damaged { IfErr result (λ fault. fault ≡ StoreFault.Store → (read : List R.Item)
        → AllByRecursion R.fits read → ¬ EachSays R.says rows.now read) }
{
    let mut read = Vec::with_capacity(alloc, rows.len())?;
    for row in rows {
        read.push(R::read(alloc, row)?)?;
    }
    Ok(read)
}
