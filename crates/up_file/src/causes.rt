//! Why a database that was connected isn't taken.
ghost use Rattle.std.specs.Prelude.{◌≡◌, ◌≢◌, true, false};
ghost use Rattle.sqlite.specs.Held.{state};
ghost use Rattle.up_tables.specs.declared.open.OpenFault.TheVariants as OpenFault;
ghost use Rattle.up_file.specs.Causes.{NamesNewer, NamesUs, QueryTells, RowTells, RowsTell, TellsCause, query_cause, rows_in};

use sqlite::{Alter, Connection, Error, ErrorCode, Row};
use sqlite_value::value::ValueRef;
use up_program::unopened::Unopened;
use up_tables::open::OpenFault;

/// The latest schema that this program knows.
const LATEST: i64 = 4;

/// Why a database isn't taken that `take_for` handed back with this fault. After `OpenFault::Store` its `meta` is asked: it is
/// another product's unless one row names this product, and of a newer schema where that row names one above the latest; else
/// damaged.
pub fn cause_of<D: Alter>(conn: &mut Connection<D>, fault: OpenFault) -> Unopened
    ensures told { TellsCause (state D.Store conn.old) (state D.Store conn.new) fault result }
    ensures untouched { fault ≢ OpenFault.Store → conn.new ≡ conn.old }
{
    match fault {
        OpenFault::Memory => Unopened::Memory,
        OpenFault::NotOurs => Unopened::OtherScheme,
        OpenFault::Store => {
            told_by(conn.query_all("SELECT app, schema FROM meta WHERE id = 1", &[]))
        }
    }
}

/// What the answer of the query on `meta` tells.
fn told_by(found: Result<Vec<Row>, Error>) -> Unopened
    ensures { QueryTells (rows_in (λ rows. rows.items) found) result }
{
    match found {
        Ok(rows) => told_by_rows(&rows),
        Err(error) => told_by_error(error),
    }
}

/// What the rows of `meta` tell.
fn told_by_rows(rows: &[Row]) -> Unopened
    ensures { RowsTell rows.now result }
{
    match rows {
        [row] => told_by_row(row),
        _ => Unopened::OtherProduct,
    }
}

/// What the row of `meta` tells.
fn told_by_row(row: &Row) -> Unopened
    ensures { RowTells row.now result }
{
    if !names_us(row) {
        Unopened::OtherProduct
    } else if names_newer(row) {
        Unopened::NewerSchema
    } else {
        Unopened::Damaged
    }
}

/// Whether the row names this product.
fn names_us(row: &Row) -> bool
    ensures yes { result ≡ true → NamesUs row.now }
    ensures no { result ≡ false → ¬ NamesUs row.now }
{
    match row.get_ref(0) {
        Ok(ValueRef::Text(app)) => app == "uptane_desk".as_bytes(),
        _ => false,
    }
}

/// Whether the row names a newer schema.
fn names_newer(row: &Row) -> bool
    ensures yes { result ≡ true → NamesNewer row.now }
    ensures no { result ≡ false → ¬ NamesNewer row.now }
{
    match row.get_ref(1) {
        Ok(ValueRef::Int(number)) => number > LATEST,
        _ => false,
    }
}

/// What an error of the query on `meta` tells.
fn told_by_error(error: Error) -> Unopened
    ensures { result ≡ query_cause error }
{
    match error {
        Error::SqliteFailure(ErrorCode::OutOfMemory) => Unopened::Memory,
        Error::SqliteFailure(
            ErrorCode::OperationInterrupted
            | ErrorCode::SystemIoFailure
            | ErrorCode::DatabaseCorrupt
            | ErrorCode::DiskFull
            | ErrorCode::TooBig
            | ErrorCode::Closed,
        ) => Unopened::Damaged,
        _ => Unopened::OtherProduct,
    }
}
