//! Whose tables a database has: they are made in one that has none, told by the row of `meta`, and raised where they are of an older version.

ghost use Rattle.std.specs.Prelude.{◌≡◌, ◌≢◌, false, OnOk, OnErr, Err, None, Some, IfOk, IfErr, IfSome, IsTrue, codes, pos};
ghost use Rattle.sqlite.specs.declared.types.Value.TheVariants.{Int, Text};
ghost use Rattle.sqlite.specs.Order.{column};
ghost use Rattle.std.specs.Prelude.{◌↔◌, ◌⊎◌};
ghost use Rattle.std.specs.Result.{IsOk};
ghost use Rattle.sqlite.specs.Held.{state};
ghost use Rattle.sqlite.specs.State.{HasCleanDisk, Survives, IsLive};
ghost use Rattle.up_tables.specs.Tables.{no_schema, up_schema};
ghost use Rattle.up_tables.specs.Lines.{AreNew};
ghost use Rattle.up_tables.specs.Opened.{Ends, IsMade, IsUnmade, IsUntaken, Takes};
ghost use Rattle.up_tables.specs.Stands.{IfClean, IsInside, IsOpen, AreWith, HasNoTables, IsAsCommitted};
ghost use Rattle.up_tables.specs.Versions.{number_of};
ghost use Rattle.up_tables.specs.Ours.{NamesVersion, NamesOthers, ListsUs, IsOurs, IsHindered, Raised, is_refused};
ghost use Rattle.up_tables.specs.Ours.{TellsMeta, older_of, ours_told};
ghost use Rattle.up_tables.specs.Faults.{open_fault};
ghost use Rattle.up_tables.specs.Making.{RaisesTo};
ghost use Rattle.up_tables.specs.declared.open.OpenFault.TheVariants as OpenFault;
ghost use Rattle.up_tables.specs.Statements.{IsStep};

use crate::create::make_all;
use crate::raise::raise;
use sqlite::{Alter, Connection, Error, ErrorCode, Row, Transaction};
use sqlite_value::value::ValueRef;

/// Why a database is not taken.
#[derive(Clone, Copy, Debug, PartialEq, Eq)]
pub enum OpenFault {
    /// Memory was refused.
    Memory,
    /// The database refused, or has tables where they are to be made.
    Store,
    /// The database refuses the query on `meta`, or `meta` names another product, or no version of its schema.
    NotOurs,
}

/// A version of the schema, which `meta` names by its number.
#[derive(Clone, Copy, Debug, PartialEq, Eq)]
pub enum SchemaVersion {
    /// The eight tables that every version has.
    One,
    /// `retired`, too.
    Two,
    /// `image_sha512`, too.
    Three,
    /// `image_repository` and `retired_vehicle`, too, and the secrets of the last root version alone: the version that is made, and to which the
    /// others are raised.
    Four,
}

/// Whether the database has no table, index or view.
fn has_no_table<S: Alter>(conn: &Connection<S>) -> bool
    ensures empty { IsTrue result ↔ ((state S.Store conn.now).now.schema ≡ no_schema) }
    ensures live { IsLive (state S.Store conn.now) }
    ensures settled { (state S.Store conn.now).in_transaction ≡ false → IsTrue (state S.Store conn.now).is_open
        → (state S.Store conn.now).now ≡ (state S.Store conn.now).committed }
{
    let _idle = conn.is_autocommit();
    let schema = conn.schema();
    schema.tables.is_empty() && schema.indexes.is_empty() && schema.views.is_empty()
}

/// Makes the tables, empty but for the row of `meta`, in one transaction, in a database that has none: `Store` where it has. `Memory` for want of
/// memory; else `Store` only where the connection was shut, the disk failed, or the database refuses one of the statements. A fault leaves the
/// database as it was committed.
pub fn create_tables<S: Alter>(conn: &mut Connection<S>) -> Result<(), OpenFault>
    requires { (state S.Store conn.old).in_transaction ≡ false }
    ensures made { OnOk result (IsMade (state S.Store conn.old) (state S.Store conn.new)) }
    ensures ends { Ends (state S.Store conn.old) (state S.Store conn.new)
        (λ trees. HasNoTables (state S.Store conn.old) × AreWith up_schema AreNew trees) }
    ensures full { IsTrue (state S.Store conn.old).is_open → ¬ HasNoTables (state S.Store conn.old)
        → result ≡ Err OpenFault.Store }
    ensures fault { IfErr result (IsUnmade (state S.Store conn.old) (state S.Store conn.new)) }
{
    if !has_no_table(conn) {
        return Err(OpenFault::Store);
    }
    let mut tx = conn.transaction();
    if let Err(fault) = opened(make_all(&mut tx)) {
        return Err(fault);
    }
    opened(tx.commit())
}

/// Takes tables of this product, whatever version of its schema `meta` names, and raises those of an older one in one transaction. `false` where
/// `meta` doesn't name it: where the database refuses the query on it, as one without such a table does, or answers anything but the one row.
/// `Memory` for want of memory; `Store` only where the connection was shut, the disk failed, a limit on steps was met, or `meta` names an older
/// version, and the database refuses one of the statements that raise its tables, or can't take it, as where a table that a raise makes is there
/// already. Whatever it answers but `true`, the database is as it was committed. It looks at `meta` alone, not at which other tables there are:
/// whatever stands beside, a raise makes just its statements, and tables of the latest version are left alone.
pub fn take_tables<S: Alter>(conn: &mut Connection<S>) -> Result<bool, OpenFault>
    requires { (state S.Store conn.old).in_transaction ≡ false }
    ensures taken { IfOk result (Takes (state S.Store conn.old) (state S.Store conn.new)) }
    ensures ends { Ends (state S.Store conn.old) (state S.Store conn.new)
        (λ trees. Raised (state S.Store conn.old) trees × RaisesTo (state S.Store conn.old) trees) }
    ensures fault { IfErr result (IsUntaken (state S.Store conn.old) (state S.Store conn.new)) }
{
    let _idle = conn.is_autocommit();
    let found = version_there(conn);
    match older(found) {
        Some(version) => match raise(conn, version) {
            Ok(()) => Ok(true),
            Err(fault) => Err(fault),
        },
        None => is_ours(found),
    }
}

/// The version that was found, where its tables are to be raised.
fn older(found: Result<Option<SchemaVersion>, OpenFault>) -> Option<SchemaVersion>
    ensures told { result ≡ older_of found }
{
    match found {
        Ok(Some(version)) => match version {
            SchemaVersion::One | SchemaVersion::Two | SchemaVersion::Three => Some(version),
            SchemaVersion::Four => None,
        },
        _ => None,
    }
}

/// Whether the tables are of this product, where none are to be raised: what was found tells it.
fn is_ours(found: Result<Option<SchemaVersion>, OpenFault>) -> Result<bool, OpenFault>
    ensures told { result ≡ ours_told found }
{
    match found {
        Ok(None) => Ok(false),
        Ok(Some(_)) => Ok(true),
        Err(fault) => Err(fault),
    }
}

/// The version of this product's schema that `meta` names, none where it doesn't name one.
fn version_there<S: Alter>(conn: &mut Connection<S>) -> Result<Option<SchemaVersion>, OpenFault>
    requires { (state S.Store conn.old).in_transaction ≡ false }
    ensures named { HasCleanDisk (state S.Store conn.new)
        → IfOk result (λ found. IfSome found (λ version. NamesVersion version (state S.Store conn.old))) }
    ensures others { HasCleanDisk (state S.Store conn.new) → IfOk result (λ found. found ≡ None → NamesOthers
        (state S.Store conn.old)) }
    ensures tells { HasCleanDisk (state S.Store conn.new) → IfOk result (λ found. (version : SchemaVersion)
        → ListsUs version (state S.Store conn.old) → found ≡ Some version) }
    ensures fault { IfErr result (λ e. e ≢ OpenFault.NotOurs) }
    ensures cause { HasCleanDisk (state S.Store conn.new)
        → IfErr result (λ e. e ≡ OpenFault.Store → IsHindered (state S.Store conn.old) (state S.Store conn.new)) }
    ensures kept { IfClean (IsAsCommitted (state S.Store conn.old)) (state S.Store conn.new) }
    ensures autocommit { (state S.Store conn.new).in_transaction ≡ false }
    ensures crash { Survives (state S.Store conn.old) (state S.Store conn.new) (λ _. ⊥) }
    ensures open { HasCleanDisk (state S.Store conn.new) → OnOk result (IsTrue (state S.Store conn.old).is_open) }
{
    let mut tx = conn.transaction();
    meta_told(find_meta(&mut tx))
}

/// The rows of `meta` with the product and the schema.
fn find_meta<S: Alter>(tx: &mut Transaction<'_, S>) -> Result<Vec<Row>, Error>
    requires mode { IfClean IsInside (state S.Store tx.old.conn.now) }
    ensures found { HasCleanDisk (state S.Store tx.new.conn.now) → IfOk result (λ rows. (version : SchemaVersion)
        → IsOurs version rows.items → NamesVersion version (state S.Store tx.old.conn.now)) }
    ensures tells { HasCleanDisk (state S.Store tx.new.conn.now) → IfOk result (λ rows. (version : SchemaVersion)
        → ListsUs version (state S.Store tx.old.conn.now) → IsOurs version rows.items) }
    ensures others { HasCleanDisk (state S.Store tx.new.conn.now) → IfOk result
        (λ rows. ((version : SchemaVersion) → ¬ IsOurs version rows.items) → NamesOthers
        (state S.Store tx.old.conn.now)) }
    ensures refused { HasCleanDisk (state S.Store tx.new.conn.now)
        → IfErr result (λ e. IsTrue (is_refused e) → NamesOthers (state S.Store tx.old.conn.now)) }
    ensures cause { HasCleanDisk (state S.Store tx.new.conn.now) → IfErr result (λ e. is_refused e ≡ false
        → open_fault e ≡ OpenFault.Store → IsHindered (state S.Store tx.old.conn.now) (state S.Store tx.new.conn.now)) }
    ensures open { OnOk result (IfClean IsOpen (state S.Store tx.new.conn.now)) }
    ensures step { IsStep S.Store tx.old.conn tx.new.conn }
{
    tx.query_all("SELECT app, schema FROM meta WHERE id = 1", &[])
}

/// What is told of the query on `meta`, all of it behind the query: the version that its rows name, none where they name none or the database
/// refuses it, else its fault.
fn meta_told(found: Result<Vec<Row>, Error>) -> Result<Option<SchemaVersion>, OpenFault>
    ensures told { TellsMeta found (λ rows. rows.items) result }
    ensures fault { IfErr result (λ e. e ≢ OpenFault.NotOurs) }
{
    match found {
        Ok(rows) => Ok(version_named(&rows)),
        Err(error) => not_ours(error),
    }
}

/// The version of this product's schema that the rows name: one row, with the name and a number.
fn version_named(rows: &[Row]) -> Option<SchemaVersion>
    ensures some { IfSome result (λ version. IsOurs version rows.now) }
    ensures none { result ≡ None → (version : SchemaVersion) → ¬ IsOurs version rows.now }
{
    match rows {
        [row] => {
            if has_our_name(row) {
                version_of(row)
            } else {
                None
            }
        }
        _ => None,
    }
}

/// Whether the row names this product.
fn has_our_name(row: &Row) -> bool
    ensures yes { IsTrue result → column row.now 0 ≡ Text (codes "uptane_desk") }
    ensures no { result ≡ false → column row.now 0 ≢ Text (codes "uptane_desk") }
{
    match row.get_ref(0) {
        Ok(ValueRef::Text(app)) => app == "uptane_desk".as_bytes(),
        _ => false,
    }
}

/// The version of the schema that the row names.
fn version_of(row: &Row) -> Option<SchemaVersion>
    ensures some { IfSome result (λ version. column row.now 1 ≡ Int (pos (number_of version))) }
    ensures none { result ≡ None → (version : SchemaVersion) → column row.now 1 ≢ Int (pos (number_of version)) }
{
    match row.get_ref(1) {
        Ok(ValueRef::Int(number)) => version_numbered(number),
        _ => None,
    }
}

/// The version of this number.
fn version_numbered(number: i64) -> Option<SchemaVersion>
    ensures some { IfSome result (λ version. number ≡ pos (number_of version)) }
    ensures none { result ≡ None → (version : SchemaVersion) → number ≢ pos (number_of version) }
{
    if number == 1 {
        Some(SchemaVersion::One)
    } else if number == 2 {
        Some(SchemaVersion::Two)
    } else if number == 3 {
        Some(SchemaVersion::Three)
    } else if number == 4 {
        Some(SchemaVersion::Four)
    } else {
        None
    }
}

/// What is told of an error of the query on `meta`: the tables aren't ours where the database refuses the query.
fn not_ours(error: Error) -> Result<Option<SchemaVersion>, OpenFault>
    ensures no { IfOk result (λ found. (found ≡ None) × IsTrue (is_refused error)) }
    ensures fault { IfErr result (λ e. (e ≢ OpenFault.NotOurs) × (is_refused error ≡ false)) }
    ensures told { IfErr result (λ e. e ≡ open_fault error) }
{
    match error {
        Error::SqliteFailure(ErrorCode::OutOfMemory) => Err(OpenFault::Memory),
        Error::SqliteFailure(
            ErrorCode::OperationInterrupted
            | ErrorCode::SystemIoFailure
            | ErrorCode::DatabaseCorrupt
            | ErrorCode::DiskFull
            | ErrorCode::TooBig
            | ErrorCode::Closed,
        ) => Err(OpenFault::Store),
        _ => Ok(None),
    }
}

/// Whether a step by which the tables are made or raised was carried out, and else what is told of its error.
pub(crate) fn opened<T: Drop>(step: Result<T, Error>) -> Result<(), OpenFault>
    ensures ok { OnOk result (IsOk step) }
    ensures went { OnOk step (IsOk result) }
    ensures fault { IfErr step (λ e. result ≡ Err (open_fault e)) }
{
    match step {
        Ok(_) => Ok(()),
        Err(error) => Err(opening_fault(error)),
    }
}

/// What is told of an error of the database where its tables are made or raised: `Memory` where memory was refused, else `Store`.
fn opening_fault(error: Error) -> OpenFault
    ensures told { result ≡ open_fault error }
    ensures known { result ≢ OpenFault.NotOurs }
{
    match error {
        Error::SqliteFailure(ErrorCode::OutOfMemory) => OpenFault::Memory,
        _ => OpenFault::Store,
    }
}
