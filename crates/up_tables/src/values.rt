//! Values as they are bound and read, and faults.

ghost use Rattle.std.specs.Prelude.{◌≡◌, ◌≢◌, ◌↔◌, ◌<◌, ◌^◌, ℕ, Bool, List, pos, if◌then◌else◌, None, Ok, Err, OnOk, IfOk, IfErr, IsTrue, IsUtf8, string_bytes};
ghost use Rattle.std.specs.Result.{IsOk};
ghost use Rattle.sqlite.specs.Order.{column};
ghost use Rattle.sqlite.specs.Values.{bound_value, or_null};
ghost use Rattle.sqlite.specs.Value.{owned};
ghost use Rattle.sqlite.specs.declared.types.Value.TheVariants.{Null, Int, Text, Blob};
ghost use Rattle.up_tables.specs.Faults.{store_fault};
ghost use Rattle.up_tables.specs.Kinds.{IsBytes, IsWords};
ghost use Rattle.up_tables.specs.Lines.{yes_or_no};
ghost use Rattle.up_tables.specs.declared.values.StoreFault.TheVariants as StoreFault;

use sqlite::{Error, ErrorCode, Row};
use sqlite_value::value::ValueRef;
use std::alloc::{AllocError, AllocFailed};

/// Why the tables are not read or written.
#[derive(Clone, Copy, Debug, PartialEq, Eq)]
pub enum StoreFault {
    /// Memory was refused.
    Memory,
    /// The database refused, or a row isn't one that this product writes.
    Store,
}

impl From<AllocError> for StoreFault {
    ghost use Rattle.std.specs.Prelude.{◌≡◌};
    ghost use Rattle.up_tables.specs.declared.values.StoreFault.TheVariants.{Memory};

    ghost from_gives = { λ _ fault. fault ≡ Memory };

    fn from(_: AllocError) -> StoreFault {
        StoreFault::Memory
    }
}

impl<T: Drop> From<AllocFailed<T>> for StoreFault {
    ghost use Rattle.std.specs.Prelude.{◌≡◌};
    ghost use Rattle.up_tables.specs.declared.values.StoreFault.TheVariants.{Memory};

    ghost from_gives = { λ _ fault. fault ≡ Memory };

    fn from(_: AllocFailed<T>) -> StoreFault {
        StoreFault::Memory
    }
}

/// What is told of an error of the database: `Memory` where memory was refused, else `Store`.
pub fn fault_of(error: Error) -> StoreFault
    ensures { result ≡ store_fault error }
{
    match error {
        Error::SqliteFailure(ErrorCode::OutOfMemory) => StoreFault::Memory,
        _ => StoreFault::Store,
    }
}

/// Whether a statement was carried out, and else what is told of its error.
pub fn done(written: Result<usize, Error>) -> Result<(), StoreFault>
    ensures ok { OnOk result (IsOk written) }
    ensures went { OnOk written (IsOk result) }
    ensures fault { IfErr written (λ e. result ≡ Err (store_fault e)) }
{
    match written {
        Ok(_) => Ok(()),
        Err(error) => Err(fault_of(error)),
    }
}

/// A number as it is bound.
pub fn number<'a>(n: u64) -> ValueRef<'a>
    requires { n < 2 ^ 63 }
    ensures { bound_value (owned result) ≡ Int (pos n) }
{
    ValueRef::Int(n as i64)
}

/// Yes or no as it is bound.
pub fn flag<'a>(yes: bool) -> ValueRef<'a>
    ensures { bound_value (owned result) ≡ Int (yes_or_no yes) }
{
    if yes { number(1) } else { number(0) }
}

/// A text as it is bound.
pub fn words<'a>(text: &'a str) -> ValueRef<'a>
    ensures { bound_value (owned result) ≡ Text text.now }
{
    ValueRef::Text(text.as_bytes())
}

/// Bytes as they are bound.
pub fn bytes<'a>(blob: &'a [u8]) -> ValueRef<'a>
    ensures { bound_value (owned result) ≡ Blob blob.now }
{
    ValueRef::Blob(blob)
}

/// Whether a column is null, as one that the row doesn't have is too.
pub fn is_null(row: &Row, at: usize) -> bool
    ensures { IsTrue result ↔ (column row.now at ≡ Null) }
{
    match row.get_ref(at) {
        Ok(ValueRef::Null) => true,
        Ok(_) => false,
        Err(_) => true,
    }
}

/// A number that isn't below 0; `Store` where it is.
fn not_below_zero(number: i64) -> Result<u64, StoreFault>
    ensures ok { IfOk result (λ n. number ≡ pos n) }
    ensures fits { IfOk result (λ n. n < 2 ^ 63) }
    ensures fault { IfErr result (λ fault. (fault ≡ StoreFault.Store) × ((n : ℕ) → number ≢ pos n)) }
{
    match u64::try_from(number) {
        Ok(n) => Ok(n),
        Err(_) => Err(StoreFault::Store),
    }
}

/// The number in a column; `Store` where it has none.
pub fn number_at(row: &Row, at: usize) -> Result<u64, StoreFault>
    ensures ok { IfOk result (λ n. column row.now at ≡ Int (pos n)) }
    ensures fits { IfOk result (λ n. n < 2 ^ 63) }
    ensures fault { IfErr result (λ fault. (fault ≡ StoreFault.Store) × ((n : ℕ) → column row.now at ≢ Int (pos n))) }
{
    match row.get_ref(at) {
        Ok(ValueRef::Int(number)) => not_below_zero(number),
        _ => Err(StoreFault::Store),
    }
}

/// Yes or no in a column; `Store` where it has another number, or none.
pub fn flag_at(row: &Row, at: usize) -> Result<bool, StoreFault>
    ensures ok { IfOk result (λ yes. column row.now at ≡ Int (yes_or_no yes)) }
    ensures fault { IfErr result (λ fault. (fault ≡ StoreFault.Store) × ((yes : Bool) → column row.now at ≢ Int
        (yes_or_no yes))) }
{
    match number_at(row, at) {
        Ok(0) => Ok(false),
        Ok(1) => Ok(true),
        Ok(_) => Err(StoreFault::Store),
        Err(fault) => Err(fault),
    }
}

/// Whether a column is a text, in UTF-8.
fn is_text(row: &Row, at: usize) -> bool
    ensures { IsTrue result ↔ IsWords (column row.now at) }
{
    match row.get_ref(at) {
        Ok(ValueRef::Text(text)) => str::from_utf8(text).is_ok(),
        _ => false,
    }
}

/// Whether a column is bytes.
fn is_blob(row: &Row, at: usize) -> bool
    ensures { IsTrue result ↔ IsBytes (column row.now at) }
{
    match row.get_ref(at) {
        Ok(ValueRef::Blob(_)) => true,
        _ => false,
    }
}

/// Whether a column is this text.
pub(crate) fn has_words(row: &Row, at: usize, text: &str) -> bool
    ensures { IsTrue result ↔ (column row.now at ≡ Text text.now) }
{
    match row.get_ref(at) {
        Ok(ValueRef::Text(there)) => there == text.as_bytes(),
        _ => false,
    }
}

/// Whether a column is this number.
pub(crate) fn has_number(row: &Row, at: usize, n: u64) -> bool
    ensures { IsTrue result ↔ (column row.now at ≡ Int (pos n)) }
{
    match number_at(row, at) {
        Ok(there) => there == n,
        Err(_) => false,
    }
}

/// Why a column wasn't read: for want of memory where it has what was asked for.
fn unread(is_there: bool) -> StoreFault
    ensures { result ≡ (if is_there then StoreFault.Memory else StoreFault.Store) }
{
    if is_there {
        StoreFault::Memory
    } else {
        StoreFault::Store
    }
}

/// The text in a column; `Store` where it has none, and only there.
pub fn text_at(row: &Row, at: usize) -> Result<String, StoreFault>
    ensures ok { IfOk result (λ s. column row.now at ≡ Text (string_bytes s)) }
    ensures fault { IfErr result (λ fault. fault ≡ StoreFault.Store → (s : List ℕ) → IsUtf8 s
        → column row.now at ≢ Text s) }
    ensures kind { ((s : List ℕ) → IsUtf8 s → column row.now at ≢ Text s) → result ≡ Err StoreFault.Store }
{
    match row.get::<String>(at) {
        Ok(text) => Ok(text),
        Err(_) => Err(unread(is_text(row, at))),
    }
}

/// The bytes in a column; `Store` where it has none, and only there.
pub fn bytes_at(row: &Row, at: usize) -> Result<Vec<u8>, StoreFault>
    ensures ok { IfOk result (λ b. column row.now at ≡ Blob b.items) }
    ensures fault { IfErr result (λ fault. fault ≡ StoreFault.Store → (b : List ℕ) → column row.now at ≢ Blob b) }
    ensures kind { ((b : List ℕ) → column row.now at ≢ Blob b) → result ≡ Err StoreFault.Store }
{
    match row.get::<Vec<u8>>(at) {
        Ok(blob) => Ok(blob),
        Err(_) => Err(unread(is_blob(row, at))),
    }
}
