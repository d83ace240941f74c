//! Columns as values of their types: a column that isn't one is answered `Store`.
ghost use Rattle.std.specs.Prelude.{◌≡◌, ◌≢◌, ◌<◌, ◌≤◌, ◌^◌, ℕ, List, pos, true, false, length, Option, None, Ok, Err, IfOk, IfErr, IsUtf8, OnOk, string_bytes};
ghost use Rattle.sqlite.specs.Order.{column};
ghost use Rattle.sqlite.specs.declared.types.Value.TheVariants as Value;
ghost use Rattle.up_canon.specs.Canon.{max_count};
ghost use Rattle.up_canon.specs.Moments.{last_moment};
ghost use Rattle.up_canon.specs.Names.{is_ident, is_file_name};
ghost use Rattle.up_tables.specs.Kinds.{IsText};
ghost use Rattle.up_tables.specs.declared.values.StoreFault.TheVariants.{Store};
ghost use Rattle.up_columns.specs.PlanColumns.{plan_column, plan_in};
ghost use Rattle.up_columns.specs.Typed.{is_typed_plan};
ghost use Rattle.up_plan.specs.declared.assigned.Plan.{Plan as PlanData};
ghost use Rattle.up_store.specs.ColumnRows.{column_fault};
ghost use Rattle.up_store.specs.ReadAs.{IsColumnOf, IsTextOrNull};

use crate::store::{MOST_NUMBER, MOST_ROWS, StoreFault};
use sqlite::Row;
use sqlite_value::value::ValueRef;
use std::alloc::Global;
use up_canon::count::Count;
use up_canon::file_name::FileName;
use up_canon::ident::Ident;
use up_canon::moment::Moment;
use up_canon::refusal::Refusal;
use up_canon::text::Text;
use up_columns::plans::read_plan;
use up_plan::assigned::Plan;
use up_tables::values::{is_null, number_at, text_at};

/// The text as an identifier.
pub fn ident_in(text: String) -> Result<Ident, StoreFault>
    ensures ok { IfOk result (λ name. name ≡ string_bytes text) }
    ensures fault { IfErr result (λ fault. (fault ≡ Store) × (is_ident (string_bytes text) ≡ false)) }
{
    match Ident::new(text) {
        Some(name) => Ok(name),
        None => Err(StoreFault::Store),
    }
}

/// The text as a filename.
pub fn file_name_in(text: String) -> Result<FileName, StoreFault>
    ensures ok { IfOk result (λ name. name ≡ string_bytes text) }
    ensures fault { IfErr result (λ fault. (fault ≡ Store) × (is_file_name (string_bytes text) ≡ false)) }
{
    match FileName::new(text) {
        Some(name) => Ok(name),
        None => Err(StoreFault::Store),
    }
}

/// The number as a count.
pub fn count_in(number: u64) -> Result<Count, StoreFault>
    ensures ok { IfOk result (λ count. count ≡ number) }
    ensures fault { IfErr result (λ fault. (fault ≡ Store) × (max_count < number)) }
{
    match Count::new(number) {
        Some(count) => Ok(count),
        None => Err(StoreFault::Store),
    }
}

/// The number of seconds as a moment.
pub fn moment_in(second: u64) -> Result<Moment, StoreFault>
    ensures ok { IfOk result (λ moment. moment ≡ second) }
    ensures fault { IfErr result (λ fault. (fault ≡ Store) × (last_moment < second)) }
{
    match Moment::new(second) {
        Some(moment) => Ok(moment),
        None => Err(StoreFault::Store),
    }
}

/// The number as a threshold.
pub fn threshold_in(number: u64) -> Result<u32, StoreFault>
    ensures ok { IfOk result (λ threshold. threshold ≡ number) }
    ensures fault { IfErr result (λ fault. (fault ≡ Store) × (2 ^ 32 ≤ number)) }
{
    if number <= u32::MAX as u64 {
        Ok(number as u32)
    } else {
        Err(StoreFault::Store)
    }
}

/// The bytes as a SHA-256.
pub fn sha256_in(bytes: &[u8]) -> Result<[u8; 32], StoreFault>
    ensures ok { IfOk result (λ hash. hash ≡ bytes.now) }
    ensures fault { IfErr result (λ fault. (fault ≡ Store) × (length bytes.now ≢ 32)) }
{
    match <[u8; 32]>::try_from(bytes) {
        Ok(hash) => Ok(hash),
        Err(_) => Err(StoreFault::Store),
    }
}

/// The bytes as a SHA-512.
pub fn sha512_in(bytes: &[u8]) -> Result<[u8; 64], StoreFault>
    ensures ok { IfOk result (λ hash. hash ≡ bytes.now) }
    ensures fits { OnOk result (length bytes.now ≡ 64) }
    ensures fault { IfErr result (λ fault. (fault ≡ Store) × (length bytes.now ≢ 64)) }
{
    match <[u8; 64]>::try_from(bytes) {
        Ok(hash) => Ok(hash),
        Err(_) => Err(StoreFault::Store),
    }
}

/// What was read of a column that is JSON; `Store` where it isn't what a call writes.
pub fn read_column<T: Drop>(read: Result<T, Refusal>) -> Result<T, StoreFault>
    ensures ok { IfOk result (λ x. read ≡ Ok x) }
    ensures went { IfOk read (λ x. result ≡ Ok x) }
    ensures fault { IfErr read (λ r. result ≡ Err (column_fault r)) }
{
    match read {
        Ok(x) => Ok(x),
        Err(Refusal::Memory) => Err(StoreFault::Memory),
        Err(_) => Err(StoreFault::Store),
    }
}

/// Refuses a version of 2^63 or more, which no column holds.
pub fn check_version(version: u64) -> Result<(), StoreFault>
    ensures ok { OnOk result (version < 2 ^ 63) }
    ensures fault { IfErr result (λ fault. (fault ≡ Store) × (2 ^ 63 ≤ version)) }
{
    if version > MOST_NUMBER {
        return Err(StoreFault::Store);
    }
    Ok(())
}

/// Refuses 2^63 rows of a vehicle or more, whose places no column holds.
pub fn check_places(rows: usize) -> Result<(), StoreFault>
    ensures ok { OnOk result (rows < 2 ^ 63) }
    ensures fault { IfErr result (λ fault. (fault ≡ Store) × (2 ^ 63 ≤ rows)) }
{
    if rows > MOST_ROWS {
        return Err(StoreFault::Store);
    }
    Ok(())
}

// ---- columns of a row

/// The identifier in a column; `Store` where it has none.
pub fn ident_at(row: &Row, at: usize) -> Result<Ident, StoreFault>
    ensures ok { IfOk result (IsText (column row.now at)) }
    ensures fault { IfErr result (λ fault. fault ≡ Store → (name : List ℕ) → is_ident name ≡ true
        → column row.now at ≢ Value.Text name) }
    ensures kind { ((s : List ℕ) → IsUtf8 s → column row.now at ≢ Value.Text s) → result ≡ Err Store }
{
    match text_at(row, at) {
        Ok(text) => ident_in(text),
        Err(fault) => Err(fault),
    }
}

/// The filename in a column; `Store` where it has none.
pub fn file_name_at(row: &Row, at: usize) -> Result<FileName, StoreFault>
    ensures ok { IfOk result (IsText (column row.now at)) }
    ensures fault { IfErr result (λ fault. fault ≡ Store → (name : List ℕ) → is_file_name name ≡ true
        → column row.now at ≢ Value.Text name) }
    ensures kind { ((s : List ℕ) → IsUtf8 s → column row.now at ≢ Value.Text s) → result ≡ Err Store }
{
    match text_at(row, at) {
        Ok(text) => file_name_in(text),
        Err(fault) => Err(fault),
    }
}

/// The text in a column; `Store` where it has none.
pub fn words_at(row: &Row, at: usize) -> Result<Text, StoreFault>
    ensures ok { IfOk result (IsText (column row.now at)) }
    ensures fault { IfErr result (λ fault. fault ≡ Store → (text : List ℕ) → IsUtf8 text
        → column row.now at ≢ Value.Text text) }
    ensures kind { ((s : List ℕ) → IsUtf8 s → column row.now at ≢ Value.Text s) → result ≡ Err Store }
{
    match text_at(row, at) {
        Ok(text) => Ok(Text::new(text)),
        Err(fault) => Err(fault),
    }
}

/// The text in a column, none where it is null; `Store` where it has anything else.
pub fn words_or_null_at(row: &Row, at: usize) -> Result<Option<Text>, StoreFault>
    ensures ok { IfOk result (IsTextOrNull (column row.now at)) }
    ensures fault { IfErr result (λ fault. fault ≡ Store → (text : Option (List ℕ)) → ¬ IsTextOrNull
        (column row.now at) text) }
    ensures none { column row.now at ≡ Value.Null → result ≡ Ok None }
    ensures kind { column row.now at ≢ Value.Null → ((s : List ℕ) → IsUtf8 s → column row.now at ≢ Value.Text s)
        → result ≡ Err Store }
{
    if is_null(row, at) {
        return Ok(None);
    }
    match words_at(row, at) {
        Ok(text) => Ok(Some(text)),
        Err(fault) => Err(fault),
    }
}

/// The count in a column; `Store` where it has none.
pub fn count_at(row: &Row, at: usize) -> Result<Count, StoreFault>
    ensures ok { IfOk result (λ count. column row.now at ≡ Value.Int (pos count)) }
    ensures fault { IfErr result (λ fault. (fault ≡ Store) × ((n : ℕ) → n ≤ max_count → column row.now at ≢ Value.Int
        (pos n))) }
{
    let number = number_at(row, at)?;
    count_in(number)
}

/// The moment in a column; `Store` where it has none.
pub fn moment_at(row: &Row, at: usize) -> Result<Moment, StoreFault>
    ensures ok { IfOk result (λ moment. column row.now at ≡ Value.Int (pos moment)) }
    ensures fault { IfErr result (λ fault. (fault ≡ Store) × ((n : ℕ) → n ≤ last_moment → column row.now at ≢ Value.Int
        (pos n))) }
{
    let number = number_at(row, at)?;
    moment_in(number)
}

/// The plan in a column; `Store` where it has none.
pub fn plan_at(alloc: Global, row: &Row, at: usize) -> Result<Plan, StoreFault>
    ensures said { IfOk result (IsColumnOf plan_in (column row.now at)) }
    ensures same { IfOk result (λ plan. (other : PlanData) → is_typed_plan other ≡ true → column row.now at ≡ Value.Text
        (plan_column other) → plan ≡ other) }
    ensures fault { IfErr result (λ fault. fault ≡ Store
        → (other : PlanData) → is_typed_plan other ≡ true → column row.now at ≢ Value.Text (plan_column other)) }
    ensures damaged { IfErr result (λ fault. fault ≡ Store → (other : PlanData) → ¬ IsColumnOf plan_in
        (column row.now at) other) }
    ensures kind { ((s : List ℕ) → IsUtf8 s → column row.now at ≢ Value.Text s) → result ≡ Err Store }
{
    match text_at(row, at) {
        Ok(text) => read_column(read_plan(alloc, text.as_str())),
        Err(fault) => Err(fault),
    }
}

/// The SHA-256 in a column; `Store` where it has none. It is copied to where it stands, and takes no memory.
pub fn sha256_at(row: &Row, at: usize) -> Result<[u8; 32], StoreFault>
    ensures ok { IfOk result (λ hash. column row.now at ≡ Value.Blob hash) }
    ensures fault { IfErr result (λ fault. (fault ≡ Store) × ((hash : List ℕ) → length hash ≡ 32
        → column row.now at ≢ Value.Blob hash)) }
{
    match row.get_ref(at) {
        Ok(ValueRef::Blob(bytes)) => sha256_in(bytes),
        _ => Err(StoreFault::Store),
    }
}

/// The SHA-512 in a column; `Store` where it has none. It is copied to where it stands, and takes no memory.
pub fn sha512_at(row: &Row, at: usize) -> Result<[u8; 64], StoreFault>
    ensures ok { IfOk result (λ hash. column row.now at ≡ Value.Blob hash) }
    ensures whole { IfOk result (λ hash. length hash ≡ 64) }
    ensures fault { IfErr result (λ fault. (fault ≡ Store) × ((hash : List ℕ) → length hash ≡ 64
        → column row.now at ≢ Value.Blob hash)) }
{
    match row.get_ref(at) {
        Ok(ValueRef::Blob(bytes)) => sha512_in(bytes),
        _ => Err(StoreFault::Store),
    }
}
