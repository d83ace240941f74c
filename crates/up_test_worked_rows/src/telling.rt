//! What is told of a row.
use crate::media::{in_files, in_memory};
use crate::row::{Row, row_of};
use crate::scripts::by_script;
use crate::ways::{by_calls, by_run, by_turns_in_files, by_turns_in_memory};
use sqlite::Alter;
use std::alloc::{AllocError, Global};
use up_desk::desk::Desk;
use up_sign::hmac_sha256::HmacSha256;
use up_sign::scheme::Scheme;
use up_test_common::hashed::Hashed;

/// How many lines each way of carrying out the row answered as the row says, or where they differ: a line for each medium.
pub(crate) fn told(alloc: Global, row: &str) -> Result<String, AllocError> {
    match row.split_once('\n') {
        Some((name, lines)) => told_of(alloc, name, &row_of(alloc, lines)?),
        None => format!(in alloc; "{row}: no lines"),
    }
}

fn told_of(alloc: Global, name: &str, row: &Row) -> Result<String, AllocError> {
    match row.method.as_str() {
        "hmac-sha256\n" => told_under(alloc, HmacSha256, name, row),
        "sha256-tag\n" => told_under(alloc, Hashed, name, row),
        _ => format!(in alloc; "{name}: no such scheme"),
    }
}

fn told_under<K: Scheme + Copy>(
    alloc: Global,
    scheme: K,
    name: &str,
    row: &Row,
) -> Result<String, AllocError> {
    let memory = told_in_memory(alloc, scheme, row)?;
    let files = told_in_files(alloc, scheme, row)?;
    format!(in alloc; "{name} {memory}\n{name} {files}")
}

/// A way to carry out a row at one desk.
#[derive(Clone, Copy)]
enum Way {
    /// As a script that is read so many bytes at a time.
    Script(usize),
    /// As one run over the commands.
    Run,
    /// By one call after another.
    Calls,
}

/// The ways over databases in memory.
fn told_in_memory<K: Scheme + Copy>(
    alloc: Global,
    scheme: K,
    row: &Row,
) -> Result<String, AllocError> {
    let whole = over_memory(alloc, scheme, row, Way::Script(1_000_000))?;
    let bytes = over_memory(alloc, scheme, row, Way::Script(1))?;
    let run = over_memory(alloc, scheme, row, Way::Run)?;
    let calls = over_memory(alloc, scheme, row, Way::Calls)?;
    let turns = by_turns_in_memory(alloc, scheme, in_memory(alloc)?, row)?;
    format!(in alloc;
        "in memory: script {whole}, by bytes {bytes}, run {run}, calls {calls}, in turns {turns}"
    )
}

/// The ways over files.
fn told_in_files<K: Scheme + Copy>(
    alloc: Global,
    scheme: K,
    row: &Row,
) -> Result<String, AllocError> {
    let whole = over_files(alloc, scheme, row, Way::Script(1_000_000))?;
    let bytes = over_files(alloc, scheme, row, Way::Script(1))?;
    let run = over_files(alloc, scheme, row, Way::Run)?;
    let calls = over_files(alloc, scheme, row, Way::Calls)?;
    let turns = by_turns_in_files(alloc, scheme, in_files(alloc)?, row)?;
    format!(in alloc;
        "in files: script {whole}, by bytes {bytes}, run {run}, calls {calls}, in turns {turns}"
    )
}

fn over_memory<K: Scheme>(
    alloc: Global,
    scheme: K,
    row: &Row,
    way: Way,
) -> Result<String, AllocError> {
    told_at(alloc, Desk::new(scheme, in_memory(alloc)?), row, way)
}

fn over_files<K: Scheme>(
    alloc: Global,
    scheme: K,
    row: &Row,
    way: Way,
) -> Result<String, AllocError> {
    told_at(alloc, Desk::new(scheme, in_files(alloc)?), row, way)
}

fn told_at<K: Scheme, D: Alter + Drop>(
    alloc: Global,
    mut desk: Desk<K, D>,
    row: &Row,
    way: Way,
) -> Result<String, AllocError> {
    let told = match way {
        Way::Script(most) => by_script(alloc, &mut desk, row, most),
        Way::Run => by_run(alloc, &mut desk, row),
        Way::Calls => by_calls(alloc, &mut desk, row),
    };
    drop(desk);
    told
}
