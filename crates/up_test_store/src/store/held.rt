//! A connection, and the store over it.
use crate::store::fault::{Fault, opening};
use crate::store::reads::read;
use crate::store::words::first_of;
use crate::store::writes::write;
use sqlite::{Alter, Connection, Error, ErrorCode, Row};
use sqlite_value::value::ValueRef;
use std::alloc::{AllocError, Global};
use up_store::store::Store;

/// A connection by itself, or the store over it.
#[derive(Drop)]
pub(crate) enum Held<S: Alter> {
    Bare(Connection<S>),
    Ours(Store<S>),
}

/// What is held after a call, and what the call answers.
pub(crate) fn called<S: Alter + Drop>(
    alloc: Global,
    held: Held<S>,
    given: &str,
) -> (Held<S>, Result<String, Fault>) {
    match held {
        Held::Bare(conn) => call_connection(alloc, conn, given),
        Held::Ours(store) => call_store(alloc, store, given),
    }
}

fn call_connection<S: Alter + Drop>(
    alloc: Global,
    conn: Connection<S>,
    given: &str,
) -> (Held<S>, Result<String, Fault>) {
    let (word, rest) = first_of(given);
    match word {
        "create" => with_word(alloc, created(conn)),
        "adopt" => with_word(alloc, adopted(conn)),
        "run" => run_alone(alloc, conn, rest),
        "ask" => ask_alone(alloc, conn, rest),
        _ => (Held::Bare(conn), Err(Fault::Misspelled)),
    }
}

fn run_alone<S: Alter + Drop>(
    alloc: Global,
    mut conn: Connection<S>,
    sql: &str,
) -> (Held<S>, Result<String, Fault>) {
    let answer = run(alloc, &mut conn, sql);
    (Held::Bare(conn), answer)
}

fn ask_alone<S: Alter + Drop>(
    alloc: Global,
    mut conn: Connection<S>,
    sql: &str,
) -> (Held<S>, Result<String, Fault>) {
    let answer = ask(alloc, &mut conn, sql);
    (Held::Bare(conn), answer)
}

fn with_word<S: Alter + Drop>(
    alloc: Global,
    opened: (Held<S>, Result<&'static str, Fault>),
) -> (Held<S>, Result<String, Fault>) {
    let (held, answer) = opened;
    (held, word_text(alloc, answer))
}

fn word_text(alloc: Global, answer: Result<&'static str, Fault>) -> Result<String, Fault> {
    match answer {
        Ok(word) => text_of(alloc, word),
        Err(fault) => Err(fault),
    }
}

/// A word, for which memory is asked once more where it is refused: the call that it tells of stands.
fn text_of(alloc: Global, word: &str) -> Result<String, Fault> {
    match word.to_string(alloc) {
        Ok(text) => Ok(text),
        Err(_) => Ok(word.to_string(alloc)?),
    }
}

/// The store over a database of this product, and what is told of that.
pub(crate) fn adopted<S: Alter + Drop>(
    conn: Connection<S>,
) -> (Held<S>, Result<&'static str, Fault>) {
    if !conn.is_autocommit() {
        return (Held::Bare(conn), Ok("a transaction"));
    }
    match Store::adopt(conn) {
        Ok(store) => (Held::Ours(store), Ok("done")),
        Err((conn, fault)) => (Held::Bare(conn), opening(fault)),
    }
}

/// The store over a database whose tables are made, and what is told of that.
fn created<S: Alter + Drop>(conn: Connection<S>) -> (Held<S>, Result<&'static str, Fault>) {
    if !conn.is_autocommit() {
        return (Held::Bare(conn), Ok("a transaction"));
    }
    match Store::create(conn) {
        Ok(store) => (Held::Ours(store), Ok("done")),
        Err((conn, fault)) => (Held::Bare(conn), opening(fault)),
    }
}

fn call_store<S: Alter + Drop>(
    alloc: Global,
    store: Store<S>,
    given: &str,
) -> (Held<S>, Result<String, Fault>) {
    let (word, rest) = first_of(given);
    match word {
        "release" => (Held::Bare(store.release()), text_of(alloc, "done")),
        "write" => write_store(alloc, store, rest),
        _ => read_store(alloc, store, given),
    }
}

fn write_store<S: Alter + Drop>(
    alloc: Global,
    mut store: Store<S>,
    given: &str,
) -> (Held<S>, Result<String, Fault>) {
    let answer = match write(alloc, &mut store, given) {
        Ok(()) => text_of(alloc, "done"),
        Err(fault) => Err(fault),
    };
    (Held::Ours(store), answer)
}

fn read_store<S: Alter + Drop>(
    alloc: Global,
    mut store: Store<S>,
    given: &str,
) -> (Held<S>, Result<String, Fault>) {
    let answer = read(alloc, &mut store, given);
    (Held::Ours(store), answer)
}

fn fault_of(error: Error) -> Fault {
    match error {
        Error::SqliteFailure(ErrorCode::OutOfMemory) => Fault::Memory,
        _ => Fault::Store,
    }
}

fn run<S: Alter>(alloc: Global, conn: &mut Connection<S>, sql: &str) -> Result<String, Fault> {
    match conn.execute(sql, &[]) {
        Ok(_) => text_of(alloc, "done"),
        Err(error) => Err(fault_of(error)),
    }
}

/// The rows of a query: columns with a space between, rows with ` ; `.
fn ask<S: Alter>(alloc: Global, conn: &mut Connection<S>, sql: &str) -> Result<String, Fault> {
    match conn.query_all(sql, &[]) {
        Ok(rows) => Ok(rows_text(alloc, rows.as_slice())?),
        Err(error) => Err(fault_of(error)),
    }
}

fn rows_text(alloc: Global, rows: &[Row]) -> Result<String, AllocError> {
    let mut out = "rows".to_string(alloc)?;
    for row in rows {
        out.push_str(" ;")?;
        push_row(alloc, &mut out, row)?;
    }
    Ok(out)
}

fn push_row(alloc: Global, out: &mut String, row: &Row) -> Result<(), AllocError> {
    for at in 0..row.column_count() {
        out.push(' ')?;
        push_column(alloc, out, row, at)?;
    }
    Ok(())
}

fn push_column(alloc: Global, out: &mut String, row: &Row, at: usize) -> Result<(), AllocError> {
    match row.get_ref(at) {
        Ok(ValueRef::Int(n)) => push_int(alloc, out, n),
        Ok(ValueRef::Text(bytes)) => match std::str::from_utf8(bytes) {
            Ok(text) => out.push_str(text),
            Err(_) => out.push_str("no text"),
        },
        Ok(ValueRef::Blob(bytes)) => push_digits(alloc, out, bytes),
        Ok(ValueRef::Null) => out.push_str("null"),
        _ => out.push_str("other"),
    }
}

fn push_digits(alloc: Global, out: &mut String, bytes: &[u8]) -> Result<(), AllocError> {
    let digits = hex::encode(alloc, bytes)?;
    out.push_str(digits.as_str())
}

fn push_int(alloc: Global, out: &mut String, number: i64) -> Result<(), AllocError> {
    let digits = format!(in alloc; "{number}")?;
    out.push_str(digits.as_str())
}
