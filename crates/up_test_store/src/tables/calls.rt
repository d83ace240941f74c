//! Statements by their words.
//!
//! `make` makes the tables, `ours` takes them where they are this product's, and `sql TEXT` runs a statement of one's own. `put WHAT
//! ROWS`, `set WHAT ROWS` and `close CAMPAIGN` write, in a transaction that is committed where nothing failed; all other words
//! read, in a transaction that is dropped, `ask TEXT` by a query of one's own.
ghost use Rattle.std.specs.Prelude.{◌≡◌, false};
ghost use Rattle.sqlite.specs.Held.{state};

use crate::tables::reads::read;
use crate::tables::texts::fault_text;
use crate::tables::words::first_of;
use crate::tables::writes::write;
use sqlite::{Alter, Connection, Error};
use std::alloc::{AllocError, Global};
use up_tables::open::{OpenFault, create_tables, take_tables};
use up_tables::values::{StoreFault, fault_of};
use up_test_common::calls::Calls;
use up_test_common::sections::told;

/// A database, on which the rows of a section are carried out.
#[derive(Drop)]
struct Database<S: Alter + Drop> {
    conn: Connection<S>,
}

impl<S: Alter + Drop> Calls for Database<S> {
    fn answer(&mut self, alloc: Global, _: &str, given: &str) -> Result<String, AllocError> {
        answer(alloc, &mut self.conn, given)
    }

    fn is_wanted(&self, had: &str, wanted: &str) -> bool {
        had == wanted
    }
}

/// What is told of a section, carried out in a database of its own.
pub(crate) fn told_in(alloc: Global, section: &str) -> Result<String, AllocError> {
    match Connection::open_in_memory(alloc) {
        Ok(conn) => told(alloc, &mut Database { conn }, section),
        Err(_) => Err(AllocError),
    }
}

fn answer<S: Alter>(
    alloc: Global,
    conn: &mut Connection<S>,
    given: &str,
) -> Result<String, AllocError> {
    if !conn.is_autocommit() {
        return "a transaction is under way".to_string(alloc);
    }
    let (word, rest) = first_of(given);
    match word {
        "make" => opening_text(alloc, create_tables(conn)),
        "ours" => ours_text(alloc, take_tables(conn)),
        "sql" => ran_text(alloc, conn.execute(rest, &[])),
        "put" | "set" | "close" => written(alloc, conn, given),
        _ => was_read(alloc, conn, given),
    }
}

fn written<S: Alter>(
    alloc: Global,
    conn: &mut Connection<S>,
    given: &str,
) -> Result<String, AllocError>
    requires { (state S.Store conn.old).in_transaction ≡ false }
{
    let mut tx = conn.transaction();
    match write(&mut tx, alloc, given) {
        Ok(word) => committed_text(alloc, tx.commit(), word),
        Err(fault) => fault_text(alloc, fault),
    }
}

fn was_read<S: Alter>(
    alloc: Global,
    conn: &mut Connection<S>,
    given: &str,
) -> Result<String, AllocError>
    requires { (state S.Store conn.old).in_transaction ≡ false }
{
    match read(&mut conn.transaction(), alloc, given) {
        Ok(text) => Ok(text),
        Err(fault) => fault_text(alloc, fault),
    }
}

fn committed_text(
    alloc: Global,
    done: Result<(), Error>,
    word: &'static str,
) -> Result<String, AllocError> {
    match done {
        Ok(()) => word.to_string(alloc),
        Err(error) => fault_text(alloc, fault_of(error)),
    }
}

fn ran_text(alloc: Global, done: Result<usize, Error>) -> Result<String, AllocError> {
    match done {
        Ok(_) => "done".to_string(alloc),
        Err(error) => fault_text(alloc, fault_of(error)),
    }
}

fn opening_text(alloc: Global, done: Result<(), OpenFault>) -> Result<String, AllocError> {
    match done {
        Ok(()) => "done".to_string(alloc),
        Err(fault) => opening_fault_text(alloc, fault),
    }
}

fn ours_text(alloc: Global, taken: Result<bool, OpenFault>) -> Result<String, AllocError> {
    match taken {
        Ok(true) => "yes".to_string(alloc),
        Ok(false) => "no".to_string(alloc),
        Err(fault) => opening_fault_text(alloc, fault),
    }
}

fn opening_fault_text(alloc: Global, fault: OpenFault) -> Result<String, AllocError> {
    match fault {
        OpenFault::Memory => fault_text(alloc, StoreFault::Memory),
        OpenFault::Store => fault_text(alloc, StoreFault::Store),
        OpenFault::NotOurs => "NotOurs".to_string(alloc),
    }
}
