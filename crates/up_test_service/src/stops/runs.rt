//! One run of a section at a desk over a machine's files, which may stop.
ghost use Rattle.std.specs.Prelude.{◌≡◌, false};
ghost use Rattle.sqlite.specs.Held.{state};

use crate::stops::cases::{Before, Ended, all_of, carried_out, so_many};
use crate::stops::machine::{Machine, Way};
use crate::stops::together::Together;
use sqlite::{Alter, Connection, FileStore, Files, Options};
use sqlite_disk::Crash;
use std::alloc::{AllocError, Global};
use up_desk::desk::Desk;
use up_sign::hmac_sha256::HmacSha256;
use up_store::store::{OpenFault, Store};

/// Opens the machine's files, carries out the section at a desk over them, and closes them: how that ended.
pub(crate) fn run<D: Crash + Drop>(
    alloc: Global,
    machine: &mut Machine<D>,
    section: &str,
    before: Before,
) -> Result<Ended, AllocError> {
    match machine.take() {
        Some(files) => run_over(alloc, machine, section, before, files),
        None => Ok(Ended::Other("the files are lost".to_string(alloc)?)),
    }
}

fn run_over<D: Crash + Drop>(
    alloc: Global,
    machine: &mut Machine<D>,
    section: &str,
    before: Before,
    files: Files<D>,
) -> Result<Ended, AllocError> {
    match opened(alloc, files) {
        Ok(conn) => run_within(alloc, machine, section, before, conn),
        Err(files) => Ok(stopped(machine, files, so_many(0, 0))),
    }
}

/// A connection over the files, or what is left of files that stop.
fn opened<D: Crash + Drop>(
    alloc: Global,
    files: Files<D>,
) -> Result<Connection<FileStore<D>>, Files<D>> {
    if !files.log.may_be_used() || !files.db.may_be_used() {
        return Err(files);
    }
    match Connection::open_files(alloc, files, options()) {
        Ok(conn) => Ok(conn),
        Err((_, left)) => Err(left.into_files()),
    }
}

/// A cache of few pages: each opening clears the whole of it, and these tables are small.
fn options() -> Options {
    Options {
        cache_pages: 64,
        ..Options::new(1)
    }
}

fn stopped<D: Crash + Drop>(machine: &mut Machine<D>, files: Files<D>, before: Before) -> Ended {
    machine.keep(files);
    Ended::Stopped(before)
}

/// What a run leaves: a connection behind a whole one, and behind another how it ended and what it had of the files.
enum Left<S: Alter> {
    Whole(Connection<S>),
    Cut(Result<Ended, AllocError>, S),
}

/// Carries out the section within the database of a connection. Only a whole run closes that.
fn run_within<D: Crash + Drop>(
    alloc: Global,
    machine: &mut Machine<D>,
    section: &str,
    before: Before,
    conn: Connection<FileStore<D>>,
) -> Result<Ended, AllocError> {
    match carried_out_in(alloc, machine.way, section, before, conn) {
        Left::Whole(conn) => Ok(closed(machine, section, conn)),
        Left::Cut(ended, store) => {
            machine.keep(store.close());
            ended
        }
    }
}

fn carried_out_in<S: Alter + Drop>(
    alloc: Global,
    way: Way,
    section: &str,
    before: Before,
    conn: Connection<S>,
) -> Left<S> {
    match tables_in(conn) {
        Ok(store) => carried_out_at(alloc, way, section, before, store),
        Err(conn) => Left::Cut(Ok(Ended::Stopped(so_many(0, 0))), conn.into_store()),
    }
}

/// The tables in a database, which are created where there are none; or the connection, where the files stop.
fn tables_in<S: Alter>(conn: Connection<S>) -> Result<Store<S>, Connection<S>> {
    if !conn.is_autocommit() {
        return Err(conn);
    }
    match Store::adopt(conn) {
        Ok(store) => Ok(store),
        Err((conn, OpenFault::NotOurs)) => created(conn),
        Err((conn, _)) => Err(conn),
    }
}

fn created<S: Alter>(conn: Connection<S>) -> Result<Store<S>, Connection<S>>
    requires { (state S.Store conn).in_transaction ≡ false }
{
    match Store::create(conn) {
        Ok(store) => Ok(store),
        Err((conn, _)) => Err(conn),
    }
}

/// Carries out the section at a desk over the tables.
fn carried_out_at<S: Alter + Drop>(
    alloc: Global,
    way: Way,
    section: &str,
    before: Before,
    store: Store<S>,
) -> Left<S> {
    match way {
        Way::Apart => {
            let mut desk = Desk::new(HmacSha256, store);
            let ended = carried_out(alloc, &mut desk, section, before);
            left_behind(ended, desk.release().release())
        }
        Way::Together => {
            let mut calls = Together::new(alloc, store);
            let ended = calls.carried_out(alloc, section, before);
            left_behind(ended, calls.release())
        }
    }
}

fn left_behind<S: Alter + Drop>(ended: Result<Ended, AllocError>, conn: Connection<S>) -> Left<S> {
    match ended {
        Ok(Ended::Whole) => Left::Whole(conn),
        ended => Left::Cut(ended, conn.into_store()),
    }
}

/// Closes the connection, whose files may stop in that.
fn closed<D: Crash + Drop>(
    machine: &mut Machine<D>,
    section: &str,
    conn: Connection<FileStore<D>>,
) -> Ended {
    match conn.close_files() {
        Ok(files) => {
            machine.keep(files);
            Ended::Whole
        }
        Err((_, store)) => stopped(machine, store.close(), all_of(section)),
    }
}
