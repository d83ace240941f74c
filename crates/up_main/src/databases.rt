//! Databases: in memory, or in a file.
ghost use Rattle.std.specs.Prelude.{◌≡◌, false, Err, IfOk};
ghost use Rattle.up_file.specs.Schemes.{IsTakenFor};
ghost use Rattle.sqlite.specs.Files.{file_state};
ghost use Rattle.sqlite.specs.Held.{state};

use crate::connections::{Place, serve};
use crate::scripts::answer_lines;
use sqlite::{Alter, Connection, FileFrom, FileStore, Unknown};
use sqlite_disk::Disk;
use std::alloc::Global;
use std::fs;
use up_desk::desk::Desk;
use up_file::adopting::{adopt_or_create, take_for};
use up_file::causes::cause_of;
use up_file::closing::close_file;
use up_file::opening::{connect_files, open_files};
use up_program::closing::closing;
use up_program::failure::{Failure, told};
use up_program::files::{is_memory, journal_of, may_open};
use up_program::unopened::Unopened;
use up_sign::scheme::Scheme;

/// What is done over a database.
#[derive(Drop)]
pub(crate) enum Work {
    /// The script on standard input is carried out.
    Script,
    /// HTTP is answered there, and scripts.
    Serve(Place),
}

/// Works over the database of this name: `:memory:` is one in memory, any other name a file's. Its tables are made where they
/// aren't there.
pub(crate) fn work_over<K: Scheme>(
    rt: &HostRuntime,
    scheme: K,
    name: &str,
    work: Work,
) -> Result<(), Failure> {
    if is_memory(name) {
        return over_memory(rt, scheme, work);
    }
    over_file(rt, scheme, name, work)
}

fn over_memory<K: Scheme>(rt: &HostRuntime, scheme: K, work: Work) -> Result<(), Failure> {
    let Ok(conn) = Connection::open_in_memory(rt.alloc()) else {
        return not_opened(rt, Unopened::Memory);
    };
    match adopt_or_create(conn) {
        Ok(store) => {
            let mut desk = Desk::new(scheme, store);
            let ended = work_at(rt, &mut desk, work);
            // The connection is what is dropped, which has a drop of its own: the proof of a desk's goes through all its parts.
            released(desk);
            ended
        }
        Err(_) => not_opened(rt, Unopened::Memory),
    }
}

/// Tells why no database is opened.
fn not_opened(rt: &HostRuntime, cause: Unopened) -> Result<(), Failure>
    ensures { result ≡ Err (Failure.Unopened cause) }
{
    told(&mut rt.stderr(), Err(Failure::Unopened(cause)))
}

/// A file whose keys are another scheme's stays as it is.
fn over_file<K: Scheme>(
    rt: &HostRuntime,
    scheme: K,
    path: &str,
    work: Work,
) -> Result<(), Failure> {
    if let Some(cause) = hindrance(rt, path) {
        return not_opened(rt, cause);
    }
    match connected(rt, path) {
        Ok(conn) => over_files(rt, scheme, conn, work),
        Err(cause) => not_opened(rt, cause),
    }
}

/// Works over a database in files. At the end its log is copied into its file; where it can't be, the next run finds all that was
/// committed in the log.
///
/// Each call here that takes or gives a desk costs the proof ten seconds, since it is over files. So `desk_over` and `released`, which
/// are over any database, hold the others.
fn over_files<K: Scheme, D: Disk + Drop>(
    rt: &HostRuntime,
    scheme: K,
    conn: Connection<FileStore<D>>,
    work: Work,
) -> Result<(), Failure>
    requires mode { (file_state conn).in_transaction ≡ false }
{
    match desk_over(rt.alloc(), scheme, conn) {
        Ok(desk) => closing(
            desk,
            |desk| work_at(rt, desk, work),
            |desk| {
                close_file(released(desk)).ok();
            },
        ),
        Err(cause) => not_opened(rt, cause),
    }
}

/// A desk over a database that is this scheme's; or why it isn't, or can't be taken.
fn desk_over<K: Scheme, D: Alter + Drop>(
    alloc: Global,
    scheme: K,
    conn: Connection<D>,
) -> Result<Desk<K, D>, Unopened>
    requires mode { (state D.Store conn).in_transaction ≡ false }
    ensures scheme { IfOk result (λ desk. desk.scheme ≡ scheme) }
    ensures taken { IfOk result (λ desk. IsTakenFor (state D.Store) (K.rules scheme).method (state D.Store conn) (state D.Store desk.store.held)) }
{
    match take_for(alloc, scheme.method(), conn) {
        Ok(store) => Ok(Desk::new(scheme, store)),
        Err((mut conn, fault)) => Err(cause_of(&mut conn, fault)),
    }
}

/// The connection that a desk is over.
fn released<K: Scheme, D: Alter>(desk: Desk<K, D>) -> Connection<D>
    ensures { result ≡ desk.store.held }
{
    desk.release().release()
}

/// A connection over the database file at the path and its log; or why they can't be opened, or no connection can be made over
/// them.
fn connected(
    rt: &HostRuntime,
    path: &str,
) -> Result<Connection<FileStore<FileFrom<Unknown>>>, Unopened>
    ensures mode { IfOk result (λ c. (file_state c).in_transaction ≡ false) }
{
    let (files, seed) = open_files(rt, path, Unknown)?;
    match connect_files(rt.alloc(), files, seed) {
        Ok(conn) => Ok(conn),
        Err((cause, _)) => Err(cause),
    }
}

/// Why no database file may stand at the path, and beside it its log and the journal that SQLite looks for: then nothing is
/// made there, and what is there stays.
fn hindrance(rt: &HostRuntime, path: &str) -> Option<Unopened> {
    let Ok(journal) = journal_of(rt.alloc(), path) else {
        return Some(Unopened::Memory);
    };
    if fs::exists(rt, journal.as_str()).is_err() {
        return Some(Unopened::Path);
    }
    let length = match fs::metadata(rt, path) {
        Ok(found) => Some(found.len()),
        Err(_) => None,
    };
    if may_open(length, &mut || fs::read(rt, path).ok()) {
        None
    } else {
        Some(Unopened::Damaged)
    }
}

fn work_at<K: Scheme, D: Alter>(
    rt: &HostRuntime,
    desk: &mut Desk<K, D>,
    work: Work,
) -> Result<(), Failure> {
    match work {
        Work::Script => answer_lines(rt, desk),
        Work::Serve(place) => serve(rt, desk, &place),
    }
}
