//! Opening a database file.

ghost use Rattle.std.specs.Prelude.{◌≡◌, ◌↔◌, ◌++◌, ℕ, List, true, IfOk, IfErr, IsTrue, codes, Err};
ghost use Rattle.std.specs.Fs.{new_options, with_create_new, with_read, with_write};
ghost use Rattle.up_file.specs.Causes.{IsOfFiles, opening_cause};
ghost use Rattle.up_file.specs.NewFiles.{kind_cause as cause_of_kind, made_cause};
ghost use Rattle.up_file.specs.Opening.{AreFresh, Connects, NamesNoFile, OpensNamed, RefusesFiles, opened_cause};

use sqlite::{Connection, Error, ErrorCode, FileFrom, FileStore, Files, Leftover, Options, Start};
use sqlite_std_file::OpenError;
use std::alloc::Global;
use std::fs::OpenOptions;
use std::hash::{BuildHasher, RandomState};
use std::io;
use std::os::unix::fs::OpenOptionsExt;
use up_program::unopened::Unopened;

/// The file's owner may read and write it, and nobody else may do anything.
const FOR_OWNER: u32 = 0o600;

/// Opens the database file at the path and its log, which no other program then can, until they are dropped: both are synced, and nothing else is
/// done to them yet. Where nothing has that name, an empty file is made, for its owner alone; a missing log is made too. With them comes a number
/// that was drawn at random, which `connect_files` takes as its seed. `Memory` for want of memory, `Locked` for a file that another program has
/// open, `Journal` for one beside which SQLite left a journal, and `Path` for all else: a path that can't be opened or made or is `:memory:` or a
/// URI, and a system without random bytes.
///
/// `start` stands for what the files hold: no clause ties them to the path.
pub fn open_files<S: Start>(
    rt: &HostRuntime,
    path: &str,
    start: S,
) -> Result<(Files<FileFrom<S>>, u64), Unopened>
    ensures fresh { IfOk result (λ opened. AreFresh opened.0) }
    ensures cause { IfErr result IsOfFiles }
    ensures memory { path.now ≡ codes ":memory:" → result ≡ Err Unopened.Path }
    ensures uri { (rest : List ℕ) → path.now ≡ codes "file:" ++ rest → result ≡ Err Unopened.Path }
{
    // First, so that nothing is made or opened where there are no random bytes.
    let Ok(state) = RandomState::new(rt) else {
        return Err(Unopened::Path);
    };
    let mut maker = || make_for_owner(rt, path);
    let mut opener = |start: S|
        ensures { IfOk result AreFresh }
    { sqlite_std_file::open(rt, path, start) };
    let files = open_named(path, start, &mut maker, &mut opener)?;
    Ok((files, state.hash_one(&0u8)))
}

/// A connection over files that `open_files` gave, with the number that came with them: the log's salts are drawn from it. Where the database file
/// is empty, it gets an empty database, with a sum on each page, so that a later open finds most bits that changed in between. `Memory` for want of
/// memory, and `Damaged` where the files hold no sound database or are too large, or their disk fails.
///
/// What is left of the files comes with the cause: a database that they hold is still there, also after a crash. `Leftover::into_files` gives the
/// two back, and dropping it closes them.
pub fn connect_files<S: Start>(
    alloc: Global,
    files: Files<FileFrom<S>>,
    seed: u64,
) -> Result<Connection<FileStore<FileFrom<S>>>, (Unopened, Leftover<FileFrom<S>>)>
    requires fresh { AreFresh files }
    ensures connected { IfOk result Connects }
    ensures refused { IfErr result (RefusesFiles files) }
{
    match Connection::open_files_with(alloc, files, Options::new(seed), true) {
        Ok(conn) => Ok(conn),
        Err((error, left)) => Err((why(error), left)),
    }
}

/// What `opener` opens, once `maker` has made a file where nothing has that name. Each is asked once at most, and neither is for a
/// path that names no file.
fn open_named<
    S: Drop,
    F,
    M: FnMut() -> Result<(), io::ErrorKind>,
    O: FnMut(S) -> Result<F, OpenError>,
>(path: &str, start: S, maker: &mut M, opener: &mut O) -> Result<F, Unopened>
    requires maker { M.IsAlwaysCallable maker.old }
    requires opener { O.IsAlwaysCallable opener.old }
    ensures named { OpensNamed path.now (λ made. M.step maker.old made maker.new) (maker.new ≡ maker.old)
        (λ opened. O.step opener.old start opened opener.new) (opener.new ≡ opener.old) result }
    ensures cause { IfErr result IsOfFiles }
{
    if names_no_file(path) {
        return Err(Unopened::Path);
    }
    made(maker())?;
    opened(opener(start))
}

/// Whether the path is that of a database in memory, or a URI.
fn names_no_file(path: &str) -> bool
    ensures { IsTrue result ↔ NamesNoFile path.now }
{
    path == ":memory:" || path.starts_with("file:")
}

/// Makes an empty file that its owner alone may read and write, where nothing has that name.
fn make_for_owner(rt: &HostRuntime, path: &str) -> Result<(), io::ErrorKind> {
    match new_file().mode(FOR_OWNER).open(rt, path) {
        Ok(_) => Ok(()),
        Err(error) => Err(error.kind()),
    }
}

/// How a file is made: to be read and written, and only where nothing has its name.
fn new_file() -> OpenOptions
    ensures { result ≡ with_create_new (with_write (with_read new_options true) true) true }
{
    let mut options = OpenOptions::new();
    options.read(true).write(true).create_new(true);
    options
}

/// What is told where a file was made, or was not: one that is there already is no fault.
fn made(made: Result<(), io::ErrorKind>) -> Result<(), Unopened>
    ensures told { result ≡ made_cause made }
    ensures known { IfErr result IsOfFiles }
{
    match made {
        Ok(()) | Err(io::ErrorKind::AlreadyExists) => Ok(()),
        Err(kind) => Err(kind_cause(kind)),
    }
}

/// What is told where the files were opened, or were not.
fn opened<F>(opened: Result<F, OpenError>) -> Result<F, Unopened>
    ensures told { result ≡ opened_cause opened }
    ensures known { IfErr result IsOfFiles }
{
    match opened {
        Ok(files) => Ok(files),
        Err(OpenError::OutOfMemory) => Err(Unopened::Memory),
        Err(OpenError::Io(error)) => Err(kind_cause(error.kind())),
        Err(OpenError::Busy) => Err(Unopened::Locked),
        Err(OpenError::HotJournal) => Err(Unopened::Journal),
    }
}

/// What is told of an error of the operating system: `Memory` where memory was refused, else `Path`.
fn kind_cause(kind: io::ErrorKind) -> Unopened
    ensures told { result ≡ cause_of_kind kind }
    ensures known { IsOfFiles result }
{
    match kind {
        io::ErrorKind::OutOfMemory => Unopened::Memory,
        _ => Unopened::Path,
    }
}

/// What is told of an error of the database where it is opened: `Memory` where memory was refused, else `Damaged`.
fn why(error: Error) -> Unopened
    ensures told { result ≡ opening_cause error }
    ensures known { IsOfFiles result }
{
    match error {
        Error::SqliteFailure(ErrorCode::OutOfMemory) => Unopened::Memory,
        _ => Unopened::Damaged,
    }
}
