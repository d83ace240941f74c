//! Files on disks that can be started again after a crash.
use sqlite::{Connection, FileStore, Files, Options};
use sqlite_disk::{Crash, Disk, Fuse, Memory};
use std::alloc::{AllocError, Global};

/// New files on disks that are memory.
pub(crate) fn new_files(alloc: Global) -> Files<Memory> {
    Files {
        log: Memory::new(alloc),
        db: Memory::new(alloc),
    }
}

/// The files, of which the log and the database file take so many more calls, and then fail until they are started again.
pub(crate) fn failing_files(files: Files<Memory>, log: u64, db: u64) -> Files<Fuse<Memory>> {
    Files {
        log: Fuse::new(files.log, log),
        db: Fuse::new(files.db, db),
    }
}

/// The files of a connection, closed and opened again. Where they can't be closed, the machine is started again.
pub(crate) fn closed_and_opened<D: Crash + Drop>(
    alloc: Global,
    conn: Connection<FileStore<D>>,
) -> Option<Connection<FileStore<D>>> {
    match conn.close_files() {
        Ok(files) => opened(alloc, files),
        Err((_, store)) => opened(alloc, started_again(store.close())),
    }
}

/// A connection over files; where they can't be opened, once more after a new start of the machine.
pub(crate) fn opened<D: Crash + Drop>(
    alloc: Global,
    files: Files<D>,
) -> Option<Connection<FileStore<D>>> {
    match opened_once(alloc, files) {
        Ok(conn) => Some(conn),
        Err(files) => opened_at_last(alloc, started_again(files)),
    }
}

fn opened_at_last<D: Disk + Drop>(
    alloc: Global,
    files: Files<D>,
) -> Option<Connection<FileStore<D>>> {
    match opened_once(alloc, files) {
        Ok(conn) => Some(conn),
        Err(_) => None,
    }
}

fn opened_once<D: Disk + Drop>(
    alloc: Global,
    files: Files<D>,
) -> Result<Connection<FileStore<D>>, Files<D>> {
    if !files.log.may_be_used() || !files.db.may_be_used() {
        return Err(files);
    }
    match Connection::open_files(alloc, files, options()) {
        Ok(conn) => Ok(conn),
        Err((_, left)) => Err(left.into_files()),
    }
}

/// A cache of few pages: each opening clears the whole of it, and these tables are small.
fn options() -> Options {
    Options {
        cache_pages: 64,
        ..Options::new(1)
    }
}

/// What a crash leaves of the files.
fn started_again<D: Crash>(files: Files<D>) -> Files<D> {
    let mut left = files;
    left.log.crash();
    left.db.crash();
    left
}

/// All bytes of a file; none where it can't be read.
pub(crate) fn bytes_of<D: Disk>(alloc: Global, disk: &mut D) -> Result<Vec<u8>, AllocError> {
    let mut bytes = Vec::new(alloc);
    if !disk.may_be_used() {
        return Ok(bytes);
    }
    match disk.len() {
        Ok(length) => bytes.resize(length, 0)?,
        Err(_) => return Ok(bytes),
    }
    if disk.read_at(0, &mut bytes).is_err() {
        bytes.clear();
    }
    Ok(bytes)
}
