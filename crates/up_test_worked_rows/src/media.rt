//! Where the tables of a desk are kept: in memory, or in files on disks that are memory.
ghost use Rattle.std.specs.Prelude.{◌≡◌, false, IfOk, IsTrue};
ghost use Rattle.sqlite.specs.Files.{file_state};
ghost use Rattle.sqlite.specs.Held.{state};
ghost use Rattle.sqlite_disk.specs.Memory.{memory_is_usable};

use sqlite::{Alter, Connection, FileStore, Files, MemStore, Options};
use sqlite_disk::Memory;
use std::alloc::{AllocError, Global};
use up_store::store::Store;

/// The tables in a new database in memory.
pub(crate) fn in_memory(alloc: Global) -> Result<Store<MemStore>, AllocError> {
    created(Connection::open_in_memory(alloc)?)
}

/// The tables of the same database, let go of and taken again.
pub(crate) fn memory_again(store: Store<MemStore>) -> Result<Store<MemStore>, AllocError> {
    adopted(store.release())
}

/// The tables in new files.
pub(crate) fn in_files(alloc: Global) -> Result<Store<FileStore<Memory>>, AllocError> {
    let files = Files {
        log: Memory::new(alloc),
        db: Memory::new(alloc),
    };
    created(opened(alloc, files)?)
}

/// The tables of the same files, closed and opened again.
pub(crate) fn files_again(
    alloc: Global,
    store: Store<FileStore<Memory>>,
) -> Result<Store<FileStore<Memory>>, AllocError> {
    match store.release().close_files() {
        Ok(files) => adopted(opened(alloc, files)?),
        Err((_, store)) => {
            drop(store.close());
            Err(AllocError)
        }
    }
}

fn opened(alloc: Global, files: Files<Memory>) -> Result<Connection<FileStore<Memory>>, AllocError>
    requires log { IsTrue (memory_is_usable files.log) }
    requires db { IsTrue (memory_is_usable files.db) }
    ensures { IfOk result (λ c. (file_state c).in_transaction ≡ false) }
{
    match Connection::open_files(alloc, files, options()) {
        Ok(conn) => Ok(conn),
        Err(_) => Err(AllocError),
    }
}

/// A cache of few pages: each opening clears the whole of it, and these tables are small.
fn options() -> Options {
    Options {
        cache_pages: 64,
        ..Options::new(1)
    }
}

fn created<D: Alter + Drop>(conn: Connection<D>) -> Result<Store<D>, AllocError>
    requires { (state D.Store conn).in_transaction ≡ false }
{
    match Store::create(conn) {
        Ok(store) => Ok(store),
        Err(_) => Err(AllocError),
    }
}

fn adopted<D: Alter + Drop>(conn: Connection<D>) -> Result<Store<D>, AllocError>
    requires { (state D.Store conn).in_transaction ≡ false }
{
    match Store::adopt(conn) {
        Ok(store) => Ok(store),
        Err(_) => Err(AllocError),
    }
}
