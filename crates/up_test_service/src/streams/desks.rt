//! Desks over tables in memory, and over files on disks that are memory.
ghost use Rattle.std.specs.Prelude.{◌≡◌, false, IsTrue, IfOk};
ghost use Rattle.sqlite.specs.Files.{file_state};
ghost use Rattle.sqlite.specs.Held.{state};
ghost use Rattle.sqlite_disk.specs.Memory.{memory_is_usable};

use sqlite::{Alter, Connection, FileStore, Files, MemStore, Options};
use sqlite_disk::Memory;
use std::alloc::{AllocError, Global};
use up_desk::desk::Desk;
use up_service::script::run_script;
use up_sign::hmac_sha256::HmacSha256;
use up_store::store::Store;

/// The moment of all requests: 2026-01-01T00:00:00Z.
pub(crate) const AT: u64 = 1_767_225_600;

/// Where the tables of a desk are kept.
#[derive(Clone, Copy, Debug)]
pub(crate) enum Medium {
    Memory,
    Files,
}

/// A desk over tables in memory, at which nothing is founded.
pub(crate) fn in_memory(alloc: Global) -> Result<Desk<HmacSha256, MemStore>, AllocError> {
    created(Connection::open_in_memory(alloc)?)
}

/// A desk over new files, at which nothing is founded.
pub(crate) fn in_files(alloc: Global) -> Result<Desk<HmacSha256, FileStore<Memory>>, AllocError> {
    let files = Files {
        log: Memory::new(alloc),
        db: Memory::new(alloc),
    };
    created(opened(alloc, files)?)
}

fn opened(alloc: Global, files: Files<Memory>) -> Result<Connection<FileStore<Memory>>, AllocError>
    requires log { IsTrue (memory_is_usable files.log) }
    requires db { IsTrue (memory_is_usable files.db) }
    ensures { IfOk result (λ c. (file_state c).in_transaction ≡ false) }
{
    match Connection::open_files(alloc, files, options()) {
        Ok(conn) => Ok(conn),
        Err(_) => Err(AllocError),
    }
}

/// A cache of few pages: each opening clears the whole of it, and these tables are small.
fn options() -> Options {
    Options {
        cache_pages: 64,
        ..Options::new(1)
    }
}

fn created<D: Alter + Drop>(conn: Connection<D>) -> Result<Desk<HmacSha256, D>, AllocError>
    requires { (state D.Store conn).in_transaction ≡ false }
{
    match Store::create(conn) {
        Ok(store) => Ok(Desk::new(HmacSha256, store)),
        Err(_) => Err(AllocError),
    }
}

/// Carries out a script, whose answers aren't looked at.
pub(crate) fn carry_out<D: Alter>(
    alloc: Global,
    desk: &mut Desk<HmacSha256, D>,
    script: &str,
) -> Result<(), AllocError> {
    let mut reader = script.as_bytes();
    let mut written = Vec::new(alloc);
    match run_script(alloc, desk, &mut reader, &mut written) {
        Ok(_) => Ok(()),
        Err(_) => Err(AllocError),
    }
}
