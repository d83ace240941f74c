//! Closing a database file.

ghost use Rattle.std.specs.Prelude.{◌≡◌, IfOk, IfErr};
ghost use Rattle.sqlite.specs.Closing.{IsCopied};
ghost use Rattle.sqlite_wal.specs.Reads.{AreClean};
ghost use Rattle.up_file.specs.Closing.{FailsClosing, closed_fault};

use sqlite::{Connection, Error, FileStore, Files};
use sqlite_disk::Disk;
use up_tables::values::{StoreFault, fault_of};

/// Copies the log into the database file, and gives the files back: the database file then holds the last
/// commit by itself, also after a crash. After a fault the two files hold it together, as they did before,
/// and come back with the fault, as the close left them: `Memory` for want of memory, else `Store`, and that
/// only where the disk counted a failure or the connection was shut. What no transaction committed is left out.
pub fn close_file<D: Disk + Drop>(
    conn: Connection<FileStore<D>>,
) -> Result<Files<D>, (StoreFault, Files<D>)>
    ensures copied { IfOk result (λ files. AreClean D.Disk files.log files.db → IsCopied conn files) }
    ensures failed { IfErr result (FailsClosing conn) }
{
    closed(conn.close_files())
}

/// What is told of a close: the files that it gave back, or the fault of its error and the files of its store.
fn closed<D: Disk + Drop>(
    closed: Result<Files<D>, (Error, FileStore<D>)>,
) -> Result<Files<D>, (StoreFault, Files<D>)>
    ensures told { result ≡ closed_fault closed }
{
    match closed {
        Ok(files) => Ok(files),
        Err((error, store)) => Err((fault_of(error), store.close())),
    }
}
