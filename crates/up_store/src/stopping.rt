//! The program stops.
ghost use Rattle.std.specs.Prelude.{IsTrue};
ghost use Rattle.sqlite.specs.Held.{AreDatabases};
ghost use Rattle.sqlite_trees.specs.View.{IsClean, IsQuiet};
ghost use Rattle.up_store.specs.Stopped.{AreFoundAgain};

use crate::store::Store;
use sqlite::{Alter, FileStore};
use sqlite_disk::Disk;

/// Ends with the files as they are. What a crash could leave of them is what an open finds.
pub fn stop<D: Disk + Drop>(store: Store<FileStore<D>>) -> FileStore<D>
    ensures { AreFoundAgain store result }
{
    files_of(store)
}

/// The files that the connection worked on.
fn files_of<S: Alter + Drop>(store: Store<S>) -> S
    ensures numbered { IsClean (S.Store.view result) → IsTrue (S.Store.view result).is_numbered }
    ensures sound { IsClean (S.Store.view result) → AreDatabases (S.Store.recovers result) }
    ensures quiet { IsQuiet S.Store.view S.Store.faults S.Store.recovers S.Store.is_shielded store.store result }
{
    store.release().into_store()
}
