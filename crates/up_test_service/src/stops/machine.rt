//! A machine whose disks stop, and which is started again.
use sqlite::Files;
use sqlite_disk::{Crash, Disk, Fuse, Memory};
use std::alloc::Global;

/// No disk stops within so many calls.
pub(crate) const NEVER: u64 = 1 << 40;

/// Which of the two disks stops.
#[derive(Clone, Copy, Debug)]
pub(crate) enum Stopping {
    Log,
    Database,
}

/// How the commands of a section are carried out: one by one, or in one run.
#[derive(Clone, Copy, Debug)]
pub(crate) enum Way {
    Apart,
    Together,
}

/// A machine, and the files on its disks while no connection has them.
#[derive(Drop)]
pub(crate) struct Machine<D: Crash> {
    files: Option<Files<D>>,
    pub(crate) way: Way,
}

/// A machine with new files, of which one takes so many calls, and then none until the machine is started again.
pub(crate) fn stopping_after(
    alloc: Global,
    stopping: Stopping,
    way: Way,
    calls: u64,
) -> Machine<Fuse<Memory>> {
    let (log, db) = match stopping {
        Stopping::Log => (calls, NEVER),
        Stopping::Database => (NEVER, calls),
    };
    let files = Files {
        log: Fuse::new(Memory::new(alloc), log),
        db: Fuse::new(Memory::new(alloc), db),
    };
    Machine {
        files: Some(files),
        way,
    }
}

impl<D: Crash + Drop> Machine<D> {
    /// The files, which a connection takes.
    pub(crate) fn take(&mut self) -> Option<Files<D>> {
        self.files.take()
    }

    /// Takes back the files of a connection.
    pub(crate) fn keep(&mut self, files: Files<D>) {
        self.files = Some(files);
    }

    /// Stops the machine and starts it again, which leaves of the files what was synchronised.
    pub(crate) fn start_again(&mut self) {
        if let Some(files) = &mut self.files {
            files.log.crash();
            files.db.crash();
        }
    }

    /// Whether a disk takes no further call.
    pub(crate) fn is_stopped(&mut self) -> bool {
        match &mut self.files {
            Some(files) => takes_no_call(&mut files.log) || takes_no_call(&mut files.db),
            None => false,
        }
    }
}

fn takes_no_call<D: Disk>(disk: &mut D) -> bool {
    !disk.may_be_used() || disk.len().is_err()
}
