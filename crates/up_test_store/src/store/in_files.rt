//! Databases in files, on disks that can be started again after a crash.
use crate::store::disks::{bytes_of, closed_and_opened, opened};
use crate::store::fault::Fault;
use crate::store::held::{Held, adopted, called};
use crate::store::seen::{Reads, after_memory, after_store, opens};
use sqlite::{Connection, FileStore, Files};
use sqlite_disk::Crash;
use std::alloc::{AllocError, Global};
use up_test_common::calls::Calls;

/// A database in files, which are closed and opened again before each call if they are used in turns; and the bytes that both files
/// had when they were last compared.
#[derive(Drop)]
pub(crate) struct InFiles<D: Crash> {
    held: Option<Held<FileStore<D>>>,
    reads: Reads,
    in_turns: bool,
    log: Vec<u8>,
    db: Vec<u8>,
}

impl<D: Crash + Drop> InFiles<D> {
    pub(crate) fn new(alloc: Global, files: Files<D>, in_turns: bool) -> InFiles<D> {
        InFiles {
            held: bare(opened(alloc, files)),
            reads: Reads::new(alloc),
            in_turns,
            log: Vec::new(alloc),
            db: Vec::new(alloc),
        }
    }

    /// The files, where they are still held.
    pub(crate) fn into_files(mut self) -> Option<Files<D>> {
        let held = self.held.take();
        drop(self);
        match held {
            Some(Held::Bare(conn)) => Some(conn.into_store().close()),
            Some(Held::Ours(store)) => Some(store.release().into_store().close()),
            None => None,
        }
    }

    fn call(&mut self, alloc: Global, given: &str) -> Result<String, Fault> {
        match self.held.take() {
            Some(held) => self.call_again(alloc, held, given),
            None => Err(Fault::Misspelled),
        }
    }

    /// What a call answers, and where it is refused, what it answers once more.
    fn call_again(
        &mut self,
        alloc: Global,
        held: Held<FileStore<D>>,
        given: &str,
    ) -> Result<String, Fault> {
        let (held, first) = called(alloc, held, given);
        match first {
            Err(Fault::Memory) => {
                let (held, answer) = after_memory(alloc, held, &self.reads, given);
                self.held = Some(held);
                answer
            }
            Err(Fault::Store) => self.after_store(alloc, again(alloc, held), given),
            other => {
                self.held = Some(held);
                other
            }
        }
    }

    fn after_store(
        &mut self,
        alloc: Global,
        held: Option<Held<FileStore<D>>>,
        given: &str,
    ) -> Result<String, Fault> {
        let Some(held) = held else {
            return Err(Fault::Store);
        };
        let (held, answer) = after_store(alloc, held, &self.reads, given);
        self.held = Some(if answer.is_ok() {
            tables_taken(held, given)
        } else {
            held
        });
        answer
    }

    fn turn(&mut self, alloc: Global) {
        if let Some(held) = self.held.take() {
            self.held = again(alloc, held);
        }
    }

    /// Whether every byte is the one that it was when this was last asked.
    fn bytes(&mut self, alloc: Global) -> Result<String, AllocError> {
        match self.held.take() {
            Some(Held::Bare(conn)) => self.compared(alloc, conn.into_store().close()),
            other => {
                self.held = other;
                "no connection".to_string(alloc)
            }
        }
    }

    fn compared(&mut self, alloc: Global, files: Files<D>) -> Result<String, AllocError> {
        let mut files = files;
        let log = bytes_of(alloc, &mut files.log)?;
        let db = bytes_of(alloc, &mut files.db)?;
        let is_same = log == self.log && db == self.db;
        self.log = log;
        self.db = db;
        self.held = bare(opened(alloc, files));
        if is_same { "same" } else { "changed" }.to_string(alloc)
    }
}

impl<D: Crash + Drop> Calls for InFiles<D> {
    fn answer(&mut self, alloc: Global, _: &str, given: &str) -> Result<String, AllocError> {
        if self.in_turns {
            self.turn(alloc);
        }
        if given == "bytes" {
            return self.bytes(alloc);
        }
        let answer = self.call(alloc, given);
        self.reads.told(alloc, given, answer)
    }

    fn is_wanted(&self, had: &str, wanted: &str) -> bool {
        had == wanted
    }
}

fn bare<D: Crash + Drop>(conn: Option<Connection<FileStore<D>>>) -> Option<Held<FileStore<D>>> {
    match conn {
        Some(conn) => Some(Held::Bare(conn)),
        None => None,
    }
}

/// The tables of a connection on which a creation or a raise stands, though it was told as refused.
fn tables_taken<D: Crash + Drop>(held: Held<FileStore<D>>, given: &str) -> Held<FileStore<D>> {
    match held {
        Held::Bare(conn) if opens(given) => adopted(conn).0,
        other => other,
    }
}

/// The tables let go of, the files closed and opened, and the tables taken again.
fn again<D: Crash + Drop>(alloc: Global, held: Held<FileStore<D>>) -> Option<Held<FileStore<D>>> {
    match held {
        Held::Ours(store) => taken(alloc, closed_and_opened(alloc, store.release())),
        Held::Bare(conn) => bare(closed_and_opened(alloc, conn)),
    }
}

/// The tables of a connection; where they are refused, once more after another reopening.
fn taken<D: Crash + Drop>(
    alloc: Global,
    conn: Option<Connection<FileStore<D>>>,
) -> Option<Held<FileStore<D>>> {
    let Some(conn) = conn else {
        return None;
    };
    match adopted(conn) {
        (Held::Bare(conn), Err(_)) => taken_at_last(closed_and_opened(alloc, conn)),
        (held, _) => Some(held),
    }
}

fn taken_at_last<D: Crash + Drop>(
    conn: Option<Connection<FileStore<D>>>,
) -> Option<Held<FileStore<D>>> {
    match conn {
        Some(conn) => Some(adopted(conn).0),
        None => None,
    }
}
