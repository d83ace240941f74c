//! Databases in memory.
use crate::store::fault::Fault;
use crate::store::held::{Held, adopted, called};
use crate::store::seen::{Reads, after_memory};
use sqlite::{Connection, MemStore};
use std::alloc::{AllocError, Global};
use up_test_common::calls::Calls;

/// A database in memory, whose tables are let go of and taken again before each call if they are used in turns.
#[derive(Drop)]
pub(crate) struct InMemory {
    held: Option<Held<MemStore>>,
    reads: Reads,
    in_turns: bool,
}

impl InMemory {
    pub(crate) fn new(alloc: Global, in_turns: bool) -> InMemory {
        InMemory {
            held: opened(alloc),
            reads: Reads::new(alloc),
            in_turns,
        }
    }
}

fn opened(alloc: Global) -> Option<Held<MemStore>> {
    match Connection::open_in_memory(alloc) {
        Ok(conn) => Some(Held::Bare(conn)),
        Err(_) => opened_once(alloc),
    }
}

fn opened_once(alloc: Global) -> Option<Held<MemStore>> {
    match Connection::open_in_memory(alloc) {
        Ok(conn) => Some(Held::Bare(conn)),
        Err(_) => None,
    }
}

impl Calls for InMemory {
    fn answer(&mut self, alloc: Global, _: &str, given: &str) -> Result<String, AllocError> {
        let Some(held) = self.held.take() else {
            return "nothing is held".to_string(alloc);
        };
        let held = if self.in_turns { again(held) } else { held };
        let (held, answer) = call_again(alloc, held, &self.reads, given);
        self.held = Some(held);
        self.reads.told(alloc, given, answer)
    }

    fn is_wanted(&self, had: &str, wanted: &str) -> bool {
        had == wanted
    }
}

/// What a call answers, and where memory was refused, what it answers once more. No disk can fail here, so a call that the database
/// refused isn't made again: `Store` in place of `Memory` is seen.
fn call_again(
    alloc: Global,
    held: Held<MemStore>,
    reads: &Reads,
    given: &str,
) -> (Held<MemStore>, Result<String, Fault>) {
    let (held, answer) = called(alloc, held, given);
    match answer {
        Err(Fault::Memory) => after_memory(alloc, held, reads, given),
        other => (held, other),
    }
}

/// The tables, let go of and taken again; where that is refused, once more.
fn again(held: Held<MemStore>) -> Held<MemStore> {
    match held {
        Held::Ours(store) => taken(store.release()),
        bare => bare,
    }
}

fn taken(conn: Connection<MemStore>) -> Held<MemStore> {
    match adopted(conn) {
        (Held::Bare(conn), Err(_)) => adopted(conn).0,
        (held, _) => held,
    }
}
