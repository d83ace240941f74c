//! What was read since the last write, and calls that are made again where they are refused.
use crate::store::fault::{Fault, fault_word};
use crate::store::held::{Held, called};
use sqlite::Alter;
use std::alloc::{AllocError, Global};

/// A read and its answer.
#[derive(Drop)]
struct Seen {
    given: String,
    answer: String,
}

/// The reads since the last write.
#[derive(Drop)]
pub(crate) struct Reads {
    seen: Vec<Seen>,
}

impl Reads {
    pub(crate) fn new(alloc: Global) -> Reads {
        Reads {
            seen: Vec::new(alloc),
        }
    }

    /// What is told of an answer. A read is noted with it; anything else is begun from anew.
    pub(crate) fn told(
        &mut self,
        alloc: Global,
        given: &str,
        answer: Result<String, Fault>,
    ) -> Result<String, AllocError> {
        match answer {
            Ok(text) => self.noted(alloc, given, text),
            Err(fault) => fault_word(fault).to_string(alloc),
        }
    }

    fn noted(&mut self, alloc: Global, given: &str, answer: String) -> Result<String, AllocError> {
        if acts(given) {
            self.seen.clear();
            return Ok(answer);
        }
        if self.note(alloc, given, answer.as_str()).is_err() {
            self.note(alloc, given, answer.as_str())?;
        }
        Ok(answer)
    }

    fn note(&mut self, alloc: Global, given: &str, answer: &str) -> Result<(), AllocError> {
        let given = given.to_string(alloc)?;
        let answer = answer.to_string(alloc)?;
        self.seen.push(Seen { given, answer })?;
        Ok(())
    }

    /// Whether each of the reads answers as it did, with what is held then.
    pub(crate) fn are_as_before<S: Alter + Drop>(
        &self,
        alloc: Global,
        held: Held<S>,
    ) -> (Held<S>, bool) {
        let mut held = held;
        let mut are_same = true;
        for seen in self.seen.as_slice() {
            let (next, answer) = called(alloc, held, seen.given.as_str());
            held = next;
            are_same = are_same && is_answer(answer, seen.answer.as_str());
        }
        (held, are_same)
    }
}

fn is_answer(answer: Result<String, Fault>, wanted: &str) -> bool {
    match answer {
        Ok(text) => text.as_str() == wanted,
        Err(_) => false,
    }
}

/// A call that was refused for want of memory, once more. It must have changed nothing.
pub(crate) fn after_memory<S: Alter + Drop>(
    alloc: Global,
    held: Held<S>,
    reads: &Reads,
    given: &str,
) -> (Held<S>, Result<String, Fault>) {
    if !changes(given) {
        return called(alloc, held, given);
    }
    let (held, are_same) = reads.are_as_before(alloc, held);
    if are_same {
        return called(alloc, held, given);
    }
    (held, Err(Fault::Changed))
}

/// A call that the database refused, once more after a reopening; unless it changed something: then the rows behind it tell whether it
/// stands whole.
pub(crate) fn after_store<S: Alter + Drop>(
    alloc: Global,
    held: Held<S>,
    reads: &Reads,
    given: &str,
) -> (Held<S>, Result<String, Fault>) {
    if !changes(given) {
        return called(alloc, held, given);
    }
    let (held, are_same) = reads.are_as_before(alloc, held);
    if are_same {
        return called(alloc, held, given);
    }
    (held, done(alloc))
}

fn done(alloc: Global) -> Result<String, Fault> {
    match "done".to_string(alloc) {
        Ok(text) => Ok(text),
        Err(_) => Err(Fault::Memory),
    }
}

/// Whether a call may change the tables.
fn changes(given: &str) -> bool {
    opens(given) || given.starts_with("write ")
}

/// Whether a call makes the tables or takes them.
pub(crate) fn opens(given: &str) -> bool {
    given == "create" || given == "adopt"
}

/// Whether a call does anything but read.
fn acts(given: &str) -> bool {
    changes(given) || given == "release" || given.starts_with("run ")
}
