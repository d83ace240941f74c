//! What a command came to within its session, and the end of the session.
ghost use Rattle.std.specs.Prelude.{◌≡◌, false};
ghost use Rattle.sqlite.specs.Held.{state};
ghost use Rattle.up_desk.specs.Carrying.{EndsCarried, carried_put};

use crate::faults::answered;
use sqlite::{Alter, Transaction};
use up_canon::refusal::Refusal;
use up_machine::answer::Answer;
use up_records::faults::refusal_of;
use up_store::store::{StoreFault, end};

/// What a command came to within its session.
#[derive(Drop)]
pub enum Carried {
    /// Nothing was put.
    Unchanged(Answer),
    /// Rows were put, which last once they are committed.
    Put(Answer),
}

/// The answer where the rows were put.
pub fn put_of(answer: Answer, put: Result<(), StoreFault>) -> Result<Carried, Refusal>
    ensures { result ≡ carried_put answer put }
{
    match put {
        Ok(()) => Ok(Carried::Put(answer)),
        Err(fault) => Err(refusal_of(fault)),
    }
}

/// Ends the session of a command: what was put is committed, and all else undone.
pub fn finish<D: Alter>(
    tx: Transaction<'_, D>,
    carried: Result<Carried, Refusal>,
) -> Result<Answer, Refusal>
    ensures mode { tx.exit.0.now.in_transaction ≡ false }
    ensures ends { EndsCarried carried (state D.Store tx.entry.conn.now) (state D.Store tx.exit.0.now) result }
{
    match carried {
        Ok(Carried::Put(answer)) => answered(answer, end(tx, Ok(()))),
        Ok(Carried::Unchanged(answer)) => Ok(answer),
        Err(refusal) => Err(refusal),
    }
}
