//! Answers of what was written.
ghost use Rattle.std.specs.Prelude.{◌≡◌};
ghost use Rattle.up_desk.specs.Serving.{answer_written};

use up_canon::refusal::Refusal;
use up_machine::answer::Answer;
pub use up_records::faults::refusal_of;
use up_store::store::StoreFault;

/// The answer where what was put is committed.
pub fn answered(answer: Answer, committed: Result<(), StoreFault>) -> Result<Answer, Refusal>
    ensures { result ≡ answer_written answer committed }
{
    match committed {
        Ok(()) => Ok(answer),
        Err(fault) => Err(refusal_of(fault)),
    }
}
