//! What interprets lines.
ghost use Rattle.std.specs.Prelude.{◌<◌, ℕ, List, length, IfOk, OnErr};
ghost use Rattle.up_lines.specs.Runs.{Composes};
ghost use Rattle.up_lines.specs.Together.{AnswersSome, AnswersUntold, bytes_of};

use std::alloc::{AllocError, Global};

/// What interprets lines, one after another, over a state that each line may change.
pub trait Interpret<S> {
    /// In a state these lines may have these answers, which leave that state.
    ghost gives: { S → List (List ℕ) → List (List ℕ) → S → Type 0 };

    /// Answers some of the first of these lines, one at least, all without their newlines. It appends each answer and a newline,
    /// and tells how many lines it answered. An `Err` leaves the state as answers to some of the first lines leave it, one at
    /// least, which couldn't be told for want of memory.
    fn interpret(
        &self,
        alloc: Global,
        state: &mut S,
        lines: &[&[u8]],
        answers: &mut Vec<u8>,
    ) -> Result<usize, AllocError>
        requires { 0 < length lines.now }
        ensures ok { IfOk result
            (λ n. AnswersSome gives state.old (bytes_of lines.now) n answers.old.items answers.new.items state.new) }
        ensures err { OnErr result (AnswersUntold gives state.old (bytes_of lines.now) state.new) };

    /// Each line has an answer, no lines leave the state as it is, and two lists one after another are one list.
    ghost composes: { Composes gives };
}
