//! The files of a Primary's state and of what was served: the verdict, and the file of the state behind it.
ghost use Rattle.std.specs.Prelude.{◌≡◌, ◌++◌, IfOk, Ok, codes, string_bytes};
ghost use Rattle.up_canon.specs.Refusals.{refusal_text};
ghost use Rattle.up_primary_files.specs.Rounds.{IsVerified, IsUnread, IsFrom, IsOutcome};
ghost use Rattle.up_primary_files.specs.Written.{IsWhole};

use crate::judged::{Judged, judge};
use crate::served::read_served;
use crate::state::{State, read_state};
use crate::state_text::state_text;
use std::alloc::{AllocError, Global};
use up_canon::refusal::Refusal;
use up_roles::laws::meaning_laws;
use up_verify::served::Served;

/// How it comes out: whether all was accepted, the text that tells the verdict, and the text of the state's file behind it.
#[derive(Drop)]
pub struct Outcome {
    pub is_accepted: bool,
    pub told: String,
    pub state: String,
}

/// The verdict at a moment, in seconds, by the texts of both files. Else what is wrong with the file of the state, or that there
/// is no memory. What is wrong with the other file, as a reply that can't be read, is a verdict: the state stays.
#[tactic(auto, using(crate::proofs::Whole::whole_read))]
pub fn judge_files(alloc: Global, now: u64, state: &str, served: &str) -> Result<Outcome, Refusal>
    ensures { IfOk result (IsOutcome now state.now served.now) }
{
    match read_state(alloc, state) {
        Ok(before) => {
            let told = outcome_of(alloc, now, &before, state, served);
            // Dropped by name: at the end of a scope it would be proved part by part.
            drop(before);
            told
        }
        Err(refusal) => Err(refusal),
    }
}

fn outcome_of(
    alloc: Global,
    now: u64,
    before: &State,
    state: &str,
    served: &str,
) -> Result<Outcome, Refusal>
    requires { IsWhole before.now }
    ensures { IfOk result (IsFrom now before.now state.now served.now) }
{
    match read_served(alloc, served) {
        Ok(served) => {
            let told = verified(alloc, now, before, &served);
            drop(served);
            Ok(told?)
        }
        Err(Refusal::Memory) => Err(Refusal::Memory),
        Err(refusal) => {
            let told = unread(alloc, state, &refusal);
            drop(refusal);
            Ok(told?)
        }
    }
}

fn unread(alloc: Global, state: &str, refusal: &Refusal) -> Result<Outcome, AllocError>
    ensures { IfOk result (IsUnread state.now refusal.now) }
{
    let told = told_unread(alloc, refusal)?;
    with_state(false, told, state.to_string(alloc))
}

fn told_unread(alloc: Global, refusal: &Refusal) -> Result<String, AllocError>
    ensures { IfOk result (λ told. string_bytes told ≡ codes "refused reply " ++ refusal_text refusal.now ++ codes "\n") }
{
    let named = refusal.text(alloc)?;
    format!(in alloc; "refused reply {named}\n")
}

fn verified(alloc: Global, now: u64, before: &State, served: &Served) -> Result<Outcome, AllocError>
    requires { IsWhole before.now }
    ensures { IfOk result (IsVerified now before.now served.now) }
{
    meaning_laws();
    let held = before.held.as_slice();
    match judge(alloc, before.method, held, now, &before.primary, served) {
        Ok(
            Judged {
                is_accepted,
                told,
                next,
            },
        ) => {
            let written = state_text(alloc, before, &next, served);
            drop(next);
            with_state(is_accepted, told, written)
        }
        Err(fault) => Err(fault),
    }
}

fn with_state(
    is_accepted: bool,
    told: String,
    written: Result<String, AllocError>,
) -> Result<Outcome, AllocError>
    ensures { IfOk result (λ o. (o.is_accepted ≡ is_accepted) × (string_bytes o.told ≡ string_bytes told) × (written ≡ Ok o.state)) }
{
    match written {
        Ok(state) => Ok(Outcome {
            is_accepted,
            told,
            state,
        }),
        Err(fault) => Err(fault),
    }
}
