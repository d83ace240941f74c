//! The answers to the requests of a stream.
ghost use Rattle.std.specs.Prelude.{◌≡◌, List, ℕ, IsTrue, IfOk, OnErr, string_bytes};
ghost use Rattle.up_machine.specs.Commands.{opens_running};
ghost use Rattle.up_http.specs.Requests.{asks_running};
ghost use Rattle.up_service.specs.Responses.{answer_response as answer_response_of, ok_response};
ghost use Rattle.up_service.specs.Told.{TellsCall, TellsNext};

use crate::desk::Called;
use crate::refusals::{Hears, tell};
use http::StatusCode;
use std::alloc::{AllocError, Global};
use up_heads::responses::{check_response, refusal_response, response_text};
use up_http::asked::{Next, What};
use up_http::respond::Respond;
use up_machine::answer::Answer;
use up_machine::command::Command;

/// Answers the requests of a stream at a desk.
#[derive(Drop)]
pub struct Responder<'a, L> {
    /// The moment of each command, in seconds since 1970-01-01T00:00:00Z.
    pub at: u64,
    /// What hears of refusals.
    pub log: &'a L,
}

impl<C: Called, L: Hears> Respond<C> for Responder<'_, L> {
    ghost use Rattle.up_service.specs.Told.{TellsNext};

    ghost gives = { λ r. TellsNext C.gives r.at };

    fn respond(&self, alloc: Global, desk: &mut C, next: &Next) -> Result<Vec<u8>, AllocError> {
        let text = response(alloc, self.log, desk, self.at, next)?;
        Ok(text.into_bytes())
    }
}

/// The response to a request, whose command is carried out at the desk.
#[tactic(auto, unfolding(up_http::specs::Requests::asks_running))]
fn response<C: Called, L: Hears>(
    alloc: Global,
    log: &L,
    desk: &mut C,
    at: u64,
    next: &Next,
) -> Result<String, AllocError>
    requires { IsTrue (asks_running next.now.what) }
    ensures ok { IfOk result (λ t. TellsNext C.gives at desk.old next.now (string_bytes t) desk.new) }
    ensures err { OnErr result ((text : List ℕ) × TellsNext C.gives at desk.old next.now text desk.new) }
{
    match &next.what {
        What::Call(command) => {
            called_response(alloc, log, desk, at, command, next.last, next.head)
        }
        What::Fixed(check) => {
            log.hear_check(alloc, at, *check);
            check_response(alloc, *check, next.last, next.head)
        }
    }
}

/// The response to a command, which is carried out at the desk.
fn called_response<C: Called, L: Hears>(
    alloc: Global,
    log: &L,
    desk: &mut C,
    at: u64,
    command: &Command,
    last: bool,
    head: bool,
) -> Result<String, AllocError>
    requires { IsTrue (opens_running command.now) }
    ensures ok { IfOk result (λ t.
        TellsCall C.gives (λ answer. answer_response_of answer last head) desk.old at command.now (string_bytes t)
        desk.new) }
    ensures err { OnErr result ((text : List ℕ)
        × TellsCall C.gives (λ answer. answer_response_of answer last head) desk.old at command.now text desk.new) }
{
    let answer = desk.call(alloc, at, command);
    tell(alloc, log, at, command, &answer);
    answer_response(alloc, &answer, last, head)
}

/// The response to what a desk answers.
#[tactic(auto, unfolding(crate::specs::Responses::answer_response))]
pub fn answer_response(
    alloc: Global,
    answer: &Answer,
    last: bool,
    head: bool,
) -> Result<String, AllocError>
    ensures { IfOk result (λ t. string_bytes t ≡ answer_response_of answer.now last head) }
{
    match answer {
        Answer::Done | Answer::Already => ok_response(alloc, "", last, head),
        Answer::Reply(reply) => ok_response(alloc, reply.text.as_str(), last, head),
        Answer::File(text) => ok_response(alloc, text.as_str(), last, head),
        Answer::Refused(refusal) => refusal_response(alloc, refusal, last, head),
    }
}

/// The response with a reply's or a file's text.
fn ok_response(alloc: Global, text: &str, last: bool, head: bool) -> Result<String, AllocError>
    ensures { IfOk result (λ t. string_bytes t ≡ ok_response text.now last head) }
{
    response_text(alloc, StatusCode::OK, None, last, head, text)
}
