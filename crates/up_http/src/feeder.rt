//! A stream in pieces, and its requests.
ghost use Rattle.std.specs.Prelude.{◌≡◌, ◌≤◌, ◌<◌, ◌+◌, ◌++◌, [], IsOk, IfOk, OnErr, Some, None, false, true, length, ℕ, Option};
ghost use Rattle.up_http.specs.Feeding.{Fed, Feeds, Gives, Ends};
ghost use Rattle.up_http.specs.Parts.{Begins, FeedsParts, Holds, IsBetween, IsIntentOf, IsWaiting, Keeps, Settles, States, fed_of};
ghost use Rattle.up_http.specs.Requests.{asked, ends_with, most_requests, with_body};
ghost use Rattle.httparse.specs.Grammar.{RequestHead};

use crate::asked::{Next, Step, What};
use crate::head_bytes::take_head;
use std::alloc::{AllocError, Global};
use std::marker::Model;
use up_heads::check::Check;
use up_heads::heads::{Facts, Front};
use up_heads::routed::{Routed, route_of};
use up_heads::routes::Routes;
use up_machine::command::Command;
use up_manifest::body::Body;
use up_roles::repository::Repository;

/// The most requests of a stream.
const MOST_REQUESTS: u32 = 100;

/// What is kept of a whole head.
#[derive(Drop)]
pub(crate) struct Intent {
    /// What is asked, but for the body.
    pub asks: Routed,
    /// Whether the method is HEAD.
    pub head: bool,
    /// Whether the connection is closed behind the request.
    pub closes: bool,
}

/// A request whose body isn't whole.
#[derive(Drop)]
pub(crate) struct Waiting {
    pub intent: Intent,
    pub body: Body,
}

/// What a feeder keeps.
#[derive(Drop)]
pub(crate) struct Parts {
    pub alloc: Global,
    /// The routes of its requests.
    pub routes: Routes,
    /// The bytes of the head that is coming or is whole.
    pub head: Vec<u8>,
    /// Whether a byte of the request line is among them.
    pub begun: bool,
    /// Once the head is whole, what it says and its body.
    pub waiting: Option<Waiting>,
    /// How many requests were given.
    pub given: u32,
    /// Whether the stream has ended.
    pub ended: bool,
}

/// A stream that comes in pieces. Of a request that isn't whole it keeps what has come: at most 278,528 bytes.
#[derive(Drop)]
pub struct Feeder {
    parts: Parts,
}

impl Model for Feeder {
    ghost use Rattle.up_http.specs.Feeding.{Fed};
    ghost use Rattle.up_http.specs.Parts.{Keeps, fed_of};

    ghost Value = { Fed };

    ghost view = { λ a. fed_of a.parts };

    ghost invariant = { λ a. Keeps a.parts };
}

impl Feeder {
    /// A stream of which nothing has come.
    pub fn new(alloc: Global) -> Feeder
        ensures { result ≡ record { rest = []; given = 0; ended = false } }
    {
        Feeder {
            parts: Parts {
                alloc,
                routes: Routes::new(alloc),
                head: Vec::new(alloc),
                begun: false,
                waiting: None,
                given: 0,
                ended: false,
            },
        }
    }

    /// Takes a piece, up to the end of the next request. After the last request it takes nothing. An error takes nothing and
    /// leaves the stream as it was.
    pub fn feed(&mut self, piece: &[u8]) -> Result<Step, AllocError>
        ensures ok { IfOk result (λ step. Feeds self.old piece.now step.taken step.next self.new) }
        ensures err { OnErr result (self.new ≡ self.old) }
        ensures over { self.old.ended ≡ true → IsOk result }
    {
        feed_parts(&mut self.parts, piece)
    }

    /// Whether the stream has ended.
    pub fn has_ended(&self) -> bool
        ensures { result ≡ self.now.ended }
    {
        self.parts.ended
    }

    /// Ends the stream: a rest that isn't empty is one bad request more.
    pub fn end(&mut self) -> Option<Next>
        ensures { Ends self.old result self.new }
    {
        end_parts(&mut self.parts)
    }
}

/// What the stream gives at its end.
fn end_parts(parts: &mut Parts) -> Option<Next>
    requires { Keeps parts.old }
    ensures kept { Keeps parts.new }
    ensures ends { Ends (fed_of parts.old) result (fed_of parts.new) }
{
    if parts.ended {
        return None;
    }
    if let Some(waiting) = parts.waiting.take() {
        let head = waiting.intent.head;
        return Some(give(parts, fixed(Check::BadRequest, head)));
    }
    if parts.head.is_empty() {
        parts.ended = true;
        return None;
    }
    Some(give(parts, fixed(Check::BadRequest, false)))
}

/// What the stream gives with the next piece.
fn feed_parts(parts: &mut Parts, piece: &[u8]) -> Result<Step, AllocError>
    requires { Keeps parts.old }
    ensures fed { FeedsParts parts.old piece.now result parts.new }
    ensures over { parts.old.ended ≡ true → IsOk result }
{
    if parts.ended {
        return Ok(Step {
            taken: 0,
            next: None,
        });
    }
    match parts.waiting.take() {
        Some(waiting) => feed_body(parts, waiting, piece),
        None => feed_head(parts, piece),
    }
}

/// Takes a piece to the body of a whole head.
fn feed_body(parts: &mut Parts, waiting: Waiting, piece: &[u8]) -> Result<Step, AllocError>
    requires between { IsBetween parts.old }
    requires holds { Holds parts.old.head.items waiting }
    ensures ok { IfOk result (λ step. Keeps parts.new
        × Gives (record { rest = parts.old.head.items ++ waiting.body.bytes; given = parts.old.given; ended = false })
        piece.now step.taken step.next (fed_of parts.new)) }
    ensures err { OnErr result (parts.new ≡ record parts.old { waiting = Some waiting }) }
{
    let mut waiting = waiting;
    match waiting.body.feed(piece) {
        Ok(taken) => Ok(Step {
            taken,
            next: settle(parts, waiting),
        }),
        Err(e) => {
            parts.waiting = Some(waiting);
            Err(e)
        }
    }
}

/// The request, if its body is whole; else it is kept.
fn settle(parts: &mut Parts, waiting: Waiting) -> Option<Next>
    requires between { IsBetween parts.old }
    requires holds { Holds parts.old.head.items waiting }
    ensures kept { Keeps parts.new }
    ensures settled { Settles parts.old.head.items waiting parts.old.given result (fed_of parts.new) }
{
    if waiting.body.missing() > 0 {
        parts.waiting = Some(waiting);
        return None;
    }
    let next = next_of(parts.given, waiting);
    Some(give(parts, next))
}

/// What a whole request asks.
fn next_of(given: u32, waiting: Waiting) -> Next
    requires { given < most_requests }
    ensures { (head : RequestHead) (stated : Option ℕ) → IsIntentOf head stated waiting.intent
        → result ≡ asked given head stated waiting.body.bytes }
{
    let Waiting { intent, body } = waiting;
    let last = intent.closes || ends_stream(&intent.asks) || given + 1 >= MOST_REQUESTS;
    Next {
        what: joined(intent.asks, body),
        head: intent.head,
        last,
    }
}

/// Whether the stream ends with what is asked, since nobody knows where its body ends.
fn ends_stream(asks: &Routed) -> bool
    ensures { result ≡ ends_with asks.now }
{
    matches!(asks, Routed::Fixed(Check::LengthRequired))
}

/// What is asked, with its body.
fn joined(asks: Routed, body: Body) -> What
    ensures { result ≡ with_body asks body.bytes }
{
    match asks {
        Routed::Fixed(check) => What::Fixed(check),
        Routed::Deliver => What::Call(Command::Deliver(body.into_bytes())),
        Routed::FetchDirector(file) => What::Call(Command::Fetch(Repository::Director, file)),
        Routed::FetchImage(file) => What::Call(Command::Fetch(Repository::Image, file)),
    }
}

/// Takes a piece to a head, and to the body behind it.
fn feed_head(parts: &mut Parts, piece: &[u8]) -> Result<Step, AllocError>
    requires between { IsBetween parts.old }
    requires begins { Begins parts.old.head.items parts.old.begun }
    ensures fed { FeedsParts parts.old piece.now result parts.new }
{
    let before = parts.head.len();
    let taken = take_head(&mut parts.head, parts.begun, piece)?;
    match taken.front {
        Front::Cut => {
            parts.begun = taken.begun;
            Ok(Step {
                taken: taken.bytes,
                next: None,
            })
        }
        Front::Bad => Ok(Step {
            taken: taken.bytes,
            next: Some(give(parts, fixed(Check::BadRequest, false))),
        }),
        Front::Whole(facts) => match facts.framing {
            Err(check) => Ok(Step {
                taken: taken.bytes,
                next: Some(give(parts, fixed(check, facts.verb.is_head()))),
            }),
            Ok(stated) => match feed_whole(parts, &facts, stated, &piece[taken.bytes..]) {
                Ok(step) => Ok(Step {
                    taken: taken.bytes + step.taken,
                    next: step.next,
                }),
                Err(e) => {
                    parts.head.truncate(before);
                    Err(e)
                }
            },
        },
    }
}

/// Takes a piece to the body of a head that has just become whole, and that states this length of it.
fn feed_whole(
    parts: &mut Parts,
    facts: &Facts,
    stated: Option<usize>,
    piece: &[u8],
) -> Result<Step, AllocError>
    requires between { IsBetween parts.old }
    requires states { States parts.old.head.items facts.now stated }
    ensures ok { IfOk result (λ step. Keeps parts.new
        × Gives (record { rest = parts.old.head.items; given = parts.old.given; ended = false })
        piece.now step.taken step.next (fed_of parts.new)) }
    ensures err { OnErr result (parts.new ≡ parts.old) }
{
    let waiting = begin(
        parts.alloc,
        &mut parts.routes,
        parts.head.as_slice(),
        facts,
        stated,
    )?;
    match feed_body(parts, waiting, piece) {
        Ok(step) => Ok(step),
        Err(e) => {
            parts.waiting = None;
            Err(e)
        }
    }
}

/// What is kept of the head that the bytes are, and of its body, of which nothing has come.
fn begin(
    alloc: Global,
    routes: &mut Routes,
    head: &[u8],
    facts: &Facts,
    stated: Option<usize>,
) -> Result<Waiting, AllocError>
    requires states { States head.now facts.now stated }
    ensures waits { IfOk result (λ waiting. IsWaiting head.now waiting) }
    ensures empty { IfOk result (λ waiting. waiting.body.bytes ≡ []) }
{
    let asks = route_of(alloc, routes, head, facts, stated)?;
    let body = Body::new(alloc, stated.unwrap_or(0) as u64).unwrap();
    Ok(Waiting {
        intent: Intent {
            asks,
            head: facts.verb.is_head(),
            closes: facts.closes,
        },
        body,
    })
}

/// A fixed answer that ends the stream.
fn fixed(check: Check, head: bool) -> Next
    ensures { result ≡ record { what = What.Fixed check; head = head; last = true } }
{
    Next {
        what: What::Fixed(check),
        head,
        last: true,
    }
}

/// Forgets the bytes of the request that is given.
fn give(parts: &mut Parts, next: Next) -> Next
    requires few { parts.old.given < most_requests }
    requires last { parts.old.given + 1 ≡ most_requests → next.last ≡ true }
    ensures same { result ≡ next }
    ensures kept { Keeps parts.new }
    ensures fed { fed_of parts.new ≡ record { rest = []; given = parts.old.given + 1; ended = next.last } }
{
    parts.head.clear();
    parts.begun = false;
    parts.waiting = None;
    parts.given += 1;
    parts.ended = next.last;
    next
}
