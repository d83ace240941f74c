//! One of many connections, as a value.
ghost use Rattle.std.specs.Prelude.{◌≡◌, ◌≤◌, [], ℕ, List, Some, length, nat_lt, IfOk, IfSome, OnErr, OnOk, true};
ghost use Rattle.up_http.specs.Talks.{Told, wants_of};
ghost use Rattle.up_http.specs.declared.asked.What.TheVariants.{Call};
ghost use Rattle.up_connections.specs.Lines.{EndsBytes, HappensTo, IsTold, IsUntold, TakesBytes, WritesBytes, asked_by, fresh};

use std::alloc::{AllocError, Global};
use std::marker::Model;
use up_canon::bytes::Bytes;
use up_canon::listed::Duplicate;
use up_http::asked::{Next, Step, What};
use up_http::conversation::{Conversation, Wants};
use up_http::respond::Respond;
use up_machine::command::Command;

/// A connection: what was said on it, the bytes that came and that it hasn't taken, and the request that waits for its answer.
/// It holds no more than a conversation does, one piece and one request.
#[derive(Drop)]
pub struct Connection {
    alloc: Global,
    talk: Conversation,
    /// The request that waits for its answer.
    asks: Option<Next>,
    /// The last piece that came.
    coming: Vec<u8>,
    /// How many bytes of it were taken.
    taken: usize,
}

/// A request that delivers a manifest.
#[derive(Drop)]
pub struct Delivery {
    /// The manifest, as the bytes of its body.
    pub body: Bytes,
    /// Whether its method is HEAD, whose answer has no body.
    pub head: bool,
    /// Whether the stream ends with it.
    pub last: bool,
}

impl Model for Connection {
    ghost use Rattle.std.specs.Prelude.{◌≡◌, ◌≤◌, drop, is_some, vec_len, IfSome, IsTrue};
    ghost use Rattle.up_http.specs.Requests.{asks_running};
    ghost use Rattle.up_connections.specs.Lines.{Shown};

    ghost Value = { Shown };

    ghost view = { λ a. record { line = record { talk = a.talk; asks = a.asks }; coming = drop a.taken a.coming.items } };

    ghost invariant = { λ a. (a.taken ≤ vec_len a.coming) × (a.talk.asking ≡ is_some a.asks)
        × IfSome a.asks (λ next. IsTrue (asks_running next.what)) };
}

impl Connection {
    /// A connection on which nothing was said.
    pub fn new(alloc: Global) -> Connection
        ensures { result ≡ record { line = fresh; coming = [] } }
    {
        Connection {
            alloc,
            talk: Conversation::new(alloc),
            asks: None,
            coming: Vec::new(alloc),
            taken: 0,
        }
    }

    /// What it goes on with. Bytes are read only where it holds none.
    pub fn wants(&self) -> Wants
        ensures { result ≡ wants_of self.now.line.talk }
    {
        self.talk.wants()
    }

    /// Whether it holds bytes that came and that it hasn't taken.
    pub fn holds_bytes(&self) -> bool
        ensures { result ≡ nat_lt 0 (length self.now.coming) }
    {
        self.taken < self.coming.len()
    }

    /// A piece came. An error leaves it as it was.
    pub fn came(&mut self, piece: &[u8]) -> Result<(), AllocError>
        requires { self.old.coming ≡ [] }
        ensures ok { OnOk result (self.new ≡ record self.old { coming = piece.now }) }
        ensures err { OnErr result (self.new ≡ self.old) }
    {
        let mut coming = Vec::new(self.alloc);
        coming.extend_from_slice(piece)?;
        self.coming = coming;
        self.taken = 0;
        Ok(())
    }

    /// Takes what came, up to the end of the next request, which waits for its answer then. An error leaves it as it was.
    pub fn take(&mut self) -> Result<(), AllocError>
        requires { wants_of self.old.line.talk ≡ Wants.Read }
        ensures ok { OnOk result (TakesBytes self.old self.new) }
        ensures err { OnErr result (self.new ≡ self.old) }
    {
        let Step { taken, next } = self.talk.hear(&self.coming[self.taken..])?;
        self.taken += taken;
        self.asks = next;
        Ok(())
    }

    /// The client has no more bytes: what it began is one bad request more.
    pub fn end(&mut self)
        requires wants { wants_of self.old.line.talk ≡ Wants.Read }
        requires all { self.old.coming ≡ [] }
        ensures { EndsBytes self.old self.new }
    {
        self.asks = self.talk.end();
    }

    /// Answers the request that waits. An error leaves the connection as it was, and the state as some answer leaves it, which
    /// couldn't be told for want of memory.
    pub fn answer<S, A: Respond<S>>(
        &mut self,
        responder: &A,
        state: &mut S,
    ) -> Result<(), AllocError>
        requires { wants_of self.old.line.talk ≡ Wants.Answer }
        ensures ok { OnOk result ((text : List ℕ)
            × HappensTo (A.gives responder.now) state.old self.old.line (Told text) state.new self.new.line) }
        ensures err { OnErr result (IsUntold (A.gives responder.now) state.old self.old.line state.new × (self.new ≡ self.old)) }
        ensures same { self.new.coming ≡ self.old.coming }
    {
        let Some(next) = &self.asks else {
            return Ok(());
        };
        let text = responder.respond(self.alloc, state, next)?;
        self.asks = None;
        self.talk.answer(text);
        Ok(())
    }

    /// A copy of the request that waits, where it delivers a manifest.
    pub fn delivery(&self) -> Result<Option<Delivery>, AllocError>
        ensures { IfOk result (λ found. IfSome found (λ copied. self.now.line.asks ≡ Some (asked_by copied))) }
    {
        match &self.asks {
            Some(next) => copied_delivery(self.alloc, next),
            None => Ok(None),
        }
    }

    /// Takes the answer to a delivery, where it is the request that waits; `false` where it isn't, and nothing changes.
    pub fn tell(&mut self, asked: &Command, head: bool, last: bool, text: Vec<u8>) -> bool
        ensures { IsTold asked.now head last text.items self.old self.new result }
    {
        let Some(next) = &self.asks else {
            return false;
        };
        if !asks_this(next, asked, head, last) {
            return false;
        }
        self.asks = None;
        self.talk.answer(text);
        true
    }

    /// The bytes of answers that weren't written.
    pub fn unsent(&self) -> &[u8]
        ensures { result.now ≡ self.now.line.talk.unsent }
    {
        self.talk.unsent()
    }

    /// So many of them were written.
    pub fn wrote(&mut self, bytes: usize)
        requires { bytes ≤ length self.old.line.talk.unsent }
        ensures { WritesBytes bytes self.old self.new }
    {
        self.talk.wrote(bytes);
    }
}

/// Whether a request asks this delivery, and is to be told so.
fn asks_this(next: &Next, asked: &Command, head: bool, last: bool) -> bool
    ensures { result ≡ true → next.now ≡ record { what = Call asked.now; head = head; last = last } }
{
    let What::Call(Command::Deliver(body)) = &next.what else {
        return false;
    };
    let Command::Deliver(other) = asked else {
        return false;
    };
    *body == *other && next.head == head && next.last == last
}

/// A copy of a request, where it delivers a manifest.
fn copied_delivery(alloc: Global, next: &Next) -> Result<Option<Delivery>, AllocError>
    ensures { IfOk result (λ found. IfSome found (λ copied. next.now ≡ asked_by copied)) }
{
    match &next.what {
        What::Call(Command::Deliver(body)) => Ok(Some(Delivery {
            body: body.copy(alloc)?,
            head: next.head,
            last: next.last,
        })),
        _ => Ok(None),
    }
}
