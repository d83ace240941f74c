//! One connection's conversation, as a value: bytes come in, requests go out, answers come in, and their bytes go out.
ghost use Rattle.std.specs.Prelude.{◌≡◌, ◌≤◌, [], drop, length, IfOk, IfSome, IsTrue, OnErr, false};
ghost use Rattle.up_http.specs.Requests.{asks_running};
ghost use Rattle.up_http.specs.Talks.{EndsTalk, Hears, Talk, wants_of};

use crate::asked::{Next, Step};
use crate::feeder::Feeder;
use std::alloc::{AllocError, Global};
use std::marker::Model;

/// What a conversation goes on with.
#[derive(Clone, Copy, Debug, PartialEq, Eq, Drop)]
pub enum Wants {
    /// Bytes of the client, or the end of them.
    Read,
    /// The answer to the request that it gave.
    Answer,
    /// That bytes of the answer are written.
    Write,
    /// Nothing more: the stream has ended, and each request is answered.
    Close,
}

/// What was said on a connection, as far as it matters for what comes. It holds no more than a request that isn't whole, of at
/// most 278,528 bytes, and one answer.
#[derive(Drop)]
pub struct Conversation {
    alloc: Global,
    feeder: Feeder,
    /// Whether a request was given that isn't answered.
    asking: bool,
    /// The answer to the last request, until all of it is written.
    answer: Vec<u8>,
    /// How many of its bytes were written.
    sent: usize,
}

impl Model for Conversation {
    ghost use Rattle.std.specs.Prelude.{◌≤◌, drop, vec_len};
    ghost use Rattle.up_http.specs.Talks.{Talk};

    ghost Value = { Talk };

    ghost view = { λ a. record { fed = a.feeder; asking = a.asking; unsent = drop a.sent a.answer.items } };

    ghost invariant = { λ a. a.sent ≤ vec_len a.answer };
}

impl Conversation {
    /// A conversation in which nothing was said.
    pub fn new(alloc: Global) -> Conversation
        ensures { result ≡ record { fed = record { rest = []; given = 0; ended = false }; asking = false; unsent = [] } }
    {
        Conversation {
            alloc,
            feeder: Feeder::new(alloc),
            asking: false,
            answer: Vec::new(alloc),
            sent: 0,
        }
    }

    /// What it goes on with.
    pub fn wants(&self) -> Wants
        ensures { result ≡ wants_of self.now }
    {
        if self.asking {
            return Wants::Answer;
        }
        if self.sent < self.answer.len() {
            return Wants::Write;
        }
        if self.feeder.has_ended() {
            Wants::Close
        } else {
            Wants::Read
        }
    }

    /// Takes bytes of the client, up to the end of the next request, which it gives. An error takes nothing and leaves it as it
    /// was.
    pub fn hear(&mut self, piece: &[u8]) -> Result<Step, AllocError>
        requires { wants_of self.old ≡ Wants.Read }
        ensures heard { IfOk result (λ step. Hears self.old piece.now step.taken step.next self.new) }
        ensures err { OnErr result (self.new ≡ self.old) }
        ensures running { IfOk result (λ step. IfSome step.next (λ next. IsTrue (asks_running next.what))) }
    {
        let step = self.feeder.feed(piece)?;
        self.asking = step.next.is_some();
        Ok(step)
    }

    /// The client has no more bytes: what it began is one bad request more.
    pub fn end(&mut self) -> Option<Next>
        requires { wants_of self.old ≡ Wants.Read }
        ensures ended { EndsTalk self.old result self.new }
        ensures running { IfSome result (λ next. IsTrue (asks_running next.what)) }
    {
        let next = self.feeder.end();
        self.asking = next.is_some();
        next
    }

    /// Takes the answer to the request that it gave.
    pub fn answer(&mut self, text: Vec<u8>)
        requires { wants_of self.old ≡ Wants.Answer }
        ensures { self.new ≡ record self.old { asking = false; unsent = text.items } }
    {
        self.asking = false;
        self.answer = text;
        self.sent = 0;
    }

    /// The bytes of answers that weren't written.
    pub fn unsent(&self) -> &[u8]
        ensures { result.now ≡ self.now.unsent }
    {
        &self.answer[self.sent..]
    }

    /// So many of them were written. Once all were, the room of the answer is given back.
    pub fn wrote(&mut self, bytes: usize)
        requires { bytes ≤ length self.old.unsent }
        ensures { self.new ≡ record self.old { unsent = drop bytes self.old.unsent } }
    {
        self.sent += bytes;
        if self.sent == self.answer.len() {
            self.answer = Vec::new(self.alloc);
            self.sent = 0;
        }
    }
}
