//! The operators that are served at once.
ghost use Rattle.up_sockets.specs.Served.{IsServed};

use crate::operator::Operator;
use crate::service::Service;
use mio::event::Event;
use mio::net::{UnixListener, UnixStream};
use mio::{Events, Interest, Registry, Token};
use std::alloc::Global;
use std::io;
use std::io::ErrorKind;
use up_program::status::Status;

/// The most operators at once; others wait in the listener's queue.
const MOST_OPERATORS: usize = 16;

/// The token of the operators' listener. An operator's is as much above it as its number.
const OPERATORS: usize = 1_099_511_627_776;

/// The operators that are served at once, and their listener, if there is one.
#[derive(Drop)]
pub(crate) struct Operators {
    alloc: Global,
    listener: Option<UnixListener>,
    open: Vec<Operator>,
    /// How many were accepted.
    accepted: u64,
    /// Whether others may wait in the listener's queue.
    calls: bool,
    /// Which had its turn last.
    last: u64,
}

impl Operators {
    pub(crate) fn new(
        alloc: Global,
        registry: &Registry,
        listener: Option<UnixListener>,
    ) -> io::Result<Operators> {
        let mut listener = listener;
        if let Some(listener) = &mut listener {
            registry.register(listener, Token(OPERATORS), Interest::READABLE)?;
        }
        Ok(Operators {
            alloc,
            listener,
            open: Vec::new(alloc),
            accepted: 0,
            calls: false,
            last: 0,
        })
    }

    /// Whether one can go on at once, or be accepted.
    pub(crate) fn are_ready(&self) -> bool {
        if self.calls && self.has_room() {
            return true;
        }
        for operator in self.open.iter() {
            if operator.is_ready() {
                return true;
            }
        }
        false
    }

    fn has_room(&self) -> bool {
        self.open.len() < MOST_OPERATORS
    }

    /// Takes what events tell.
    pub(crate) fn hear(&mut self, events: &Events) {
        for event in events.iter() {
            let token = event.token().0;
            if token == OPERATORS {
                self.calls = true;
            } else if token > OPERATORS {
                wake(self.open.as_mut_slice(), (token - OPERATORS) as u64, event);
            }
        }
    }

    /// Accepts those that wait, while there is room.
    pub(crate) fn accept(&mut self, registry: &Registry) {
        for _ in 0..MOST_OPERATORS {
            if !self.calls || !self.has_room() {
                return;
            }
            let Some(listener) = &self.listener else {
                return;
            };
            match listener.accept() {
                Ok((stream, _)) => self.take(registry, stream),
                Err(error) => self.failed(error.kind()),
            }
        }
    }

    fn failed(&mut self, kind: ErrorKind) {
        match kind {
            ErrorKind::Interrupted | ErrorKind::ConnectionAborted => {}
            _ => self.calls = false,
        }
    }

    /// Takes an operator. It is let go where there is no memory for it, or where the system can't watch it.
    fn take(&mut self, registry: &Registry, stream: UnixStream) {
        let mut stream = stream;
        self.accepted = self.accepted.wrapping_add(1);
        let token = Token(OPERATORS.wrapping_add(self.accepted as usize));
        let interest = Interest::READABLE | Interest::WRITABLE;
        if registry.register(&mut stream, token, interest).is_ok() {
            self.open
                .push(Operator::new(self.alloc, self.accepted, stream))
                .ok();
        }
    }

    /// Goes on with each that can go on, and answers lines of the one whose turn it is.
    pub(crate) fn go_on<S, V: Service<S>>(
        &mut self,
        service: &V,
        state: &mut S,
        status: Status,
        now: u64,
    )
        ensures { IsServed (V.does service.now) state.old state.new }
    {
        go_on_each(self.open.as_mut_slice(), now);
        self.last = next_turn(self.open.as_slice(), self.last);
        answer_turn(service, state, self.open.as_mut_slice(), self.last, status);
        self.open.retain(|operator| !operator.gone);
    }
}

/// Goes on with each that can go on.
fn go_on_each(open: &mut [Operator], now: u64) {
    for operator in open.iter_mut() {
        operator.go_on(now);
        operator.end_late(now);
    }
}

/// Whose turn it is behind this one: of those whose lines wait the next by number, or the first.
fn next_turn(open: &[Operator], last: u64) -> u64 {
    let mut first = 0;
    for operator in open.iter() {
        if operator.waits() {
            if operator.number > last {
                return operator.number;
            }
            if first == 0 {
                first = operator.number;
            }
        }
    }
    first
}

/// Answers lines of the operator of this number, if they wait.
#[tactic(auto, using(crate::proofs::Joined::served_none))]
fn answer_turn<S, V: Service<S>>(
    service: &V,
    state: &mut S,
    open: &mut [Operator],
    number: u64,
    status: Status,
)
    ensures { IsServed (V.does service.now) state.old state.new }
{
    for operator in open.iter_mut() {
        operator.take_turn(service, state, number, status);
    }
}

/// The socket of the operator of this number can be read or written, as an event told.
fn wake(open: &mut [Operator], number: u64, event: &Event) {
    let readable = event.is_readable() || event.is_error();
    let writable = event.is_writable() || event.is_error();
    for operator in open.iter_mut() {
        if operator.number == number {
            operator.readable = operator.readable || readable;
            operator.writable = operator.writable || writable;
        }
    }
}
