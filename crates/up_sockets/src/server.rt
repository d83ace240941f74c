//! Listeners, clients and operators, waited for together.
ghost use Rattle.up_sockets.specs.Served.{IsServed};

use crate::clients::{Clients, LISTENER};
use crate::clock::Clock;
use crate::operators::Operators;
use crate::service::Service;
use mio::net::{TcpListener, UnixListener};
use mio::{Events, Interest, Poll};
use std::alloc::Global;
use std::io;
use std::time::Duration;

/// How many events are told at once.
const MOST_EVENTS: usize = 512;

/// A listener and its clients, and operators.
#[derive(Drop)]
pub(crate) struct Server {
    clock: Clock,
    poll: Poll,
    events: Events<Global>,
    listener: TcpListener,
    clients: Clients,
    operators: Operators,
}

impl Server {
    pub(crate) fn new(
        rt: &HostRuntime,
        listener: TcpListener,
        operators: Option<UnixListener>,
        count: u32,
    ) -> io::Result<Server> {
        let clock = Clock::new(rt)?;
        let poll = Poll::new(rt)?;
        let events = Events::with_capacity(rt.alloc(), MOST_EVENTS)?;
        let mut listener = listener;
        poll.registry()
            .register(&mut listener, LISTENER, Interest::READABLE)?;
        let operators = Operators::new(rt.alloc(), poll.registry(), operators)?;
        Ok(Server {
            clock,
            poll,
            events,
            listener,
            clients: Clients::new(rt.alloc(), count),
            operators,
        })
    }

    /// Whether all clients were served.
    pub(crate) fn is_over(&self) -> bool {
        self.clients.are_over()
    }

    /// Waits until something can be done, and does it.
    #[tactic(auto, using(crate::proofs::Joined::served_none))]
    pub(crate) fn go_on<S, V: Service<S>>(
        &mut self,
        rt: &HostRuntime,
        service: &V,
        state: &mut S,
    ) -> io::Result<()>
        ensures { IsServed (V.does service.now) state.old state.new }
    {
        self.wait(rt)?;
        let now = self.clock.now(rt);
        self.clients.hear(&self.events);
        self.operators.hear(&self.events);
        // (what came is read first: who sent it isn't silent)
        self.clients.go_on(service, state, now);
        let status = self.clients.status(now / 1_000);
        self.operators.go_on(service, state, status, now);
        self.operators.accept(self.poll.registry());
        self.accept(rt, service, now)
    }

    /// Waits until an event comes, or something has to be done.
    fn wait(&mut self, rt: &HostRuntime) -> io::Result<()> {
        let left = if self.operators.are_ready() {
            Some(Duration::from_millis(0))
        } else {
            self.clients.wait(self.clock.now(rt))
        };
        self.poll.poll(&mut self.events, left)
    }

    /// Accepts those that wait.
    fn accept<S, V: Service<S>>(
        &mut self,
        rt: &HostRuntime,
        service: &V,
        now: u64,
    ) -> io::Result<()> {
        self.clients
            .accept(rt, service, self.poll.registry(), &self.listener, now)
    }
}
