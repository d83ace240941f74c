//! The clients that are served at once.
ghost use Rattle.std.specs.Prelude.{◌≡◌, ◌<◌, true};
ghost use Rattle.up_sockets.specs.Served.{IsServed};

use crate::client::{Socket, end_late, give_up, go_on, is_ready};
use crate::groups::{Counts, answer_alone, answer_together};
use crate::late::Late;
use crate::service::Service;
use mio::net::{TcpListener, TcpStream};
use mio::{Events, Interest, Registry, Token};
use std::alloc::Global;
use std::io;
use std::io::ErrorKind;
use std::time::{Duration, SystemTime};
use up_connections::hub::{Client, Hub};
use up_lines::fault::ScriptCause;
use up_program::status::Status;
use up_program::times::seconds;

/// How many are accepted before those that are open have their turn.
const MOST_ACCEPTS: u32 = 256;

/// How long a client was silent, in milliseconds, that gives its place to another where all are taken.
const LEAST_SILENCE: u64 = 500;

/// How soon it is looked again whether one was, in milliseconds.
const LOOKS: u64 = 100;

/// The listener's token. A client's is its number.
pub(crate) const LISTENER: Token = Token(0);

/// The clients that are served at once.
#[derive(Drop)]
pub(crate) struct Clients {
    alloc: Global,
    hub: Hub<Socket>,
    /// How many are accepted in all.
    count: u32,
    /// Whether others may wait in the listener's queue.
    calls: bool,
    counts: Counts,
    late: Late,
}

impl Clients {
    pub(crate) fn new(alloc: Global, count: u32) -> Clients {
        Clients {
            alloc,
            hub: Hub::new(alloc),
            count,
            calls: false,
            counts: Counts {
                groups: 0,
                commands: 0,
            },
            late: Late::new(),
        }
    }

    /// How the service stands, so many seconds since it began.
    pub(crate) fn status(&self, seconds: u64) -> Status {
        let open = self.hub.clients.len() as u64;
        Status {
            commands: self.counts.commands,
            groups: self.counts.groups,
            open,
            seconds,
            served: self.hub.accepted.saturating_sub(open),
        }
    }

    /// Whether all were served.
    pub(crate) fn are_over(&self) -> bool {
        self.hub.accepted >= u64::from(self.count) && self.hub.clients.is_empty()
    }

    /// Whether another may wait in the listener's queue that is to be served.
    fn is_called(&self) -> bool
        ensures { result ≡ true → self.now.hub.accepted < 4_294_967_295 }
    {
        self.calls && self.hub.accepted < u64::from(self.count)
    }

    /// Whether there is a place, or one that was silent for half a second may give its own.
    fn has_place(&self, now: u64) -> bool {
        self.hub.has_room()
            || now.saturating_sub(silent_since(self.hub.clients.as_slice(), now)) >= LEAST_SILENCE
    }

    /// Whether another is to be served, and there is a place for it.
    fn accepts(&self, now: u64) -> bool
        ensures { result ≡ true → self.now.hub.accepted < 4_294_967_295 }
    {
        self.is_called() && self.has_place(now)
    }

    /// How long nothing has to be done but what an event tells; none where that can be any time.
    pub(crate) fn wait(&self, now: u64) -> Option<Duration> {
        if are_ready(self.hub.clients.as_slice()) || self.accepts(now) {
            return Some(Duration::from_millis(0));
        }
        match self.hub.left(now) {
            Some(millis) => Some(Duration::from_millis(self.look(millis))),
            None => None,
        }
    }

    /// How soon it is looked again, where there would be so much time.
    fn look(&self, millis: u64) -> u64 {
        if LOOKS < millis && self.is_called() {
            LOOKS
        } else {
            millis
        }
    }

    /// Takes what events tell.
    pub(crate) fn hear(&mut self, events: &Events) {
        for event in events.iter() {
            let token = event.token();
            if token == LISTENER {
                self.calls = true;
            } else {
                wake(
                    self.hub.clients.as_mut_slice(),
                    token.0 as u64,
                    event.is_readable() || event.is_error(),
                    event.is_writable() || event.is_error(),
                );
            }
        }
    }

    /// Accepts those that wait, while there is a place. It fails where one can't be accepted.
    pub(crate) fn accept<S, V: Service<S>>(
        &mut self,
        rt: &HostRuntime,
        service: &V,
        registry: &Registry,
        listener: &TcpListener,
        now: u64,
    ) -> io::Result<()> {
        for _ in 0..MOST_ACCEPTS {
            if !self.accepts(now) {
                return Ok(());
            }
            match listener.accept() {
                Ok((stream, _)) => {
                    self.make_room(service, now);
                    let at = seconds(SystemTime::now(rt));
                    if !self.take(registry, stream, at, now) && self.late.tells(now) {
                        service.tell(self.hub.accepted, ScriptCause::Memory);
                    }
                }
                Err(error) => match error.kind() {
                    ErrorKind::WouldBlock => self.calls = false,
                    ErrorKind::Interrupted | ErrorKind::ConnectionAborted => {}
                    _ => return Err(error),
                },
            }
        }
        Ok(())
    }

    /// Where there is no room, the client ends that was silent for the longest.
    fn make_room<S, V: Service<S>>(&mut self, service: &V, now: u64)
        ensures { self.new.hub.accepted ≡ self.old.hub.accepted }
    {
        if !self.hub.has_room() {
            let since = silent_since(self.hub.clients.as_slice(), now);
            let clients = self.hub.clients.as_mut_slice();
            end_since(service, clients, &mut self.late, since, now);
            self.forget();
        }
    }

    /// Forgets those that are over.
    fn forget(&mut self)
        ensures { self.new.hub.accepted ≡ self.old.hub.accepted }
    {
        self.hub.clients.retain(|client| !client.socket.gone);
    }

    /// Takes a client; `false` where there is no memory for it, or where the system can't watch it.
    fn take(&mut self, registry: &Registry, stream: TcpStream, at: u64, now: u64) -> bool
        requires { self.old.hub.accepted < 4_294_967_295 }
    {
        let mut stream = stream;
        let token = Token(self.hub.accepted as usize + 1);
        let interest = Interest::READABLE | Interest::WRITABLE;
        let watched = registry.register(&mut stream, token, interest).is_ok();
        let socket = Socket {
            stream,
            readable: true,
            writable: true,
            gone: !watched,
        };
        self.hub.accept(socket, at, now).is_ok() && watched
    }

    /// Goes on with each that can go on, ends those that took too long, answers the requests that wait, and forgets those that are
    /// over.
    pub(crate) fn go_on<S, V: Service<S>>(&mut self, service: &V, state: &mut S, now: u64)
        ensures { IsServed (V.does service.now) state.old state.new }
    {
        let clients = self.hub.clients.as_mut_slice();
        go_on_each(service, clients, &mut self.late, now);
        answer_together(self.alloc, service, state, clients, &mut self.counts, now);
        answer_alone(service, state, clients, now);
        self.forget();
    }
}

/// Goes on with each that can go on, and ends those that took too long.
fn go_on_each<S, V: Service<S>>(
    service: &V,
    clients: &mut [Client<Socket>],
    late: &mut Late,
    now: u64,
) {
    for client in clients.iter_mut() {
        if let Some(cause) = go_on(client, now) {
            service.tell(client.number, cause);
        }
        if let Some(cause) = end_late(client, now) {
            tell_late(service, late, client.number, cause, now);
        }
    }
}

/// Tells that a connection was refused room or time, once a minute at most.
fn tell_late<S, V: Service<S>>(
    service: &V,
    late: &mut Late,
    number: u64,
    cause: ScriptCause,
    now: u64,
) {
    if late.tells(now) {
        service.tell(number, cause);
    }
}

/// Ends the first that was silent since then.
fn end_since<S, V: Service<S>>(
    service: &V,
    clients: &mut [Client<Socket>],
    late: &mut Late,
    since: u64,
    now: u64,
) {
    for client in clients.iter_mut() {
        if client.patience.moved == since {
            if let Some(cause) = give_up(client) {
                tell_late(service, late, client.number, cause, now);
            }
            return;
        }
    }
}

/// Whether one can go on at once.
fn are_ready(clients: &[Client<Socket>]) -> bool {
    for client in clients.iter() {
        if is_ready(client) {
            return true;
        }
    }
    false
}

/// Since when the one was silent that was so the longest; `now` where none is open.
fn silent_since(clients: &[Client<Socket>], now: u64) -> u64 {
    let mut since = now;
    for client in clients.iter() {
        if client.patience.moved < since {
            since = client.patience.moved;
        }
    }
    since
}

/// The socket of the client of this number can be read or written, as an event told.
fn wake(clients: &mut [Client<Socket>], number: u64, readable: bool, writable: bool) {
    for client in clients.iter_mut() {
        if client.number == number {
            client.socket.readable = client.socket.readable || readable;
            client.socket.writable = client.socket.writable || writable;
        }
    }
}
