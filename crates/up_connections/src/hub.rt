//! The connections that are served at once.
ghost use Rattle.std.specs.Prelude.{◌≡◌, ◌<◌, ◌+◌, [], ◌∷◌, ◌++◌, OnErr, OnOk, nat_lt, vec_len};
ghost use Rattle.up_connections.specs.Hubs.{accepted_client, least_left, most_clients, sooner};

use crate::connection::Connection;
use crate::patience::Patience;
use std::alloc::{AllocError, Global};

/// The most connections at once. What they hold is some 70 MB at most.
const MOST_CLIENTS: usize = 256;

/// A client: its connection, and the socket that it is over.
#[derive(Drop)]
pub struct Client<T: Drop> {
    /// Its number, by acceptance, counted from 1.
    pub number: u64,
    /// When it was accepted, in seconds since 1970-01-01T00:00:00Z.
    pub at: u64,
    /// The moments of its connection.
    pub patience: Patience,
    pub connection: Connection,
    pub socket: T,
}

/// The clients that are served at once.
#[derive(Drop)]
pub struct Hub<T: Drop> {
    alloc: Global,
    /// Those that are open, in the order in which they were accepted.
    pub clients: Vec<Client<T>>,
    /// How many were accepted.
    pub accepted: u64,
}

impl<T: Drop> Hub<T> {
    /// No client.
    pub fn new(alloc: Global) -> Hub<T>
        ensures clients { result.clients.items ≡ [] }
        ensures accepted { result.accepted ≡ 0 }
    {
        Hub {
            alloc,
            clients: Vec::new(alloc),
            accepted: 0,
        }
    }

    /// Whether one more may be accepted.
    pub fn has_room(&self) -> bool
        ensures { result ≡ nat_lt (vec_len self.now.clients) most_clients }
    {
        self.clients.len() < MOST_CLIENTS
    }

    /// Accepts a client at a moment, in seconds since 1970-01-01T00:00:00Z, and in milliseconds of the clock of connections. Its
    /// number is the next one, also where there is no memory for it.
    pub fn accept(&mut self, socket: T, at: u64, now: u64) -> Result<(), AllocError>
        requires { self.old.accepted < 4_294_967_295 }
        ensures ok { OnOk result
            (self.new.clients.items ≡ self.old.clients.items ++ accepted_client (self.old.accepted + 1) at now socket ∷ []) }
        ensures err { OnErr result (self.new.clients.items ≡ self.old.clients.items) }
        ensures accepted { self.new.accepted ≡ self.old.accepted + 1 }
    {
        self.accepted += 1;
        let client = Client {
            number: self.accepted,
            at,
            patience: Patience::new(now),
            connection: Connection::new(self.alloc),
            socket,
        };
        self.clients.push(client)?;
        Ok(())
    }

    /// For how many milliseconds the first that ends for want of patience is still waited for; none where none is open.
    pub fn left(&self, now: u64) -> Option<u64>
        ensures { result ≡ least_left now self.now.clients.items }
    {
        soonest(self.clients.as_slice(), now)
    }
}

/// The shortest of the times for which they are still waited for.
fn soonest<T: Drop>(clients: &[Client<T>], now: u64) -> Option<u64>
    ensures { result ≡ least_left now clients.now }
{
    let mut least = None;
    for client in clients.iter() {
        least = Some(sooner(least, client.patience.left(now)));
    }
    least
}

/// The shorter of two times, of which the first may be none.
fn sooner(least: Option<u64>, left: u64) -> u64
    ensures { result ≡ sooner least left }
{
    match least {
        Some(least) => { if least < left { least } else { left } }
        None => left,
    }
}
