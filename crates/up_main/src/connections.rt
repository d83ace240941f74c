//! Connections, served at once.
ghost use Rattle.std.specs.Prelude.{◌≡◌, IfErr};
ghost use Rattle.up_main.specs.Clients.{Does, ServesClients};
ghost use Rattle.up_sockets.specs.Served.{IsServed};

use crate::at_desk::AtDesk;
use crate::laws::clients_outlast_crashes;
use crate::log::Log;
use mio::net::{TcpListener, UnixListener};
use sqlite::Alter;
use std::io;
use std::net::{IpAddr, Ipv4Addr, SocketAddr};
use up_desk::desk::Desk;
use up_program::failure::{Failure, told};
use up_program::line::write_line;
use up_program::messages::listening;
use up_sign::scheme::Scheme;
use up_sockets::{serving, socket_file};

/// Where connections are served.
#[derive(Drop)]
pub(crate) struct Place {
    /// The port of 127.0.0.1 at which HTTP is answered.
    pub port: u16,
    /// On how many connections.
    pub count: u32,
    /// The path of the Unix socket at which scripts are carried out, if there is one.
    pub socket: Option<String>,
}

/// Answers HTTP at a port of this host, on so many connections, and scripts at a Unix socket, if there is a path for one. However it
/// ended, requests were answered, groups of deliveries carried out and lines of scripts answered, one after another, and nothing
/// else was done: a crash behind it loses nothing that was answered.
pub(crate) fn serve<K: Scheme, D: Alter>(
    rt: &HostRuntime,
    desk: &mut Desk<K, D>,
    place: &Place,
) -> Result<(), Failure>
    ensures served { ServesClients (K.rules) D.Store desk.old desk.new }
    ensures unheard { IfErr result (λ failure. failure ≡ Failure.Unheard) }
{
    clients_outlast_crashes::<K, D>();
    match serve_at(rt, desk, place) {
        Ok(()) => Ok(()),
        Err(_) => told(&mut rt.stderr(), Err(Failure::Unheard)),
    }
}

/// Listens, and serves who calls.
#[tactic(auto, using(up_sockets::proofs::Joined::served_none))]
fn serve_at<K: Scheme, D: Alter>(
    rt: &HostRuntime,
    desk: &mut Desk<K, D>,
    place: &Place,
) -> io::Result<()>
    ensures { IsServed (Does (K.rules) D.Store) desk.old desk.new }
{
    let host = SocketAddr::new(IpAddr::V4(Ipv4Addr::new(127, 0, 0, 1)), place.port);
    let listener = TcpListener::bind(rt, host)?;
    match &place.socket {
        None => serve_both(rt, desk, place, listener, None),
        Some(path) => {
            let operators = socket_file::listen(rt, path.as_str())?;
            let served = serve_both(rt, desk, place, listener, Some(operators));
            socket_file::take_away(rt, path.as_str());
            served
        }
    }
}

/// Serves clients, and operators if there is a listener for them.
fn serve_both<K: Scheme, D: Alter>(
    rt: &HostRuntime,
    desk: &mut Desk<K, D>,
    place: &Place,
    listener: TcpListener,
    operators: Option<UnixListener>,
) -> io::Result<()>
    ensures { IsServed (Does (K.rules) D.Store) desk.old desk.new }
{
    write_line(&mut rt.stdout(), &listening(place.port));
    let service = AtDesk {
        rt,
        log: Log::new(rt),
    };
    serving::serve(rt, &service, desk, listener, operators, place.count)
}
