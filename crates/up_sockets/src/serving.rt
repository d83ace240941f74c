//! Clients and operators, served at once.
ghost use Rattle.up_sockets.specs.Served.{IsServed};

use crate::server::Server;
use crate::service::Service;
use mio::net::{TcpListener, UnixListener};
use std::io;

/// Serves so many clients of a listener, at most 256 at once, and ends once the last of them is served. None waits for another
/// that is silent or slow: one that sends nothing, or takes nothing, for 30 seconds ends, and so does one of 300 seconds; where
/// 256 are open and one more calls, the one that was silent for the longest ends once that is half a second. Each has a number,
/// by acceptance, counted from 1, and the moment at which it was accepted. It fails where one can't be accepted.
///
/// Deliveries that wait together are carried out together, at most 64, and answered behind that; any other request is answered by
/// itself. Operators at a Unix socket, of whom none is counted, are served meanwhile, at most 16 at once and one piece of a script
/// after another.
///
/// However it ends, the state is as these left it, one after another.
#[tactic(auto, using(crate::proofs::Joined::served_none))]
pub fn serve<S, V: Service<S>>(
    rt: &HostRuntime,
    service: &V,
    state: &mut S,
    listener: TcpListener,
    operators: Option<UnixListener>,
    count: u32,
) -> io::Result<()>
    ensures { IsServed (V.does service.now) state.old state.new }
{
    let mut server = Server::new(rt, listener, operators, count)?;
    for _ in 0..u64::MAX {
        if server.is_over() {
            return Ok(());
        }
        server.go_on(rt, service, state)?;
    }
    Ok(())
}
