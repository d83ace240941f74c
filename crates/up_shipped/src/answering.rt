//! Connections at a desk.
ghost use Rattle.std.specs.Prelude.{◌≡◌, ℕ, List, OnErr, OnOk};
ghost use Rattle.up_http.specs.Talks.{Told, wants_of};
ghost use Rattle.up_service.specs.Responses.{Responses};
ghost use Rattle.up_connections.specs.Lines.{HappensTo, IsUntold};

use sqlite::Alter;
use std::alloc::AllocError;
use up_connections::connection::Connection;
use up_desk::desk::Desk;
use up_http::conversation::Wants;
use up_service::refusals::Hears;
use up_service::response::Responder;
use up_sign::scheme::Scheme;

/// Answers the request that waits on a connection as `serve_stream` does, at a moment in seconds since 1970-01-01T00:00:00Z. An error
/// leaves the connection as it was, and the desk as some answer leaves it, which couldn't be told for want of memory. `log` hears
/// of each command that is refused.
pub fn answer_at_desk<K: Scheme, D: Alter, L: Hears>(
    log: &L,
    desk: &mut Desk<K, D>,
    at: u64,
    connection: &mut Connection,
) -> Result<(), AllocError>
    requires { wants_of connection.old.line.talk ≡ Wants.Answer }
    ensures ok { OnOk result ((text : List ℕ)
        × HappensTo (Responses (K.rules) D.Store at) desk.old connection.old.line (Told text) desk.new connection.new.line) }
    ensures err { OnErr result (IsUntold (Responses (K.rules) D.Store at) desk.old connection.old.line desk.new
        × (connection.new ≡ connection.old)) }
    ensures same { connection.new.coming ≡ connection.old.coming }
{
    let responder = Responder { at, log };
    connection.answer(&responder, desk)
}
