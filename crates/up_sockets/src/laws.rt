//! What holds of connections, whatever happens on them and is done together.
ghost use Rattle.up_sockets.specs.Apart.{ConnectionsAreApart};

use crate::service::Service;
use up_http::laws::conversations_keep_order;

/// However what happens on many connections is interleaved, and whatever is done together, deliveries of several or lines of a
/// script: all that is done is one list of steps over the state, in the order in which it was done, each request at the moment of its
/// connection. Each connection's own requests are answered there, in their order, and what it writes are those answers, byte for byte,
/// as if it were alone. One whose answer couldn't be told, for want of memory, is answered no more.
pub fn connections_are_apart<S, V: Service<S>>()
    ensures { ConnectionsAreApart V.does V.tells }
{
    conversations_keep_order();
}
