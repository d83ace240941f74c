//! A client: its connection, and its socket.
ghost use Rattle.std.specs.Prelude.{◌≡◌, [], true};
ghost use Rattle.up_http.specs.Talks.{wants_of};
ghost use Rattle.up_http.specs.declared.conversation.Wants.TheVariants.{Answer as WantsAnswer, Read as WantsRead};

use mio::net::TcpStream;
use std::io::{ErrorKind, Read, Write};
use std::net::Shutdown;
use up_connections::hub::Client;
use up_http::conversation::Wants;
use up_lines::fault::ScriptCause;

/// How many bytes are read at once.
const PIECE_BYTES: usize = 8_192;

/// How many steps are taken with a client before the others have their turn.
const MOST_STEPS: u32 = 64;

/// A client's socket, which never waits.
#[derive(Drop)]
pub(crate) struct Socket {
    pub stream: TcpStream,
    /// Whether a read may find something. Only one that found nothing says that none may.
    pub readable: bool,
    /// Whether a write may be taken.
    pub writable: bool,
    /// Whether nothing is left to be done.
    pub gone: bool,
}

/// Whether a client can go on at once.
pub(crate) fn is_ready(client: &Client<Socket>) -> bool {
    if client.socket.gone {
        return false;
    }
    if client.patience.closing.is_some() {
        return client.socket.readable;
    }
    match client.connection.wants() {
        Wants::Read => client.socket.readable || client.connection.holds_bytes(),
        Wants::Answer => true,
        Wants::Write => client.socket.writable,
        Wants::Close => true,
    }
}

/// Whether a request of a client waits for its answer.
pub(crate) fn is_waiting(client: &Client<Socket>) -> bool
    ensures { result ≡ true → wants_of client.now.connection.line.talk ≡ WantsAnswer }
{
    match client.connection.wants() {
        Wants::Answer => !client.socket.gone && client.patience.closing.is_none(),
        _ => false,
    }
}

/// Closes a connection in stages (RFC 9112, section 9.6): nothing more is written, and what still comes is read and dropped,
/// until the client closes too. Where bytes stayed unread, it could lose the last answers.
pub(crate) fn close(client: &mut Client<Socket>, now: u64)
    ensures { client.new.connection ≡ client.old.connection }
{
    client.patience.closing = Some(now);
    client.patience.moved = now;
    if client.socket.stream.shutdown(Shutdown::Write).is_err() {
        client.socket.gone = true;
    }
}

/// What fails where a client was waited for too long.
fn late(client: &Client<Socket>) -> ScriptCause {
    match client.connection.wants() {
        Wants::Write => ScriptCause::Write,
        _ => ScriptCause::Read,
    }
}

/// Goes on with a client as far as it can, up to its next request; what failed, if anything did.
pub(crate) fn go_on(client: &mut Client<Socket>, now: u64) -> Option<ScriptCause> {
    if !is_ready(client) {
        return None;
    }
    if client.patience.closing.is_some() {
        drop_bytes(client, now);
        return None;
    }
    for _ in 0..MOST_STEPS {
        match step(client, now) {
            Ok(true) => {}
            Ok(false) => return None,
            Err(cause) => {
                close(client, now);
                return Some(cause);
            }
        }
    }
    None
}

/// Ends a client that was waited for too long; what failed then, if it wasn't closing.
pub(crate) fn end_late(client: &mut Client<Socket>, now: u64) -> Option<ScriptCause> {
    if client.patience.left(now) > 0 {
        return None;
    }
    if client.patience.closing.is_some() {
        client.socket.gone = true;
        return None;
    }
    let cause = late(client);
    close(client, now);
    Some(cause)
}

/// Ends a client at once, since another has to have its place; what failed, if it wasn't closing.
pub(crate) fn give_up(client: &mut Client<Socket>) -> Option<ScriptCause> {
    client.socket.gone = true;
    if client.patience.closing.is_some() {
        None
    } else {
        Some(late(client))
    }
}

/// Takes one step; `false` where the client, or its answer, has to be waited for.
fn step(client: &mut Client<Socket>, now: u64) -> Result<bool, ScriptCause> {
    match client.connection.wants() {
        Wants::Read => read_step(client, now),
        Wants::Answer => Ok(false),
        Wants::Write => write_step(client, now),
        Wants::Close => {
            close(client, now);
            Ok(false)
        }
    }
}

/// Takes what came, or reads more.
fn read_step(client: &mut Client<Socket>, now: u64) -> Result<bool, ScriptCause>
    requires { wants_of client.old.connection.line.talk ≡ WantsRead }
{
    if !client.connection.holds_bytes() {
        return read_more(client, now);
    }
    match client.connection.take() {
        Ok(()) => Ok(true),
        Err(_) => Err(ScriptCause::Memory),
    }
}

/// Reads what came to the socket.
fn read_more(client: &mut Client<Socket>, now: u64) -> Result<bool, ScriptCause>
    requires wants { wants_of client.old.connection.line.talk ≡ WantsRead }
    requires all { client.old.connection.coming ≡ [] }
{
    if !client.socket.readable {
        return Ok(false);
    }
    let mut buffer = [0; PIECE_BYTES];
    match (&client.socket.stream).read(&mut buffer) {
        Ok(0) => {
            client.connection.end();
            Ok(true)
        }
        Ok(n) => {
            client.patience.moved = now;
            match client.connection.came(&buffer[..n]) {
                Ok(()) => Ok(true),
                Err(_) => Err(ScriptCause::Memory),
            }
        }
        Err(error) => match error.kind() {
            ErrorKind::WouldBlock => {
                client.socket.readable = false;
                Ok(false)
            }
            ErrorKind::Interrupted => Ok(true),
            _ => Err(ScriptCause::Read),
        },
    }
}

/// Writes what isn't written of the answer.
fn write_step(client: &mut Client<Socket>, now: u64) -> Result<bool, ScriptCause> {
    if !client.socket.writable {
        return Ok(false);
    }
    match (&client.socket.stream).write(client.connection.unsent()) {
        Ok(0) => Err(ScriptCause::Write),
        Ok(n) => {
            client.patience.moved = now;
            client.connection.wrote(n);
            Ok(true)
        }
        Err(error) => match error.kind() {
            ErrorKind::WouldBlock => {
                client.socket.writable = false;
                Ok(false)
            }
            ErrorKind::Interrupted => Ok(true),
            _ => Err(ScriptCause::Write),
        },
    }
}

/// Reads and drops what a client still sends behind its last answer.
fn drop_bytes(client: &mut Client<Socket>, now: u64) {
    let mut buffer = [0; PIECE_BYTES];
    for _ in 0..MOST_STEPS {
        if !client.socket.readable || client.socket.gone {
            return;
        }
        match (&client.socket.stream).read(&mut buffer) {
            Ok(0) => client.socket.gone = true,
            Ok(_) => client.patience.moved = now,
            Err(error) => match error.kind() {
                ErrorKind::WouldBlock => client.socket.readable = false,
                ErrorKind::Interrupted => {}
                _ => client.socket.gone = true,
            },
        }
    }
}
