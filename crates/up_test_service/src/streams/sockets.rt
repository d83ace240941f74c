//! A client and the service over a socket, in one process.
//!
//! `do LINE` is carried out by the desk of each later client. `ends INPUT` is a client that writes its bytes and ends its half,
//! `stays INPUT` one that keeps its half open.
use crate::streams::desks::{AT, carry_out, in_memory};
use sqlite::Alter;
use std::alloc::{AllocError, Global};
use std::io;
use std::io::Write;
use std::net::{Shutdown, TcpListener, TcpStream};
use up_desk::desk::Desk;
use up_service::refusals::Deaf;
use up_service::stream::serve_stream;
use up_sign::hmac_sha256::HmacSha256;
use up_test_common::calls::Calls;
use up_test_common::devices::{bytes_of, text_of};
use up_test_common::sections::told;

/// Clients, and what each one's desk carries out before.
#[derive(Drop)]
struct Clients<'a> {
    rt: &'a HostRuntime,
    script: String,
}

impl Calls for Clients<'_> {
    fn answer(&mut self, alloc: Global, _: &str, given: &str) -> Result<String, AllocError> {
        let (word, rest) = given.split_once(' ').unwrap_or((given, ""));
        match word {
            "do" => keep(alloc, &mut self.script, rest),
            _ => client_told(self.rt, alloc, self.script.as_str(), word == "ends", rest),
        }
    }

    fn is_wanted(&self, had: &str, wanted: &str) -> bool {
        had == wanted
    }
}

/// What is told of a section of clients.
pub(crate) fn told_over_sockets(rt: &HostRuntime, section: &str) -> Result<String, AllocError> {
    let mut clients = Clients {
        rt,
        script: String::new(rt.alloc()),
    };
    told(rt.alloc(), &mut clients, section)
}

/// Keeps a line, which each client's desk carries out before.
fn keep(alloc: Global, script: &mut String, line: &str) -> Result<String, AllocError> {
    script.push_str(line)?;
    script.push('\n')?;
    "kept".to_string(alloc)
}

fn client_told(
    rt: &HostRuntime,
    alloc: Global,
    script: &str,
    ends: bool,
    input: &str,
) -> Result<String, AllocError> {
    let bytes = bytes_of(alloc, input)?;
    match connected(rt, alloc, script, bytes.as_slice(), ends) {
        Ok(text) => Ok(text),
        Err(_) => "a fault of the socket".to_string(alloc),
    }
}

/// Connects, writes, and ends the client's half where it is told to; then serves the connection, and reads what was answered.
fn connected(
    rt: &HostRuntime,
    alloc: Global,
    script: &str,
    input: &[u8],
    ends: bool,
) -> io::Result<String> {
    let listener = TcpListener::bind(rt, "127.0.0.1:0")?;
    let mut client = TcpStream::connect(rt, listener.local_addr()?)?;
    client.write_all(input)?;
    if ends {
        client.shutdown(Shutdown::Write)?;
    }
    let (server, _) = listener.accept()?;
    let requests = served_alone(alloc, script, &server)?;
    server.shutdown(Shutdown::Write)?;
    let answer = io::read_to_string(alloc, client)?;
    Ok(answer_told(alloc, requests, answer.as_str())?)
}

fn answer_told(alloc: Global, requests: u32, answer: &str) -> Result<String, AllocError> {
    let bytes = text_of(alloc, answer.as_bytes())?;
    format!(in alloc; "{requests}: {bytes}")
}

/// Serves a connection at a desk of its own: how many requests were answered.
fn served_alone(alloc: Global, script: &str, stream: &TcpStream) -> io::Result<u32> {
    let mut desk = in_memory(alloc)?;
    let requests = served(alloc, &mut desk, script, stream);
    drop(desk);
    requests
}

fn served<D: Alter>(
    alloc: Global,
    desk: &mut Desk<HmacSha256, D>,
    script: &str,
    stream: &TcpStream,
) -> io::Result<u32> {
    carry_out(alloc, desk, script)?;
    match serve_stream(alloc, &Deaf, desk, AT, &mut &*stream, &mut &*stream) {
        Ok(served) => Ok(served.requests),
        Err(_) => Err(io::Error::from(io::ErrorKind::Other)),
    }
}
