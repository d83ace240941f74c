//! An operator's connection: a script, and its socket.
ghost use Rattle.std.specs.Prelude.{◌≤◌, length};
ghost use Rattle.up_lines.specs.Lines.{piece_bytes};
ghost use Rattle.up_sockets.specs.Served.{IsServed};

use crate::flow::Flow;
use crate::script::{Script, Taken};
use crate::service::Service;
use mio::net::UnixStream;
use std::alloc::{AllocError, Global};
use std::io::{ErrorKind, Read, Write};
use std::net::Shutdown;
use up_lines::fault::{ScriptCause, ScriptFault};
use up_lines::limits::PIECE_BYTES;
use up_program::failure::Failure;
use up_program::line::Line;
use up_program::status::Status;

/// The line that asks how the service stands.
const ASKS_STATUS: &[u8] = b"{\"do\":\"status\"}\n";

/// What a line has that fetches a file: such an answer is long, and goes out before the next line is answered.
const FETCHES: &[u8] = b"\"fetch\"";

/// How many lines are answered before others have their turn: so many are answered together.
const MOST_LINES: u32 = 64;

/// How many steps are taken with an operator before the others have their turn.
const MOST_STEPS: u32 = 64;

/// How long what an operator still sends behind the last answer is dropped, in milliseconds.
const MOST_CLOSING: u64 = 10_000;

/// An operator's connection, whose lines are a script.
#[derive(Drop)]
pub(crate) struct Operator {
    alloc: Global,
    /// Its number, by acceptance, counted from 1.
    pub number: u64,
    stream: UnixStream,
    /// Whether a read may find something. Only one that found nothing says that none may.
    pub readable: bool,
    /// Whether a write may be taken.
    pub writable: bool,
    script: Script,
    /// How many lines were answered.
    answered: u32,
    /// What came and isn't taken.
    came: Flow,
    /// The answers that aren't written.
    answers: Flow,
    /// Whether nothing more is answered.
    over: bool,
    /// When it began to close, if it did.
    closing: Option<u64>,
    /// Whether nothing is left to be done.
    pub gone: bool,
}

impl Operator {
    pub(crate) fn new(alloc: Global, number: u64, stream: UnixStream) -> Operator {
        Operator {
            alloc,
            number,
            stream,
            readable: true,
            writable: true,
            script: Script::new(alloc),
            answered: 0,
            came: Flow::new(alloc),
            answers: Flow::new(alloc),
            over: false,
            closing: None,
            gone: false,
        }
    }

    /// Whether it can go on at once.
    pub(crate) fn is_ready(&self) -> bool {
        if self.gone {
            return false;
        }
        if self.closing.is_some() {
            return self.readable;
        }
        if !self.answers.is_empty() {
            return self.writable;
        }
        self.over || self.waits() || self.readable
    }

    /// Whether lines of it wait to be answered.
    pub(crate) fn waits(&self) -> bool {
        !self.gone
            && self.closing.is_none()
            && !self.over
            && self.answers.is_empty()
            && !self.came.is_empty()
    }

    /// Writes what there is to be written, and reads what came, up to the lines that wait to be answered.
    pub(crate) fn go_on(&mut self, now: u64) {
        for _ in 0..MOST_STEPS {
            if !self.is_ready() || self.waits() {
                return;
            }
            self.step(now);
        }
    }

    /// Takes one step.
    fn step(&mut self, now: u64) {
        if self.closing.is_some() {
            self.drop_bytes();
        } else if !self.answers.is_empty() {
            self.write();
        } else if self.over {
            self.close(now);
        } else {
            self.read();
        }
    }

    /// Nothing more is written, and what still comes is dropped, until the operator closes too.
    fn close(&mut self, now: u64) {
        self.closing = Some(now);
        if self.stream.shutdown(Shutdown::Write).is_err() {
            self.gone = true;
        }
    }

    /// Ends it where it has closed for too long.
    pub(crate) fn end_late(&mut self, now: u64) {
        if let Some(since) = self.closing {
            if now.saturating_sub(since) >= MOST_CLOSING {
                self.gone = true;
            }
        }
    }

    /// What a failed read or write says of it: it may go on later, at once, or never.
    fn failed(&mut self, kind: ErrorKind, reads: bool) {
        match kind {
            ErrorKind::WouldBlock => {
                if reads {
                    self.readable = false;
                } else {
                    self.writable = false;
                }
            }
            ErrorKind::Interrupted => {}
            _ => self.gone = true,
        }
    }

    fn drop_bytes(&mut self) {
        let mut buffer = [0; PIECE_BYTES];
        match (&self.stream).read(&mut buffer) {
            Ok(0) => self.gone = true,
            Ok(_) => {}
            Err(error) => self.failed(error.kind(), true),
        }
    }

    fn write(&mut self) {
        match (&self.stream).write(self.answers.rest()) {
            Ok(0) => self.gone = true,
            Ok(n) => self.answers.take(n),
            Err(error) => self.failed(error.kind(), false),
        }
    }

    fn read(&mut self) {
        let mut buffer = [0; PIECE_BYTES];
        match (&self.stream).read(&mut buffer) {
            Ok(0) => self.end(),
            Ok(n) => {
                if self.take_bytes(&buffer[..n]).is_err() {
                    self.stop(ScriptCause::Memory);
                }
            }
            Err(error) => self.failed(error.kind(), true),
        }
    }

    fn take_bytes(&mut self, bytes: &[u8]) -> Result<(), AllocError> {
        self.came = Flow::of(bytes.to_vec(self.alloc)?);
        Ok(())
    }

    /// The script has no more bytes: one that was cut off in the middle of a line is stopped there.
    fn end(&mut self) {
        if self.script.is_within_line() {
            self.stop(ScriptCause::Read);
        } else {
            self.over = true;
        }
    }

    /// Stops the script, and tells so as its last answer, if there is memory for it.
    fn stop(&mut self, cause: ScriptCause) {
        self.over = true;
        let fault = ScriptFault {
            cause,
            lines: self.answered,
        };
        self.tell(&Failure::Stopped(fault).line());
    }

    /// Appends a line to the answers; `false` where there is no memory for it.
    fn tell(&mut self, line: &Line) -> bool {
        match joined(self.alloc, self.answers.rest(), line.as_str().as_bytes()) {
            Ok(text) => {
                self.answers = Flow::of(text);
                true
            }
            Err(_) => false,
        }
    }

    /// Answers lines that wait, if it is this operator's turn.
    #[tactic(auto, using(crate::proofs::Joined::served_none))]
    pub(crate) fn take_turn<S, V: Service<S>>(
        &mut self,
        service: &V,
        state: &mut S,
        turn: u64,
        status: Status,
    )
        ensures { IsServed (V.does service.now) state.old state.new }
    {
        if self.number != turn || !self.waits() {
            return;
        }
        self.take(service, state, status);
    }

    /// Answers the lines that wait and are whole, up to where others have their turn.
    #[tactic(auto, using(crate::proofs::Joined::served_none))]
    fn take<S, V: Service<S>>(&mut self, service: &V, state: &mut S, status: Status)
        ensures { IsServed (V.does service.now) state.old state.new }
    {
        if !self.script.is_within_line() && asks_status(self.came.rest()) {
            self.tell_status(status);
            return;
        }
        let mut answers = Vec::new(self.alloc);
        let piece = next_piece(self.came.rest());
        let bytes = piece.len();
        let taken = self.script.take(service, state, piece, &mut answers);
        self.took(bytes, answers, taken);
    }

    /// Tells how the service stands, as the first line that came asks.
    fn tell_status(&mut self, status: Status) {
        self.came.take(ASKS_STATUS.len());
        if self.tell(&status.line()) {
            self.answered = self.answered.saturating_add(1);
        } else {
            self.stop(ScriptCause::Memory);
        }
    }

    /// So many bytes were taken, and these are the answers.
    fn took(&mut self, bytes: usize, answers: Vec<u8>, taken: Taken) {
        self.came.take(bytes);
        self.answers = Flow::of(answers);
        self.answered = self.answered.saturating_add(taken.answered);
        if let Some(cause) = taken.stopped {
            self.stop(told_cause(cause));
        }
    }
}

/// What stopped a script. Its answers are kept in memory until they are written.
fn told_cause(cause: ScriptCause) -> ScriptCause {
    match cause {
        ScriptCause::Write => ScriptCause::Memory,
        other => other,
    }
}

/// The piece that is taken next: the first lines, as far as they came, up to one that fetches a file, or before one that asks how
/// the service stands.
fn next_piece(bytes: &[u8]) -> &[u8]
    ensures { length result.now ≤ piece_bytes }
{
    let most = first_lines(bytes);
    first(
        bytes,
        if most < PIECE_BYTES {
            most
        } else {
            PIECE_BYTES
        },
    )
}

/// The first of bytes, so many or all.
fn first(bytes: &[u8], most: usize) -> &[u8]
    ensures { length result.now ≤ most }
{
    if most < bytes.len() {
        &bytes[..most]
    } else {
        bytes
    }
}

/// How many bytes those lines have.
fn first_lines(bytes: &[u8]) -> usize {
    let mut rest = bytes;
    for _ in 0..MOST_LINES {
        let behind = behind_line(rest);
        let fetched = fetches(first(rest, rest.len().saturating_sub(behind.len())));
        rest = behind;
        if fetched || rest.is_empty() || asks_status(rest) {
            break;
        }
    }
    bytes.len().saturating_sub(rest.len())
}

/// The bytes behind the first line, none where it isn't whole.
fn behind_line(bytes: &[u8]) -> &[u8] {
    match bytes.iter().position(|byte| *byte == b'\n') {
        Some(at) => bytes.get(at + 1..).unwrap_or(&[]),
        None => &[],
    }
}

/// Whether the first line asks how the service stands.
fn asks_status(bytes: &[u8]) -> bool {
    bytes.starts_with(ASKS_STATUS)
}

/// Whether a line fetches a file.
fn fetches(line: &[u8]) -> bool {
    line.windows(FETCHES.len()).any(|part| part == FETCHES)
}

/// Bytes, and others behind them.
fn joined(alloc: Global, front: &[u8], behind: &[u8]) -> Result<Vec<u8>, AllocError> {
    let mut bytes = front.to_vec(alloc)?;
    bytes.extend_from_slice(behind)?;
    Ok(bytes)
}
