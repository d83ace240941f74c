//! Why the program ends without having done its job, and what it then tells.
ghost use Rattle.std.specs.Prelude.{◌≡◌, IfErr, OnOk};
ghost use Rattle.std.specs.Process.{exit_status};
ghost use Rattle.up_program.specs.Failures.{cause_word, failure_line, status_of, ended_of, exit_of};
ghost use Rattle.up_program.specs.Messages.{IsWritten};

use crate::line::{Line, write_line};
use crate::unopened::Unopened;
use itoa::Buffer;
use std::process::ExitCode;
use up_lines::fault::{ScriptCause, ScriptFault};
use up_pieces::sink::Sink;

/// Why the program ends without having done its job. Each has its exit status and its message.
#[derive(Clone, Copy, Debug, PartialEq, Eq, Drop)]
pub enum Failure {
    /// The words ask for no job.
    Usage,
    /// The database isn't opened, and why.
    Unopened(Unopened),
    /// The script was stopped.
    Stopped(ScriptFault),
    /// The file can't be opened or read, or is too long.
    Unread,
    /// There is no listener at the port, or no connection.
    Unheard,
}

impl Failure {
    /// The status that the program ends with.
    pub fn status(self) -> u8
        ensures { result ≡ status_of self }
    {
        match self {
            Failure::Usage => 2,
            Failure::Unopened(_) => 3,
            Failure::Stopped(_) => 4,
            Failure::Unread => 4,
            Failure::Unheard => 4,
        }
    }

    /// The line that tells it.
    pub fn line(self) -> Line
        ensures { result.bytes ≡ failure_line self }
    {
        let mut line = Line::new();
        match self {
            Failure::Usage => line.push_str(
                "usage: uptane_desk run FILE | serve FILE PORT COUNT [SOCKET] | digest FILE\n",
            ),
            Failure::Unopened(cause) => {
                line.push_str("uptane_desk: cannot open the database: ");
                line.push_str(cause.words());
                line.push_str("\n");
            }
            Failure::Stopped(fault) => {
                line.push_str("uptane_desk: stopped after ");
                line.push_str(Buffer::new().format(fault.lines));
                line.push_str(" lines: ");
                line.push_str(word_of(fault.cause));
                line.push_str("\n");
            }
            Failure::Unread => line.push_str("uptane_desk: cannot read the file\n"),
            Failure::Unheard => line.push_str("uptane_desk: cannot listen\n"),
        }
        line
    }
}

/// The word for what ended a run.
pub(crate) fn word_of(cause: ScriptCause) -> &'static str
    ensures { result.now ≡ cause_word cause }
{
    match cause {
        ScriptCause::Memory => "memory",
        ScriptCause::Read => "read",
        ScriptCause::Write => "write",
        ScriptCause::TooLong => "line limit",
    }
}

/// How a script ended.
pub fn ended(ran: Result<u32, ScriptFault>) -> Result<(), Failure>
    ensures { result ≡ ended_of ran }
{
    match ran {
        Ok(_) => Ok(()),
        Err(fault) => Err(Failure::Stopped(fault)),
    }
}

/// Writes why the program ends, and hands it on; nothing where it did its job. A line that can't be written is ignored.
pub fn told<W: Sink>(errors: &mut W, ended: Result<(), Failure>) -> Result<(), Failure>
    requires { W.can_write errors.old }
    ensures same { result ≡ ended }
    ensures silent { OnOk ended (errors.new ≡ errors.old) }
    ensures written { IfErr ended
        (λ failure. IsWritten W.contents W.has_failed errors.old (failure_line failure) errors.new) }
{
    if let Err(failure) = &ended {
        write_line(errors, &failure.line());
    }
    ended
}

/// The status of a program that ends so.
pub fn exit_code(ended: Result<(), Failure>) -> ExitCode
    ensures { exit_status result ≡ exit_of ended }
{
    match ended {
        Ok(()) => ExitCode::SUCCESS,
        Err(failure) => ExitCode::from(failure.status()),
    }
}
