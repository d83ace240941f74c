//! Lines that are printed while the program goes on.
ghost use Rattle.std.specs.Prelude.{◌≡◌};
ghost use Rattle.up_program.specs.Messages.{connection_line, listening_line};

use crate::failure::word_of;
use crate::line::Line;
use itoa::Buffer;
use up_lines::fault::ScriptCause;

/// The line that tells the port at which the program listens.
pub fn listening(port: u16) -> Line
    ensures { result.bytes ≡ listening_line port }
{
    let mut line = Line::new();
    line.push_str("listening ");
    line.push_str(Buffer::new().format(port));
    line.push_str("\n");
    line
}

/// The line that tells why the connection of this number failed.
pub fn connection_fault(number: u64, cause: ScriptCause) -> Line
    ensures { result.bytes ≡ connection_line number cause }
{
    let mut line = Line::new();
    line.push_str("uptane_desk: connection ");
    line.push_str(Buffer::new().format(number));
    line.push_str(": ");
    line.push_str(word_of(cause));
    line.push_str("\n");
    line
}
