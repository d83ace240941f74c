//! Lines that are made without memory, and written whole.
ghost use Rattle.up_program.specs.Messages.{IsWritten};

use arrayvec::ArrayString;
use up_pieces::sink::Sink;
use up_pieces::write_whole;

/// A line that is printed. Each has its newline.
pub type Line = ArrayString<256>;

/// Writes a line, from where the writer stopped if it takes it in parts. That it can't be written is ignored.
pub fn write_line<W: Sink>(writer: &mut W, line: &Line)
    requires { W.can_write writer.old }
    ensures { IsWritten W.contents W.has_failed writer.old line.now.bytes writer.new }
{
    write_whole(writer, line.as_str().as_bytes()).ok();
}
