//! A text written whole, with nothing tried twice.
ghost use Rattle.up_pieces.specs.Pieces.{WritesWhole};

use crate::sink::Sink;

/// The writer failed, or took no byte of what it was handed.
#[derive(Clone, Copy, Debug, PartialEq, Eq, Drop)]
pub struct NotWritten;

/// Writes a text, from where the writer stopped if it takes it in parts. Nothing is written after a failure.
pub fn write_whole<W: Sink>(writer: &mut W, text: &[u8]) -> Result<(), NotWritten>
    requires { W.can_write writer.old }
    ensures { WritesWhole text.now (W.contents writer.old) (W.contents writer.new)
        (W.can_write writer.new) (W.has_failed writer.new) result }
{
    let mut at = 0;
    while at < text.len() {
        match writer.write_some(&text[at..]) {
            Ok(0) => return Err(NotWritten),
            Err(_) => return Err(NotWritten),
            Ok(n) => at += n,
        }
    }
    Ok(())
}
