//! Pieces of what a reader gives.
ghost use Rattle.std.specs.Prelude.{length};
ghost use Rattle.up_pieces.specs.Pieces.{ReadsPiece};

use crate::source::Source;
use std::io;

/// Reads a piece of at most so many bytes to the buffer's front, and tells how many they are: none only at the reader's end,
/// or where there is room for none. A fault takes nothing from the reader. Only where some came may the reader be read again.
pub fn read_piece<R: Source>(reader: &mut R, buffer: &mut [u8], most: u64) -> io::Result<usize>
    requires { R.can_read reader.old }
    ensures { ReadsPiece most (length buffer.old) buffer.new (R.remaining reader.old) (R.remaining reader.new)
        (R.can_read reader.new) (R.has_failed reader.new) (R.has_ended reader.new) result }
{
    let room = if most < buffer.len() as u64 {
        most as usize
    } else {
        buffer.len()
    };
    reader.read_some(&mut buffer[..room])
}
