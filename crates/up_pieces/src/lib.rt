//! Pieces of bytes read from any reader, and texts written whole to any writer, with nothing tried twice.
#![tactic(auto)]

mod pieces;
pub mod sink;
pub mod source;
mod written;

pub use pieces::read_piece;
pub use written::{NotWritten, write_whole};
