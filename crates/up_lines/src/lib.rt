//! Lines of bytes: cut from a reader, answered one after another, and the answers written to a writer.
#![tactic(auto)]

mod answered;
mod cut;
mod ending;
pub mod fault;
pub mod interpret;
pub mod limits;
mod lines;
mod part;
pub mod progress;

ghost use Rattle.up_lines.specs.Lines.{WholeLinesFirst};

pub use lines::{run, take_piece};

/// The lines that are whole are answered first and as they are, whatever bytes follow.
pub fn whole_lines_first()
    ensures { WholeLinesFirst }
{}
