//! How far a run has come.
ghost use Rattle.std.specs.Prelude.{◌≡◌, ◌≤◌, ◌<◌, ◌+◌, [], vec_capacity};
ghost use Rattle.up_lines.specs.Lines.{most_lines, most_line_bytes, piece_bytes};

use std::alloc::Global;

/// The line that is begun, and what is behind it.
#[derive(Debug, Drop)]
pub struct Progress {
    /// The bytes of the line so far. From the first byte on it has room for any line and a piece behind it.
    pub line: Vec<u8>,
    /// How many lines were whole.
    pub counted: u32,
    /// How many of them were answered.
    pub answered: u32,
    ghost in_order: { answered ≤ counted },
    ghost few: { counted ≤ most_lines },
    ghost room: { vec_capacity line < most_line_bytes + piece_bytes → (line.items ≡ []) × (answered ≡ 0) },
}

impl Progress {
    /// Nothing has come.
    pub fn new(alloc: Global) -> Progress
        ensures { (result.line.items ≡ []) × (result.counted ≡ 0) × (result.answered ≡ 0) }
    {
        Progress {
            line: Vec::new(alloc),
            counted: 0,
            answered: 0,
        }
    }
}
