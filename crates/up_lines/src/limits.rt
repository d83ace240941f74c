//! How much an input may have.

/// The most lines of an input.
pub const MOST_LINES: u32 = 100_000;

/// The most bytes of a line, its newline not counted.
pub const MOST_LINE_BYTES: usize = 2_097_152;

/// The most bytes that are read: so many lines of so many bytes, their newlines, and one byte more.
pub const MOST_BYTES: u64 = 209_715_300_001;

/// How many bytes are read at once.
pub const PIECE_BYTES: usize = 65_536;

/// The most lines that are handed on together.
pub const MOST_TOGETHER: usize = 64;
