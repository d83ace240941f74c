//! What bytes are written to.
ghost use Rattle.std.specs.Prelude.{◌≡◌, ◌<◌, ℕ, List, Option, IfOk, OnErr, length};
ghost use Rattle.std.specs.Io.{WritesAtMost};
ghost use Rattle.std.specs.Io.KnownBytes.{WriteAppends};

use std::io;
use std::io::Write;

/// What bytes are written to, up to the first write that fails or takes none: only a write that took a byte ensures that it may
/// be written again. What says that a write failed has to show it by `has_failed`, which no other call gives.
pub trait Sink {
    // The bytes that it holds, where they are known.
    ghost contents: { Self → Option (List ℕ) };

    // It may be written.
    ghost can_write: { Self → Type 0 };

    // A write failed, or took none of some bytes.
    ghost has_failed: { Self → Type 0 };

    /// Writes the first of these bytes, and tells how many they are.
    fn write_some(&mut self, bytes: &[u8]) -> io::Result<usize>
        requires { can_write self.old }
        ensures bound { WritesAtMost result bytes.now }
        ensures bytes { WriteAppends (contents self.old) (contents self.new) result bytes.now }
        ensures goes_on { IfOk result (λ n. 0 < n → can_write self.new) }
        ensures failed { OnErr result (has_failed self.new) }
        ensures took_none { IfOk result (λ n. n ≡ 0 → 0 < length bytes.now → has_failed self.new) };
}

impl<W: Write> Sink for W {
    ghost use Rattle.std.specs.Prelude.{⊤};

    ghost contents = { W.contents };

    ghost can_write = { λ _. ⊤ };

    ghost has_failed = { λ _. ⊤ };

    fn write_some(&mut self, bytes: &[u8]) -> io::Result<usize> {
        self.write(bytes)
    }
}
