//! What bytes are read from.
ghost use Rattle.std.specs.Prelude.{◌≡◌, ◌<◌, ℕ, List, Option, IfOk, OnErr, length};
ghost use Rattle.std.specs.Io.{ReadsAtMost};
ghost use Rattle.std.specs.Io.KnownBytes.{ReadConsumes};

use std::io;
use std::io::Read;

/// What bytes are read from, up to the first read that fails or gives none: only a read that gave a byte ensures that it may be
/// read again. What says that a read failed has to show it by `has_failed`, and that the reader ended by `has_ended`.
pub trait Source {
    // The bytes that reads will give from here on, where they are known.
    ghost remaining: { Self → Option (List ℕ) };

    // It may be read.
    ghost can_read: { Self → Type 0 };

    // A read failed.
    ghost has_failed: { Self → Type 0 };

    // A read into some room gave no byte.
    ghost has_ended: { Self → Type 0 };

    /// Reads bytes to the buffer's front, and tells how many they are.
    fn read_some(&mut self, buffer: &mut [u8]) -> io::Result<usize>
        requires { can_read self.old }
        ensures bound { ReadsAtMost result buffer.new }
        ensures bytes { ReadConsumes (remaining self.old) (remaining self.new) result buffer.new }
        ensures goes_on { IfOk result (λ n. 0 < n → can_read self.new) }
        ensures failed { OnErr result (has_failed self.new) }
        ensures ended { IfOk result (λ n. n ≡ 0 → 0 < length buffer.old → has_ended self.new) };
}

impl<R: Read> Source for R {
    ghost use Rattle.std.specs.Prelude.{⊤};

    ghost remaining = { R.remaining };

    ghost can_read = { λ _. ⊤ };

    ghost has_failed = { λ _. ⊤ };

    ghost has_ended = { λ _. ⊤ };

    fn read_some(&mut self, buffer: &mut [u8]) -> io::Result<usize> {
        self.read(buffer)
    }
}
