//! Bytes that are taken one after another.
ghost use Rattle.std.specs.Prelude.{◌≤◌, vec_len};

use std::alloc::Global;

/// Bytes, of which the first were taken.
#[derive(Drop)]
pub(crate) struct Flow {
    bytes: Vec<u8>,
    taken: usize,
    ghost within: { taken ≤ vec_len bytes },
}

impl Flow {
    /// No bytes.
    pub(crate) fn new(alloc: Global) -> Flow {
        Flow {
            bytes: Vec::new(alloc),
            taken: 0,
        }
    }

    /// These bytes, none of which was taken.
    pub(crate) fn of(bytes: Vec<u8>) -> Flow {
        Flow { bytes, taken: 0 }
    }

    /// Whether all were taken.
    pub(crate) fn is_empty(&self) -> bool {
        self.taken == self.bytes.len()
    }

    /// Those that weren't taken.
    pub(crate) fn rest(&self) -> &[u8] {
        &self.bytes[self.taken..]
    }

    /// So many of them are taken, or all.
    pub(crate) fn take(&mut self, bytes: usize) {
        let left = self.bytes.len() - self.taken;
        self.taken += if bytes < left { bytes } else { left };
    }
}
