//! Bytes: keys, hashes and bodies.
ghost use Rattle.std.specs.Prelude.{◌≡◌};

use crate::listed::Duplicate;
use std::alloc::{AllocError, Global};
use std::marker::Model;

/// Bytes: keys, hashes and bodies.
#[derive(Debug, Drop)]
pub struct Bytes {
    items: Vec<u8>,
}

impl Model for Bytes {
    ghost use Rattle.std.specs.Prelude.{ℕ, List, string_bytes};

    ghost Value = { List ℕ };

    ghost view = { λ a. a.items.items };
}

impl Bytes {
    /// The bytes of the vector, which it takes.
    pub fn new(items: Vec<u8>) -> Bytes
        ensures { result ≡ items.items }
    {
        Bytes { items }
    }

    /// The bytes.
    pub fn as_slice(&self) -> &[u8]
        ensures { result.now ≡ self.now }
    {
        self.items.as_slice()
    }

    /// The vector that it was made of.
    pub fn into_vec(self) -> Vec<u8>
        ensures { result.items ≡ self }
    {
        let Bytes { items } = self;
        items
    }
}

impl Duplicate for Bytes {
    fn copy(&self, alloc: Global) -> Result<Bytes, AllocError> {
        Ok(Bytes {
            items: self.items.as_slice().to_vec(alloc)?,
        })
    }
}
