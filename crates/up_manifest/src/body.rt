//! The body of a request, which comes in pieces.
ghost use Rattle.std.specs.Prelude.{◌≡◌, ◌≤◌, ◌<◌, ◌++◌, ◌-◌, [], length, min, take, IfOk, IfSome, IfNone, MatchOption, OnErr};
ghost use Rattle.up_manifest.specs.Manifests.{largest_body};

use std::alloc::{AllocError, Global};
use std::marker::Model;
use up_canon::bytes::Bytes;

/// The most bytes of a body.
pub const LARGEST_BODY: usize = 262_144;

/// A body of a known length, as far as it has come.
#[derive(Debug, Drop)]
pub struct Body {
    items: Vec<u8>,
    size: usize,
}

impl Model for Body {
    ghost use Rattle.std.specs.Prelude.{◌≤◌, length};
    ghost use Rattle.up_manifest.specs.Bodies.{Coming};
    ghost use Rattle.up_manifest.specs.Manifests.{largest_body};

    ghost Value = { Coming };

    ghost view = { λ a. record { size = a.size; bytes = a.items.items } };

    ghost invariant = { λ a. (length a.items.items ≤ a.size) × (a.size ≤ largest_body) };
}

impl Body {
    /// A body of so many bytes, of which none has come; none above 262,144 bytes. It takes no memory.
    pub fn new(alloc: Global, length: u64) -> Option<Body>
        ensures { MatchOption result (largest_body < length)
            (λ body. (length ≤ largest_body) × (body ≡ record { size = length; bytes = [] })) }
    {
        if length > LARGEST_BODY as u64 {
            return None;
        }
        Some(Body {
            items: Vec::new(alloc),
            size: length as usize,
        })
    }

    /// How many bytes are to come.
    pub fn missing(&self) -> usize
        ensures { result ≡ self.now.size - length self.now.bytes }
    {
        self.size - self.items.len()
    }

    /// Takes as many bytes as are missing, or all of the piece, and tells how many. An error takes nothing.
    pub fn feed(&mut self, piece: &[u8]) -> Result<usize, AllocError>
        ensures taken { IfOk result (λ n. n ≡ min (length piece.now) (self.old.size - length self.old.bytes)) }
        ensures ok { IfOk result (λ _. self.new
            ≡ record { size = self.old.size; bytes = take self.old.size (self.old.bytes ++ piece.now) }) }
        ensures err { OnErr result (self.new ≡ self.old) }
    {
        let taken = piece.len().min(self.missing());
        self.items.extend_from_slice(&piece[..taken])?;
        Ok(taken)
    }

    /// All the bytes, once they are there.
    pub fn whole(&self) -> Option<&[u8]>
        ensures some { IfSome result (λ bytes. (bytes.now ≡ self.now.bytes) × (length self.now.bytes ≡ self.now.size)) }
        ensures none { IfNone result (length self.now.bytes < self.now.size) }
    {
        if self.items.len() == self.size {
            return Some(self.items.as_slice());
        }
        None
    }

    /// The bytes that have come.
    pub fn into_bytes(self) -> Bytes
        ensures { result ≡ self.bytes }
    {
        let Body { items, size: _ } = self;
        Bytes::new(items)
    }
}
