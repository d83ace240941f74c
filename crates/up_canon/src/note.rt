//! Notes, as an ECU's word on a detected attack.
ghost use Rattle.std.specs.Prelude.{◌≡◌, string_bytes, MatchOption, true, false};
ghost use Rattle.std.specs.List.{list_all};
ghost use Rattle.up_canon.specs.Canon.{is_printable as is_printable_of};
ghost use Rattle.up_canon.specs.Names.{is_note};

use crate::listed::Duplicate;
use std::alloc::{AllocError, Global};
use std::marker::Model;

/// 0 to 256 bytes of printable ASCII.
#[derive(Debug, Drop)]
pub struct Note {
    text: String,
}

impl Model for Note {
    ghost use Rattle.std.specs.Prelude.{◌≡◌, ℕ, List, string_bytes, true};
    ghost use Rattle.up_canon.specs.Names.{is_note};

    ghost Value = { List ℕ };

    ghost view = { λ a. string_bytes a.text };

    ghost invariant = { λ a. is_note (string_bytes a.text) ≡ true };
}

impl Note {
    /// The text as a note, or none where it is not one.
    pub fn new(text: String) -> Option<Note>
        ensures { MatchOption result (is_note (string_bytes text) ≡ false) (λ made. (is_note (string_bytes text) ≡ true)
            × (made ≡ string_bytes text)) }
    {
        if fits(text.as_str().as_bytes()) {
            Some(Note { text })
        } else {
            None
        }
    }

    /// The text that it was made of.
    pub fn text(&self) -> &str
        ensures value { result.now ≡ self.now }
        ensures fits { is_note self.now ≡ true }
    {
        self.text.as_str()
    }
}

impl Duplicate for Note {
    fn copy(&self, alloc: Global) -> Result<Note, AllocError> {
        Ok(Note {
            text: self.text.as_str().to_string(alloc)?,
        })
    }
}

fn fits(bytes: &[u8]) -> bool
    ensures { result ≡ is_note bytes.now }
{
    if bytes.len() > 256 {
        return false;
    }
    has_printable_bytes(bytes)
}

/// Whether each byte is printable ASCII.
pub fn has_printable_bytes(bytes: &[u8]) -> bool
    ensures { result ≡ list_all is_printable_of bytes.now }
{
    bytes.iter().all(|b| is_printable(*b))
}

/// Whether the byte is printable ASCII, 0x20 to 0x7E.
pub fn is_printable(byte: u8) -> bool
    ensures { result ≡ is_printable_of byte }
{
    byte >= b' ' && byte <= b'~'
}
