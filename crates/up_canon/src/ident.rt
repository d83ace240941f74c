//! Identifiers of vehicles, ECUs, hardware and campaigns.
ghost use Rattle.std.specs.Prelude.{◌≡◌, string_bytes, MatchOption, true, false};
ghost use Rattle.std.specs.List.{list_all};
ghost use Rattle.up_canon.specs.Names.{is_ident, is_ident_byte as is_ident_byte_of};

use crate::listed::Duplicate;
use std::alloc::{AllocError, Global};
use std::marker::Model;

/// 1 to 64 letters, digits, dots, underscores and dashes.
#[derive(Debug, Drop)]
pub struct Ident {
    text: String,
}

impl Model for Ident {
    ghost use Rattle.std.specs.Prelude.{◌≡◌, ℕ, List, string_bytes, true};
    ghost use Rattle.up_canon.specs.Names.{is_ident};

    ghost Value = { List ℕ };

    ghost view = { λ a. string_bytes a.text };

    ghost invariant = { λ a. is_ident (string_bytes a.text) ≡ true };
}

impl Ident {
    /// The text as an identifier, or none where it is not one.
    pub fn new(text: String) -> Option<Ident>
        ensures { MatchOption result (is_ident (string_bytes text) ≡ false)
            (λ made. (is_ident (string_bytes text) ≡ true) × (made ≡ string_bytes text)) }
    {
        if fits(text.as_str().as_bytes()) {
            Some(Ident { text })
        } else {
            None
        }
    }

    /// The text that it was made of.
    pub fn text(&self) -> &str
        ensures value { result.now ≡ self.now }
        ensures fits { is_ident self.now ≡ true }
    {
        self.text.as_str()
    }
}

impl Duplicate for Ident {
    fn copy(&self, alloc: Global) -> Result<Ident, AllocError> {
        Ok(Ident {
            text: self.text.as_str().to_string(alloc)?,
        })
    }
}

fn fits(bytes: &[u8]) -> bool
    ensures { result ≡ is_ident bytes.now }
{
    if bytes.is_empty() || bytes.len() > 64 {
        return false;
    }
    has_ident_bytes(bytes)
}

fn has_ident_bytes(bytes: &[u8]) -> bool
    ensures { result ≡ list_all is_ident_byte_of bytes.now }
{
    bytes.iter().all(|b| is_ident_byte(*b))
}

/// Whether the byte may stand in an identifier.
pub fn is_ident_byte(byte: u8) -> bool
    ensures { result ≡ is_ident_byte_of byte }
{
    byte.is_ascii_alphanumeric() || byte == b'.' || byte == b'_' || byte == b'-'
}
