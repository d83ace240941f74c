//! Filenames of images and metadata.
ghost use Rattle.std.specs.Prelude.{◌≡◌, string_bytes, MatchOption, true, false};
ghost use Rattle.std.specs.List.{list_all};
ghost use Rattle.up_canon.specs.Names.{is_file_name, is_file_byte as is_file_byte_of};

use crate::ident::is_ident_byte;
use crate::listed::Duplicate;
use std::alloc::{AllocError, Global};
use std::marker::Model;

/// 1 to 128 letters, digits, dots, underscores, dashes and slashes.
#[derive(Debug, Drop)]
pub struct FileName {
    text: String,
}

impl Model for FileName {
    ghost use Rattle.std.specs.Prelude.{◌≡◌, ℕ, List, string_bytes, true};
    ghost use Rattle.up_canon.specs.Names.{is_file_name};

    ghost Value = { List ℕ };

    ghost view = { λ a. string_bytes a.text };

    ghost invariant = { λ a. is_file_name (string_bytes a.text) ≡ true };
}

impl FileName {
    /// The text as a filename, or none where it is not one.
    pub fn new(text: String) -> Option<FileName>
        ensures { MatchOption result (is_file_name (string_bytes text) ≡ false)
            (λ made. (is_file_name (string_bytes text) ≡ true) × (made ≡ string_bytes text)) }
    {
        if fits(text.as_str().as_bytes()) {
            Some(FileName { text })
        } else {
            None
        }
    }

    /// The text that it was made of.
    pub fn text(&self) -> &str
        ensures value { result.now ≡ self.now }
        ensures fits { is_file_name self.now ≡ true }
    {
        self.text.as_str()
    }
}

impl Duplicate for FileName {
    fn copy(&self, alloc: Global) -> Result<FileName, AllocError> {
        Ok(FileName {
            text: self.text.as_str().to_string(alloc)?,
        })
    }
}

fn fits(bytes: &[u8]) -> bool
    ensures { result ≡ is_file_name bytes.now }
{
    if bytes.is_empty() || bytes.len() > 128 {
        return false;
    }
    has_file_bytes(bytes)
}

fn has_file_bytes(bytes: &[u8]) -> bool
    ensures { result ≡ list_all is_file_byte_of bytes.now }
{
    bytes.iter().all(|b| is_file_byte(*b))
}

fn is_file_byte(byte: u8) -> bool
    ensures { result ≡ is_file_byte_of byte }
{
    is_ident_byte(byte) || byte == b'/'
}
