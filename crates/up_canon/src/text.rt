//! Text of any length, as a signed text or a reply.
ghost use Rattle.std.specs.Prelude.{◌≡◌, string_bytes};

use crate::listed::Duplicate;
use std::alloc::{AllocError, Global};
use std::marker::Model;

/// Text of any length, as a signed text or a reply.
#[derive(Debug, Drop)]
pub struct Text {
    text: String,
}

impl Model for Text {
    ghost use Rattle.std.specs.Prelude.{ℕ, List, string_bytes};

    ghost Value = { List ℕ };

    ghost view = { λ a. string_bytes a.text };
}

impl Text {
    /// The text, which it takes.
    pub fn new(text: String) -> Text
        ensures { result ≡ string_bytes text }
    {
        Text { text }
    }

    /// The text.
    pub fn as_str(&self) -> &str
        ensures { result.now ≡ self.now }
    {
        self.text.as_str()
    }

    /// The string that it was made of.
    pub fn into_string(self) -> String
        ensures { string_bytes result ≡ self }
    {
        let Text { text } = self;
        text
    }
}

impl Duplicate for Text {
    fn copy(&self, alloc: Global) -> Result<Text, AllocError> {
        Ok(Text {
            text: self.text.as_str().to_string(alloc)?,
        })
    }
}
