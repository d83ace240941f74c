//! Reading a canonical text piece by piece, from its front.
ghost use Rattle.std.specs.Prelude.{◌≡◌, ◌++◌, IsTrue, IfSome, IfOk, OnOk, MatchBool, true, not, decimal, flat_map, length, string_bytes, take, slice_index, position};
ghost use Rattle.std.specs.List.{list_all};
ghost use Rattle.hex.specs.Hex.{encode_lower};
ghost use Rattle.up_canon.specs.Canon.{is_printable_text, escape_of as escaped_of, json_string};
ghost use Rattle.up_canon.specs.HexText.{is_lower_digit as is_lower_digit_of};
ghost use Rattle.up_manifest.specs.Plain.{is_direct as is_direct_of};
ghost use Rattle.up_sign.specs.Schemes.{is_byte};

use std::alloc::{AllocError, AllocFailed, Global};
use up_canon::count::Count;
use up_canon::hex_text::is_lower_digit;
use up_canon::note::is_printable;

/// That nothing was read: the text has another form, or memory was refused.
#[derive(Clone, Copy, Debug)]
pub struct Unread;

impl From<AllocError> for Unread {
    fn from(_: AllocError) -> Self {
        Unread
    }
}

impl<T: Drop> From<AllocFailed<T>> for Unread {
    fn from(_: AllocFailed<T>) -> Self {
        Unread
    }
}

/// A text that is read from its front. Each step says what it takes; where it answers an error, what is left is any text.
#[derive(Drop)]
pub struct Cursor<'a> {
    /// What is left.
    pub rest: &'a str,
}

impl<'a> Cursor<'a> {
    /// In front of the text.
    pub fn new(text: &'a str) -> Cursor<'a>
        ensures { result.rest.now ≡ text.now }
    {
        Cursor { rest: text }
    }

    /// Takes a piece, where it stands in front, and tells whether it does.
    pub fn takes(&mut self, piece: &str) -> bool
        ensures { MatchBool result (self.old.rest.now ≡ piece.now ++ self.new.rest.now)
            (self.new.rest.now ≡ self.old.rest.now) }
    {
        match self.rest.strip_prefix(piece) {
            Some(rest) => {
                self.rest = rest;
                true
            }
            None => false,
        }
    }

    /// Takes a piece, which has to stand in front.
    pub fn pass(&mut self, piece: &str) -> Result<(), Unread>
        ensures { OnOk result (self.old.rest.now ≡ piece.now ++ self.new.rest.now) }
    {
        if self.takes(piece) {
            Ok(())
        } else {
            Err(Unread)
        }
    }

    /// Takes so many bytes, where there are so many.
    pub fn cut(&mut self, size: usize) -> Result<&'a str, Unread>
        ensures { IfOk result (λ t. (self.old.rest.now ≡ t.now ++ self.new.rest.now) × (length t.now ≡ size)) }
    {
        match self.rest.split_at_checked(size) {
            Some((front, rest)) => {
                self.rest = rest;
                Ok(front)
            }
            None => Err(Unread),
        }
    }

    /// Takes a text in quotes in which each byte stands for itself: printable ASCII but quotes and backslashes.
    pub fn quoted(&mut self) -> Result<&'a str, Unread>
        ensures value { IfOk result (λ t. self.old.rest.now ≡ json_string t.now ++ self.new.rest.now) }
        ensures printable { IfOk result (λ t. IsTrue (is_printable_text t.now)) }
    {
        self.pass("\"")?;
        let text = self.direct()?;
        self.pass("\"")?;
        Ok(text)
    }

    /// Takes a text in quotes in which a backslash stands before each quote and each backslash, as in canonical text. It gives
    /// up where more than so many bytes were read.
    pub fn escaped(&mut self, alloc: Global, most: usize) -> Result<String, Unread>
        ensures value { IfOk result (λ t. self.old.rest.now ≡ json_string (string_bytes t) ++ self.new.rest.now) }
        ensures printable { IfOk result (λ t. IsTrue (is_printable_text (string_bytes t))) }
    {
        self.pass("\"")?;
        let mut text = String::new(alloc);
        'pieces: while text.len() <= most {
            let direct = self.direct()?;
            text.push_str(direct)?;
            if self.takes("\"") {
                return Ok(text);
            }
            let special = self.escape()?;
            text.push_str(special)?;
        }
        Err(Unread)
    }

    /// Takes a backslash and the quote or the backslash behind it, which it answers.
    fn escape(&mut self) -> Result<&'static str, Unread>
        ensures value { IfOk result (λ t. self.old.rest.now ≡ flat_map escaped_of t.now ++ self.new.rest.now) }
        ensures one { IfOk result (λ t. length t.now ≡ 1) }
        ensures printable { IfOk result (λ t. IsTrue (is_printable_text t.now)) }
    {
        if self.takes("\\\"") {
            return Ok("\"");
        }
        self.pass("\\\\")?;
        Ok("\\")
    }

    /// Takes bytes that stand for themselves.
    fn direct(&mut self) -> Result<&'a str, Unread>
        ensures { IfOk result
            (λ t. (self.old.rest.now ≡ t.now ++ self.new.rest.now) × (list_all is_direct_of t.now ≡ true)) }
    {
        self.cut(direct_size(self.rest.as_bytes()))
    }

    /// Takes the digits of a count, which begin with no zero but in `0` itself.
    pub fn count(&mut self) -> Result<Count, Unread>
        ensures { IfOk result (λ n. self.old.rest.now ≡ decimal n ++ self.new.rest.now) }
    {
        let digits = self.cut(digits_size(self.rest.as_bytes()))?;
        number_of(digits).and_then(Count::new).ok_or(Unread)
    }

    /// Takes so many bytes in hexadecimal digits, in quotes and in lower case. After an error `out` may hold any bytes.
    fn digits_of(&mut self, out: &mut [u8]) -> Result<(), Unread>
        ensures { OnOk result (self.old.rest.now ≡ json_string (encode_lower out.new) ++ self.new.rest.now) }
    {
        let digits = self.lower_digits()?;
        match hex::decode_to_slice(digits.as_bytes(), out) {
            Ok(()) => Ok(()),
            Err(_) => Err(Unread),
        }
    }

    /// Takes the digits of a SHA-256 in quotes.
    pub fn sha256(&mut self) -> Result<[u8; 32], Unread>
        ensures { IfOk result (λ hash. self.old.rest.now ≡ json_string (encode_lower hash) ++ self.new.rest.now) }
    {
        let mut hash = [0; 32];
        self.digits_of(&mut hash[..])?;
        Ok(hash)
    }

    /// Takes the digits of a SHA-512 in quotes.
    pub fn sha512(&mut self) -> Result<[u8; 64], Unread>
        ensures { IfOk result (λ hash. self.old.rest.now ≡ json_string (encode_lower hash) ++ self.new.rest.now) }
    {
        let mut hash = [0; 64];
        self.digits_of(&mut hash[..])?;
        Ok(hash)
    }

    /// Takes bytes in hexadecimal digits, in quotes and in lower case.
    pub fn bytes(&mut self, alloc: Global) -> Result<Vec<u8>, Unread>
        ensures value { IfOk result
            (λ bytes. self.old.rest.now ≡ json_string (encode_lower bytes.items) ++ self.new.rest.now) }
        ensures typed { IfOk result (λ bytes. IsTrue (list_all is_byte bytes.items)) }
    {
        let digits = self.lower_digits()?;
        match hex::decode(alloc, digits.as_bytes()) {
            Ok(bytes) => Ok(bytes),
            Err(_) => Err(Unread),
        }
    }

    /// Takes hexadecimal digits in lower case, in quotes.
    fn lower_digits(&mut self) -> Result<&'a str, Unread>
        ensures value { IfOk result (λ t. self.old.rest.now ≡ json_string t.now ++ self.new.rest.now) }
        ensures lower { IfOk result (λ t. list_all is_lower_digit_of t.now ≡ true) }
    {
        self.pass("\"")?;
        let digits = self.bare_digits()?;
        self.pass("\"")?;
        Ok(digits)
    }

    /// Takes hexadecimal digits in lower case, without quotes.
    fn bare_digits(&mut self) -> Result<&'a str, Unread>
        ensures { IfOk result
            (λ t. (self.old.rest.now ≡ t.now ++ self.new.rest.now) × (list_all is_lower_digit_of t.now ≡ true)) }
    {
        self.cut(lower_size(self.rest.as_bytes()))
    }
}

/// How many hexadecimal digits in lower case stand in front of the first other byte; 0 where there is none.
fn lower_size(bytes: &[u8]) -> usize
    ensures { list_all is_lower_digit_of (take result bytes.now) ≡ true }
{
    first_no_digit(bytes).unwrap_or(0)
}

/// The place of the first byte that is no hexadecimal digit in lower case.
fn first_no_digit(bytes: &[u8]) -> Option<usize>
    ensures { result ≡ position (λ b. not (is_lower_digit_of b)) bytes.now }
{
    bytes.iter().position(|b| !is_lower_digit(*b))
}

/// How many bytes in front of the first that doesn't stand for itself; 0 where there is none.
fn direct_size(bytes: &[u8]) -> usize
    ensures { list_all is_direct_of (take result bytes.now) ≡ true }
{
    first_other(bytes).unwrap_or(0)
}

/// The place of the first byte that doesn't stand for itself.
fn first_other(bytes: &[u8]) -> Option<usize>
    ensures { result ≡ position (λ b. not (is_direct_of b)) bytes.now }
{
    bytes.iter().position(|b| !is_direct(*b))
}

/// Whether the byte stands for itself in a text in quotes.
fn is_direct(byte: u8) -> bool
    ensures { result ≡ is_direct_of byte }
{
    is_printable(byte) && byte != b'"' && byte != b'\\'
}

/// How many digits stand in front of the first other byte; 0 where there is none.
fn digits_size(bytes: &[u8]) -> usize {
    bytes.iter().position(|b| !b.is_ascii_digit()).unwrap_or(0)
}

/// The number that the digits spell, none where they begin with a zero that isn't the only one.
fn number_of(digits: &str) -> Option<u64>
    ensures { IfSome result (λ n. digits.now ≡ decimal n) }
{
    if digits == "0" {
        return Some(0);
    }
    if first_byte(digits.as_bytes()) > b'0' {
        return digits.parse::<u64>().ok();
    }
    None
}

/// The first byte, or 0 where there is none.
fn first_byte(bytes: &[u8]) -> u8
    ensures { result ≡ slice_index bytes.now 0 }
{
    match bytes.first() {
        Some(byte) => *byte,
        None => 0,
    }
}
