//! Bytes that JSON holds as hexadecimal text.
ghost use Rattle.std.specs.Prelude.{◌≡◌, Ok, MatchResult};
ghost use Rattle.serde_json.specs.View.{view};
ghost use Rattle.up_canon.specs.HexText.{hex_of as hex_of_value, hex_in, sha256_in, sha512_in, is_lower_digit as is_lower_digit_of};
ghost use Rattle.up_canon.specs.Members.{IsFault, object_of_map};
ghost use Rattle.up_canon.specs.Refusals.{Gives};

use crate::bytes::Bytes;
use crate::fields::{find, member_at};
use crate::kinds::text_of;
use crate::refusal::Refusal;
use hex::FromHexError;
use serde_json::{Map, Value};
use std::alloc::Global;

/// The bytes of a text of so many hexadecimal digits, of either case; the name is that of the fault.
#[tactic(auto, unfolding(crate::specs::HexText::hex_of, crate::specs::Steps::and_then))]
pub fn hex_of(
    alloc: Global,
    value: &Value,
    name: &'static str,
    least: usize,
    most: usize,
) -> Result<Bytes, Refusal>
    ensures { Gives result (hex_of_value least most name.now (view value.now)) }
{
    let text = text_of(value, name)?;
    if text.len() < least || text.len() > most {
        return Err(name.into());
    }
    match hex::decode(alloc, text.as_bytes()) {
        Ok(bytes) => Ok(Bytes::new(bytes)),
        Err(FromHexError::OutOfMemory) => Err(Refusal::Memory),
        Err(_) => Err(name.into()),
    }
}

/// The bytes of a member of so many hexadecimal digits, of either case.
#[tactic(auto, unfolding(crate::specs::HexText::hex_in, crate::specs::Steps::and_then))]
pub fn hex_at(
    alloc: Global,
    map: &Map<String, Value>,
    name: &'static str,
    least: usize,
    most: usize,
) -> Result<Bytes, Refusal>
    ensures { Gives result (hex_in least most name.now (object_of_map map.now.entries)) }
{
    hex_of(alloc, member_at(map, name)?, name, least, most)
}

/// The SHA-256 of a member, 64 hexadecimal digits of either case, or its name.
#[tactic(auto, unfolding(crate::specs::HexText::sha256_in, crate::specs::Steps::and_then))]
pub fn sha256_at(map: &Map<String, Value>, name: &'static str) -> Result<[u8; 32], &'static str>
    ensures { MatchResult result
        (λ hash. sha256_in name.now (object_of_map map.now.entries) ≡ Ok hash)
        (λ fault. IsFault (sha256_in name.now (object_of_map map.now.entries)) name.now fault.now) }
{
    sha256_of(member_at(map, name)?, name)
}

/// The 32 bytes of a text of 64 hexadecimal digits, or the name.
#[tactic(auto, unfolding(crate::specs::HexText::hex_of, crate::specs::Steps::and_then))]
pub fn sha256_of(value: &Value, name: &'static str) -> Result<[u8; 32], &'static str>
    ensures { MatchResult result
        (λ hash. hex_of_value 64 64 name.now (view value.now) ≡ Ok hash)
        (λ fault. IsFault (hex_of_value 64 64 name.now (view value.now)) name.now fault.now) }
{
    let text = text_of(value, name)?;
    let mut hash = [0; 32];
    match hex::decode_to_slice(text.as_bytes(), &mut hash[..]) {
        Ok(()) => Ok(hash),
        Err(_) => Err(name),
    }
}

/// The SHA-512 of the member `sha512`, where it is 128 hexadecimal digits of either case. Any other member counts as none.
/// It takes no memory.
#[tactic(auto, unfolding(crate::specs::HexText::sha512_in, crate::specs::HexText::hex_in, crate::specs::Members::member_in, crate::specs::Steps::and_then))]
pub fn sha512_at(hashes: &Map<String, Value>) -> Option<[u8; 64]>
    ensures { result ≡ sha512_in (object_of_map hashes.now.entries) }
{
    sha512_of(find(hashes, "sha512")?, "sha512").ok()
}

/// The 64 bytes of a text of 128 hexadecimal digits, of either case, or the name.
#[tactic(auto, unfolding(crate::specs::HexText::hex_of, crate::specs::Steps::and_then))]
pub fn sha512_of(value: &Value, name: &'static str) -> Result<[u8; 64], &'static str>
    ensures { MatchResult result
        (λ hash. hex_of_value 128 128 name.now (view value.now) ≡ Ok hash)
        (λ fault. IsFault (hex_of_value 128 128 name.now (view value.now)) name.now fault.now) }
{
    let text = text_of(value, name)?;
    let mut bytes = [0; 64];
    match hex::decode_to_slice(text.as_bytes(), &mut bytes[..]) {
        Ok(()) => Ok(bytes),
        Err(_) => Err(name),
    }
}

/// Whether the byte is a hexadecimal digit in lower case.
pub fn is_lower_digit(byte: u8) -> bool
    ensures { result ≡ is_lower_digit_of byte }
{
    byte.is_ascii_digit() || (byte >= b'a' && byte <= b'f')
}
