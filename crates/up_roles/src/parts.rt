//! Parts of a member, whose faults go by that member's name.
ghost use Rattle.std.specs.Prelude.{◌≡◌, ◌≤◌, Ok, IfOk, MatchResult, length};
ghost use Rattle.std.specs.List.{list_all};
ghost use Rattle.serde_json.specs.View.{view};
ghost use Rattle.up_canon.specs.HexText.{is_lower_digit as is_lower_digit_of};
ghost use Rattle.up_canon.specs.Members.{IsFault, object_of_map, values_of};
ghost use Rattle.up_canon.specs.Refusals.{Gives};
ghost use Rattle.up_roles.specs.Parts.{part_in, object_part as object_part_of, few_part as few_part_of, text_part as text_part_of, count_part as count_part_of, positive_part as positive_part_of, ident_part as ident_part_of, file_name_part as file_name_part_of, digits_part as digits_part_of, sha256_part as sha256_part_of, sha512_part as sha512_part_of};

use hex::FromHex;
use serde_json::{Map, Value};
use std::alloc::Global;
use up_canon::count::Count;
use up_canon::fields::find;
use up_canon::file_name::FileName;
use up_canon::hex_text::is_lower_digit;
use up_canon::ident::Ident;
use up_canon::kinds::{count_of, list_of, object_of, text_of};
use up_canon::readers::{file_name_of, ident_of};
use up_canon::refusal::Refusal;

/// The part of that name.
#[tactic(auto, unfolding(crate::specs::Parts::part_in))]
pub(crate) fn part_at<'a>(
    map: &'a Map<String, Value>,
    name: &str,
    fault: &'static str,
) -> Result<&'a Value, &'static str>
    ensures { MatchResult result
        (λ value. part_in fault.now name.now (object_of_map map.now.entries) ≡ Ok (view value.now))
        (λ f. IsFault (part_in fault.now name.now (object_of_map map.now.entries)) fault.now f.now) }
{
    match find(map, name) {
        Some(value) => Ok(value),
        None => Err(fault),
    }
}

#[tactic(auto, unfolding(crate::specs::Parts::object_part, up_canon::specs::Steps::and_then))]
pub(crate) fn object_part<'a>(
    map: &'a Map<String, Value>,
    name: &str,
    fault: &'static str,
) -> Result<&'a Map<String, Value>, &'static str>
    ensures { MatchResult result
        (λ inner. object_part_of fault.now name.now (object_of_map map.now.entries)
        ≡ Ok (object_of_map inner.now.entries))
        (λ f. IsFault (object_part_of fault.now name.now (object_of_map map.now.entries)) fault.now f.now) }
{
    object_of(part_at(map, name, fault)?, fault)
}

/// A list of so many items.
#[tactic(auto, unfolding(crate::specs::Parts::few_part, up_canon::specs::Steps::and_then))]
pub(crate) fn few_part<'a>(
    map: &'a Map<String, Value>,
    name: &str,
    fault: &'static str,
    least: usize,
    most: usize,
) -> Result<&'a Vec<Value>, &'static str>
    ensures number { IfOk result (λ list. length list.now.items ≤ most) }
    ensures value { MatchResult result
        (λ list. few_part_of least most fault.now name.now (object_of_map map.now.entries)
        ≡ Ok (values_of list.now.items))
        (λ f. IsFault (few_part_of least most fault.now name.now (object_of_map map.now.entries)) fault.now f.now) }
{
    let list = list_of(part_at(map, name, fault)?, fault)?;
    if list.len() >= least && list.len() <= most {
        Ok(list)
    } else {
        Err(fault)
    }
}

#[tactic(auto, unfolding(crate::specs::Parts::text_part, up_canon::specs::Steps::and_then))]
pub(crate) fn text_part<'a>(
    map: &'a Map<String, Value>,
    name: &str,
    fault: &'static str,
) -> Result<&'a str, &'static str>
    ensures { MatchResult result
        (λ text. text_part_of fault.now name.now (object_of_map map.now.entries) ≡ Ok text.now)
        (λ f. IsFault (text_part_of fault.now name.now (object_of_map map.now.entries)) fault.now f.now) }
{
    text_of(part_at(map, name, fault)?, fault)
}

#[tactic(auto, unfolding(crate::specs::Parts::count_part, up_canon::specs::Steps::and_then))]
pub(crate) fn count_part(
    map: &Map<String, Value>,
    name: &str,
    fault: &'static str,
) -> Result<Count, &'static str>
    ensures { MatchResult result
        (λ count. count_part_of fault.now name.now (object_of_map map.now.entries) ≡ Ok count)
        (λ f. IsFault (count_part_of fault.now name.now (object_of_map map.now.entries)) fault.now f.now) }
{
    count_of(part_at(map, name, fault)?, fault)
}

/// A count from 1.
#[tactic(auto, unfolding(crate::specs::Parts::positive_part, up_canon::specs::Steps::and_then))]
pub(crate) fn positive_part(
    map: &Map<String, Value>,
    name: &str,
    fault: &'static str,
) -> Result<Count, &'static str>
    ensures { MatchResult result
        (λ count. positive_part_of fault.now name.now (object_of_map map.now.entries) ≡ Ok count)
        (λ f. IsFault (positive_part_of fault.now name.now (object_of_map map.now.entries)) fault.now f.now) }
{
    let count = count_part(map, name, fault)?;
    if count.get() >= 1 {
        Ok(count)
    } else {
        Err(fault)
    }
}

#[tactic(auto, unfolding(crate::specs::Parts::ident_part, up_canon::specs::Steps::and_then))]
pub(crate) fn ident_part(
    alloc: Global,
    map: &Map<String, Value>,
    name: &str,
    fault: &'static str,
) -> Result<Ident, Refusal>
    ensures { Gives result (ident_part_of fault.now name.now (object_of_map map.now.entries)) }
{
    ident_of(alloc, part_at(map, name, fault)?, fault)
}

#[tactic(auto, unfolding(crate::specs::Parts::file_name_part, up_canon::specs::Steps::and_then))]
pub(crate) fn file_name_part(
    alloc: Global,
    map: &Map<String, Value>,
    name: &str,
    fault: &'static str,
) -> Result<FileName, Refusal>
    ensures { Gives result (file_name_part_of fault.now name.now (object_of_map map.now.entries)) }
{
    file_name_of(alloc, part_at(map, name, fault)?, fault)
}

/// The SHA-256 among the hashes, of 64 lower case hexadecimal digits.
#[tactic(auto, unfolding(crate::specs::Parts::hash_part, up_canon::specs::Steps::and_then))]
pub(crate) fn sha256_part(
    map: &Map<String, Value>,
    fault: &'static str,
) -> Result<[u8; 32], &'static str>
    ensures { MatchResult result
        (λ hash. sha256_part_of fault.now (object_of_map map.now.entries) ≡ Ok hash)
        (λ f. IsFault (sha256_part_of fault.now (object_of_map map.now.entries)) fault.now f.now) }
{
    match <[u8; 32] as FromHex>::from_hex(digits_part(map, "sha256", fault)?) {
        Ok(hash) => Ok(hash),
        Err(_) => Err(fault),
    }
}

/// The SHA-512 among the hashes, where it is 128 lower case hexadecimal digits. Any other member counts as none.
#[tactic(auto, unfolding(crate::specs::Parts::hash_part, up_canon::specs::Steps::and_then))]
pub(crate) fn sha512_part(map: &Map<String, Value>) -> Option<[u8; 64]>
    ensures { result ≡ sha512_part_of (object_of_map map.now.entries) }
{
    let digits = digits_part(map, "sha512", "hashes").ok()?;
    <[u8; 64] as FromHex>::from_hex(digits).ok()
}

/// A text among the hashes, of lower case hexadecimal digits.
#[tactic(auto, unfolding(crate::specs::Parts::digits_part, up_canon::specs::Steps::and_then))]
fn digits_part<'a>(
    map: &'a Map<String, Value>,
    name: &str,
    fault: &'static str,
) -> Result<&'a str, &'static str>
    ensures { MatchResult result
        (λ digits. digits_part_of fault.now name.now (object_of_map map.now.entries) ≡ Ok digits.now)
        (λ f. IsFault (digits_part_of fault.now name.now (object_of_map map.now.entries)) fault.now f.now) }
{
    let digits = text_part(object_part(map, "hashes", fault)?, name, fault)?;
    if has_lower_digits(digits.as_bytes()) {
        Ok(digits)
    } else {
        Err(fault)
    }
}

fn has_lower_digits(bytes: &[u8]) -> bool
    ensures { result ≡ list_all is_lower_digit_of bytes.now }
{
    bytes.iter().all(|b| is_lower_digit(*b))
}
