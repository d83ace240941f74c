//! The canonical text of a JSON value.
ghost use Rattle.std.specs.Prelude.{◌≡◌, ◌&&◌, IfOk, nat_le, string_bytes, true};
ghost use Rattle.serde_json.specs.Data.{depth, items_depth, members_depth};
ghost use Rattle.serde_json.specs.View.{view, number_view, items_view, members_view};
ghost use Rattle.up_canon.specs.Canon.{has_canon, is_plain, items_are_plain, members_are_plain, is_count as is_count_of, text};
ghost use Rattle.up_canon.specs.Refusals.{GivesAs, canonical_text as canonical_text_of};

use crate::count::Count;
use crate::note::has_printable_bytes;
use crate::refusal::Refusal;
use serde_json::{Map, Number, Value};
use std::alloc::{AllocError, Global};

/// How deep lists and objects may nest.
const MAX_NESTING: usize = 16;

/// The canonical text of the value: compact, keys in byte order, printable ASCII, whole numbers from 0
/// to 2^53-1, nested at most 16 deep. `NotCanonical` where the value has none, `Memory` where it is refused.
#[tactic(auto, using(crate::proofs::CanonicalText::has_none))]
pub fn canonical(alloc: Global, value: &Value) -> Result<String, Refusal>
    ensures { GivesAs string_bytes result (canonical_text_of (view value.now)) }
{
    if !is_within(value, MAX_NESTING) {
        return Err(Refusal::NotCanonical);
    }
    Ok(canonical_text(alloc, value)?)
}

/// The canonical text of a value that has one.
pub fn canonical_text(alloc: Global, value: &Value) -> Result<String, AllocError>
    requires { has_canon (view value.now) ≡ true }
    ensures { IfOk result (λ t. string_bytes t ≡ text (view value.now)) }
{
    value.to_string(alloc)
}

#[cycle(within)]
fn is_within(value: &Value, levels: usize) -> bool
    ensures { result ≡ (is_plain (view value.now) && nat_le (depth (view value.now)) levels) }
{
    match value {
        Value::Null => true,
        Value::Bool(_) => true,
        Value::Number(number) => is_count(number),
        Value::String(text) => has_printable_bytes(text.as_str().as_bytes()),
        Value::Array(items) => levels > 0 && items_are_within(items, levels - 1),
        Value::Object(members) => levels > 0 && members_are_within(members, levels - 1),
    }
}

#[cycle(within)]
fn items_are_within(items: &Vec<Value>, levels: usize) -> bool
    ensures { result ≡ (items_are_plain (items_view items.now.items) && nat_le
        (items_depth (items_view items.now.items)) levels) }
{
    for item in items {
        if !is_within(item, levels) {
            return false;
        }
    }
    true
}

#[cycle(within)]
fn members_are_within(members: &Map<String, Value>, levels: usize) -> bool
    ensures { result ≡ (members_are_plain (members_view members.now.entries) && nat_le
        (members_depth (members_view members.now.entries)) levels) }
{
    for (key, member) in members.iter() {
        if !has_printable_bytes(key.as_str().as_bytes()) || !is_within(member, levels) {
            return false;
        }
    }
    true
}

fn is_count(number: &Number) -> bool
    ensures { result ≡ is_count_of (number_view number.now) }
{
    match number.as_u64() {
        Some(count) => Count::new(count).is_some(),
        None => false,
    }
}
