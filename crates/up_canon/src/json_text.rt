//! Reading JSON from bytes.
ghost use Rattle.std.specs.Prelude.{◌≡◌, ◌<◌, ◌⊎◌, Err, length};
ghost use Rattle.serde_json.specs.Errors.{IsMemory};
ghost use Rattle.serde_json.specs.Read.{read};
ghost use Rattle.serde_json.specs.View.{view};
ghost use Rattle.up_canon.specs.JsonText.{value_in, value_within as value_within_of};
ghost use Rattle.up_canon.specs.Refusals.{GivesAs};
ghost use Rattle.up_canon.specs.Steps.{or_error};
ghost use Rattle.up_canon.specs.declared.refusal.Refusal.TheVariants.{Memory, TooLarge, NotJson};

use crate::refusal::Refusal;
use serde_json::{Category, Value};
use std::alloc::Global;

/// The value that at most so many bytes read as: `TooLarge` where there are more, whatever memory there is, `NotJson` where
/// they are not JSON in UTF-8 (RFC 8259), `Memory` where it was refused.
#[tactic(auto, unfolding(crate::specs::JsonText::value_within, crate::specs::Steps::and_then))]
pub fn value_within(alloc: Global, bytes: &[u8], most: usize) -> Result<Value, Refusal>
    ensures value { GivesAs view result (value_within_of most bytes.now) }
    ensures large { most < length bytes.now → result ≡ Err TooLarge }
{
    if bytes.len() > most {
        return Err(Refusal::TooLarge);
    }
    value_of(alloc, bytes)
}

/// The value that a text reads as: `NotJson` where it is no JSON (RFC 8259), `Memory` where it was refused.
pub fn value_of_text(alloc: Global, text: &str) -> Result<Value, Refusal>
    ensures { GivesAs view result (or_error NotJson (read text.now)) }
{
    match Value::from_str(alloc, text) {
        Ok(value) => Ok(value),
        Err(error) => Err(fault_of(&error)),
    }
}

fn value_of(alloc: Global, bytes: &[u8]) -> Result<Value, Refusal>
    ensures { GivesAs view result (or_error NotJson (value_in bytes.now)) }
{
    match Value::from_slice(alloc, bytes) {
        Ok(value) => Ok(value),
        Err(error) => Err(fault_of(&error)),
    }
}

fn fault_of(error: &serde_json::Error) -> Refusal
    ensures { (IsMemory error.now × (result ≡ Memory)) ⊎ ((IsMemory error.now → ⊥) × (result ≡ NotJson)) }
{
    match error.classify() {
        Category::Memory => Refusal::Memory,
        _ => Refusal::NotJson,
    }
}
