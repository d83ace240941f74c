//! A JSON value of the kind that is wanted, or its name as the fault.
ghost use Rattle.std.specs.Prelude.{◌≡◌, Ok, MatchResult};
ghost use Rattle.serde_json.specs.View.{view};
ghost use Rattle.up_canon.specs.Members.{IsFault, object_of_map, values_of, text_of as text_of_value, count_of as count_of_value, list_of as list_of_value, object_of as object_of_value};

use crate::count::Count;
use serde_json::{Map, Value};

/// The text, or the name where the value is none.
#[tactic(auto, unfolding(crate::specs::Members::text_of))]
pub fn text_of<'a>(value: &'a Value, name: &'static str) -> Result<&'a str, &'static str>
    ensures { MatchResult result
        (λ text. text_of_value name.now (view value.now) ≡ Ok text.now)
        (λ fault. IsFault (text_of_value name.now (view value.now)) name.now fault.now) }
{
    value.as_str().ok_or(name)
}

/// The whole number from 0 to 2^53-1, or the name where the value is none.
#[tactic(auto, unfolding(crate::specs::Members::count_of))]
pub fn count_of(value: &Value, name: &'static str) -> Result<Count, &'static str>
    ensures { MatchResult result
        (λ count. count_of_value name.now (view value.now) ≡ Ok count)
        (λ fault. IsFault (count_of_value name.now (view value.now)) name.now fault.now) }
{
    match value.as_u64() {
        Some(number) => Count::new(number).ok_or(name),
        None => Err(name),
    }
}

/// The list, or the name where the value is none.
#[tactic(auto, using(crate::proofs::Lists::items_listed), unfolding(crate::specs::Members::list_of))]
pub fn list_of<'a>(value: &'a Value, name: &'static str) -> Result<&'a Vec<Value>, &'static str>
    ensures { MatchResult result
        (λ list. list_of_value name.now (view value.now) ≡ Ok (values_of list.now.items))
        (λ fault. IsFault (list_of_value name.now (view value.now)) name.now fault.now) }
{
    match value.as_array() {
        Some(list) => Ok(list),
        None => Err(name),
    }
}

/// The object, or the name where the value is none.
#[tactic(auto, unfolding(crate::specs::Members::object_of))]
pub fn object_of<'a>(
    value: &'a Value,
    name: &'static str,
) -> Result<&'a Map<String, Value>, &'static str>
    ensures { MatchResult result
        (λ map. object_of_value name.now (view value.now) ≡ Ok (object_of_map map.now.entries))
        (λ fault. IsFault (object_of_value name.now (view value.now)) name.now fault.now) }
{
    value.as_object().ok_or(name)
}
