//! A member of a JSON object, or its name as the fault.
ghost use Rattle.std.specs.Prelude.{◌≡◌, Ok, option_map, MatchResult};
ghost use Rattle.serde_json.specs.Find.{get};
ghost use Rattle.serde_json.specs.View.{view};
ghost use Rattle.up_canon.specs.Members.{IsFault, object_of_map, values_of, member_in, text_in, count_in, list_in, object_in};

use crate::count::Count;
use crate::kinds::{count_of, list_of, object_of, text_of};
use serde_json::{Map, Value};

/// The member of that name, or the name where there is none.
#[tactic(auto, unfolding(crate::specs::Members::member_in))]
pub fn member_at<'a>(
    map: &'a Map<String, Value>,
    name: &'static str,
) -> Result<&'a Value, &'static str>
    ensures { MatchResult result
        (λ value. member_in name.now (object_of_map map.now.entries) ≡ Ok (view value.now))
        (λ fault. IsFault (member_in name.now (object_of_map map.now.entries)) name.now fault.now) }
{
    match find(map, name) {
        Some(value) => Ok(value),
        None => Err(name),
    }
}

/// The text of a member, or its name where there is none.
#[tactic(auto, unfolding(crate::specs::Members::text_in, crate::specs::Steps::and_then))]
pub fn text_at<'a>(map: &'a Map<String, Value>, name: &'static str) -> Result<&'a str, &'static str>
    ensures { MatchResult result
        (λ text. text_in name.now (object_of_map map.now.entries) ≡ Ok text.now)
        (λ fault. IsFault (text_in name.now (object_of_map map.now.entries)) name.now fault.now) }
{
    text_of(member_at(map, name)?, name)
}

/// The count of a member, or its name where there is none.
#[tactic(auto, unfolding(crate::specs::Members::count_in, crate::specs::Steps::and_then))]
pub fn count_at(map: &Map<String, Value>, name: &'static str) -> Result<Count, &'static str>
    ensures { MatchResult result
        (λ count. count_in name.now (object_of_map map.now.entries) ≡ Ok count)
        (λ fault. IsFault (count_in name.now (object_of_map map.now.entries)) name.now fault.now) }
{
    count_of(member_at(map, name)?, name)
}

/// The list of a member, or its name where there is none.
#[tactic(auto, unfolding(crate::specs::Members::list_in, crate::specs::Steps::and_then))]
pub fn list_at<'a>(
    map: &'a Map<String, Value>,
    name: &'static str,
) -> Result<&'a Vec<Value>, &'static str>
    ensures { MatchResult result
        (λ list. list_in name.now (object_of_map map.now.entries) ≡ Ok (values_of list.now.items))
        (λ fault. IsFault (list_in name.now (object_of_map map.now.entries)) name.now fault.now) }
{
    list_of(member_at(map, name)?, name)
}

/// The object of a member, or its name where there is none.
#[tactic(auto, unfolding(crate::specs::Members::object_in, crate::specs::Steps::and_then))]
pub fn object_at<'a>(
    map: &'a Map<String, Value>,
    name: &'static str,
) -> Result<&'a Map<String, Value>, &'static str>
    ensures { MatchResult result
        (λ inner. object_in name.now (object_of_map map.now.entries) ≡ Ok (object_of_map inner.now.entries))
        (λ fault. IsFault (object_in name.now (object_of_map map.now.entries)) name.now fault.now) }
{
    object_of(member_at(map, name)?, name)
}

/// The member of that name, if there is one.
pub fn find<'a>(map: &'a Map<String, Value>, name: &str) -> Option<&'a Value>
    ensures { option_map (λ v. view v.now) result ≡ get name.now (object_of_map map.now.entries) }
{
    map.get(name)
}
