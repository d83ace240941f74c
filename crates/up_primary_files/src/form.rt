//! Members of JSON objects that files of Primaries have.
ghost use Rattle.std.specs.Prelude.{◌≡◌, IfOk};
ghost use Rattle.up_canon.specs.Members.{list_in, object_of_map, text_in};
ghost use Rattle.up_canon.specs.Refusals.{Gives};
ghost use Rattle.up_canon.specs.Steps.{and_then, each};
ghost use Rattle.up_primary_files.specs.Served.{text_or_empty as text_or_empty_of};

use serde_json::{Map, Value};
use std::alloc::Global;
use up_canon::bytes::Bytes;
use up_canon::each::{Reading, each_of};
use up_canon::fields::{list_at, text_at};
use up_canon::kinds::text_of;
use up_canon::listed::Listed;
use up_canon::refusal::Refusal;
use up_canon::text::Text;

/// The text of a member; an empty one where there is no such member, or no text.
#[tactic(auto, unfolding(crate::specs::Served::text_or_empty))]
pub(crate) fn text_or_empty(
    alloc: Global,
    map: &Map<String, Value>,
    name: &'static str,
) -> Result<Text, Refusal>
    ensures { IfOk result (λ text. text ≡ text_or_empty_of name.now (object_of_map map.now.entries)) }
{
    let found = text_at(map, name).unwrap_or("");
    Ok(Text::new(found.to_string(alloc)?))
}

/// The text of a member.
pub(crate) fn text_of_member(
    alloc: Global,
    map: &Map<String, Value>,
    name: &'static str,
) -> Result<Text, Refusal>
    ensures { Gives result (text_in name.now (object_of_map map.now.entries)) }
{
    Ok(Text::new(text_at(map, name)?.to_string(alloc)?))
}

/// What the values in the list of a member mean, in order; the member's name is their place.
#[tactic(auto, unfolding(up_canon::specs::Steps::and_then))]
pub(crate) fn each_at<R: Reading>(
    alloc: Global,
    map: &Map<String, Value>,
    name: &'static str,
) -> Result<Listed<R::Item>, Refusal>
    ensures { Gives result (and_then (list_in name.now (object_of_map map.now.entries)) (each (R.meaning name.now))) }
{
    each_of::<R>(alloc, list_at(map, name)?.as_slice(), name)
}

/// Texts, each as its bytes; the list's name is the fault of a value that is none.
pub struct TextReading;

impl Reading for TextReading {
    ghost use Rattle.up_canon.specs.Members.{text_of as text_of_value};

    type Item = Bytes;

    ghost meaning = { text_of_value };

    fn read(alloc: Global, value: &Value, place: &'static str) -> Result<Bytes, Refusal> {
        let text = text_of(value, place)?;
        Ok(Bytes::new(text.as_bytes().to_vec(alloc)?))
    }
}
