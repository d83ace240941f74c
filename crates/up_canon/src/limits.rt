//! A member within limits, or its name as the fault.
ghost use Rattle.std.specs.Prelude.{◌≡◌, Ok, MatchResult};
ghost use Rattle.up_canon.specs.Members.{IsFault, object_of_map, values_of};
ghost use Rattle.up_canon.specs.Names.{is_short_text};
ghost use Rattle.up_canon.specs.Readers.{word_in, short_text_in, positive_in, moment_in, list_within};

use crate::count::Count;
use crate::fields::{count_at, list_at, text_at};
use crate::moment::Moment;
use crate::note::has_printable_bytes;
use serde_json::{Map, Value};

/// Tests that a member is the very word; its name is the fault.
#[tactic(auto, unfolding(crate::specs::Readers::word_in, crate::specs::Steps::and_then))]
pub fn word_at(map: &Map<String, Value>, name: &'static str, word: &str) -> Result<(), &'static str>
    ensures { MatchResult result
        (λ _. word_in word.now name.now (object_of_map map.now.entries) ≡ Ok tt)
        (λ fault. IsFault (word_in word.now name.now (object_of_map map.now.entries)) name.now fault.now) }
{
    if text_at(map, name)? == word {
        Ok(())
    } else {
        Err(name)
    }
}

/// The text of a member that is printable ASCII of so many bytes, or its name.
#[tactic(auto, unfolding(crate::specs::Readers::short_text_in, crate::specs::Steps::and_then))]
pub fn short_text_at<'a>(
    map: &'a Map<String, Value>,
    name: &'static str,
    least: usize,
    most: usize,
) -> Result<&'a str, &'static str>
    ensures { MatchResult result
        (λ text. short_text_in least most name.now (object_of_map map.now.entries) ≡ Ok text.now)
        (λ fault. IsFault (short_text_in least most name.now (object_of_map map.now.entries)) name.now fault.now) }
{
    let text = text_at(map, name)?;
    if is_short(text, least, most) {
        Ok(text)
    } else {
        Err(name)
    }
}

/// The count of a member that is 1 or more, or its name.
#[tactic(auto, unfolding(crate::specs::Readers::positive_in, crate::specs::Steps::and_then))]
pub fn positive_at(map: &Map<String, Value>, name: &'static str) -> Result<Count, &'static str>
    ensures { MatchResult result
        (λ count. positive_in name.now (object_of_map map.now.entries) ≡ Ok count)
        (λ fault. IsFault (positive_in name.now (object_of_map map.now.entries)) name.now fault.now) }
{
    let count = count_at(map, name)?;
    if count.get() >= 1 {
        Ok(count)
    } else {
        Err(name)
    }
}

/// The moment of a member that is a moment's text, or its name.
#[tactic(auto, unfolding(crate::specs::Readers::moment_in, crate::specs::Steps::and_then))]
pub fn moment_at(map: &Map<String, Value>, name: &'static str) -> Result<Moment, &'static str>
    ensures { MatchResult result
        (λ moment. moment_in name.now (object_of_map map.now.entries) ≡ Ok moment)
        (λ fault. IsFault (moment_in name.now (object_of_map map.now.entries)) name.now fault.now) }
{
    Moment::read(text_at(map, name)?).ok_or(name)
}

/// The list of a member of so many items, or its name.
#[tactic(auto, unfolding(crate::specs::Readers::list_within, crate::specs::Steps::and_then))]
pub fn list_within_at<'a>(
    map: &'a Map<String, Value>,
    name: &'static str,
    least: usize,
    most: usize,
) -> Result<&'a Vec<Value>, &'static str>
    ensures { MatchResult result
        (λ list. list_within least most name.now (object_of_map map.now.entries) ≡ Ok (values_of list.now.items))
        (λ fault. IsFault (list_within least most name.now (object_of_map map.now.entries)) name.now fault.now) }
{
    let list = list_at(map, name)?;
    if list.len() >= least && list.len() <= most {
        Ok(list)
    } else {
        Err(name)
    }
}

/// Whether the text is printable ASCII of so many bytes.
pub fn is_short(text: &str, least: usize, most: usize) -> bool
    ensures { result ≡ is_short_text least most text.now }
{
    text.len() >= least && text.len() <= most && has_printable_bytes(text.as_bytes())
}
