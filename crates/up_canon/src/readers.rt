//! Names in JSON, each in memory of its own.
ghost use Rattle.serde_json.specs.View.{view};
ghost use Rattle.up_canon.specs.Members.{object_of_map};
ghost use Rattle.up_canon.specs.Readers.{ident_in, file_name_in, note_in, ident_of as ident_of_value, file_name_of as file_name_of_value, note_of as note_of_value};
ghost use Rattle.up_canon.specs.Refusals.{Gives};

use crate::fields::member_at;
use crate::file_name::FileName;
use crate::ident::Ident;
use crate::kinds::text_of;
use crate::note::Note;
use crate::refusal::Refusal;
use serde_json::{Map, Value};
use std::alloc::Global;

/// The identifier that the value is; the name is that of the fault.
#[tactic(auto, unfolding(crate::specs::Readers::ident_of, crate::specs::Steps::and_then))]
pub fn ident_of(alloc: Global, value: &Value, name: &'static str) -> Result<Ident, Refusal>
    ensures { Gives result (ident_of_value name.now (view value.now)) }
{
    Ok(Ident::new(text_of(value, name)?.to_string(alloc)?).ok_or(name)?)
}

/// The filename that the value is; the name is that of the fault.
#[tactic(auto, unfolding(crate::specs::Readers::file_name_of, crate::specs::Steps::and_then))]
pub fn file_name_of(alloc: Global, value: &Value, name: &'static str) -> Result<FileName, Refusal>
    ensures { Gives result (file_name_of_value name.now (view value.now)) }
{
    Ok(FileName::new(text_of(value, name)?.to_string(alloc)?).ok_or(name)?)
}

/// The note that the value is; the name is that of the fault.
#[tactic(auto, unfolding(crate::specs::Readers::note_of, crate::specs::Steps::and_then))]
pub fn note_of(alloc: Global, value: &Value, name: &'static str) -> Result<Note, Refusal>
    ensures { Gives result (note_of_value name.now (view value.now)) }
{
    Ok(Note::new(text_of(value, name)?.to_string(alloc)?).ok_or(name)?)
}

/// The identifier of a member.
#[tactic(auto, unfolding(crate::specs::Readers::ident_in, crate::specs::Steps::and_then))]
pub fn ident_at(
    alloc: Global,
    map: &Map<String, Value>,
    name: &'static str,
) -> Result<Ident, Refusal>
    ensures { Gives result (ident_in name.now (object_of_map map.now.entries)) }
{
    ident_of(alloc, member_at(map, name)?, name)
}

/// The filename of a member.
#[tactic(auto, unfolding(crate::specs::Readers::file_name_in, crate::specs::Steps::and_then))]
pub fn file_name_at(
    alloc: Global,
    map: &Map<String, Value>,
    name: &'static str,
) -> Result<FileName, Refusal>
    ensures { Gives result (file_name_in name.now (object_of_map map.now.entries)) }
{
    file_name_of(alloc, member_at(map, name)?, name)
}

/// The note of a member.
#[tactic(auto, unfolding(crate::specs::Readers::note_in, crate::specs::Steps::and_then))]
pub fn note_at(alloc: Global, map: &Map<String, Value>, name: &'static str) -> Result<Note, Refusal>
    ensures { Gives result (note_in name.now (object_of_map map.now.entries)) }
{
    note_of(alloc, member_at(map, name)?, name)
}
