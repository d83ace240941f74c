//! What a line of a script asks.
ghost use Rattle.std.specs.Prelude.{◌≡◌, Err, IfErr, IfOk, IsTrue, IsUtf8};
ghost use Rattle.serde_json.specs.View.{view};
ghost use Rattle.up_canon.specs.JsonText.{value_in};
ghost use Rattle.up_canon.specs.Members.{object_of_map};
ghost use Rattle.up_canon.specs.Refusals.{Gives, GivesAs};
ghost use Rattle.up_canon.specs.Steps.{or_error};
ghost use Rattle.up_canon.specs.declared.refusal.Refusal.TheVariants.{NotJson};
ghost use Rattle.up_script.specs.AskedLines.{asked_in, asked_of, asks_running, head_in};

use crate::plain_line::plain_delivery;
use crate::what::what_at;
use crate::word::word_at;
use serde_json::{Map, Value};
use std::alloc::Global;
use std::str;
use up_canon::count::Count;
use up_canon::fields::count_at;
use up_canon::ident::Ident;
use up_canon::json_text::value_of_text;
use up_canon::kinds::object_of;
use up_canon::refusal::Refusal;
use up_machine::command::Command;
use up_sign::scheme::Scheme;

/// What a line asks, and at which moment, in seconds since 1970-01-01T00:00:00Z.
#[derive(Drop)]
pub struct Asked {
    pub at: Count,
    pub what: What,
}

/// A command, or a view of a vehicle.
#[derive(Drop)]
pub enum What {
    /// A command.
    Call(Command),
    /// The version, the installed and the assigned images of the vehicle of this name.
    Show(Ident),
}

/// What a line asks, or its first fault: that it is no JSON, then of `do`, `at` and the members of its word, in this order.
/// A `bench` line has a signed manifest delivered. A line that isn't UTF-8 is told as no JSON, whatever memory there is.
pub fn asked_by<K: Scheme>(alloc: Global, scheme: &K, line: &[u8]) -> Result<Asked, Refusal>
    ensures value { Gives result (asked_in (K.rules scheme.now) line.now) }
    ensures running { IfOk result (λ asked. IsTrue (asks_running asked.what)) }
    ensures text { (IsUtf8 line.now → ⊥) → result ≡ Err NotJson }
{
    let Ok(text) = str::from_utf8(line) else {
        return Err(Refusal::NotJson);
    };
    if let Some(asked) = plain_delivery(alloc, text) {
        return Ok(asked);
    }
    asked_of_json(alloc, scheme, text)
}

/// The same of a text of any form, by the tree of its values.
#[tactic(auto, unfolding(crate::specs::AskedLines::asked_in, up_canon::specs::Steps::and_then))]
fn asked_of_json<K: Scheme>(alloc: Global, scheme: &K, line: &str) -> Result<Asked, Refusal>
    ensures value { Gives result (asked_in (K.rules scheme.now) line.now) }
    ensures running { IfOk result (λ asked. IsTrue (asks_running asked.what)) }
{
    let value = line_value(alloc, line)?;
    let members = object_of(&value, "do")?;
    asked_at(alloc, scheme, members)
}

/// The same of the members of a line. Want of memory is never told for a fault of `do` or `at`.
#[tactic(auto, unfolding(crate::specs::AskedLines::asked_of, crate::specs::AskedLines::head_in, up_canon::specs::Steps::and_then))]
fn asked_at<K: Scheme>(
    alloc: Global,
    scheme: &K,
    members: &Map<String, Value>,
) -> Result<Asked, Refusal>
    ensures value { Gives result (asked_of (K.rules scheme.now) (object_of_map members.now.entries)) }
    ensures running { IfOk result (λ asked. IsTrue (asks_running asked.what)) }
    ensures outright { IfErr (head_in (object_of_map members.now.entries)) (λ r. result ≡ Err r) }
{
    let word = word_at(members)?;
    let at = count_at(members, "at")?;
    let what = what_at(alloc, scheme, word, members)?;
    Ok(Asked { at, what })
}

fn line_value(alloc: Global, line: &str) -> Result<Value, Refusal>
    ensures { GivesAs view result (or_error NotJson (value_in line.now)) }
{
    value_of_text(alloc, line)
}
