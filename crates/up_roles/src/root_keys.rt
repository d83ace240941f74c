//! Reading the keys of a Root payload.
ghost use Rattle.std.specs.Prelude.{◌≡◌, codes, MatchResult};
ghost use Rattle.serde_json.specs.View.{view};
ghost use Rattle.up_canon.specs.Members.{IsFault, object_of_map};
ghost use Rattle.up_canon.specs.Refusals.{Gives};
ghost use Rattle.up_canon.specs.Steps.{each};
ghost use Rattle.up_roles.specs.Root.{entries_of, shown_in, key_of, keys_in};

use crate::parts::text_part;
use crate::root::{MAX_KEYID, MAX_METHOD, MAX_SHOWN, RootKey};
use serde_json::{Map, Value};
use std::alloc::Global;
use up_canon::fields::object_at;
use up_canon::kinds::object_of;
use up_canon::limits::is_short;
use up_canon::listed::Listed;
use up_canon::refusal::Refusal;
use up_canon::text::Text;

/// The keys of a Root payload.
#[tactic(auto, using(crate::proofs::Entries::entries_listed), unfolding(crate::specs::Root::keys_in, up_canon::specs::Steps::and_then))]
pub(crate) fn keys_at(alloc: Global, map: &Map<String, Value>) -> Result<Listed<RootKey>, Refusal>
    ensures { Gives result (keys_in (object_of_map map.now.entries)) }
{
    each_key(alloc, object_at(map, "keys")?)
}

#[tactic(auto, unfolding(up_canon::specs::Steps::each, up_canon::specs::Steps::and_then))]
fn each_key(alloc: Global, map: &Map<String, Value>) -> Result<Listed<RootKey>, Refusal>
    ensures { Gives result (each key_of (entries_of map.now.entries)) }
{
    let mut keys = Vec::new(alloc);
    for (keyid, value) in map.iter() {
        keys.push(key_at(alloc, keyid.as_str(), value)?)?;
    }
    Ok(Listed::new(keys))
}

#[tactic(auto, unfolding(crate::specs::Root::key_of, up_canon::specs::Steps::and_then))]
fn key_at(alloc: Global, keyid: &str, value: &Value) -> Result<RootKey, Refusal>
    ensures { Gives result (key_of (keyid.now, view value.now)) }
{
    if !is_short(keyid, 1, MAX_KEYID) {
        return Err(Refusal::from("keys"));
    }
    let map = object_of(value, "keys")?;
    let method = shown_at(map, "method", 1, MAX_METHOD)?;
    let shown = shown_at(map, "public", 0, MAX_SHOWN)?;
    Ok(RootKey {
        keyid: Text::new(keyid.to_string(alloc)?),
        method: Text::new(method.to_string(alloc)?),
        shown: Text::new(shown.to_string(alloc)?),
    })
}

/// A printable text of so many bytes, in a key.
#[tactic(auto, unfolding(crate::specs::Root::shown_in, up_canon::specs::Steps::and_then))]
fn shown_at<'a>(
    map: &'a Map<String, Value>,
    name: &str,
    least: usize,
    most: usize,
) -> Result<&'a str, &'static str>
    ensures { MatchResult result
        (λ text. shown_in least most name.now (object_of_map map.now.entries) ≡ Ok text.now)
        (λ f. IsFault (shown_in least most name.now (object_of_map map.now.entries)) (codes "keys") f.now) }
{
    let text = text_part(map, name, "keys")?;
    if is_short(text, least, most) {
        Ok(text)
    } else {
        Err("keys")
    }
}
