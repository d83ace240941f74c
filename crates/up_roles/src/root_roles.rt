//! Reading the roles of a Root payload.
ghost use Rattle.std.specs.Prelude.{◌≡◌, ◌≤◌, bytes_eq, codes, length, option_map, IfOk};
ghost use Rattle.std.specs.List.{list_all, find};
ghost use Rattle.serde_json.specs.View.{view};
ghost use Rattle.up_canon.specs.Members.{object_of_map, values_of};
ghost use Rattle.up_canon.specs.Readers.{fitting};
ghost use Rattle.up_canon.specs.Refusals.{Gives};
ghost use Rattle.up_canon.specs.Steps.{each};
ghost use Rattle.up_roles.specs.Root.{chosen_key, role_is_met as role_is_met_of, role_in, has_key as has_key_of, is_used as is_used_of};

use crate::parts::{count_part, few_part, object_part};
use crate::root::{RoleKeys, RootFile, RootKey};
use serde_json::{Map, Value};
use std::alloc::Global;
use up_canon::kinds::text_of;
use up_canon::listed::{Duplicate, Listed};
use up_canon::named::are_distinct;
use up_canon::refusal::Refusal;

/// The role of that name, of keys among these.
#[tactic(auto, unfolding(crate::specs::Root::role_in, up_canon::specs::Steps::and_then))]
pub(crate) fn role_at(
    alloc: Global,
    roles: &Map<String, Value>,
    name: &str,
    keys: &[RootKey],
) -> Result<RoleKeys, Refusal>
    ensures { Gives result (role_in keys.now name.now (object_of_map roles.now.entries)) }
{
    let map = object_part(roles, name, "roles")?;
    let ids = few_part(map, "keyids", "roles", 1, 4)?;
    let chosen = each_chosen(alloc, keys, ids.as_slice())?;
    let threshold = count_part(map, "threshold", "roles")?;
    role_of(chosen, threshold.get())
}

/// The role of these keys, which have distinct identifiers and can meet the threshold.
fn role_of(keys: Listed<RootKey>, threshold: u64) -> Result<RoleKeys, Refusal>
    requires { length keys ≤ 4 }
    ensures { result ≡ fitting role_is_met_of (codes "roles") (record { keys = keys; threshold = threshold }) }
{
    if threshold >= 1
        && threshold <= keys.as_slice().len() as u64
        && are_distinct(keys.as_slice())
    {
        Ok(RoleKeys {
            keys,
            threshold: threshold as u32,
        })
    } else {
        Err(Refusal::from("roles"))
    }
}

#[tactic(auto, unfolding(up_canon::specs::Steps::each, up_canon::specs::Steps::and_then))]
fn each_chosen(
    alloc: Global,
    keys: &[RootKey],
    values: &[Value],
) -> Result<Listed<RootKey>, Refusal>
    ensures chosen { Gives result (each (chosen_key keys.now) (values_of values.now)) }
    ensures number { IfOk result (λ chosen. length chosen ≡ length values.now) }
{
    let mut chosen = Vec::with_capacity(alloc, values.len())?;
    for value in values {
        chosen.push(chosen_at(alloc, keys, value)?)?;
    }
    Ok(Listed::new(chosen))
}

#[tactic(auto, unfolding(crate::specs::Root::chosen_key, up_canon::specs::Steps::and_then))]
fn chosen_at(alloc: Global, keys: &[RootKey], value: &Value) -> Result<RootKey, Refusal>
    ensures { Gives result (chosen_key keys.now (view value.now)) }
{
    match find_key(keys, text_of(value, "roles")?) {
        Some(key) => Ok(key.copy(alloc)?),
        None => Err(Refusal::from("roles")),
    }
}

fn find_key<'a>(keys: &'a [RootKey], keyid: &str) -> Option<&'a RootKey>
    ensures { option_map (λ key. key.now) result ≡ find (λ key. bytes_eq key.keyid keyid.now) keys.now }
{
    keys.iter().find(|key| key.keyid.as_str() == keyid)
}

/// Whether a role of the file has each of these keys.
pub(crate) fn are_used(file: &RootFile, keys: &[RootKey]) -> bool
    ensures { result ≡ list_all (is_used_of file.now) keys.now }
{
    keys.iter().all(|key| is_used(file, key))
}

fn is_used(file: &RootFile, key: &RootKey) -> bool
    ensures { result ≡ is_used_of file.now key.now }
{
    has_key(&file.root, key)
        || has_key(&file.targets, key)
        || has_key(&file.snapshot, key)
        || has_key(&file.timestamp, key)
}

fn has_key(role: &RoleKeys, key: &RootKey) -> bool
    ensures { result ≡ has_key_of role.now key.now }
{
    role.keys
        .as_slice()
        .iter()
        .any(|own| own.keyid.as_str() == key.keyid.as_str())
}
