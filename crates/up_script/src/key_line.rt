//! Lines with the keys of both repositories.
ghost use Rattle.std.specs.Prelude.{◌≡◌, Err, IfErr, codes};
ghost use Rattle.up_canon.specs.Members.{object_of_map};
ghost use Rattle.up_canon.specs.Refusals.{Gives};
ghost use Rattle.up_script.specs.KeyLines.{key_list_in, threshold_in, role_in, root_list_in, repository_in, key_set_in};

use serde_json::{Map, Value};
use std::alloc::Global;
use up_canon::bytes::Bytes;
use up_canon::each::{Reading, each_of};
use up_canon::fields::{count_at, list_at, object_at};
use up_canon::hex_text::hex_of;
use up_canon::refusal::Refusal;
use up_metadata::keys::{KeySet, RepoKeys, RoleSecrets};

/// Keys of 1 to 256 bytes, in hexadecimal digits.
struct KeyReading;

impl Reading for KeyReading {
    ghost use Rattle.up_script.specs.KeyLines.{key_of};

    type Item = Bytes;

    ghost meaning = { key_of };

    #[tactic(auto, unfolding(crate::specs::KeyLines::key_of))]
    fn read(alloc: Global, value: &Value, place: &'static str) -> Result<Bytes, Refusal> {
        hex_of(alloc, value, place, 2, 512)
    }
}

/// The keys of both repositories, or the first fault of shape.
#[tactic(auto, unfolding(crate::specs::KeyLines::key_set_in, up_canon::specs::Steps::and_then))]
pub fn key_set_at(alloc: Global, line: &Map<String, Value>) -> Result<KeySet, Refusal>
    ensures value { Gives result (key_set_in (object_of_map line.now.entries)) }
    ensures outright { IfErr (root_list_in (codes "director") (object_of_map line.now.entries)) (λ r. result ≡ Err r) }
{
    let director = repository_at(alloc, line, "director")?;
    let image = repository_at(alloc, line, "image")?;
    Ok(KeySet { director, image })
}

#[tactic(auto, unfolding(crate::specs::KeyLines::repository_in, crate::specs::KeyLines::root_list_in, up_canon::specs::Steps::and_then))]
fn repository_at(
    alloc: Global,
    line: &Map<String, Value>,
    name: &'static str,
) -> Result<RepoKeys, Refusal>
    ensures value { Gives result (repository_in name.now (object_of_map line.now.entries)) }
    ensures outright { IfErr (root_list_in name.now (object_of_map line.now.entries)) (λ r. result ≡ Err r) }
{
    let repository = object_at(line, name)?;
    let root = role_at(alloc, repository, "root")?;
    let targets = role_at(alloc, repository, "targets")?;
    let snapshot = role_at(alloc, repository, "snapshot")?;
    let timestamp = role_at(alloc, repository, "timestamp")?;
    Ok(RepoKeys {
        root,
        targets,
        snapshot,
        timestamp,
    })
}

#[tactic(auto, unfolding(crate::specs::KeyLines::role_in, crate::specs::KeyLines::key_list_in, up_canon::specs::Steps::and_then))]
fn role_at(
    alloc: Global,
    repository: &Map<String, Value>,
    name: &'static str,
) -> Result<RoleSecrets, Refusal>
    ensures value { Gives result (role_in name.now (object_of_map repository.now.entries)) }
    ensures outright { IfErr (key_list_in name.now (object_of_map repository.now.entries)) (λ r. result ≡ Err r) }
{
    let role = object_at(repository, name)?;
    let keys = each_of::<KeyReading>(alloc, list_at(role, "keys")?.as_slice(), "keys")?;
    let threshold = threshold_at(role)?;
    Ok(RoleSecrets { keys, threshold })
}

/// The threshold of a role, or its fault, which is never want of memory.
#[tactic(auto, unfolding(crate::specs::KeyLines::threshold_in, up_canon::specs::Steps::and_then))]
fn threshold_at(role: &Map<String, Value>) -> Result<u32, Refusal>
    ensures { result ≡ threshold_in (object_of_map role.now.entries) }
{
    let threshold = count_at(role, "threshold")?.get();
    if threshold >= 4294967296 {
        return Err("threshold".into());
    }
    Ok(threshold as u32)
}
