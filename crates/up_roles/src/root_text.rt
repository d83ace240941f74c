//! Writing Root files.
ghost use Rattle.std.specs.Prelude.{◌≡◌, ◌≤◌, ◌∷◌, [], ℕ, List, None, IsTrue, IfOk, OnOk, codes, length, map, string_bytes, true};
ghost use Rattle.std.specs.List.{list_all};
ghost use Rattle.serde_json.specs.Data.{Data, string};
ghost use Rattle.serde_json.specs.View.{view, members_view};
ghost use Rattle.up_canon.specs.Build.{list_with, members_with, object_with};
ghost use Rattle.up_canon.specs.Canon.{text};
ghost use Rattle.up_canon.specs.Moments.{moment_text};
ghost use Rattle.up_sign.specs.Envelopes.{key_block};
ghost use Rattle.up_roles.specs.Payload.{payload, repository_text, is_moment};
ghost use Rattle.up_roles.specs.Root.{all_keys, key_member, put_keys, role_value as role_value_of, roles_value as roles_value_of, root_more, root_payload, root_text_of, root_fits, root_is_typed};
ghost use Rattle.up_roles.specs.Writing.{CanSeal, IsWritten};

use crate::payload::Head;
use crate::repository::Repository;
use crate::root::{RoleKeys, RootFile, RootKey};
use crate::sealing::sealed_text;
use serde_json::{Map, Value, json, put};
use std::alloc::{AllocError, Global};
use up_canon::bytes::Bytes;
use up_canon::canonical::canonical_text;
use up_canon::moment::{LAST_MOMENT, Moment};
use up_sign::key_id::HashedKey;
use up_sign::scheme::Scheme;
use up_sign::seal::hashed_keys;

/// The text of the Root file, which is within its limits (`fits`): its envelope, signed with each of 1 to 8 secrets that
/// fit, in order.
pub fn root_text<K: Scheme>(
    alloc: Global,
    scheme: &K,
    secrets: &[Bytes],
    file: &RootFile,
) -> Result<String, AllocError>
    requires signers { CanSeal (K.rules scheme.now) secrets.now }
    requires limits { IsTrue (root_fits file.now) }
    ensures { IsWritten (root_payload file.now) (root_text_of (K.rules scheme.now) secrets.now file.now)
        (root_is_typed file.now) result }
{
    let keys = hashed_keys(alloc, scheme, secrets)?;
    root_text_by(alloc, scheme, secrets, keys.as_slice(), file)
}

/// As `root_text`, with the secrets' keys hashed already (`up_sign::seal::hashed_keys`).
pub fn root_text_by<K: Scheme>(
    alloc: Global,
    scheme: &K,
    secrets: &[Bytes],
    keys: &[HashedKey],
    file: &RootFile,
) -> Result<String, AllocError>
    requires signers { CanSeal (K.rules scheme.now) secrets.now }
    requires hashed { keys.now ≡ map (key_block (K.rules scheme.now)) secrets.now }
    requires limits { IsTrue (root_fits file.now) }
    ensures { IsWritten (root_payload file.now) (root_text_of (K.rules scheme.now) secrets.now file.now)
        (root_is_typed file.now) result }
{
    let signed = root_signed(alloc, file)?;
    sealed_text(alloc, scheme, secrets, keys, signed)
}

/// The canonical text of the payload.
fn root_signed(alloc: Global, file: &RootFile) -> Result<String, AllocError>
    requires { IsTrue (root_fits file.now) }
    ensures value { IfOk result (λ t. string_bytes t ≡ text (root_payload file.now)) }
    ensures typed { OnOk result (root_is_typed file.now ≡ true) }
{
    let payload = root_value(alloc, file)?;
    canonical_text(alloc, &payload)
}

fn root_value(alloc: Global, file: &RootFile) -> Result<Value, AllocError>
    ensures value { IfOk result (λ v. view v ≡ root_payload file.now) }
    ensures typed { OnOk result (root_is_typed file.now ≡ true) }
{
    let head = Head {
        repository: file.repository,
        version: file.version,
        expires: file.expires,
    };
    let more = root_members(alloc, file)?;
    payload_value(alloc, &head, more)
}

fn root_members(alloc: Global, file: &RootFile) -> Result<Map<String, Value>, AllocError>
    ensures { IfOk result (λ m. members_view m.entries ≡ members_with (root_more file.now)) }
{
    let keys = keys_value(alloc, file)?;
    let roles = roles_value(alloc, file)?;
    let mut members = one_member(alloc, "roles", roles)?;
    put(&mut members, alloc, "keys", keys)?;
    Ok(members)
}

/// The keys of the four roles; the first of an identifier goes in last, and stays.
#[tactic(auto, using(crate::proofs::Keys::keys_in_turn))]
fn keys_value(alloc: Global, file: &RootFile) -> Result<Value, AllocError>
    ensures { IfOk result (λ v. view v ≡ object_with (map key_member (all_keys file.now))) }
{
    let members = Map::new(alloc);
    let members = with_keys(alloc, file.timestamp.keys.as_slice(), members)?;
    let members = with_keys(alloc, file.snapshot.keys.as_slice(), members)?;
    let members = with_keys(alloc, file.targets.keys.as_slice(), members)?;
    let members = with_keys(alloc, file.root.keys.as_slice(), members)?;
    Ok(Value::Object(members))
}

/// The members with these keys, the last of which goes in first.
fn with_keys(
    alloc: Global,
    keys: &[RootKey],
    members: Map<String, Value>,
) -> Result<Map<String, Value>, AllocError>
    ensures { IfOk result (λ m. members_view m.entries ≡ put_keys keys.now (members_view members.entries)) }
{
    match keys {
        [] => Ok(members),
        [key, rest @ ..] => {
            let mut members = with_keys(alloc, rest, members)?;
            let value = key_value(alloc, key)?;
            put(&mut members, alloc, key.keyid.as_str(), value)?;
            Ok(members)
        }
    }
}

fn key_value(alloc: Global, key: &RootKey) -> Result<Value, AllocError>
    ensures { IfOk result (λ v. view v ≡ (key_member key.now).1) }
{
    json!(in alloc; {"method": key.method.as_str(), "public": key.shown.as_str()})
}

fn roles_value(alloc: Global, file: &RootFile) -> Result<Value, AllocError>
    ensures { IfOk result (λ v. view v ≡ roles_value_of file.now) }
{
    let root = role_value(alloc, &file.root)?;
    let snapshot = role_value(alloc, &file.snapshot)?;
    let targets = role_value(alloc, &file.targets)?;
    let timestamp = role_value(alloc, &file.timestamp)?;
    json!(in alloc; {"root": root, "snapshot": snapshot, "targets": targets, "timestamp": timestamp})
}

fn role_value(alloc: Global, role: &RoleKeys) -> Result<Value, AllocError>
    ensures { IfOk result (λ v. view v ≡ role_value_of role.now) }
{
    let ids = ids_value(alloc, role.keys.as_slice())?;
    json!(in alloc; {"keyids": ids, "threshold": role.threshold})
}

fn ids_value(alloc: Global, keys: &[RootKey]) -> Result<Value, AllocError>
    ensures { IfOk result (λ v. view v ≡ list_with (map (λ key. string key.keyid) keys.now)) }
{
    let mut values = Vec::with_capacity(alloc, keys.len())?;
    for key in keys {
        values.push(Value::try_from_str(alloc, key.keyid.as_str())?)?;
    }
    Ok(Value::Array(values))
}

/// The payload of a Root file with these members of its role. It names no vehicle.
fn payload_value(
    alloc: Global,
    head: &Head,
    mut members: Map<String, Value>,
) -> Result<Value, AllocError>
    ensures value { IfOk result (λ v. (ms : List (List ℕ × Data)) → members_view members.entries ≡ members_with ms
        → view v ≡ payload (codes "root") head.now.repository head.now.version head.now.expires None ms) }
    ensures typed { OnOk result (is_moment head.now.expires ≡ true) }
{
    let kind = Value::try_from_str(alloc, "root")?;
    let repository = repository_value(alloc, head.repository)?;
    let expires = moment_value(alloc, head.expires)?;
    put(&mut members, alloc, "version", Value::from(head.version))?;
    put(&mut members, alloc, "type", kind)?;
    put(&mut members, alloc, "repository", repository)?;
    put(&mut members, alloc, "expires", expires)?;
    Ok(Value::Object(members))
}

fn repository_value(alloc: Global, repository: Repository) -> Result<Value, AllocError>
    ensures { IfOk result (λ v. view v ≡ string (repository_text repository)) }
{
    match repository {
        Repository::Director => Value::try_from_str(alloc, "director"),
        Repository::Image => Value::try_from_str(alloc, "image"),
    }
}

/// A moment as its text.
fn moment_value(alloc: Global, moment: Moment) -> Result<Value, AllocError>
    ensures value { IfOk result (λ v. view v ≡ string (moment_text moment)) }
    ensures typed { is_moment moment ≡ true }
{
    let second = moment.get();
    prove!(second <= LAST_MOMENT);
    Ok(Value::String(moment.text(alloc)?))
}

/// The object of one member.
fn one_member(alloc: Global, name: &str, value: Value) -> Result<Map<String, Value>, AllocError>
    ensures { IfOk result (λ m. members_view m.entries ≡ members_with ((name.now, view value) ∷ [])) }
{
    let mut members = Map::new(alloc);
    put(&mut members, alloc, name, value)?;
    Ok(members)
}
