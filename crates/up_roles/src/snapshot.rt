//! Snapshot files: the version of the Targets file.
ghost use Rattle.std.specs.Prelude.{◌≡◌, ◌<◌, ◌≤◌, ◌++◌, Ok, Err, IsTrue, IfOk, OnOk, MatchResult, codes, length, map, string_bytes, true};
ghost use Rattle.std.specs.List.{list_all};
ghost use Rattle.up_canon.specs.Canon.{text};
ghost use Rattle.up_canon.specs.Members.{IsFault, object_of_map};
ghost use Rattle.up_canon.specs.Refusals.{Gives};
ghost use Rattle.up_canon.specs.declared.refusal.Refusal.TheVariants.{TooLarge};
ghost use Rattle.up_sign.specs.Envelopes.{key_block};
ghost use Rattle.up_roles.specs.Payload.{largest_file};
ghost use Rattle.up_roles.specs.Snapshot.{snapshot_meta, snapshot_payload, snapshot_text_of, snapshot_fits, snapshot_is_typed, snapshot_in, snapshot_of, snapshot_entry_in};
ghost use Rattle.up_roles.specs.Writing.{CanSeal, IsWritten};

use crate::file::{RoleFile, read_file};
use crate::parts::{object_part, positive_part};
use crate::payload::{head_at, vehicle_at};
use crate::pieces::{push_end, push_expires, push_repository};
use crate::repository::Repository;
use crate::sealing::sealed_text;
use serde_json::{Map, Value};
use std::alloc::{AllocError, Global};
use up_canon::bytes::Bytes;
use up_canon::fields::object_at;
use up_canon::ident::Ident;
use up_canon::listed::Duplicate;
use up_canon::moment::Moment;
use up_canon::refusal::Refusal;
use up_canon::writing::push_number;
use up_sign::envelope::Envelope;
use up_sign::key_id::HashedKey;
use up_sign::scheme::Scheme;
use up_sign::seal::hashed_keys;

/// Bytes of room that the text of a payload gets, so that it seldom grows while it is written.
const ROOM: usize = 256;

/// Snapshot metadata: the version of the Targets file. The Director's is for one vehicle, which it names. The type keeps no
/// limits; `fits` tells.
#[derive(Debug, Drop)]
pub struct SnapshotFile {
    pub repository: Repository,
    pub version: u64,
    pub expires: Moment,
    pub vehicle: Option<Ident>,
    pub targets_version: u64,
}

impl Duplicate for SnapshotFile {
    fn copy(&self, alloc: Global) -> Result<SnapshotFile, AllocError> {
        Ok(SnapshotFile {
            repository: self.repository,
            version: self.version,
            expires: self.expires,
            vehicle: self.vehicle.copy(alloc)?,
            targets_version: self.targets_version,
        })
    }
}

/// The Snapshot file that the bytes mean, and its envelope. `TooLarge` above 4,194,304 bytes, `NotJson`, `BadShape` with the
/// name of the first member at fault (of the envelope, then of the payload), `NotCanonical` between the two, `Memory`,
/// though never in place of `TooLarge`.
#[tactic(auto, unfolding(crate::specs::Snapshot::snapshot_in))]
pub fn read_snapshot(alloc: Global, bytes: &[u8]) -> Result<(SnapshotFile, Envelope), Refusal>
    ensures value { Gives result (snapshot_in bytes.now) }
    ensures large { largest_file < length bytes.now → result ≡ Err TooLarge }
{
    read_file(alloc, bytes)
}

impl RoleFile for SnapshotFile {
    ghost use Rattle.up_roles.specs.Snapshot.{snapshot_of};

    ghost meaning = { snapshot_of };

    fn of_payload(alloc: Global, map: &Map<String, Value>) -> Result<SnapshotFile, Refusal> {
        snapshot_at(alloc, map)
    }
}

/// The Snapshot file that a payload means.
#[tactic(auto, unfolding(crate::specs::Snapshot::snapshot_of, up_canon::specs::Steps::and_then))]
fn snapshot_at(alloc: Global, map: &Map<String, Value>) -> Result<SnapshotFile, Refusal>
    ensures { Gives result (snapshot_of (object_of_map map.now.entries)) }
{
    let head = head_at(map, "snapshot")?;
    let vehicle = vehicle_at(alloc, head.repository, map)?;
    Ok(SnapshotFile {
        repository: head.repository,
        version: head.version,
        expires: head.expires,
        vehicle,
        targets_version: targets_version_at(map)?,
    })
}

/// The version of the Targets file.
#[tactic(auto, unfolding(crate::specs::Snapshot::snapshot_entry_in, up_canon::specs::Steps::and_then))]
fn targets_version_at(map: &Map<String, Value>) -> Result<u64, &'static str>
    ensures { MatchResult result
        (λ version. snapshot_entry_in (object_of_map map.now.entries) ≡ Ok version)
        (λ f. IsFault (snapshot_entry_in (object_of_map map.now.entries)) (codes "meta") f.now) }
{
    let meta = object_at(map, "meta")?;
    let entry = object_part(meta, "targets.json", "meta")?;
    Ok(positive_part(entry, "version", "meta")?.get())
}

/// The text of the Snapshot file, which is within its limits (`fits`): its envelope, signed with each of 1 to 8 secrets that
/// fit, in order.
pub fn snapshot_text<K: Scheme>(
    alloc: Global,
    scheme: &K,
    secrets: &[Bytes],
    file: &SnapshotFile,
) -> Result<String, AllocError>
    requires signers { CanSeal (K.rules scheme.now) secrets.now }
    requires limits { IsTrue (snapshot_fits file.now) }
    ensures { IsWritten (snapshot_payload file.now) (snapshot_text_of (K.rules scheme.now) secrets.now file.now)
        (snapshot_is_typed file.now) result }
{
    let keys = hashed_keys(alloc, scheme, secrets)?;
    snapshot_text_by(alloc, scheme, secrets, keys.as_slice(), file)
}

/// As `snapshot_text`, with the secrets' keys hashed already (`up_sign::seal::hashed_keys`).
pub fn snapshot_text_by<K: Scheme>(
    alloc: Global,
    scheme: &K,
    secrets: &[Bytes],
    keys: &[HashedKey],
    file: &SnapshotFile,
) -> Result<String, AllocError>
    requires signers { CanSeal (K.rules scheme.now) secrets.now }
    requires hashed { keys.now ≡ map (key_block (K.rules scheme.now)) secrets.now }
    requires limits { IsTrue (snapshot_fits file.now) }
    ensures { IsWritten (snapshot_payload file.now) (snapshot_text_of (K.rules scheme.now) secrets.now file.now)
        (snapshot_is_typed file.now) result }
{
    let signed = snapshot_signed(alloc, file)?;
    sealed_text(alloc, scheme, secrets, keys, signed)
}

/// The canonical text of the payload.
fn snapshot_signed(alloc: Global, file: &SnapshotFile) -> Result<String, AllocError>
    ensures value { IfOk result (λ t. string_bytes t ≡ text (snapshot_payload file.now)) }
    ensures typed { OnOk result (snapshot_is_typed file.now ≡ true) }
{
    let mut out = String::with_capacity(alloc, ROOM)?;
    push_expires(&mut out, file.expires)?;
    push_meta(&mut out, file)?;
    push_repository(&mut out, file.repository)?;
    out.push_str(",\"type\":\"snapshot\"")?;
    push_end(&mut out, &file.vehicle, file.version)?;
    Ok(out)
}

/// Appends the entry of the Targets file.
fn push_meta(out: &mut String, file: &SnapshotFile) -> Result<(), AllocError>
    ensures { IfOk result
        (λ _. string_bytes out.new ≡ string_bytes out.old ++ (codes ",\"meta\":" ++ text (snapshot_meta file.now))) }
{
    out.push_str(",\"meta\":{\"targets.json\":{\"version\":")?;
    push_number(out, file.targets_version)?;
    out.push_str("}}")?;
    Ok(())
}
