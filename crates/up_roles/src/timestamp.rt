//! Timestamp files: the version and the hash of the Snapshot file.
ghost use Rattle.std.specs.Prelude.{◌≡◌, ◌<◌, ◌≤◌, ◌++◌, Ok, Err, IsTrue, IfOk, OnOk, MatchResult, codes, length, map, string_bytes, true};
ghost use Rattle.std.specs.List.{list_all};
ghost use Rattle.up_canon.specs.Canon.{text};
ghost use Rattle.up_canon.specs.HexText.{is_hash};
ghost use Rattle.up_canon.specs.Members.{IsFault, object_of_map};
ghost use Rattle.up_canon.specs.Refusals.{Gives};
ghost use Rattle.up_canon.specs.declared.refusal.Refusal.TheVariants.{TooLarge};
ghost use Rattle.up_sign.specs.Envelopes.{key_block};
ghost use Rattle.up_roles.specs.Payload.{largest_file};
ghost use Rattle.up_roles.specs.Timestamp.{timestamp_meta, timestamp_payload, timestamp_text_of, timestamp_fits, timestamp_is_typed, timestamp_in, timestamp_of, timestamp_entry_in};
ghost use Rattle.up_roles.specs.Writing.{CanSeal, IsWritten};

use crate::file::{RoleFile, read_file};
use crate::parts::{object_part, positive_part, sha256_part};
use crate::payload::{head_at, vehicle_at};
use crate::pieces::{push_end, push_expires, push_repository};
use crate::repository::Repository;
use crate::sealing::sealed_text;
use serde_json::{Map, Value};
use std::alloc::{AllocError, Global};
use up_canon::bytes::Bytes;
use up_canon::fields::object_at;
use up_canon::ident::Ident;
use up_canon::listed::Duplicate;
use up_canon::moment::Moment;
use up_canon::refusal::Refusal;
use up_canon::writing::{push_hashes, push_number};
use up_sign::envelope::Envelope;
use up_sign::key_id::HashedKey;
use up_sign::scheme::Scheme;
use up_sign::seal::hashed_keys;

/// Bytes of room that the text of a payload gets, so that it seldom grows while it is written.
const ROOM: usize = 384;

/// Timestamp metadata: the version of the Snapshot file, and the SHA-256 of that file's whole text. The Director's is
/// for one vehicle, which it names. The type keeps no limits; `fits` tells.
#[derive(Debug, Drop)]
pub struct TimestampFile {
    pub repository: Repository,
    pub version: u64,
    pub expires: Moment,
    pub vehicle: Option<Ident>,
    pub snapshot_version: u64,
    pub snapshot_sha256: [u8; 32],
}

impl Duplicate for TimestampFile {
    fn copy(&self, alloc: Global) -> Result<TimestampFile, AllocError> {
        Ok(TimestampFile {
            repository: self.repository,
            version: self.version,
            expires: self.expires,
            vehicle: self.vehicle.copy(alloc)?,
            snapshot_version: self.snapshot_version,
            snapshot_sha256: self.snapshot_sha256,
        })
    }
}

/// The Timestamp file that the bytes mean, and its envelope. `TooLarge` above 4,194,304 bytes, `NotJson`, `BadShape` with the
/// name of the first member at fault (of the envelope, then of the payload), `NotCanonical` between the two, `Memory`,
/// though never in place of `TooLarge`.
#[tactic(auto, unfolding(crate::specs::Timestamp::timestamp_in))]
pub fn read_timestamp(alloc: Global, bytes: &[u8]) -> Result<(TimestampFile, Envelope), Refusal>
    ensures value { Gives result (timestamp_in bytes.now) }
    ensures large { largest_file < length bytes.now → result ≡ Err TooLarge }
{
    read_file(alloc, bytes)
}

impl RoleFile for TimestampFile {
    ghost use Rattle.up_roles.specs.Timestamp.{timestamp_of};

    ghost meaning = { timestamp_of };

    fn of_payload(alloc: Global, map: &Map<String, Value>) -> Result<TimestampFile, Refusal> {
        timestamp_at(alloc, map)
    }
}

/// The Timestamp file that a payload means.
#[tactic(auto, unfolding(crate::specs::Timestamp::timestamp_of, up_canon::specs::Steps::and_then))]
fn timestamp_at(alloc: Global, map: &Map<String, Value>) -> Result<TimestampFile, Refusal>
    ensures { Gives result (timestamp_of (object_of_map map.now.entries)) }
{
    let head = head_at(map, "timestamp")?;
    let vehicle = vehicle_at(alloc, head.repository, map)?;
    let entry = snapshot_entry_at(map)?;
    let snapshot_version = positive_part(entry, "version", "meta")?;
    Ok(TimestampFile {
        repository: head.repository,
        version: head.version,
        expires: head.expires,
        vehicle,
        snapshot_version: snapshot_version.get(),
        snapshot_sha256: sha256_part(entry, "meta")?,
    })
}

/// The entry of the Snapshot file.
#[tactic(auto, unfolding(crate::specs::Timestamp::timestamp_entry_in, up_canon::specs::Steps::and_then))]
fn snapshot_entry_at(map: &Map<String, Value>) -> Result<&Map<String, Value>, &'static str>
    ensures { MatchResult result
        (λ entry. timestamp_entry_in (object_of_map map.now.entries) ≡ Ok (object_of_map entry.now.entries))
        (λ f. IsFault (timestamp_entry_in (object_of_map map.now.entries)) (codes "meta") f.now) }
{
    object_part(object_at(map, "meta")?, "snapshot.json", "meta")
}

/// The text of the Timestamp file, which is within its limits (`fits`): its envelope, signed with each of 1 to 8 secrets that
/// fit, in order.
pub fn timestamp_text<K: Scheme>(
    alloc: Global,
    scheme: &K,
    secrets: &[Bytes],
    file: &TimestampFile,
) -> Result<String, AllocError>
    requires signers { CanSeal (K.rules scheme.now) secrets.now }
    requires limits { IsTrue (timestamp_fits file.now) }
    ensures { IsWritten (timestamp_payload file.now) (timestamp_text_of (K.rules scheme.now) secrets.now file.now)
        (timestamp_is_typed file.now) result }
{
    let keys = hashed_keys(alloc, scheme, secrets)?;
    timestamp_text_by(alloc, scheme, secrets, keys.as_slice(), file)
}

/// As `timestamp_text`, with the secrets' keys hashed already (`up_sign::seal::hashed_keys`).
pub fn timestamp_text_by<K: Scheme>(
    alloc: Global,
    scheme: &K,
    secrets: &[Bytes],
    keys: &[HashedKey],
    file: &TimestampFile,
) -> Result<String, AllocError>
    requires signers { CanSeal (K.rules scheme.now) secrets.now }
    requires hashed { keys.now ≡ map (key_block (K.rules scheme.now)) secrets.now }
    requires limits { IsTrue (timestamp_fits file.now) }
    ensures { IsWritten (timestamp_payload file.now) (timestamp_text_of (K.rules scheme.now) secrets.now file.now)
        (timestamp_is_typed file.now) result }
{
    let signed = timestamp_signed(alloc, file)?;
    sealed_text(alloc, scheme, secrets, keys, signed)
}

/// The canonical text of the payload.
fn timestamp_signed(alloc: Global, file: &TimestampFile) -> Result<String, AllocError>
    ensures value { IfOk result (λ t. string_bytes t ≡ text (timestamp_payload file.now)) }
    ensures typed { OnOk result (timestamp_is_typed file.now ≡ true) }
{
    let mut out = String::with_capacity(alloc, ROOM)?;
    push_expires(&mut out, file.expires)?;
    push_meta(alloc, &mut out, file)?;
    push_repository(&mut out, file.repository)?;
    out.push_str(",\"type\":\"timestamp\"")?;
    push_end(&mut out, &file.vehicle, file.version)?;
    Ok(out)
}

/// Appends the entry of the Snapshot file.
fn push_meta(alloc: Global, out: &mut String, file: &TimestampFile) -> Result<(), AllocError>
    ensures value { IfOk result
        (λ _. string_bytes out.new ≡ string_bytes out.old ++ (codes ",\"meta\":" ++ text (timestamp_meta file.now))) }
    ensures typed { OnOk result (is_hash file.now.snapshot_sha256 ≡ true) }
{
    out.push_str(",\"meta\":{\"snapshot.json\":{\"hashes\":")?;
    push_hashes(alloc, out, &file.snapshot_sha256, &None)?;
    out.push_str(",\"version\":")?;
    push_number(out, file.snapshot_version)?;
    out.push_str("}}")?;
    Ok(())
}
