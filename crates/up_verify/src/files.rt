//! A repository's Timestamp, Snapshot and Targets under its trusted Root.
ghost use Rattle.std.specs.Prelude.{◌≡◌, ◌==◌, ◌&&◌, bytes_eq};
ghost use Rattle.sha2.specs.Sha256.{sha256};
ghost use Rattle.up_roles.specs.Targets.{targets_in};
ghost use Rattle.up_verify.specs.Files.{same_vehicle as same_vehicle_as, check_file as check_file_of, check_timestamp as check_timestamp_of, check_snapshot as check_snapshot_of, check_targets as check_targets_of, of_file, check_files as check_files_of};
ghost use Rattle.up_verify.specs.Results.{ChecksFile, Verifies};
ghost use Rattle.up_verify.specs.Roots.{or_unread};
ghost use Rattle.up_verify.specs.Verifiers.{verifier};
ghost use Rattle.up_verify.specs.declared.refused.Role.TheVariants.{Timestamp as TimestampRole, Snapshot as SnapshotRole, Targets as TargetsRole};

use crate::asked::{Asked, Says};
use crate::known_key::KnownKey;
use crate::plain_targets::plain_targets;
use crate::refused::{Fault, Refused, Role};
use crate::roots::same_repository;
use crate::served::Checked;
use crate::signers::is_signed_for;
use crate::trust::{Trust, Versions};
use sha2::{Digest, Sha256};
use std::alloc::Global;
use up_canon::ident::Ident;
use up_metadata::role_files::RoleTexts;
use up_roles::root::RoleKeys;
use up_roles::snapshot::{SnapshotFile, read_snapshot};
use up_roles::targets::{TargetsFile, read_targets};
use up_roles::timestamp::{TimestampFile, read_timestamp};
use up_shown::shows::Shows;
use up_sign::envelope::Envelope;

/// The three files: each of its role, signed for it, and the one that the file before it names. Else the first fault.
#[tactic(auto, unfolding(crate::specs::Files::check_files, up_canon::specs::Steps::and_then))]
pub(crate) fn check_files<K: Shows>(
    alloc: Global,
    scheme: &K,
    held: &[KnownKey],
    asked: &Asked,
    trust: &Trust,
    texts: &RoleTexts,
) -> Result<Checked, Refused>
    ensures { Verifies result (check_files_of (verifier (K.rules scheme.now) (K.reading scheme.now) held.now) asked.now trust.now texts.now) }
{
    let file = timestamp_of(alloc, scheme, held, asked, trust, texts)?;
    let timestamp = file.version;
    let named = snapshot_of(alloc, scheme, held, asked, trust, &file, texts);
    // Dropped by name: at the end of a scope it would be proved part by part.
    drop(file);
    let file = named?;
    let snapshot = file.version;
    let named = targets_of(alloc, scheme, held, asked, trust, &file, texts);
    drop(file);
    let targets = named?;
    Ok(Checked {
        versions: Versions {
            timestamp,
            snapshot,
            targets: targets.version,
        },
        targets,
    })
}

// ---- each, with its fault named

fn timestamp_of<K: Shows>(
    alloc: Global,
    scheme: &K,
    held: &[KnownKey],
    asked: &Asked,
    trust: &Trust,
    texts: &RoleTexts,
) -> Result<TimestampFile, Refused>
    ensures { Verifies result (of_file asked.now.repository TimestampRole (check_timestamp_of (verifier (K.rules scheme.now) (K.reading scheme.now) held.now) asked.now trust.now texts.now.timestamp)) }
{
    let bytes = texts.timestamp.as_str().as_bytes();
    match check_timestamp(alloc, scheme, held, asked, trust, bytes) {
        Ok(file) => Ok(file),
        Err(fault) => Err(Refused::File(asked.repository, Role::Timestamp, fault)),
    }
}

fn snapshot_of<K: Shows>(
    alloc: Global,
    scheme: &K,
    held: &[KnownKey],
    asked: &Asked,
    trust: &Trust,
    timestamp: &TimestampFile,
    texts: &RoleTexts,
) -> Result<SnapshotFile, Refused>
    ensures { Verifies result (of_file asked.now.repository SnapshotRole (check_snapshot_of (verifier (K.rules scheme.now) (K.reading scheme.now) held.now) asked.now trust.now timestamp.now texts.now.snapshot)) }
{
    let bytes = texts.snapshot.as_str().as_bytes();
    match check_snapshot(alloc, scheme, held, asked, trust, timestamp, bytes) {
        Ok(file) => Ok(file),
        Err(fault) => Err(Refused::File(asked.repository, Role::Snapshot, fault)),
    }
}

fn targets_of<K: Shows>(
    alloc: Global,
    scheme: &K,
    held: &[KnownKey],
    asked: &Asked,
    trust: &Trust,
    snapshot: &SnapshotFile,
    texts: &RoleTexts,
) -> Result<TargetsFile, Refused>
    ensures { Verifies result (of_file asked.now.repository TargetsRole (check_targets_of (verifier (K.rules scheme.now) (K.reading scheme.now) held.now) asked.now trust.now snapshot.now texts.now.targets)) }
{
    let bytes = texts.targets.as_str().as_bytes();
    match check_targets(alloc, scheme, held, asked, trust, snapshot, bytes) {
        Ok(file) => Ok(file),
        Err(fault) => Err(Refused::File(asked.repository, Role::Targets, fault)),
    }
}

// ---- Timestamp

#[tactic(auto, unfolding(crate::specs::Files::check_timestamp, up_canon::specs::Steps::and_then))]
fn check_timestamp<K: Shows>(
    alloc: Global,
    scheme: &K,
    held: &[KnownKey],
    asked: &Asked,
    trust: &Trust,
    bytes: &[u8],
) -> Result<TimestampFile, Fault>
    ensures { ChecksFile result (check_timestamp_of (verifier (K.rules scheme.now) (K.reading scheme.now) held.now) asked.now trust.now bytes.now) }
{
    let (file, envelope) = read_timestamp(alloc, bytes)?;
    let says = Says {
        repository: file.repository,
        vehicle: &file.vehicle,
        version: file.version,
        expires: file.expires,
    };
    let role = &trust.root.timestamp;
    let last = trust.versions.timestamp;
    match check_file(alloc, scheme, held, asked, role, last, says, &envelope) {
        Ok(()) => {
            drop(envelope);
            Ok(file)
        }
        Err(fault) => {
            // Dropped by name: at the end of a scope they would be proved part by part.
            drop(file);
            drop(envelope);
            Err(fault)
        }
    }
}

// ---- Snapshot

/// The one that the Timestamp names, by its version and by the hash of its text as it is served.
#[tactic(auto, unfolding(crate::specs::Files::check_snapshot, up_canon::specs::Steps::and_then))]
fn check_snapshot<K: Shows>(
    alloc: Global,
    scheme: &K,
    held: &[KnownKey],
    asked: &Asked,
    trust: &Trust,
    timestamp: &TimestampFile,
    bytes: &[u8],
) -> Result<SnapshotFile, Fault>
    ensures { ChecksFile result (check_snapshot_of (verifier (K.rules scheme.now) (K.reading scheme.now) held.now) asked.now trust.now timestamp.now bytes.now) }
{
    let (file, envelope) = read_snapshot(alloc, bytes)?;
    if !is_named(timestamp, bytes, file.version) {
        drop(file);
        drop(envelope);
        return Err(Fault::NotNamed);
    }
    let says = Says {
        repository: file.repository,
        vehicle: &file.vehicle,
        version: file.version,
        expires: file.expires,
    };
    let role = &trust.root.snapshot;
    let last = trust.versions.snapshot;
    match check_file(alloc, scheme, held, asked, role, last, says, &envelope) {
        Ok(()) => {
            drop(envelope);
            Ok(file)
        }
        Err(fault) => {
            drop(file);
            drop(envelope);
            Err(fault)
        }
    }
}

/// Whether the Timestamp has the hash of the bytes, and the version.
fn is_named(timestamp: &TimestampFile, bytes: &[u8], version: u64) -> bool
    ensures { result ≡ (bytes_eq (sha256 bytes.now) timestamp.now.snapshot_sha256 && (version == timestamp.now.snapshot_version)) }
{
    let hash = Sha256::digest(bytes);
    hash[..] == timestamp.snapshot_sha256[..] && version == timestamp.snapshot_version
}

// ---- Targets

/// The one that the Snapshot names, by its version.
#[tactic(auto, unfolding(crate::specs::Files::check_targets, up_canon::specs::Steps::and_then))]
fn check_targets<K: Shows>(
    alloc: Global,
    scheme: &K,
    held: &[KnownKey],
    asked: &Asked,
    trust: &Trust,
    snapshot: &SnapshotFile,
    bytes: &[u8],
) -> Result<TargetsFile, Fault>
    ensures { ChecksFile result (check_targets_of (verifier (K.rules scheme.now) (K.reading scheme.now) held.now) asked.now trust.now snapshot.now bytes.now) }
{
    let (file, envelope) = targets_at(alloc, bytes)?;
    if file.version != snapshot.targets_version {
        drop(file);
        drop(envelope);
        return Err(Fault::NotNamed);
    }
    let says = Says {
        repository: file.repository,
        vehicle: &file.vehicle,
        version: file.version,
        expires: file.expires,
    };
    let role = &trust.root.targets;
    let last = trust.versions.targets;
    match check_file(alloc, scheme, held, asked, role, last, says, &envelope) {
        Ok(()) => {
            drop(envelope);
            Ok(file)
        }
        Err(fault) => {
            drop(file);
            drop(envelope);
            Err(fault)
        }
    }
}

fn targets_at(alloc: Global, bytes: &[u8]) -> Result<(TargetsFile, Envelope), Fault>
    ensures { ChecksFile result (or_unread (targets_in bytes.now)) }
{
    // The Image repository's lists all of its images.
    if let Some(read) = plain_targets(alloc, bytes) {
        return Ok(read);
    }
    match read_targets(alloc, bytes) {
        Ok(read) => Ok(read),
        Err(refusal) => Err(Fault::Unread(refusal)),
    }
}

// ---- a file of any role

/// Whether it is of this repository, for this vehicle, signed by enough of the role's keys, not below the version that was
/// verified last, and not expired.
#[tactic(auto, unfolding(crate::specs::Files::check_file, up_canon::specs::Steps::and_then))]
fn check_file<K: Shows>(
    alloc: Global,
    scheme: &K,
    held: &[KnownKey],
    asked: &Asked,
    role: &RoleKeys,
    last: u64,
    says: Says<'_>,
    envelope: &Envelope,
) -> Result<(), Fault>
    ensures { ChecksFile result (check_file_of (verifier (K.rules scheme.now) (K.reading scheme.now) held.now) asked.now role.now last (record { repository = says.entry.repository; vehicle = says.entry.vehicle.now; version = says.entry.version; expires = says.entry.expires }) envelope.now) }
{
    if !same_repository(says.repository, asked.repository) {
        return Err(Fault::OtherRepository);
    }
    if !same_vehicle(says.vehicle, &asked.vehicle) {
        return Err(Fault::OtherVehicle);
    }
    if !is_signed_for(alloc, scheme, held, role, envelope)? {
        return Err(Fault::NotSigned);
    }
    if last > says.version {
        return Err(Fault::GoesBack);
    }
    if asked.moment >= says.expires.get() {
        return Err(Fault::Expired);
    }
    Ok(())
}

/// Whether both name the same vehicle, or none.
fn same_vehicle(a: &Option<Ident>, b: &Option<Ident>) -> bool
    ensures { result ≡ same_vehicle_as a.now b.now }
{
    match (a, b) {
        (None, None) => true,
        (Some(a), Some(b)) => a.text() == b.text(),
        _ => false,
    }
}
