//! Making the Targets, Snapshot and Timestamp files of one version.
ghost use Rattle.std.specs.Prelude.{◌≡◌, ◌+◌, ◌≤◌, IsTrue};
ghost use Rattle.up_canon.specs.Moments.{last_command_moment};
ghost use Rattle.up_roles.specs.Lifetimes.{lifetimes};
ghost use Rattle.up_roles.specs.Targets.{targets_payload, targets_text_of, targets_fits, targets_is_typed};
ghost use Rattle.up_roles.specs.Snapshot.{snapshot_payload, snapshot_text_of, snapshot_fits, snapshot_is_typed};
ghost use Rattle.up_roles.specs.Timestamp.{timestamp_payload, timestamp_text_of, timestamp_fits, timestamp_is_typed};
ghost use Rattle.up_metadata.specs.Files.{keys_of as keys_in};
ghost use Rattle.up_metadata.specs.Keys.{hashed_role, hashed_roles, can_sign, roles_can_sign};
ghost use Rattle.up_metadata.specs.Writing.{metadata_set, CanWriteFiles, WritesFile, WritesFiles};

use crate::hashed_keys::HashedRoleKeys;
use crate::keys::{KeySet, RepoKeys, RoleSecrets};
use sha2::{Digest, Sha256};
use std::alloc::{AllocError, Global};
use up_canon::ident::Ident;
use up_canon::listed::{Duplicate, Listed};
use up_canon::moment::Moment;
use up_canon::text::Text;
use up_roles::lifetimes::lifetimes_of;
use up_roles::repository::Repository;
use up_roles::snapshot::{SnapshotFile, snapshot_text_by};
use up_roles::targets::{Target, TargetsFile};
use up_roles::targets_text::targets_text_by;
use up_roles::timestamp::{TimestampFile, timestamp_text_by};
use up_sign::key_id::HashedKey;
use up_sign::scheme::Scheme;

/// The texts of the Targets, Snapshot and Timestamp files that are made together.
#[derive(Debug, Drop)]
pub struct RoleTexts {
    pub targets: Text,
    pub snapshot: Text,
    pub timestamp: Text,
}

/// The texts of a repository's Targets, Snapshot and Timestamp files of this version, signed with the keys of their roles,
/// which are hashed already (`hashed_roles`). Each expires its lifetime after the moment. The Director's files name their
/// vehicle, and each target its ECU.
#[tactic(auto, unfolding(crate::specs::Files::targets_text, crate::specs::Files::snapshot_text, crate::specs::Files::timestamp_text), using(crate::proofs::RoleFiles::roles_sign))]
pub fn role_texts<K: Scheme>(
    alloc: Global,
    scheme: &K,
    repository: Repository,
    keys: &KeySet,
    hashed: &HashedRoleKeys,
    vehicle: &Option<Ident>,
    version: u64,
    at: Moment,
    targets: Listed<Target>,
) -> Result<RoleTexts, AllocError>
    requires keys { IsTrue (roles_can_sign (K.rules scheme.now) (keys_in repository keys.now)) }
    requires hashed { hashed.now ≡ hashed_roles (K.rules scheme.now) (keys_in repository keys.now) }
    requires files { CanWriteFiles (metadata_set repository keys.now vehicle.now version at targets) }
    ensures { WritesFiles (K.rules scheme.now)
        (metadata_set repository keys.now vehicle.now version at targets) result }
{
    let keys = keys_of(repository, keys);
    let targets = TargetsFile {
        repository,
        version,
        expires: targets_expiry(repository, at),
        vehicle: vehicle.copy(alloc)?,
        targets,
    };
    let snapshot = SnapshotFile {
        repository,
        version,
        expires: snapshot_expiry(repository, at),
        vehicle: vehicle.copy(alloc)?,
        targets_version: version,
    };
    let snapshot = signed_snapshot(alloc, scheme, &keys.snapshot, &hashed.snapshot, &snapshot)?;
    let timestamp = TimestampFile {
        repository,
        version,
        expires: timestamp_expiry(repository, at),
        vehicle: vehicle.copy(alloc)?,
        snapshot_version: version,
        snapshot_sha256: Sha256::digest(snapshot.as_str().as_bytes()),
    };
    Ok(RoleTexts {
        targets: signed_targets(alloc, scheme, &keys.targets, &hashed.targets, &targets)?,
        snapshot,
        timestamp: signed_timestamp(
            alloc,
            scheme,
            &keys.timestamp,
            &hashed.timestamp,
            &timestamp,
        )?,
    })
}

/// The keys of a repository.
pub(crate) fn keys_of(repository: Repository, keys: &KeySet) -> &RepoKeys
    ensures { result.now ≡ keys_in repository keys.now }
{
    match repository {
        Repository::Director => &keys.director,
        Repository::Image => &keys.image,
    }
}

#[tactic(auto, using(crate::proofs::RoleFiles::secrets_seal))]
fn signed_targets<K: Scheme>(
    alloc: Global,
    scheme: &K,
    role: &RoleSecrets,
    hashed: &Listed<HashedKey>,
    file: &TargetsFile,
) -> Result<Text, AllocError>
    requires role { IsTrue (can_sign (K.rules scheme.now) role.now) }
    requires hashed { hashed.now ≡ hashed_role (K.rules scheme.now) role.now }
    requires limits { IsTrue (targets_fits file.now) }
    ensures { WritesFile (targets_payload file.now) (targets_text_of (K.rules scheme.now) role.now.keys file.now)
        (targets_is_typed file.now) result }
{
    let secrets = role.keys.as_slice();
    Ok(Text::new(targets_text_by(alloc, scheme, secrets, hashed.as_slice(), file)?))
}

#[tactic(auto, using(crate::proofs::RoleFiles::secrets_seal))]
fn signed_snapshot<K: Scheme>(
    alloc: Global,
    scheme: &K,
    role: &RoleSecrets,
    hashed: &Listed<HashedKey>,
    file: &SnapshotFile,
) -> Result<Text, AllocError>
    requires role { IsTrue (can_sign (K.rules scheme.now) role.now) }
    requires hashed { hashed.now ≡ hashed_role (K.rules scheme.now) role.now }
    requires limits { IsTrue (snapshot_fits file.now) }
    ensures { WritesFile (snapshot_payload file.now) (snapshot_text_of (K.rules scheme.now) role.now.keys file.now)
        (snapshot_is_typed file.now) result }
{
    let secrets = role.keys.as_slice();
    Ok(Text::new(snapshot_text_by(alloc, scheme, secrets, hashed.as_slice(), file)?))
}

#[tactic(auto, using(crate::proofs::RoleFiles::secrets_seal))]
fn signed_timestamp<K: Scheme>(
    alloc: Global,
    scheme: &K,
    role: &RoleSecrets,
    hashed: &Listed<HashedKey>,
    file: &TimestampFile,
) -> Result<Text, AllocError>
    requires role { IsTrue (can_sign (K.rules scheme.now) role.now) }
    requires hashed { hashed.now ≡ hashed_role (K.rules scheme.now) role.now }
    requires limits { IsTrue (timestamp_fits file.now) }
    ensures { WritesFile (timestamp_payload file.now) (timestamp_text_of (K.rules scheme.now) role.now.keys file.now)
        (timestamp_is_typed file.now) result }
{
    let secrets = role.keys.as_slice();
    Ok(Text::new(timestamp_text_by(alloc, scheme, secrets, hashed.as_slice(), file)?))
}

/// When the Targets file expires that is made at the moment.
#[tactic(auto, using(crate::proofs::RoleFiles::lifetimes_are_short))]
fn targets_expiry(repository: Repository, at: Moment) -> Moment
    requires { at ≤ last_command_moment }
    ensures { result ≡ at + (lifetimes repository).targets }
{
    at.plus(lifetimes_of(repository).targets)
}

#[tactic(auto, using(crate::proofs::RoleFiles::lifetimes_are_short))]
fn snapshot_expiry(repository: Repository, at: Moment) -> Moment
    requires { at ≤ last_command_moment }
    ensures { result ≡ at + (lifetimes repository).snapshot }
{
    at.plus(lifetimes_of(repository).snapshot)
}

#[tactic(auto, using(crate::proofs::RoleFiles::lifetimes_are_short))]
fn timestamp_expiry(repository: Repository, at: Moment) -> Moment
    requires { at ≤ last_command_moment }
    ensures { result ≡ at + (lifetimes repository).timestamp }
{
    at.plus(lifetimes_of(repository).timestamp)
}
