//! Whether files are within the limits of their roles, as their writers require.
ghost use Rattle.std.specs.Prelude.{◌≡◌, IfOk};
ghost use Rattle.std.specs.List.{list_all};
ghost use Rattle.up_roles.specs.Payload.{version_fits as version_fits_of, name_fits as name_fits_of};
ghost use Rattle.up_roles.specs.Root.{key_fits as key_fits_of, role_is_met, role_fits as role_fits_of, root_fits};
ghost use Rattle.up_roles.specs.Snapshot.{snapshot_fits};
ghost use Rattle.up_roles.specs.Targets.{target_fits as target_fits_of, targets_fits};
ghost use Rattle.up_roles.specs.Timestamp.{timestamp_fits};

use crate::repository::Repository;
use crate::root::{MAX_KEYID, MAX_METHOD, MAX_SHOWN, RoleKeys, RootFile, RootKey};
use crate::snapshot::SnapshotFile;
use crate::targets::{Target, TargetsFile, has_distinct_ecus};
use crate::timestamp::TimestampFile;
use std::alloc::{AllocError, Global};
use up_canon::count::MAX_COUNT;
use up_canon::ident::Ident;
use up_canon::limits::is_short;
use up_canon::named::{are_distinct, hardware_fits};

impl RootFile {
    /// Whether the version is 1 to 2^53-1 and each role has 1 to 4 keys within their limits, with distinct
    /// identifiers, and a threshold from 1 to the number of its keys.
    pub fn fits(&self) -> bool
        ensures { result ≡ root_fits self.now }
    {
        version_fits(self.version)
            && role_fits(&self.root)
            && role_fits(&self.targets)
            && role_fits(&self.snapshot)
            && role_fits(&self.timestamp)
    }
}

impl TargetsFile {
    /// Whether the version is 1 to 2^53-1, the vehicle and each target's ECU are named exactly in the Director's, each
    /// target is for 1 to 16 distinct hardware, and no ECU stands twice.
    pub fn fits(&self, alloc: Global) -> Result<bool, AllocError>
        ensures { IfOk result (λ fits. fits ≡ targets_fits self.now) }
    {
        let targets = self.targets.as_slice();
        if !version_fits(self.version) || !name_fits(self.repository, &self.vehicle) {
            return Ok(false);
        }
        if !all_fit(self.repository, targets) {
            return Ok(false);
        }
        has_distinct_ecus(alloc, targets)
    }
}

impl SnapshotFile {
    /// Whether both versions are 1 to 2^53-1 and the vehicle is named exactly in the Director's.
    pub fn fits(&self) -> bool
        ensures { result ≡ snapshot_fits self.now }
    {
        version_fits(self.version)
            && name_fits(self.repository, &self.vehicle)
            && version_fits(self.targets_version)
    }
}

impl TimestampFile {
    /// Whether both versions are 1 to 2^53-1 and the vehicle is named exactly in the Director's.
    pub fn fits(&self) -> bool
        ensures { result ≡ timestamp_fits self.now }
    {
        version_fits(self.version)
            && name_fits(self.repository, &self.vehicle)
            && version_fits(self.snapshot_version)
    }
}

fn version_fits(version: u64) -> bool
    ensures { result ≡ version_fits_of version }
{
    version >= 1 && version <= MAX_COUNT
}

/// Whether the name is there exactly in the Director's.
fn name_fits(repository: Repository, name: &Option<Ident>) -> bool
    ensures { result ≡ name_fits_of repository name.now }
{
    match (repository, name) {
        (Repository::Director, Some(_)) => true,
        (Repository::Director, None) => false,
        (Repository::Image, Some(_)) => false,
        (Repository::Image, None) => true,
    }
}

fn role_fits(role: &RoleKeys) -> bool
    ensures { result ≡ role_fits_of role.now }
{
    let number = role.keys.as_slice().len();
    number >= 1 && number <= 4 && is_met(role) && keys_fit(role.keys.as_slice())
}

/// Whether the identifiers are distinct and the keys can meet the threshold.
fn is_met(role: &RoleKeys) -> bool
    ensures { result ≡ role_is_met role.now }
{
    let keys = role.keys.as_slice();
    are_distinct(keys) && role.threshold >= 1 && role.threshold as usize <= keys.len()
}

fn keys_fit(keys: &[RootKey]) -> bool
    ensures { result ≡ list_all key_fits_of keys.now }
{
    keys.iter().all(|key| key_fits(key))
}

fn key_fits(key: &RootKey) -> bool
    ensures { result ≡ key_fits_of key.now }
{
    is_short(key.keyid.as_str(), 1, MAX_KEYID)
        && is_short(key.method.as_str(), 1, MAX_METHOD)
        && is_short(key.shown.as_str(), 0, MAX_SHOWN)
}

fn all_fit(repository: Repository, targets: &[Target]) -> bool
    ensures { result ≡ list_all (target_fits_of repository) targets.now }
{
    targets.iter().all(|target| target_fits(repository, target))
}

fn target_fits(repository: Repository, target: &Target) -> bool
    ensures { result ≡ target_fits_of repository target.now }
{
    name_fits(repository, &target.ecu) && hardware_fits(target.hardware.as_slice())
}
