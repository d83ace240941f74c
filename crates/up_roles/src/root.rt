//! Root files: the keys of the four roles of a repository, and their thresholds.
ghost use Rattle.std.specs.Prelude.{◌≡◌, ◌<◌, Err, length};
ghost use Rattle.up_canon.specs.Members.{object_of_map};
ghost use Rattle.up_canon.specs.Refusals.{Gives};
ghost use Rattle.up_canon.specs.declared.refusal.Refusal.TheVariants.{TooLarge};
ghost use Rattle.up_roles.specs.Payload.{largest_file};
ghost use Rattle.up_roles.specs.Root.{root_in, root_of};

use crate::file::{RoleFile, read_file};
use crate::payload::head_at;
use crate::repository::Repository;
use crate::root_keys::keys_at;
use crate::root_roles::{are_used, role_at};
use serde_json::{Map, Value};
use std::alloc::{AllocError, Global};
use up_canon::fields::object_at;
use up_canon::listed::{Duplicate, Listed};
use up_canon::moment::Moment;
use up_canon::named::Named;
use up_canon::refusal::Refusal;
use up_canon::text::Text;
use up_sign::envelope::Envelope;

/// The most bytes of a key's identifier.
pub(crate) const MAX_KEYID: usize = 128;

/// The most bytes of the name of a key's method.
pub(crate) const MAX_METHOD: usize = 64;

/// The most bytes of the text of a key's public part.
pub(crate) const MAX_SHOWN: usize = 1024;

/// A key as Root metadata shows it: its identifier, the name of its method, and the scheme's text of its public part.
#[derive(Debug, Drop)]
pub struct RootKey {
    pub keyid: Text,
    pub method: Text,
    pub shown: Text,
}

impl Duplicate for RootKey {
    fn copy(&self, alloc: Global) -> Result<RootKey, AllocError> {
        Ok(RootKey {
            keyid: self.keyid.copy(alloc)?,
            method: self.method.copy(alloc)?,
            shown: self.shown.copy(alloc)?,
        })
    }
}

impl Named for RootKey {
    ghost name_of = { λ a. a.keyid };

    fn name(&self) -> &str {
        self.keyid.as_str()
    }
}

/// The keys of a role in the operator's order, and how many of them have to sign. The type bounds none of them;
/// `RootFile::fits` tells.
#[derive(Debug, Drop)]
pub struct RoleKeys {
    pub keys: Listed<RootKey>,
    pub threshold: u32,
}

impl Duplicate for RoleKeys {
    fn copy(&self, alloc: Global) -> Result<RoleKeys, AllocError> {
        Ok(RoleKeys {
            keys: self.keys.copy(alloc)?,
            threshold: self.threshold,
        })
    }
}

/// Root metadata: the keys of the four roles. The type keeps no limits; `fits` tells.
#[derive(Debug, Drop)]
pub struct RootFile {
    pub repository: Repository,
    pub version: u64,
    pub expires: Moment,
    pub root: RoleKeys,
    pub targets: RoleKeys,
    pub snapshot: RoleKeys,
    pub timestamp: RoleKeys,
}

impl Duplicate for RootFile {
    fn copy(&self, alloc: Global) -> Result<RootFile, AllocError> {
        Ok(RootFile {
            repository: self.repository,
            version: self.version,
            expires: self.expires,
            root: self.root.copy(alloc)?,
            targets: self.targets.copy(alloc)?,
            snapshot: self.snapshot.copy(alloc)?,
            timestamp: self.timestamp.copy(alloc)?,
        })
    }
}

/// The Root file that the bytes mean, and its envelope. `TooLarge` above 4,194,304 bytes, `NotJson`, `BadShape` with the
/// name of the first member at fault (of the envelope, then of the payload), `NotCanonical` between the two, `Memory`,
/// though never in place of `TooLarge`.
#[tactic(auto, unfolding(crate::specs::Root::root_in))]
pub fn read_root(alloc: Global, bytes: &[u8]) -> Result<(RootFile, Envelope), Refusal>
    ensures value { Gives result (root_in bytes.now) }
    ensures large { largest_file < length bytes.now → result ≡ Err TooLarge }
{
    read_file(alloc, bytes)
}

impl RoleFile for RootFile {
    ghost use Rattle.up_roles.specs.Root.{root_of};

    ghost meaning = { root_of };

    fn of_payload(alloc: Global, map: &Map<String, Value>) -> Result<RootFile, Refusal> {
        root_at(alloc, map)
    }
}

/// The Root file that a payload means.
#[tactic(auto, unfolding(crate::specs::Root::root_of, up_canon::specs::Steps::and_then))]
fn root_at(alloc: Global, map: &Map<String, Value>) -> Result<RootFile, Refusal>
    ensures { Gives result (root_of (object_of_map map.now.entries)) }
{
    let head = head_at(map, "root")?;
    let keys = keys_at(alloc, map)?;
    let roles = object_at(map, "roles")?;
    let file = RootFile {
        repository: head.repository,
        version: head.version,
        expires: head.expires,
        root: role_at(alloc, roles, "root", keys.as_slice())?,
        targets: role_at(alloc, roles, "targets", keys.as_slice())?,
        snapshot: role_at(alloc, roles, "snapshot", keys.as_slice())?,
        timestamp: role_at(alloc, roles, "timestamp", keys.as_slice())?,
    };
    if are_used(&file, keys.as_slice()) {
        Ok(file)
    } else {
        Err(Refusal::from("roles"))
    }
}
