//! The keys that sign, hashed once for all that is made with them.
ghost use Rattle.std.specs.Prelude.{◌≡◌, IfOk};
ghost use Rattle.up_metadata.specs.Keys.{hashed_roles as hashed_roles_of};

use crate::keys::RepoKeys;
use std::alloc::{AllocError, Global};
use up_canon::listed::Listed;
use up_sign::key_id::HashedKey;
use up_sign::scheme::Scheme;
use up_sign::seal::hashed_keys;

/// The hashed keys of the Targets, Snapshot and Timestamp roles of a repository, in each role's order. The types of this file
/// don't say whose keys they hold; the contracts of `check_keys` and `hashed_roles` do.
#[derive(Drop)]
pub struct HashedRoleKeys {
    pub targets: Listed<HashedKey>,
    pub snapshot: Listed<HashedKey>,
    pub timestamp: Listed<HashedKey>,
}

/// The hashed keys of all four roles of a repository.
#[derive(Drop)]
pub struct HashedRepoKeys {
    pub root: Listed<HashedKey>,
    pub roles: HashedRoleKeys,
}

/// The hashed keys of both repositories.
#[derive(Drop)]
pub struct HashedKeySet {
    pub director: HashedRepoKeys,
    pub image: HashedRepoKeys,
}

/// The keys of a repository's Targets, Snapshot and Timestamp roles, hashed.
pub fn hashed_roles<K: Scheme>(
    alloc: Global,
    scheme: &K,
    keys: &RepoKeys,
) -> Result<HashedRoleKeys, AllocError>
    ensures { IfOk result (λ hashed. hashed ≡ hashed_roles_of (K.rules scheme.now) keys.now) }
{
    Ok(HashedRoleKeys {
        targets: hashed_keys(alloc, scheme, keys.targets.keys.as_slice())?,
        snapshot: hashed_keys(alloc, scheme, keys.snapshot.keys.as_slice())?,
        timestamp: hashed_keys(alloc, scheme, keys.timestamp.keys.as_slice())?,
    })
}
