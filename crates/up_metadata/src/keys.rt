//! The secret keys of the roles.
use std::alloc::{AllocError, Global};
use up_canon::bytes::Bytes;
use up_canon::listed::{Duplicate, Listed};

/// The secret keys of a role, and how many of them have to sign. The type bounds none of them; `check_keys` tells.
#[derive(Drop)]
pub struct RoleSecrets {
    pub keys: Listed<Bytes>,
    pub threshold: u32,
}

impl Duplicate for RoleSecrets {
    fn copy(&self, alloc: Global) -> Result<RoleSecrets, AllocError> {
        Ok(RoleSecrets {
            keys: self.keys.copy(alloc)?,
            threshold: self.threshold,
        })
    }
}

/// The keys of the four roles of a repository.
#[derive(Drop)]
pub struct RepoKeys {
    pub root: RoleSecrets,
    pub targets: RoleSecrets,
    pub snapshot: RoleSecrets,
    pub timestamp: RoleSecrets,
}

impl Duplicate for RepoKeys {
    fn copy(&self, alloc: Global) -> Result<RepoKeys, AllocError> {
        Ok(RepoKeys {
            root: self.root.copy(alloc)?,
            targets: self.targets.copy(alloc)?,
            snapshot: self.snapshot.copy(alloc)?,
            timestamp: self.timestamp.copy(alloc)?,
        })
    }
}

/// The keys of both repositories, as one root version has them.
#[derive(Drop)]
pub struct KeySet {
    pub director: RepoKeys,
    pub image: RepoKeys,
}

impl Duplicate for KeySet {
    fn copy(&self, alloc: Global) -> Result<KeySet, AllocError> {
        Ok(KeySet {
            director: self.director.copy(alloc)?,
            image: self.image.copy(alloc)?,
        })
    }
}
