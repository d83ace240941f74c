//! What a Primary trusts.
use std::alloc::{AllocError, Global};
use up_canon::count::Count;
use up_canon::ident::Ident;
use up_canon::listed::{Duplicate, Listed};
use up_roles::root::RootFile;

/// The versions of a repository's files that were verified last, each 0 before the first and where it was forgotten.
#[derive(Clone, Copy)]
pub struct Versions {
    pub timestamp: u64,
    pub snapshot: u64,
    pub targets: u64,
}

/// What is trusted of a repository: the last Root that was verified, and the versions of its other files.
#[derive(Drop)]
pub struct Trust {
    pub root: RootFile,
    pub versions: Versions,
}

impl Duplicate for Trust {
    fn copy(&self, alloc: Global) -> Result<Trust, AllocError> {
        Ok(Trust {
            root: self.root.copy(alloc)?,
            versions: self.versions,
        })
    }
}

/// An ECU of the vehicle: its identifier, its hardware, and the release counter of its image, 0 where it has none.
#[derive(Drop)]
pub struct OwnEcu {
    pub ecu: Ident,
    pub hardware: Ident,
    pub release: Count,
}

impl Duplicate for OwnEcu {
    fn copy(&self, alloc: Global) -> Result<OwnEcu, AllocError> {
        Ok(OwnEcu {
            ecu: self.ecu.copy(alloc)?,
            hardware: self.hardware.copy(alloc)?,
            release: self.release,
        })
    }
}

/// What a Primary knows of its vehicle (its ECUs, and the identifiers of those that were replaced), and what it trusts of both
/// repositories.
#[derive(Drop)]
pub struct Primary {
    pub vehicle: Ident,
    pub ecus: Listed<OwnEcu>,
    pub replaced: Listed<Ident>,
    pub director: Trust,
    pub image: Trust,
}
