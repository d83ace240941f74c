//! Rows: what is kept of the state, one for each thing.
use std::alloc::{AllocError, Global};
use up_canon::bytes::Bytes;
use up_canon::count::Count;
use up_canon::ident::Ident;
use up_canon::listed::{Duplicate, Listed};
use up_canon::moment::Moment;
use up_canon::named::Named;
use up_canon::text::Text;
use up_manifest::report::Installed;
use up_metadata::keys::KeySet;
use up_plan::assigned::Plan;

/// The founded repositories: the Director's last root version and the image repository's, the keys of both, the versions of the
/// image repository's Snapshot and Timestamp and of its Targets, and the moment of the command that made these files.
#[derive(Drop)]
pub struct Founding {
    pub root: u64,
    pub image_root: u64,
    pub keys: KeySet,
    pub image_version: u64,
    pub targets_version: u64,
    pub stamp: Moment,
}

impl Duplicate for Founding {
    fn copy(&self, alloc: Global) -> Result<Founding, AllocError> {
        Ok(Founding {
            root: self.root,
            image_root: self.image_root,
            keys: self.keys.copy(alloc)?,
            image_version: self.image_version,
            targets_version: self.targets_version,
            stamp: self.stamp,
        })
    }
}

/// A vehicle: its Primary, its version (the number of accepted manifests) and the greatest counter of an accepted manifest, 0
/// before the first.
#[derive(Debug, Drop)]
pub struct VehicleRow {
    pub vehicle: Ident,
    pub primary: Ident,
    pub version: u64,
    pub last: Count,
}

impl Duplicate for VehicleRow {
    fn copy(&self, alloc: Global) -> Result<VehicleRow, AllocError> {
        Ok(VehicleRow {
            vehicle: self.vehicle.copy(alloc)?,
            primary: self.primary.copy(alloc)?,
            version: self.version,
            last: self.last,
        })
    }
}

/// An ECU: its hardware, the public part of its key, and of its last report the image, the counter and the canonical signed
/// text; before a first report the counter is 0.
#[derive(Drop)]
pub struct EcuRow {
    pub ecu: Ident,
    pub hardware: Ident,
    pub public: Bytes,
    pub installed: Option<Installed>,
    pub counter: Count,
    pub report: Option<Text>,
}

impl Named for EcuRow {
    ghost name_of = { λ a. a.ecu };

    fn name(&self) -> &str {
        self.ecu.text()
    }
}

impl Duplicate for EcuRow {
    fn copy(&self, alloc: Global) -> Result<EcuRow, AllocError> {
        Ok(EcuRow {
            ecu: self.ecu.copy(alloc)?,
            hardware: self.hardware.copy(alloc)?,
            public: self.public.copy(alloc)?,
            installed: self.installed.copy(alloc)?,
            counter: self.counter,
            report: self.report.copy(alloc)?,
        })
    }
}

/// A vehicle with its ECUs in inventory order.
#[derive(Drop)]
pub struct VehicleRows {
    pub vehicle: VehicleRow,
    pub ecus: Listed<EcuRow>,
}

/// An accepted manifest: its vehicle and counter, the version that it gave the vehicle, the moment and the root version at that
/// moment, its canonical signed text, the plan, and the text of the reply.
#[derive(Debug, Drop)]
pub struct Kept {
    pub vehicle: Ident,
    pub counter: Count,
    pub version: u64,
    pub at: Moment,
    pub root: u64,
    pub signed: Text,
    pub plan: Plan,
    pub reply: Text,
}

impl Duplicate for Kept {
    fn copy(&self, alloc: Global) -> Result<Kept, AllocError> {
        Ok(Kept {
            vehicle: self.vehicle.copy(alloc)?,
            counter: self.counter,
            version: self.version,
            at: self.at,
            root: self.root,
            signed: self.signed.copy(alloc)?,
            plan: self.plan.copy(alloc)?,
            reply: self.reply.copy(alloc)?,
        })
    }
}
