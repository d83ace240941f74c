//! Vehicle version manifests.
use crate::report::SignedReport;
use std::alloc::{AllocError, Global};
use up_canon::count::Count;
use up_canon::ident::Ident;
use up_canon::listed::{Duplicate, Listed};
use up_sign::envelope::Envelope;

/// A vehicle version manifest: the vehicle, its Primary, the manifest's counter, and the reports in order. The type bounds
/// none of them: `read_manifest` gives only counters from 1 on, and at most 64 reports.
#[derive(Debug, Drop)]
pub struct Manifest {
    pub vehicle: Ident,
    pub primary: Ident,
    pub counter: Count,
    pub reports: Listed<SignedReport>,
}

impl Duplicate for Manifest {
    fn copy(&self, alloc: Global) -> Result<Manifest, AllocError> {
        Ok(Manifest {
            vehicle: self.vehicle.copy(alloc)?,
            primary: self.primary.copy(alloc)?,
            counter: self.counter,
            reports: self.reports.copy(alloc)?,
        })
    }
}

/// A manifest with the envelope that its Primary signed.
#[derive(Debug, Drop)]
pub struct Incoming {
    pub manifest: Manifest,
    pub envelope: Envelope,
}

impl Duplicate for Incoming {
    fn copy(&self, alloc: Global) -> Result<Incoming, AllocError> {
        Ok(Incoming {
            manifest: self.manifest.copy(alloc)?,
            envelope: self.envelope.copy(alloc)?,
        })
    }
}
