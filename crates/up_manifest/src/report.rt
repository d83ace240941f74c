//! ECU version reports.
use std::alloc::{AllocError, Global};
use up_canon::count::Count;
use up_canon::file_name::FileName;
use up_canon::ident::Ident;
use up_canon::listed::Duplicate;
use up_canon::moment::Moment;
use up_canon::named::Named;
use up_canon::note::Note;
use up_sign::envelope::Envelope;

/// The image that an ECU reports: its filename, its length in bytes, its SHA-256 and, where the report has one, its SHA-512.
#[derive(Debug, Drop)]
pub struct Installed {
    pub file: FileName,
    pub length: Count,
    pub sha256: [u8; 32],
    pub sha512: Option<[u8; 64]>,
}

impl Duplicate for Installed {
    fn copy(&self, alloc: Global) -> Result<Installed, AllocError> {
        Ok(Installed {
            file: self.file.copy(alloc)?,
            length: self.length,
            sha256: self.sha256,
            sha512: self.sha512,
        })
    }
}

/// An ECU version report: the ECU, its counter, the latest time that it could verify, the sign of an attack
/// (empty where none was detected), and the installed image.
#[derive(Debug, Drop)]
pub struct Report {
    pub ecu: Ident,
    pub counter: Count,
    pub time: Moment,
    pub attack: Note,
    pub image: Installed,
}

impl Duplicate for Report {
    fn copy(&self, alloc: Global) -> Result<Report, AllocError> {
        Ok(Report {
            ecu: self.ecu.copy(alloc)?,
            counter: self.counter,
            time: self.time,
            attack: self.attack.copy(alloc)?,
            image: self.image.copy(alloc)?,
        })
    }
}

/// A report with the envelope that its ECU signed.
#[derive(Debug, Drop)]
pub struct SignedReport {
    pub report: Report,
    pub envelope: Envelope,
}

impl Named for SignedReport {
    ghost name_of = { λ a. a.report.ecu };

    fn name(&self) -> &str {
        self.report.ecu.text()
    }
}

impl Duplicate for SignedReport {
    fn copy(&self, alloc: Global) -> Result<SignedReport, AllocError> {
        Ok(SignedReport {
            report: self.report.copy(alloc)?,
            envelope: self.envelope.copy(alloc)?,
        })
    }
}
