//! ECU version reports and vehicle version manifests.
#![tactic(auto)]

pub mod body;
pub mod building;
pub mod cursor;
pub mod manifest;
pub mod manifest_read;
mod plain;
mod plain_members;
mod plain_report;
pub mod report;
mod writing;

ghost use Rattle.up_manifest.specs.Laws.{BodiesAreRead, BodiesMeanOneOrFail, ReportTextsMean, SignedTextsMean};

use up_canon::canonical_laws;
use up_sign::laws::envelope_laws;

/// A body means one manifest with its envelope, or nothing and then it has one first fault; and the text that the
/// Primary signed has the whole manifest in it, as the text that an ECU signed has its whole report.
pub fn body_laws()
    ensures read { BodiesAreRead }
    ensures one { BodiesMeanOneOrFail }
    ensures signed { SignedTextsMean }
    ensures reports { ReportTextsMean }
{
    canonical_laws();
    envelope_laws();
}
