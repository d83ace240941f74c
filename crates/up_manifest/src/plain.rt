//! Manifests in the form in which Primaries write them, read without a tree of their values.
ghost use Rattle.std.specs.Prelude.{◌≡◌, ◌≤◌, ◌++◌, IfOk, IfSome, length, map};
ghost use Rattle.up_sign.specs.Formats.{envelope_text};
ghost use Rattle.up_manifest.specs.Building.{list_text, manifest_text};
ghost use Rattle.up_manifest.specs.Manifests.{most_reports};
ghost use Rattle.up_manifest.specs.Meaning.{MeansBody};
ghost use Rattle.up_manifest.specs.Plain.{AreReports, ManifestFits};

use crate::cursor::{Cursor, Unread};
use crate::manifest::{Incoming, Manifest};
use crate::manifest_read::MOST_REPORTS;
use crate::plain_members::{count_behind, ident_behind};
use crate::plain_report::{signatures, signed_report, text_before};
use crate::report::SignedReport;
use std::alloc::Global;
use std::str;
use up_canon::listed::Listed;
use up_canon::moment::moment_laws;
use up_sign::envelope::Envelope;
use up_sign::laws::envelope_laws;

/// The manifest that a body means, where the body has the form in which Primaries write it: the canonical text, with no
/// member but those of the format, one signature in each envelope, hexadecimal digits in lower case, and no quote or
/// backslash in a text but a note. Of any other body, none, whether or not it means a manifest; none too where memory was
/// refused, so that the general way says so.
pub(crate) fn plain_manifest(alloc: Global, body: &[u8]) -> Option<Incoming>
    ensures { IfSome result (λ i. MeansBody body.now i) }
{
    let Ok(text) = str::from_utf8(body) else {
        return None;
    };
    match incoming(alloc, text) {
        Ok(incoming) => Some(incoming),
        Err(_) => None,
    }
}

fn incoming(alloc: Global, text: &str) -> Result<Incoming, Unread>
    ensures { IfOk result (λ i. MeansBody text.now i) }
{
    envelope_laws();
    moment_laws();
    let mut cursor = Cursor::new(text);
    let signatures = signatures(alloc, &mut cursor)?;
    let begun = cursor.rest;
    let manifest = manifest(alloc, &mut cursor)?;
    let signed = text_before(alloc, begun, cursor.rest)?;
    if cursor.rest != "}" {
        return Err(Unread);
    }
    Ok(Incoming {
        manifest,
        envelope: Envelope { signatures, signed },
    })
}

/// Takes the text that a Primary signs.
fn manifest(alloc: Global, cursor: &mut Cursor<'_>) -> Result<Manifest, Unread>
    ensures text { IfOk result (λ m. cursor.old.rest.now
        ≡ manifest_text m.vehicle m.primary m.counter (map (λ r. r.envelope) m.reports) ++ cursor.new.rest.now) }
    ensures fits { IfOk result (λ m. ManifestFits m) }
{
    let counter = count_behind(cursor, "{\"counter\":")?;
    let primary = ident_behind(alloc, cursor, ",\"primary\":")?;
    cursor.pass(",\"reports\":")?;
    let reports = reports(alloc, cursor)?;
    let vehicle = ident_behind(alloc, cursor, ",\"type\":\"manifest\",\"vehicle\":")?;
    cursor.pass("}")?;
    let number = counter.get();
    if number < 1 {
        return Err(Unread);
    }
    // Noted for the proof: what identifiers are.
    vehicle.text();
    primary.text();
    Ok(Manifest {
        vehicle,
        primary,
        counter,
        reports,
    })
}

/// Takes the list of the reports' envelopes.
fn reports(alloc: Global, cursor: &mut Cursor<'_>) -> Result<Listed<SignedReport>, Unread>
    ensures text { IfOk result
        (λ rs. cursor.old.rest.now ≡ list_text (map (λ r. envelope_text r.envelope) rs) ++ cursor.new.rest.now) }
    ensures fits { IfOk result (λ rs. AreReports rs) }
    ensures few { IfOk result (λ rs. length rs ≤ most_reports) }
{
    cursor.pass("[")?;
    let mut reports = Vec::new(alloc);
    let mut separator = "";
    'reports: while reports.len() <= MOST_REPORTS {
        if cursor.takes("]") {
            return Ok(Listed::new(reports));
        }
        cursor.pass(separator)?;
        reports.push(signed_report(alloc, cursor)?)?;
        separator = ",";
    }
    Err(Unread)
}
