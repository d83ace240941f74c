//! Reports in the form in which Primaries write manifests.
ghost use Rattle.std.specs.Prelude.{◌≡◌, ◌++◌, List, ℕ, IsTrue, IfOk};
ghost use Rattle.std.specs.List.{list_all};
ghost use Rattle.up_canon.specs.Build.{hashes_value};
ghost use Rattle.up_canon.specs.Canon.{text};
ghost use Rattle.up_canon.specs.HexText.{second_hash_text};
ghost use Rattle.up_sign.specs.Formats.{signature_fits, signature_value, envelope_text};
ghost use Rattle.up_sign.specs.Schemes.{is_byte};
ghost use Rattle.up_manifest.specs.Building.{ReportFits, IsReportEnvelope, installed_value, report_text};
ghost use Rattle.up_manifest.specs.Plain.{IsOneSignature, signatures_text};

use crate::cursor::{Cursor, Unread};
use crate::plain_members::{
    bytes_behind, count_behind, file_name_behind, ident_behind, moment_behind, note_behind,
    short_text_behind,
};
use crate::report::{Installed, Report, SignedReport};
use crate::writing::keeps_limits;
use std::alloc::Global;
use up_canon::listed::Listed;
use up_canon::text::Text;
use up_sign::envelope::{Envelope, Signature};

/// Takes a report's envelope.
pub(crate) fn signed_report(alloc: Global, cursor: &mut Cursor<'_>) -> Result<SignedReport, Unread>
    ensures text { IfOk result (λ s. cursor.old.rest.now ≡ envelope_text s.envelope ++ cursor.new.rest.now) }
    ensures fits { IfOk result (λ s. IsReportEnvelope s.envelope s.report) }
{
    let signatures = signatures(alloc, cursor)?;
    let begun = cursor.rest;
    let report = report(alloc, cursor)?;
    let signed = text_before(alloc, begun, cursor.rest)?;
    cursor.pass("}")?;
    Ok(SignedReport {
        report,
        envelope: Envelope { signatures, signed },
    })
}

/// Takes the signatures of an envelope, of which there is one, up to the text that is signed.
pub(crate) fn signatures(
    alloc: Global,
    cursor: &mut Cursor<'_>,
) -> Result<Listed<Signature>, Unread>
    ensures text { IfOk result (λ ss. cursor.old.rest.now ≡ signatures_text ss ++ cursor.new.rest.now) }
    ensures fits { IfOk result (λ ss. IsOneSignature ss) }
{
    cursor.pass("{\"signatures\":[")?;
    let mut signatures = Vec::with_capacity(alloc, 1)?;
    signatures.push(signature(alloc, cursor)?)?;
    cursor.pass("],\"signed\":")?;
    Ok(Listed::new(signatures))
}

/// A copy of the text up to where the rest begins.
pub(crate) fn text_before(alloc: Global, begun: &str, rest: &str) -> Result<Text, Unread>
    ensures { IfOk result (λ t. (part : List ℕ) → begun.now ≡ part ++ rest.now → t ≡ part) }
{
    let size = begun.len().saturating_sub(rest.len());
    let taken = Cursor::new(begun).cut(size)?;
    Ok(Text::new(taken.to_string(alloc)?))
}

fn signature(alloc: Global, cursor: &mut Cursor<'_>) -> Result<Signature, Unread>
    ensures text { IfOk result (λ s. cursor.old.rest.now ≡ text (signature_value s) ++ cursor.new.rest.now) }
    ensures fits { IfOk result (λ s. IsTrue (signature_fits s)) }
    ensures bytes { IfOk result (λ s. IsTrue (list_all is_byte s.sig)) }
{
    let keyid = short_text_behind(alloc, cursor, "{\"keyid\":", 128)?;
    let method = short_text_behind(alloc, cursor, ",\"method\":", 64)?;
    let sig = bytes_behind(alloc, cursor, ",\"sig\":", 512)?;
    cursor.pass("}")?;
    Ok(Signature { keyid, method, sig })
}

/// Takes a report's text.
fn report(alloc: Global, cursor: &mut Cursor<'_>) -> Result<Report, Unread>
    ensures text { IfOk result (λ r. cursor.old.rest.now ≡ report_text r ++ cursor.new.rest.now) }
    ensures fits { IfOk result (λ r. ReportFits r) }
{
    let attack = note_behind(alloc, cursor, "{\"attack\":")?;
    let counter = count_behind(cursor, ",\"counter\":")?;
    let ecu = ident_behind(alloc, cursor, ",\"ecu\":")?;
    cursor.pass(",\"image\":")?;
    let image = installed(alloc, cursor)?;
    let time = moment_behind(cursor, ",\"time\":")?;
    cursor.pass(",\"type\":\"report\"}")?;
    let report = Report {
        ecu,
        counter,
        time,
        attack,
        image,
    };
    keeps_limits(&report);
    Ok(report)
}

fn installed(alloc: Global, cursor: &mut Cursor<'_>) -> Result<Installed, Unread>
    ensures { IfOk result (λ i. cursor.old.rest.now ≡ text (installed_value i) ++ cursor.new.rest.now) }
{
    let file = file_name_behind(alloc, cursor, "{\"file\":")?;
    cursor.pass(",\"hashes\":")?;
    let (sha256, sha512) = hashes(cursor)?;
    let length = count_behind(cursor, ",\"length\":")?;
    cursor.pass("}")?;
    Ok(Installed {
        file,
        length,
        sha256,
        sha512,
    })
}

fn hashes(cursor: &mut Cursor<'_>) -> Result<([u8; 32], Option<[u8; 64]>), Unread>
    ensures { IfOk result (λ h. cursor.old.rest.now ≡ text (hashes_value h.0 h.1) ++ cursor.new.rest.now) }
{
    cursor.pass("{\"sha256\":")?;
    let sha256 = cursor.sha256()?;
    let sha512 = second_hash(cursor)?;
    cursor.pass("}")?;
    Ok((sha256, sha512))
}

/// Takes the SHA-512 behind the SHA-256, where there is one.
fn second_hash(cursor: &mut Cursor<'_>) -> Result<Option<[u8; 64]>, Unread>
    ensures { IfOk result (λ hash. cursor.old.rest.now ≡ second_hash_text hash ++ cursor.new.rest.now) }
{
    if cursor.takes(",\"sha512\":") {
        return Ok(Some(cursor.sha512()?));
    }
    Ok(None)
}
