//! Writing reports and manifests.
ghost use Rattle.std.specs.Prelude.{◌≡◌, ◌++◌, IsTrue, IfOk, length, string_bytes, map};
ghost use Rattle.std.specs.List.{list_all};
ghost use Rattle.up_canon.specs.Canon.{text};
ghost use Rattle.up_canon.specs.HexText.{is_second_hash};
ghost use Rattle.up_sign.specs.Formats.{envelope_fits, envelope_text};
ghost use Rattle.up_sign.specs.Schemes.{is_byte};
ghost use Rattle.up_manifest.specs.Building.{ReportFits, installed_value, primary_text, list_text, report_text as report_text_of, manifest_text as manifest_text_of};

use crate::report::{Installed, Report};
use std::alloc::{AllocError, Global};
use up_canon::ident::Ident;
use up_canon::writing::{
    push_file_name, push_hashes, push_ident, push_moment, push_number, push_quoted,
};
use up_sign::envelope::Envelope;

/// Bytes of room that a report's text gets, so that it seldom grows while it is written.
const ROOM_OF_A_REPORT: usize = 320;

/// The canonical text of a report.
#[tactic(auto, using(up_canon::proofs::Printable::note_prints))]
pub(crate) fn report_text(alloc: Global, report: &Report) -> Result<String, AllocError>
    requires { ReportFits report.now }
    ensures { IfOk result (λ t. string_bytes t ≡ report_text_of report.now) }
{
    let mut out = String::with_capacity(alloc, ROOM_OF_A_REPORT)?;
    out.push_str("{\"attack\":")?;
    push_quoted(&mut out, report.attack.text())?;
    out.push_str(",\"counter\":")?;
    push_number(&mut out, report.counter.get())?;
    out.push_str(",\"ecu\":")?;
    push_ident(&mut out, &report.ecu)?;
    out.push_str(",\"image\":")?;
    push_installed(alloc, &mut out, &report.image)?;
    out.push_str(",\"time\":")?;
    push_moment(&mut out, report.time)?;
    out.push_str(",\"type\":\"report\"}")?;
    Ok(out)
}

/// Appends the image.
fn push_installed(alloc: Global, out: &mut String, image: &Installed) -> Result<(), AllocError>
    ensures { IfOk result (λ _. string_bytes out.new ≡ string_bytes out.old ++ text (installed_value image.now)) }
{
    out.push_str("{\"file\":")?;
    push_file_name(out, &image.file)?;
    out.push_str(",\"hashes\":")?;
    push_hashes(alloc, out, &image.sha256, &image.sha512)?;
    out.push_str(",\"length\":")?;
    push_number(out, image.length.get())?;
    out.push('}')?;
    Ok(())
}

/// Bytes of room that a manifest's text gets.
const ROOM_OF_A_MANIFEST: usize = 256;

/// Bytes of room that it gets beside for each report.
const ROOM_OF_AN_ENVELOPE: usize = 640;

/// The text that a Primary signs, in which the reports' envelopes stand as they are.
#[tactic(auto, unfolding(crate::specs::Building::manifest_text))]
pub(crate) fn manifest_text(
    alloc: Global,
    vehicle: &Ident,
    primary: &Ident,
    counter: u64,
    reports: &[Envelope],
) -> Result<String, AllocError>
    requires { IsTrue (list_all envelope_fits reports.now) }
    ensures { IfOk result (λ t. string_bytes t ≡ manifest_text_of vehicle.now primary.now counter reports.now) }
{
    let room = ROOM_OF_AN_ENVELOPE.saturating_mul(reports.len());
    let mut out = String::with_capacity(alloc, room.saturating_add(ROOM_OF_A_MANIFEST))?;
    push_primary(&mut out, primary, counter)?;
    out.push_str(",\"reports\":")?;
    push_envelopes(alloc, &mut out, reports)?;
    out.push_str(",\"type\":\"manifest\",\"vehicle\":")?;
    push_ident(&mut out, vehicle)?;
    out.push('}')?;
    Ok(out)
}

/// The first two members of a manifest.
fn push_primary(out: &mut String, primary: &Ident, counter: u64) -> Result<(), AllocError>
    ensures { IfOk result (λ _. string_bytes out.new ≡ string_bytes out.old ++ primary_text primary.now counter) }
{
    out.push_str("{\"counter\":")?;
    push_number(out, counter)?;
    out.push_str(",\"primary\":")?;
    push_ident(out, primary)?;
    Ok(())
}

fn push_envelopes(alloc: Global, out: &mut String, envelopes: &[Envelope]) -> Result<(), AllocError>
    requires { IsTrue (list_all envelope_fits envelopes.now) }
    ensures { IfOk result
        (λ _. string_bytes out.new ≡ string_bytes out.old ++ list_text (map envelope_text envelopes.now)) }
{
    out.push('[')?;
    let mut separator = "";
    for envelope in envelopes.iter() {
        out.push_str(separator)?;
        envelope.push_to(alloc, out)?;
        separator = ",";
    }
    out.push(']')?;
    Ok(())
}

/// Notes for proofs the limits that the types of a report's members keep.
pub(crate) fn keeps_limits(report: &Report)
    ensures { ReportFits report.now }
{
    report.ecu.text();
    report.counter.get();
    report.time.get();
    report.attack.text();
    report.image.file.text();
    report.image.length.get();
    keeps_bytes(&report.image.sha256);
    keeps_second(&report.image.sha512);
}

fn keeps_bytes(hash: &[u8; 32])
    ensures size { length hash.now ≡ 32 }
    ensures bytes { IsTrue (list_all is_byte hash.now) }
{
    are_bytes(&hash[..]);
}

fn keeps_second(sha512: &Option<[u8; 64]>)
    ensures { IsTrue (is_second_hash sha512.now) }
{
    if let Some(hash) = sha512 {
        are_bytes(&hash[..]);
    }
}

fn are_bytes(hash: &[u8])
    ensures { IsTrue (list_all is_byte hash.now) }
{}
