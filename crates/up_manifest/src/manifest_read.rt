//! Reading reports and manifests.
ghost use Rattle.std.specs.Prelude.{◌≡◌, ◌<◌, false, None, Err, IfOk, length};
ghost use Rattle.serde_json.specs.View.{view};
ghost use Rattle.up_canon.specs.Members.{object_of_map};
ghost use Rattle.up_canon.specs.Refusals.{Gives};
ghost use Rattle.up_canon.specs.declared.refusal.Refusal.TheVariants.{TooLarge};
ghost use Rattle.up_manifest.specs.Manifests.{largest_body, installed_in, report_in, reports_in, manifest_in, incoming_in, report_text_in, report_sha512_of};

use crate::body::LARGEST_BODY;
use crate::body_laws;
use crate::manifest::{Incoming, Manifest};
use crate::plain::plain_manifest;
use crate::report::{Installed, Report, SignedReport};
use serde_json::{Map, Value};
use std::alloc::{AllocError, Global};
use up_canon::canonical::canonical;
use up_canon::each::{Reading, each_of};
use up_canon::fields::{count_at, object_at};
use up_canon::hex_text::{sha256_at, sha512_at};
use up_canon::json_text::{value_of_text, value_within};
use up_canon::limits::{list_within_at, moment_at, positive_at, word_at};
use up_canon::listed::Listed;
use up_canon::readers::{file_name_at, ident_at, note_at};
use up_canon::refusal::Refusal;
use up_sign::envelope_read::open;

/// How many reports a manifest may have.
pub(crate) const MOST_REPORTS: usize = 64;

/// The vehicle version manifest that a body means, with the envelope that its Primary signed. The faults, in their
/// order: `TooLarge` above 262,144 bytes; `NotJson`; `BadShape` of the envelope; `NotCanonical` of the signed value;
/// `BadShape` of the manifest's own members, then report by report of a report's envelope, and of its members.
/// `Memory` where memory was refused, though never in place of `TooLarge`.
pub fn read_manifest(alloc: Global, body: &[u8]) -> Result<Incoming, Refusal>
    ensures value { Gives result (incoming_in body.now) }
    ensures large { largest_body < length body.now → result ≡ Err TooLarge }
{
    body_laws();
    // What is read so is never too large, by the limits of its parts.
    if let Some(incoming) = plain_manifest(alloc, body) {
        return Ok(incoming);
    }
    manifest_of_json(alloc, body)
}

/// The same of a body of any form, by the tree of its values.
#[tactic(auto, unfolding(crate::specs::Manifests::incoming_in, up_canon::specs::Steps::and_then))]
fn manifest_of_json(alloc: Global, body: &[u8]) -> Result<Incoming, Refusal>
    ensures value { Gives result (incoming_in body.now) }
    ensures large { largest_body < length body.now → result ≡ Err TooLarge }
{
    let value = value_within(alloc, body, LARGEST_BODY)?;
    let (envelope, payload) = open(alloc, &value, "body")?;
    let manifest = manifest_at(alloc, payload)?;
    Ok(Incoming { manifest, envelope })
}

#[tactic(auto, unfolding(crate::specs::Manifests::manifest_in, up_canon::specs::Steps::and_then))]
fn manifest_at(alloc: Global, payload: &Map<String, Value>) -> Result<Manifest, Refusal>
    ensures { Gives result (manifest_in (object_of_map payload.now.entries)) }
{
    word_at(payload, "type", "manifest")?;
    let vehicle = ident_at(alloc, payload, "vehicle")?;
    let primary = ident_at(alloc, payload, "primary")?;
    let counter = positive_at(payload, "counter")?;
    let reports = reports_at(alloc, payload)?;
    Ok(Manifest {
        vehicle,
        primary,
        counter,
        reports,
    })
}

#[tactic(auto, unfolding(crate::specs::Manifests::reports_in, up_canon::specs::Steps::and_then))]
fn reports_at(alloc: Global, payload: &Map<String, Value>) -> Result<Listed<SignedReport>, Refusal>
    ensures { Gives result (reports_in (object_of_map payload.now.entries)) }
{
    let listed = list_within_at(payload, "reports", 0, MOST_REPORTS)?;
    each_of::<SignedReports>(alloc, listed.as_slice(), "reports")
}

/// The SHA-512 of the image that a report's signed text has in it: none of a text that is no report, or that has none.
pub fn report_sha512(alloc: Global, signed: &str) -> Result<Option<[u8; 64]>, AllocError>
    ensures { IfOk result (λ hash. hash ≡ report_sha512_of signed.now) }
{
    if !may_have_second_hash(signed) {
        return Ok(None);
    }
    match report_of_text(alloc, signed) {
        Ok(report) => Ok(report.image.sha512),
        Err(Refusal::Memory) => Err(AllocError),
        Err(_) => Ok(None),
    }
}

/// Whether the text may have a second hash, told without reading it: in a canonical text its name stands as it is.
fn may_have_second_hash(signed: &str) -> bool
    ensures { result ≡ false → report_sha512_of signed.now ≡ None }
{
    signed.contains("sha512")
}

/// The report whose canonical text it is.
#[tactic(auto, unfolding(crate::specs::Manifests::report_text_in, up_canon::specs::Steps::and_then))]
fn report_of_text(alloc: Global, signed: &str) -> Result<Report, Refusal>
    ensures { Gives result (report_text_in signed.now) }
{
    let value = value_of_text(alloc, signed)?;
    if canonical(alloc, &value)?.as_str() != signed {
        return Err(Refusal::NotCanonical);
    }
    report_of_value(alloc, &value)
}

fn report_of_value(alloc: Global, value: &Value) -> Result<Report, Refusal>
    ensures { Gives result (report_in (view value.now)) }
{
    match value.as_object() {
        Some(members) => report_at(alloc, members),
        None => Err("type".into()),
    }
}

struct SignedReports;

impl Reading for SignedReports {
    ghost use Rattle.up_manifest.specs.Manifests.{signed_report_in};

    type Item = SignedReport;

    ghost meaning = { signed_report_in };

    #[tactic(auto, unfolding(crate::specs::Manifests::signed_report_in, up_canon::specs::Steps::and_then))]
    fn read(alloc: Global, value: &Value, place: &'static str) -> Result<SignedReport, Refusal> {
        let (envelope, payload) = open(alloc, value, place)?;
        let report = report_at(alloc, payload)?;
        Ok(SignedReport { report, envelope })
    }
}

#[tactic(auto, unfolding(crate::specs::Manifests::report_in, up_canon::specs::Steps::and_then))]
fn report_at(alloc: Global, payload: &Map<String, Value>) -> Result<Report, Refusal>
    ensures { Gives result (report_in (object_of_map payload.now.entries)) }
{
    word_at(payload, "type", "report")?;
    let ecu = ident_at(alloc, payload, "ecu")?;
    let counter = count_at(payload, "counter")?;
    let time = moment_at(payload, "time")?;
    let attack = note_at(alloc, payload, "attack")?;
    let image = installed_at(alloc, object_at(payload, "image")?)?;
    Ok(Report {
        ecu,
        counter,
        time,
        attack,
        image,
    })
}

#[tactic(auto, unfolding(crate::specs::Manifests::installed_in, up_canon::specs::Steps::and_then))]
fn installed_at(alloc: Global, image: &Map<String, Value>) -> Result<Installed, Refusal>
    ensures { Gives result (installed_in (object_of_map image.now.entries)) }
{
    let file = file_name_at(alloc, image, "file")?;
    let length = count_at(image, "length")?;
    let hashes = object_at(image, "hashes")?;
    let sha256 = sha256_at(hashes, "sha256")?;
    Ok(Installed {
        file,
        length,
        sha256,
        sha512: sha512_at(hashes),
    })
}
