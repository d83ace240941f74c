//! The body that is sent: the manifest of a file that lists the reports.
ghost use Rattle.std.specs.Prelude.{◌≡◌, ◌≤◌, IfOk, IsTrue, length};
ghost use Rattle.std.specs.List.{list_all};
ghost use Rattle.std.specs.Prelude.{string_bytes, MatchResult, Ok, codes};
ghost use Rattle.serde_json.specs.Find.{get};
ghost use Rattle.serde_json.specs.View.{view};
ghost use Rattle.up_canon.specs.Members.{IsFault, object_of_map};
ghost use Rattle.up_canon.specs.Refusals.{Gives, GivesAs};
ghost use Rattle.up_primary_files.specs.Manifests.{manifest_in, manifest_of as manifest_of_value, manifest_by, method_as, counter_in, reports_in};
ghost use Rattle.up_sign.specs.Formats.{envelope_fits};
ghost use Rattle.up_canon.specs.Canon.{max_count};

use crate::report::envelopes_of;
use crate::signing::secret_at;
use serde_json::{Map, Value};
use std::alloc::Global;
use up_canon::bytes::Bytes;
use up_canon::count::Count;
use up_canon::fields::{count_at, find, list_at};
use up_canon::ident::Ident;
use up_canon::json_text::value_of_text;
use up_canon::kinds::{object_of, text_of};
use up_canon::listed::Listed;
use up_canon::readers::ident_at;
use up_canon::refusal::Refusal;
use up_ed25519::scheme::Ed25519;
use up_manifest::building::build_manifest;
use up_sign::envelope::Envelope;
use up_sign::hmac_sha256::HmacSha256;
use up_sign::scheme::Scheme;

/// The most reports of a manifest.
const MOST_REPORTS: usize = 64;

/// The vehicle version manifest of the file's text, signed: `method` (`hmac-sha256` where it is missing), `vehicle`, `primary`,
/// the Primary's secret `key` in hex, `counter`, and `reports`, each an `ecu` with its `key`, `counter`, `time` in seconds,
/// `attack`, and its image: `file`, `length`, `sha256`, and `sha512` where it has one. `NotJson`, `BadShape` with the name of the
/// first member at fault, `Memory`.
#[tactic(auto, unfolding(crate::specs::Manifests::manifest_in, up_canon::specs::Steps::and_then))]
pub fn manifest_of(alloc: Global, text: &str) -> Result<String, Refusal>
    ensures { GivesAs string_bytes result (manifest_in text.now) }
{
    let value = value_of_text(alloc, text)?;
    let built = built_of(alloc, &value);
    // Dropped by name: at the end of a scope it would be proved part by part.
    drop(value);
    built
}

#[tactic(auto, unfolding(crate::specs::Manifests::manifest_of, up_canon::specs::Steps::and_then))]
fn built_of(alloc: Global, value: &Value) -> Result<String, Refusal>
    ensures { GivesAs string_bytes result (manifest_of_value (view value.now)) }
{
    let map = object_of(value, "manifest")?;
    let method = method_at(map)?;
    if method == "hmac-sha256" {
        built_by(alloc, &HmacSha256, map)
    } else if method == "ed25519" {
        built_by(alloc, &Ed25519, map)
    } else {
        Err(Refusal::from("method"))
    }
}

fn method_at<'a>(map: &'a Map<String, Value>) -> Result<&'a str, &'static str>
    ensures { MatchResult result
        (λ text. method_as (get (codes "method") (object_of_map map.now.entries)) ≡ Ok text.now)
        (λ fault. IsFault (method_as (get (codes "method") (object_of_map map.now.entries))) (codes "method") fault.now) }
{
    match find(map, "method") {
        Some(value) => text_of(value, "method"),
        None => Ok("hmac-sha256"),
    }
}

#[tactic(auto, unfolding(crate::specs::Manifests::manifest_by, up_canon::specs::Steps::and_then))]
fn built_by<K: Scheme>(
    alloc: Global,
    scheme: &K,
    map: &Map<String, Value>,
) -> Result<String, Refusal>
    ensures { GivesAs string_bytes result (manifest_by (K.rules scheme.now) (object_of_map map.now.entries)) }
{
    let counter = counter_at(map)?;
    let secret = secret_at(alloc, scheme, map)?;
    let vehicle = ident_at(alloc, map, "vehicle")?;
    let primary = ident_at(alloc, map, "primary")?;
    let reports = reports_at(alloc, scheme, map)?;
    let built = build_manifest(
        alloc,
        scheme,
        secret.as_slice(),
        &vehicle,
        &primary,
        counter.get(),
        reports.as_slice(),
    );
    drop(secret);
    drop(vehicle);
    drop(primary);
    drop(reports);
    Ok(built?)
}

/// The counter, from 1 on.
#[tactic(auto, unfolding(crate::specs::Manifests::counter_in, up_canon::specs::Steps::and_then))]
fn counter_at(map: &Map<String, Value>) -> Result<Count, Refusal>
    ensures value { Gives result (counter_in (object_of_map map.now.entries)) }
    ensures limits { IfOk result (λ n. (1 ≤ n) × (n ≤ max_count)) }
{
    let counter = count_at(map, "counter")?;
    if counter.get() == 0 {
        return Err(Refusal::from("counter"));
    }
    Ok(counter)
}

/// The envelopes of at most 64 reports.
#[tactic(auto, unfolding(crate::specs::Manifests::reports_in, up_canon::specs::Steps::and_then))]
fn reports_at<K: Scheme>(
    alloc: Global,
    scheme: &K,
    map: &Map<String, Value>,
) -> Result<Listed<Envelope>, Refusal>
    ensures value { Gives result (reports_in (K.rules scheme.now) (object_of_map map.now.entries)) }
    ensures limits { IfOk result (λ envelopes. (length envelopes ≤ 64) × IsTrue (list_all envelope_fits envelopes)) }
{
    let values = list_at(map, "reports")?.as_slice();
    if values.len() > MOST_REPORTS {
        return Err(Refusal::from("reports"));
    }
    envelopes_of(alloc, scheme, values)
}
