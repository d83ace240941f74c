//! Lines that sign reports and their manifest, as ECUs and their Primary would, and deliver it.
ghost use Rattle.std.specs.Prelude.{◌≡◌, ◌∷◌, [], Ok, IfNone, IfOk, IsTrue, MatchResult, codes, length};
ghost use Rattle.std.specs.List.{list_all};
ghost use Rattle.serde_json.specs.Find.{get};
ghost use Rattle.serde_json.specs.View.{view};
ghost use Rattle.up_canon.specs.Members.{IsFault, object_of_map, values_of};
ghost use Rattle.up_canon.specs.Refusals.{Gives, GivesAs};
ghost use Rattle.up_canon.specs.Readers.{fitting};
ghost use Rattle.up_canon.specs.Steps.{each};
ghost use Rattle.up_sign.specs.Envelopes.{key_block, sealed_envelope};
ghost use Rattle.up_sign.specs.Formats.{envelope_fits};
ghost use Rattle.up_manifest.specs.Building.{report_text};
ghost use Rattle.up_script.specs.BenchLines.{secret_in, time_in, attack_in, reported_in, report_of, bench_in};

use crate::optional::optional_sha512_at;
use serde_json::{Map, Value};
use std::alloc::{AllocError, Global};
use up_canon::bytes::Bytes;
use up_canon::fields::{count_at, find};
use up_canon::hex_text::{hex_at, sha256_at};
use up_canon::kinds::object_of;
use up_canon::limits::{list_within_at, positive_at};
use up_canon::moment::Moment;
use up_canon::note::Note;
use up_canon::readers::{file_name_at, ident_at, note_of};
use up_canon::refusal::Refusal;
use up_manifest::building::{build_manifest_by, build_report, build_report_by};
use up_manifest::report::{Installed, Report};
use up_sign::envelope::Envelope;
use up_sign::key_id::HashedKey;
use up_sign::scheme::Scheme;
use up_sign::seal::hashed_key_of;

/// The body of the manifest that a line has delivered, or the first fault of its members.
#[tactic(auto, unfolding(crate::specs::BenchLines::bench_in, up_canon::specs::Steps::and_then))]
pub fn bench_at<K: Scheme>(
    alloc: Global,
    scheme: &K,
    line: &Map<String, Value>,
) -> Result<Bytes, Refusal>
    ensures { Gives result (bench_in (K.rules scheme.now) (object_of_map line.now.entries)) }
{
    let vehicle = ident_at(alloc, line, "vehicle")?;
    let primary = ident_at(alloc, line, "primary")?;
    let key = secret_at(alloc, scheme, line)?;
    let counter = positive_at(line, "counter")?.get();
    let values = list_within_at(line, "reports", 0, 64)?;
    let secret = key.as_slice();
    let hashed = hashed_key_of(alloc, scheme, secret)?;
    let reports = reports_of(alloc, scheme, secret, &hashed, values.as_slice())?;
    let body = build_manifest_by(
        alloc,
        scheme,
        secret,
        &hashed,
        &vehicle,
        &primary,
        counter,
        reports.as_slice(),
    )?;
    Ok(Bytes::new(body.into_bytes()))
}

/// The reports, each in the envelope that its ECU's key signs. The Primary's secret and its hashed key are at hand.
#[tactic(auto, unfolding(up_canon::specs::Steps::each, up_canon::specs::Steps::and_then))]
fn reports_of<K: Scheme>(
    alloc: Global,
    scheme: &K,
    primary: &[u8],
    hashed: &HashedKey,
    values: &[Value],
) -> Result<Vec<Envelope>, Refusal>
    requires { hashed.now ≡ key_block (K.rules scheme.now) primary.now }
    ensures value { GivesAs (λ v. v.items) result
        (each (report_of (K.rules scheme.now) (codes "reports")) (values_of values.now)) }
    ensures fits { IfOk result (λ v. IsTrue (list_all envelope_fits v.items)) }
    ensures number { IfOk result (λ v. length v.items ≡ length values.now) }
{
    let mut reports = Vec::with_capacity(alloc, values.len())?;
    for value in values {
        reports.push(read_report(alloc, scheme, primary, hashed, value)?)?;
    }
    Ok(reports)
}

#[tactic(auto, unfolding(crate::specs::BenchLines::report_of, up_canon::specs::Steps::and_then))]
fn read_report<K: Scheme>(
    alloc: Global,
    scheme: &K,
    primary: &[u8],
    hashed: &HashedKey,
    value: &Value,
) -> Result<Envelope, Refusal>
    requires { hashed.now ≡ key_block (K.rules scheme.now) primary.now }
    ensures value { Gives result (report_of (K.rules scheme.now) (codes "reports") (view value.now)) }
    ensures fits { IfOk result (λ e. IsTrue (envelope_fits e)) }
{
    let members = object_of(value, "reports")?;
    let ecu = ident_at(alloc, members, "ecu")?;
    let key = secret_at(alloc, scheme, members)?;
    let counter = count_at(members, "counter")?;
    let time = time_at(members)?;
    let attack = attack_at(alloc, members)?;
    let image = reported_at(alloc, members)?;
    let report = Report {
        ecu,
        counter,
        time,
        attack,
        image,
    };
    Ok(sealed_report(alloc, scheme, primary, hashed, key.as_slice(), &report)?)
}

/// The report in the envelope that the key signs. Where it is the Primary's, it is hashed already.
fn sealed_report<K: Scheme>(
    alloc: Global,
    scheme: &K,
    primary: &[u8],
    hashed: &HashedKey,
    key: &[u8],
    report: &Report,
) -> Result<Envelope, AllocError>
    requires hashed { hashed.now ≡ key_block (K.rules scheme.now) primary.now }
    requires fits { IsTrue ((K.rules scheme.now).secret_fits key.now) }
    ensures value { IfOk result (λ e. e ≡ sealed_envelope (K.rules scheme.now) (key.now ∷ []) (report_text report.now)) }
    ensures limits { IfOk result (λ e. IsTrue (envelope_fits e)) }
{
    if key == primary {
        build_report_by(alloc, scheme, key, hashed, report)
    } else {
        build_report(alloc, scheme, key, report)
    }
}

#[tactic(auto, unfolding(crate::specs::BenchLines::secret_in, up_canon::specs::Steps::and_then))]
fn secret_at<K: Scheme>(
    alloc: Global,
    scheme: &K,
    members: &Map<String, Value>,
) -> Result<Bytes, Refusal>
    ensures value { Gives result (secret_in (K.rules scheme.now) (object_of_map members.now.entries)) }
    ensures fits { IfOk result (λ key. IsTrue ((K.rules scheme.now).secret_fits key)) }
{
    let key = hex_at(alloc, members, "key", 2, 512)?;
    fitting_secret(scheme, key)
}

/// The key where the scheme takes it as a secret, else its fault, which is never want of memory.
fn fitting_secret<K: Scheme>(scheme: &K, key: Bytes) -> Result<Bytes, Refusal>
    ensures value { result ≡ fitting (K.rules scheme.now).secret_fits (codes "key") key }
    ensures fits { IfOk result (λ fitting. IsTrue ((K.rules scheme.now).secret_fits fitting)) }
{
    if scheme.secret_fits(key.as_slice()) {
        Ok(key)
    } else {
        Err("key".into())
    }
}

#[tactic(auto, unfolding(crate::specs::BenchLines::time_in, up_canon::specs::Steps::and_then))]
fn time_at(members: &Map<String, Value>) -> Result<Moment, &'static str>
    ensures { MatchResult result
        (λ moment. time_in (object_of_map members.now.entries) ≡ Ok moment)
        (λ fault. IsFault (time_in (object_of_map members.now.entries)) (codes "time") fault.now) }
{
    Moment::new(count_at(members, "time")?.get()).ok_or("time")
}

#[tactic(auto, unfolding(crate::specs::BenchLines::attack_in, up_canon::specs::Steps::and_then))]
fn attack_at(alloc: Global, members: &Map<String, Value>) -> Result<Note, Refusal>
    ensures value { Gives result (attack_in (object_of_map members.now.entries)) }
    ensures left_out { IfNone (get (codes "attack") (object_of_map members.now.entries)) (result ≡ Ok []) }
{
    match find(members, "attack") {
        Some(value) => note_of(alloc, value, "attack"),
        None => no_attack(alloc),
    }
}

fn no_attack(alloc: Global) -> Result<Note, Refusal>
    ensures { result ≡ Ok [] }
{
    Ok(Note::new(String::new(alloc)).ok_or("attack")?)
}

#[tactic(auto, unfolding(crate::specs::BenchLines::reported_in, up_canon::specs::Steps::and_then))]
fn reported_at(alloc: Global, members: &Map<String, Value>) -> Result<Installed, Refusal>
    ensures { Gives result (reported_in (object_of_map members.now.entries)) }
{
    let file = file_name_at(alloc, members, "file")?;
    let length = count_at(members, "length")?;
    let sha256 = sha256_at(members, "sha256")?;
    let sha512 = optional_sha512_at(members)?;
    Ok(Installed {
        file,
        length,
        sha256,
        sha512,
    })
}
