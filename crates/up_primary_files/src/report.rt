//! A report of the list, and the envelope in which its ECU signs it.
ghost use Rattle.std.specs.Prelude.{◌≡◌, ◌≤◌, IfOk, IsTrue, length};
ghost use Rattle.std.specs.List.{list_all};
ghost use Rattle.serde_json.specs.View.{view};
ghost use Rattle.up_canon.specs.Members.{object_of_map, values_of};
ghost use Rattle.up_canon.specs.Refusals.{Gives};
ghost use Rattle.up_canon.specs.Steps.{each};
ghost use Rattle.up_primary_files.specs.Manifests.{envelope_of as envelope_of_value, report_of as report_of_value, image_of as image_of_value, moment_as, time_in, second_hash_in};
ghost use Rattle.up_sign.specs.Formats.{envelope_fits};

use crate::signing::secret_at;
use serde_json::{Map, Value};
use std::alloc::Global;
use up_canon::fields::{count_at, find};
use up_canon::hex_text::{sha256_at, sha512_of};
use up_canon::kinds::object_of;
use up_canon::listed::Listed;
use up_canon::moment::Moment;
use up_canon::readers::{file_name_at, ident_at, note_at};
use up_canon::refusal::Refusal;
use up_manifest::building::build_report;
use up_manifest::report::{Installed, Report};
use up_sign::envelope::Envelope;
use up_sign::scheme::Scheme;

/// The report that each value means, in the envelope that its `key` signs, in order.
#[tactic(auto, unfolding(up_canon::specs::Steps::each, up_canon::specs::Steps::and_then))]
pub(crate) fn envelopes_of<K: Scheme>(
    alloc: Global,
    scheme: &K,
    values: &[Value],
) -> Result<Listed<Envelope>, Refusal>
    ensures value { Gives result (each (envelope_of_value (K.rules scheme.now)) (values_of values.now)) }
    ensures limits { IfOk result (λ envelopes. (length envelopes ≡ length values.now) × IsTrue (list_all envelope_fits envelopes)) }
{
    let mut envelopes = Vec::new(alloc);
    for value in values.iter() {
        envelopes.push(envelope_of(alloc, scheme, value)?)?;
    }
    Ok(Listed::new(envelopes))
}

#[tactic(auto, unfolding(crate::specs::Manifests::envelope_of, up_canon::specs::Steps::and_then))]
fn envelope_of<K: Scheme>(alloc: Global, scheme: &K, value: &Value) -> Result<Envelope, Refusal>
    ensures value { Gives result (envelope_of_value (K.rules scheme.now) (view value.now)) }
    ensures limits { IfOk result (λ envelope. IsTrue (envelope_fits envelope)) }
{
    let map = object_of(value, "reports")?;
    let secret = secret_at(alloc, scheme, map)?;
    let report = report_of(alloc, map)?;
    let built = build_report(alloc, scheme, secret.as_slice(), &report);
    // Dropped by name: at the end of a scope they would be proved part by part.
    drop(secret);
    drop(report);
    Ok(built?)
}

#[tactic(auto, unfolding(crate::specs::Manifests::report_of, up_canon::specs::Steps::and_then))]
fn report_of(alloc: Global, map: &Map<String, Value>) -> Result<Report, Refusal>
    ensures { Gives result (report_of_value (object_of_map map.now.entries)) }
{
    Ok(Report {
        ecu: ident_at(alloc, map, "ecu")?,
        counter: count_at(map, "counter")?,
        time: time_at(map)?,
        attack: note_at(alloc, map, "attack")?,
        image: image_of(alloc, map)?,
    })
}

/// The moment of the member `time`, in seconds.
#[tactic(auto, unfolding(crate::specs::Manifests::time_in, up_canon::specs::Steps::and_then))]
fn time_at(map: &Map<String, Value>) -> Result<Moment, Refusal>
    ensures { Gives result (time_in (object_of_map map.now.entries)) }
{
    let time = count_at(map, "time")?;
    moment_of(time.get())
}

fn moment_of(second: u64) -> Result<Moment, Refusal>
    ensures { Gives result (moment_as second) }
{
    match Moment::new(second) {
        Some(time) => Ok(time),
        None => Err(Refusal::from("time")),
    }
}

#[tactic(auto, unfolding(crate::specs::Manifests::image_of, up_canon::specs::Steps::and_then))]
fn image_of(alloc: Global, map: &Map<String, Value>) -> Result<Installed, Refusal>
    ensures { Gives result (image_of_value (object_of_map map.now.entries)) }
{
    Ok(Installed {
        length: count_at(map, "length")?,
        sha256: sha256_at(map, "sha256")?,
        sha512: second_hash_at(map)?,
        file: file_name_at(alloc, map, "file")?,
    })
}

/// The SHA-512, where there is one.
#[tactic(auto, unfolding(crate::specs::Manifests::second_hash_in, up_canon::specs::Steps::and_then))]
fn second_hash_at(map: &Map<String, Value>) -> Result<Option<[u8; 64]>, Refusal>
    ensures { Gives result (second_hash_in (object_of_map map.now.entries)) }
{
    match find(map, "sha512") {
        Some(value) => Ok(Some(sha512_of(value, "sha512")?)),
        None => Ok(None),
    }
}
