//! Reading envelopes.
ghost use Rattle.std.specs.Prelude.{◌≡◌, Ok, MatchResult, codes};
ghost use Rattle.std.specs.List.{list_all};
ghost use Rattle.serde_json.specs.View.{view};
ghost use Rattle.up_canon.specs.Members.{IsFault, object_of_map, values_of, object_in};
ghost use Rattle.up_canon.specs.Refusals.{Gives, GivesAs};
ghost use Rattle.up_sign.specs.Formats.{is_object};
ghost use Rattle.up_sign.specs.Reading.{signatures_in, signed_in, opened_in, envelope_in};

use crate::envelope::{Envelope, Signature};
use serde_json::{Map, Value};
use std::alloc::Global;
use up_canon::canonical::canonical;
use up_canon::each::{Reading, each_of};
use up_canon::fields::member_at;
use up_canon::hex_text::hex_at;
use up_canon::kinds::object_of;
use up_canon::limits::{list_within_at, short_text_at};
use up_canon::listed::Listed;
use up_canon::refusal::Refusal;
use up_canon::text::Text;

/// The envelope that a value is: 1 to 8 signatures, and an object that has a canonical text.
#[tactic(auto, unfolding(crate::specs::Reading::envelope_in, up_canon::specs::Steps::and_then))]
pub fn read_envelope(alloc: Global, value: &Value) -> Result<Envelope, Refusal>
    ensures { Gives result (envelope_in (view value.now)) }
{
    let (envelope, _) = open(alloc, value, "body")?;
    Ok(envelope)
}

/// The envelope that a value is, and the object that is signed. The place is the name of the fault of
/// a value that is no object.
#[tactic(auto, unfolding(crate::specs::Reading::opened_in, up_canon::specs::Steps::and_then))]
pub fn open<'a>(
    alloc: Global,
    value: &'a Value,
    place: &'static str,
) -> Result<(Envelope, &'a Map<String, Value>), Refusal>
    ensures { GivesAs (λ opened. record { envelope = opened.0; payload = object_of_map opened.1.now.entries }) result
        (opened_in place.now (view value.now)) }
{
    let members = object_of(value, place)?;
    let signatures = signatures_at(alloc, members)?;
    let (signed, payload) = signed_at(alloc, members)?;
    Ok((Envelope { signatures, signed }, payload))
}

#[tactic(auto, unfolding(crate::specs::Reading::signatures_in, up_canon::specs::Steps::and_then))]
fn signatures_at(alloc: Global, map: &Map<String, Value>) -> Result<Listed<Signature>, Refusal>
    ensures { Gives result (signatures_in (object_of_map map.now.entries)) }
{
    let values = list_within_at(map, "signatures", 1, 8)?;
    if !are_objects(values.as_slice()) {
        return Err("signatures".into());
    }
    each_of::<SignatureReading>(alloc, values.as_slice(), "signatures")
}

fn are_objects(values: &[Value]) -> bool
    ensures { result ≡ list_all is_object (values_of values.now) }
{
    for value in values {
        if !value.is_object() {
            return false;
        }
    }
    true
}

struct SignatureReading;

impl Reading for SignatureReading {
    ghost use Rattle.up_sign.specs.Reading.{signature_in};

    type Item = Signature;

    ghost meaning = { signature_in };

    #[tactic(auto, unfolding(crate::specs::Reading::signature_in, up_canon::specs::Steps::and_then))]
    fn read(alloc: Global, value: &Value, place: &'static str) -> Result<Signature, Refusal> {
        let members = object_of(value, place)?;
        Ok(Signature {
            keyid: Text::new(short_text_at(members, "keyid", 1, 128)?.to_string(alloc)?),
            method: Text::new(short_text_at(members, "method", 1, 64)?.to_string(alloc)?),
            sig: hex_at(alloc, members, "sig", 2, 1024)?,
        })
    }
}

#[tactic(auto, unfolding(crate::specs::Reading::signed_in, up_canon::specs::Steps::and_then))]
fn signed_at<'a>(
    alloc: Global,
    map: &'a Map<String, Value>,
) -> Result<(Text, &'a Map<String, Value>), Refusal>
    ensures { GivesAs (λ signed. record { text = signed.0; payload = object_of_map signed.1.now.entries }) result
        (signed_in (object_of_map map.now.entries)) }
{
    let (value, payload) = payload_at(map)?;
    let text = canonical(alloc, value)?;
    Ok((Text::new(text), payload))
}

#[tactic(auto, unfolding(up_canon::specs::Members::object_in, up_canon::specs::Steps::and_then))]
fn payload_at<'a>(
    map: &'a Map<String, Value>,
) -> Result<(&'a Value, &'a Map<String, Value>), &'static str>
    ensures { MatchResult result
        (λ found. (object_in (codes "signed") (object_of_map map.now.entries) ≡ Ok (view found.0.now))
        × (view found.0.now ≡ object_of_map found.1.now.entries))
        (λ fault. IsFault (object_in (codes "signed") (object_of_map map.now.entries)) (codes "signed") fault.now) }
{
    let value = member_at(map, "signed")?;
    let payload = object_of(value, "signed")?;
    Ok((value, payload))
}
