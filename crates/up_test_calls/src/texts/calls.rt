//! The calls by their words.
use crate::texts::envelopes::{envelope_of, key_identifier, opened};
use crate::texts::fits::{root_fits, snapshot_fits, targets_fit, timestamp_fits};
use crate::texts::key_caches::keys_kept;
use crate::texts::manifests::{manifest, manifest_of_bytes, prefixes, second_hash, signed_text};
use crate::texts::members::{
    count, ecu, ecus, file, files, note, object, sha256, sha512, signature, vehicle,
};
use crate::texts::moments::{moment_later, moment_read, moment_text};
use crate::texts::refusals::refusal;
use crate::texts::role_files::lifetimes;
use crate::texts::schemes::under;
use crate::texts::tables::table;
use crate::texts::values::{
    canonical_text, count_written, hex_written, hmac_of, order_of_names, quoted, sha256_of_text,
    sha512_of_text, value_of_bytes,
};
use serde_json::{Map, Value};
use std::alloc::{AllocError, Global};
use up_sign::hmac_sha256::HmacSha256;
use up_test_common::calls::Calls;
use up_test_common::hashed::Hashed;

/// The calls of the crates below, of which none keeps anything.
#[derive(Clone, Copy, Debug)]
pub(crate) struct Texts;

impl Calls for Texts {
    fn answer(&mut self, alloc: Global, call: &str, given: &str) -> Result<String, AllocError> {
        match call.split_once(" under ") {
            Some((call, "hmac-sha256")) => under(alloc, &HmacSha256, call, given),
            Some((call, "sha256-tag")) => under(alloc, &Hashed, call, given),
            Some(_) => "no such scheme".to_string(alloc),
            None => of_text(alloc, call, given),
        }
    }

    fn is_wanted(&self, had: &str, wanted: &str) -> bool {
        had == wanted
    }
}

fn of_text(alloc: Global, call: &str, given: &str) -> Result<String, AllocError> {
    match call {
        "moment read" => moment_read(alloc, given),
        "refusal" => refusal(alloc, given),
        "table" => table(alloc, given),
        "quoted" => quoted(alloc, given),
        "sha256" => sha256_of_text(alloc, given),
        "sha512" => sha512_of_text(alloc, given),
        "second hash of a report" => second_hash(alloc, given),
        "lifetimes" => lifetimes(alloc, given),
        "manifest" => manifest(alloc, given),
        "prefixes of a manifest" => prefixes(alloc, given),
        "signed text of a manifest" => signed_text(alloc, given),
        _ => of_limits(alloc, call, given),
    }
}

fn of_limits(alloc: Global, call: &str, given: &str) -> Result<String, AllocError> {
    match call {
        "limits of a root" => root_fits(alloc, given),
        "limits of targets" => targets_fit(alloc, given),
        "limits of a snapshot" => snapshot_fits(alloc, given),
        "limits of a timestamp" => timestamp_fits(alloc, given),
        _ => of_json(alloc, call, given),
    }
}

fn of_json(alloc: Global, call: &str, given: &str) -> Result<String, AllocError> {
    match Value::from_str(alloc, given) {
        Ok(value) => of_value(alloc, call, &value),
        Err(_) => "no JSON".to_string(alloc),
    }
}

fn of_value(alloc: Global, call: &str, value: &Value) -> Result<String, AllocError> {
    match call {
        "moment text" => moment_text(alloc, value),
        "moment a week later" => moment_later(alloc, value),
        "canonical" => canonical_text(alloc, value),
        "value within 9 bytes" => value_of_bytes(alloc, value),
        "count written" => count_written(alloc, value),
        "hex written" => hex_written(alloc, value),
        "order of names" => order_of_names(alloc, value),
        "key identifier" => key_identifier(alloc, value),
        "keys kept" => keys_kept(alloc, value),
        "envelope" => envelope_of(alloc, value),
        "opened" => opened(alloc, value),
        "manifest of bytes" => manifest_of_bytes(alloc, value),
        _ => of_object(alloc, call, value),
    }
}

fn of_object(alloc: Global, call: &str, value: &Value) -> Result<String, AllocError> {
    match value.as_object() {
        Some(members) => of_members(alloc, call, members),
        None => "no object".to_string(alloc),
    }
}

fn of_members(
    alloc: Global,
    call: &str,
    members: &Map<String, Value>,
) -> Result<String, AllocError> {
    match call {
        "ecu" => ecu(alloc, members),
        "file" => file(alloc, members),
        "attack" => note(alloc, members),
        "sig" => signature(alloc, members),
        "sha256 of a member" => sha256(alloc, members),
        "sha512 of a member" => sha512(alloc, members),
        "ecus" => ecus(alloc, members),
        "files" => files(alloc, members),
        "vehicle" => vehicle(alloc, members),
        "counter" => count(alloc, members),
        "object" => object(alloc, members),
        "hmac" => hmac_of(alloc, members),
        _ => "no such call".to_string(alloc),
    }
}
