//! Manifests, read, copied and built again.
ghost use Rattle.std.specs.Prelude.{IsNone, IsTrue, map};
ghost use Rattle.up_canon.specs.Names.{first_repeated};
ghost use Rattle.up_sign.specs.Hmac.{key_id as key_id_of};

use crate::texts::values::{hashes_digits, hex_digits};
use serde_json::Value;
use std::alloc::{AllocError, Global};
use up_canon::bytes::Bytes;
use up_canon::hex_text::hex_of;
use up_canon::listed::Duplicate;
use up_manifest::building::{build_manifest, build_report};
use up_manifest::manifest::{Incoming, Manifest};
use up_manifest::manifest_read::{read_manifest, report_sha512};
use up_manifest::report::Report;
use up_sign::scheme::Scheme;
use up_sign::threshold::accepts;

/// The fields of the manifest that a body means.
pub(crate) fn manifest(alloc: Global, body: &str) -> Result<String, AllocError> {
    manifest_in(alloc, body.as_bytes())
}

/// The same of bytes, which are given in hex.
pub(crate) fn manifest_of_bytes(alloc: Global, value: &Value) -> Result<String, AllocError> {
    match hex_of(alloc, value, "bytes", 0, 100) {
        Ok(bytes) => manifest_in(alloc, bytes.as_slice()),
        Err(refusal) => refusal.text(alloc),
    }
}

fn manifest_in(alloc: Global, body: &[u8]) -> Result<String, AllocError> {
    match read_manifest(alloc, body) {
        Ok(incoming) => copied_fields(alloc, &incoming),
        Err(refusal) => refusal.text(alloc),
    }
}

fn copied_fields(alloc: Global, incoming: &Incoming) -> Result<String, AllocError> {
    match incoming.copy(alloc) {
        Ok(copied) => fields(alloc, &copied.manifest),
        Err(refused) => Err(refused),
    }
}

/// Vehicle, Primary, counter, and the fields of each report.
fn fields(alloc: Global, manifest: &Manifest) -> Result<String, AllocError> {
    let (vehicle, primary) = (manifest.vehicle.text(), manifest.primary.text());
    let mut out = format!(in alloc; "{vehicle} {primary} {}", manifest.counter.get())?;
    for signed in manifest.reports.as_slice() {
        push_report(alloc, &mut out, &signed.report)?;
    }
    Ok(out)
}

fn push_report(alloc: Global, out: &mut String, report: &Report) -> Result<(), AllocError> {
    let image = &report.image;
    let hashes = hashes_digits(alloc, &image.sha256, &image.sha512)?;
    let (ecu, counter, time) = (report.ecu.text(), report.counter.get(), report.time.get());
    let (attack, file, length) = (report.attack.text(), image.file.text(), image.length.get());
    let text = format!(in alloc; "; {ecu} {counter} {time} [{attack}] {file} {length} {hashes}")?;
    out.push_str(text.as_str())
}

/// What each prefix of a body that isn't the whole is read as, or the first that isn't refused as no JSON.
pub(crate) fn prefixes(alloc: Global, body: &str) -> Result<String, AllocError> {
    for n in 0..body.len() {
        let read = manifest_in(alloc, &body.as_bytes()[..n])?;
        if read.as_str() != "NotJson" {
            return format!(in alloc; "{n} bytes: {read}");
        }
    }
    "each NotJson".to_string(alloc)
}

/// The text that is signed in a body.
pub(crate) fn signed_text(alloc: Global, body: &str) -> Result<String, AllocError> {
    match read_manifest(alloc, body.as_bytes()) {
        Ok(incoming) => incoming.envelope.signed.as_str().to_string(alloc),
        Err(refusal) => refusal.text(alloc),
    }
}

/// The second hash of the image in a report's signed text.
pub(crate) fn second_hash(alloc: Global, text: &str) -> Result<String, AllocError> {
    match report_sha512(alloc, text)? {
        Some(hash) => hex_digits(alloc, &hash[..]),
        None => "none".to_string(alloc),
    }
}

/// Whether the manifest that the body means, with its one report, is built as the body again by the secret, and how many of
/// its envelopes that key accepts.
pub(crate) fn built<K: Scheme>(
    alloc: Global,
    scheme: &K,
    secret: &[u8],
    body: &str,
) -> Result<String, AllocError>
    requires { IsTrue ((K.rules scheme.now).secret_fits secret.now) }
{
    match read_manifest(alloc, body.as_bytes()) {
        Ok(incoming) => built_again(alloc, scheme, secret, body, &incoming),
        Err(refusal) => refusal.text(alloc),
    }
}

fn built_again<K: Scheme>(
    alloc: Global,
    scheme: &K,
    secret: &[u8],
    body: &str,
    incoming: &Incoming,
) -> Result<String, AllocError>
    requires { IsTrue ((K.rules scheme.now).secret_fits secret.now) }
{
    let accepted = both_accepted(alloc, scheme, secret, incoming)?;
    let text = rebuilt(alloc, scheme, secret, &incoming.manifest)?;
    if text.as_str() == body {
        format!(in alloc; "the same, {accepted} accepted")
    } else {
        Ok(text)
    }
}

/// How many envelopes the key of the secret accepts, of what was read and of its copy.
fn both_accepted<K: Scheme>(
    alloc: Global,
    scheme: &K,
    secret: &[u8],
    incoming: &Incoming,
) -> Result<String, AllocError> {
    let public = Bytes::new(scheme.public(alloc, secret)?);
    let copied = incoming.copy(alloc)?;
    let publics = [public];
    let own = number_accepted(scheme, &publics[..], incoming);
    let of_copy = number_accepted(scheme, &publics[..], &copied);
    format!(in alloc; "{own} and {of_copy}")
}

fn number_accepted<K: Scheme>(scheme: &K, publics: &[Bytes], incoming: &Incoming) -> usize
    requires { IsNone (first_repeated (map key_id_of publics.now)) }
{
    let mut number: usize = 0;
    if accepts(scheme, publics, 1, &incoming.envelope) {
        number = 1;
    }
    for signed in incoming.manifest.reports.as_slice() {
        if accepts(scheme, publics, 1, &signed.envelope) {
            number = number.saturating_add(1);
        }
    }
    number
}

fn rebuilt<K: Scheme>(
    alloc: Global,
    scheme: &K,
    secret: &[u8],
    manifest: &Manifest,
) -> Result<String, AllocError>
    requires { IsTrue ((K.rules scheme.now).secret_fits secret.now) }
{
    match manifest.reports.as_slice() {
        [signed] => rebuilt_of(alloc, scheme, secret, manifest, &signed.report),
        _ => "not one report".to_string(alloc),
    }
}

fn rebuilt_of<K: Scheme>(
    alloc: Global,
    scheme: &K,
    secret: &[u8],
    manifest: &Manifest,
    report: &Report,
) -> Result<String, AllocError>
    requires { IsTrue ((K.rules scheme.now).secret_fits secret.now) }
{
    let counter = manifest.counter.get();
    if counter == 0 {
        return "no counter".to_string(alloc);
    }
    let sealed = build_report(alloc, scheme, secret, report)?;
    let (vehicle, primary) = (&manifest.vehicle, &manifest.primary);
    build_manifest(alloc, scheme, secret, vehicle, primary, counter, &[sealed])
}
