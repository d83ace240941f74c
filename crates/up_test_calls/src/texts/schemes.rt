//! Calls under a signature scheme.
ghost use Rattle.std.specs.Prelude.{◌≤◌, IsTrue, IsNone, length, map};
ghost use Rattle.std.specs.List.{list_all};
ghost use Rattle.up_canon.specs.Names.{first_repeated};
ghost use Rattle.up_sign.specs.Hmac.{key_id as key_id_of};

use crate::texts::manifests::built;
use crate::texts::role_files::{root, snapshot, targets, timestamp};
use crate::texts::secrets::bytes_of;
use crate::texts::values::hex_digits;
use serde_json::Value;
use std::alloc::{AllocError, Global};
use up_canon::bytes::Bytes;
use up_canon::refusal::Refusal;
use up_sign::envelope::Envelope;
use up_sign::envelope_read::read_envelope;
use up_sign::key_id::{HashedKey, key_id_text};
use up_sign::scheme::Scheme;
use up_sign::seal::seal;
use up_sign::threshold::{accepts, accepts_by};

/// What a call under the scheme answers. What is given begins with words of bytes.
pub(crate) fn under<K: Scheme>(
    alloc: Global,
    scheme: &K,
    call: &str,
    given: &str,
) -> Result<String, AllocError> {
    let (word, rest) = given.split_once(' ').unwrap_or((given, ""));
    match call {
        "key" => key(alloc, scheme, word),
        "signature" => signature(alloc, scheme, word, rest),
        "verified" => verified(alloc, scheme, word, rest),
        "accepted" => accepted(alloc, scheme, word, rest),
        _ => by_secrets(alloc, scheme, call, word, rest),
    }
}

/// Whether bytes are a secret or a public part, and the public part of them as a secret, as it is and as it is shown.
fn key<K: Scheme>(alloc: Global, scheme: &K, word: &str) -> Result<String, AllocError> {
    match bytes_of(alloc, word)? {
        Some(key) => key_fields(alloc, scheme, key.as_slice()),
        None => "no hex".to_string(alloc),
    }
}

fn key_fields<K: Scheme>(alloc: Global, scheme: &K, key: &[u8]) -> Result<String, AllocError> {
    let public = public_digits(alloc, scheme, key)?;
    let shown = scheme.shown(alloc, key)?;
    let (secret_fits, public_fits) = (scheme.secret_fits(key), scheme.public_fits(key));
    format!(in alloc;
        "{}: secret {secret_fits}, public {public_fits}, its public part {public}, shown as [{shown}]",
        scheme.method()
    )
}

fn public_digits<K: Scheme>(alloc: Global, scheme: &K, key: &[u8]) -> Result<String, AllocError> {
    let public = scheme.public(alloc, key)?;
    hex_digits(alloc, public.as_slice())
}

/// The signature of a message by a secret.
fn signature<K: Scheme>(
    alloc: Global,
    scheme: &K,
    word: &str,
    message: &str,
) -> Result<String, AllocError> {
    match bytes_of(alloc, word)? {
        Some(secret) => tag(alloc, scheme, secret.as_slice(), message),
        None => "no hex".to_string(alloc),
    }
}

fn tag<K: Scheme>(
    alloc: Global,
    scheme: &K,
    secret: &[u8],
    message: &str,
) -> Result<String, AllocError> {
    let tag = scheme.sign(alloc, secret, message.as_bytes())?;
    hex_digits(alloc, tag.as_slice())
}

/// Whether a signature of a message is one under a public part.
fn verified<K: Scheme>(
    alloc: Global,
    scheme: &K,
    word: &str,
    rest: &str,
) -> Result<String, AllocError> {
    let (signature, message) = rest.split_once(' ').unwrap_or((rest, ""));
    match (bytes_of(alloc, word)?, bytes_of(alloc, signature)?) {
        (Some(public), Some(signature)) => {
            let verified = scheme.verify(
                public.as_slice(),
                message.as_bytes(),
                signature.as_slice(),
            );
            format!(in alloc; "{verified}")
        }
        _ => "no hex".to_string(alloc),
    }
}

/// Whether an envelope is accepted under two public parts with a threshold.
fn accepted<K: Scheme>(
    alloc: Global,
    scheme: &K,
    words: &str,
    rest: &str,
) -> Result<String, AllocError> {
    let (first, second) = words.split_once(',').unwrap_or((words, ""));
    match (bytes_of(alloc, first)?, bytes_of(alloc, second)?) {
        (Some(first), Some(second)) => accepted_under(alloc, scheme, first, second, rest),
        _ => "no hex".to_string(alloc),
    }
}

fn accepted_under<K: Scheme>(
    alloc: Global,
    scheme: &K,
    first: Bytes,
    second: Bytes,
    rest: &str,
) -> Result<String, AllocError> {
    if key_id_text(alloc, second.as_slice())?.as_str()
        == key_id_text(alloc, first.as_slice())?.as_str()
    {
        return "one key".to_string(alloc);
    }
    accepted_by(alloc, scheme, &[first, second][..], rest)
}

fn accepted_by<K: Scheme>(
    alloc: Global,
    scheme: &K,
    publics: &[Bytes],
    rest: &str,
) -> Result<String, AllocError>
    requires { IsNone (first_repeated (map key_id_of publics.now)) }
{
    let (threshold, json) = rest.split_once(' ').unwrap_or((rest, ""));
    match (threshold.parse::<u32>(), envelope_from(alloc, json)) {
        (Ok(threshold), Ok(envelope)) => {
            accepted_both_ways(alloc, scheme, publics, threshold, &envelope)
        }
        _ => "no number or envelope".to_string(alloc),
    }
}

/// What is answered of all the keys, where asking of each by itself tells the same.
fn accepted_both_ways<K: Scheme>(
    alloc: Global,
    scheme: &K,
    publics: &[Bytes],
    threshold: u32,
    envelope: &Envelope,
) -> Result<String, AllocError>
    requires { IsNone (first_repeated (map key_id_of publics.now)) }
{
    let accepted = accepts(scheme, publics, threshold, envelope);
    let signers = publics
        .iter()
        .filter(|p| has_signed(scheme, p.as_slice(), envelope))
        .count();
    if accepted != (signers >= threshold as usize) {
        return format!(in alloc; "{accepted}, and {signers} keys by themselves");
    }
    format!(in alloc; "{accepted}")
}

fn has_signed<K: Scheme>(scheme: &K, public: &[u8], envelope: &Envelope) -> bool {
    accepts_by(scheme, &HashedKey::new(public), public, envelope)
}

fn envelope_from(alloc: Global, json: &str) -> Result<Envelope, Refusal> {
    match Value::from_str(alloc, json) {
        Ok(value) => read_envelope(alloc, &value),
        Err(_) => Err(Refusal::NotJson),
    }
}

/// What a call by one secret answers, or by two with a comma between.
fn by_secrets<K: Scheme>(
    alloc: Global,
    scheme: &K,
    call: &str,
    words: &str,
    given: &str,
) -> Result<String, AllocError> {
    match words.split_once(',') {
        Some((first, second)) => by_two(alloc, scheme, call, (first, second), given),
        None => by_one(alloc, scheme, call, words, given),
    }
}

fn by_one<K: Scheme>(
    alloc: Global,
    scheme: &K,
    call: &str,
    word: &str,
    given: &str,
) -> Result<String, AllocError> {
    match bytes_of(alloc, word)? {
        Some(secret) if scheme.secret_fits(secret.as_slice()) => {
            by_fitting(alloc, scheme, call, &[secret][..], given)
        }
        _ => "no secret".to_string(alloc),
    }
}

fn by_two<K: Scheme>(
    alloc: Global,
    scheme: &K,
    call: &str,
    words: (&str, &str),
    given: &str,
) -> Result<String, AllocError> {
    match (bytes_of(alloc, words.0)?, bytes_of(alloc, words.1)?) {
        (Some(first), Some(second)) => by_both(alloc, scheme, call, first, second, given),
        _ => "no hex".to_string(alloc),
    }
}

fn by_both<K: Scheme>(
    alloc: Global,
    scheme: &K,
    call: &str,
    first: Bytes,
    second: Bytes,
    given: &str,
) -> Result<String, AllocError> {
    if scheme.secret_fits(first.as_slice()) && scheme.secret_fits(second.as_slice()) {
        by_fitting(alloc, scheme, call, &[first, second][..], given)
    } else {
        "no secrets".to_string(alloc)
    }
}

fn by_fitting<K: Scheme>(
    alloc: Global,
    scheme: &K,
    call: &str,
    secrets: &[Bytes],
    given: &str,
) -> Result<String, AllocError>
    requires fit { IsTrue (list_all (K.rules scheme.now).secret_fits secrets.now) }
    requires number { (1 ≤ length secrets.now) × (length secrets.now ≤ 8) }
{
    match call {
        "seal" => sealed(alloc, scheme, secrets, given),
        "root" => root(alloc, scheme, secrets, given),
        "targets" => targets(alloc, scheme, secrets, given),
        "snapshot" => snapshot(alloc, scheme, secrets, given),
        "timestamp" => timestamp(alloc, scheme, secrets, given),
        "built manifest" => built_by(alloc, scheme, secrets, given),
        _ => "no such call".to_string(alloc),
    }
}

/// The text of an envelope that the secrets seal.
fn sealed<K: Scheme>(
    alloc: Global,
    scheme: &K,
    secrets: &[Bytes],
    signed: &str,
) -> Result<String, AllocError>
    requires fit { IsTrue (list_all (K.rules scheme.now).secret_fits secrets.now) }
    requires number { (1 ≤ length secrets.now) × (length secrets.now ≤ 8) }
{
    let envelope = seal(alloc, scheme, secrets, signed.to_string(alloc)?)?;
    envelope.text(alloc)
}

fn built_by<K: Scheme>(
    alloc: Global,
    scheme: &K,
    secrets: &[Bytes],
    body: &str,
) -> Result<String, AllocError>
    requires { IsTrue (list_all (K.rules scheme.now).secret_fits secrets.now) }
{
    match secrets {
        [secret] => built(alloc, scheme, secret.as_slice(), body),
        _ => "not one secret".to_string(alloc),
    }
}
