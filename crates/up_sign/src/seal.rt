//! Sealing: signing a text with each of a list of secrets.
ghost use Rattle.std.specs.Prelude.{◌≡◌, ◌≤◌, ◌∷◌, [], IsTrue, IfOk, length, map, string_bytes};
ghost use Rattle.std.specs.List.{list_all};
ghost use Rattle.up_sign.specs.Envelopes.{key_block, signature_of as signature_of_secret, sealed_envelope};
ghost use Rattle.up_sign.specs.Formats.{envelope_fits};

use crate::envelope::{Envelope, Signature};
use crate::key_id::HashedKey;
use crate::scheme::Scheme;
use std::alloc::{AllocError, Global};
use up_canon::bytes::Bytes;
use up_canon::listed::Listed;
use up_canon::text::Text;

/// The text in an envelope with a signature for each of 1 to 8 secrets that fit, in their order.
pub fn seal<K: Scheme>(
    alloc: Global,
    scheme: &K,
    secrets: &[Bytes],
    signed: String,
) -> Result<Envelope, AllocError>
    requires fit { IsTrue (list_all (K.rules scheme.now).secret_fits secrets.now) }
    requires number { (1 ≤ length secrets.now) × (length secrets.now ≤ 8) }
    ensures value { IfOk result (λ e. e ≡ sealed_envelope (K.rules scheme.now) secrets.now (string_bytes signed)) }
    ensures limits { IfOk result (λ e. IsTrue (envelope_fits e)) }
{
    let keys = hashed_keys(alloc, scheme, secrets)?;
    seal_by(alloc, scheme, secrets, keys.as_slice(), signed)
}

/// As `seal`, with the secrets' keys hashed already (`hashed_keys`), for a caller that signs several texts with them or shows
/// their identifiers.
pub fn seal_by<K: Scheme>(
    alloc: Global,
    scheme: &K,
    secrets: &[Bytes],
    keys: &[HashedKey],
    signed: String,
) -> Result<Envelope, AllocError>
    requires fit { IsTrue (list_all (K.rules scheme.now).secret_fits secrets.now) }
    requires number { (1 ≤ length secrets.now) × (length secrets.now ≤ 8) }
    requires hashed { keys.now ≡ map (key_block (K.rules scheme.now)) secrets.now }
    ensures value { IfOk result (λ e. e ≡ sealed_envelope (K.rules scheme.now) secrets.now (string_bytes signed)) }
    ensures limits { IfOk result (λ e. IsTrue (envelope_fits e)) }
{
    let mut signatures = Vec::with_capacity(alloc, secrets.len())?;
    for (i, secret) in secrets.iter().enumerate() {
        signatures.push(signature_of(
            alloc,
            scheme,
            signed.as_str().as_bytes(),
            secret.as_slice(),
            &keys[i],
        )?)?;
    }
    Ok(Envelope {
        signatures: Listed::new(signatures),
        signed: Text::new(signed),
    })
}

/// As `seal_by` with this one secret, without lists of secrets and keys.
pub fn seal_one<K: Scheme>(
    alloc: Global,
    scheme: &K,
    secret: &[u8],
    key: &HashedKey,
    signed: String,
) -> Result<Envelope, AllocError>
    requires fits { IsTrue ((K.rules scheme.now).secret_fits secret.now) }
    requires hashed { key.now ≡ key_block (K.rules scheme.now) secret.now }
    ensures value { IfOk result (λ e. e ≡ sealed_envelope (K.rules scheme.now) (secret.now ∷ []) (string_bytes signed)) }
    ensures limits { IfOk result (λ e. IsTrue (envelope_fits e)) }
{
    let signature = signature_of(alloc, scheme, signed.as_str().as_bytes(), secret, key)?;
    let mut signatures = Vec::with_capacity(alloc, 1)?;
    signatures.push(signature)?;
    Ok(Envelope {
        signatures: Listed::new(signatures),
        signed: Text::new(signed),
    })
}

/// The keys of these secrets, hashed, in their order.
pub fn hashed_keys<K: Scheme>(
    alloc: Global,
    scheme: &K,
    secrets: &[Bytes],
) -> Result<Listed<HashedKey>, AllocError>
    ensures { IfOk result (λ keys. keys ≡ map (key_block (K.rules scheme.now)) secrets.now) }
{
    let mut keys = Vec::with_capacity(alloc, secrets.len())?;
    for secret in secrets {
        keys.push(hashed_key_of(alloc, scheme, secret.as_slice())?)?;
    }
    Ok(Listed::new(keys))
}

/// The key of a secret, hashed.
pub fn hashed_key_of<K: Scheme>(
    alloc: Global,
    scheme: &K,
    secret: &[u8],
) -> Result<HashedKey, AllocError>
    ensures { IfOk result (λ key. key ≡ key_block (K.rules scheme.now) secret.now) }
{
    let public = scheme.public(alloc, secret)?;
    Ok(HashedKey::new(public.as_slice()))
}

/// The signature of the secret of the key.
fn signature_of<K: Scheme>(
    alloc: Global,
    scheme: &K,
    signed: &[u8],
    secret: &[u8],
    key: &HashedKey,
) -> Result<Signature, AllocError>
    requires fits { IsTrue ((K.rules scheme.now).secret_fits secret.now) }
    requires hashed { key.now ≡ key_block (K.rules scheme.now) secret.now }
    ensures { IfOk result (λ s. s ≡ signature_of_secret (K.rules scheme.now) signed.now secret.now) }
{
    Ok(Signature {
        keyid: key.id(alloc)?,
        method: Text::new(scheme.method().to_string(alloc)?),
        sig: Bytes::new(scheme.sign_by(alloc, key.mac(), secret, signed)?),
    })
}
