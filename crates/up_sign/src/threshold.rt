//! Thresholds: how many of a list of keys have signed.
ghost use Rattle.std.specs.Prelude.{◌≡◌, ◌∷◌, [], IsNone, map};
ghost use Rattle.std.specs.List.{list_any};
ghost use Rattle.up_canon.specs.Names.{first_repeated};
ghost use Rattle.up_sign.specs.Envelopes.{is_by as is_by_of, is_satisfied as is_satisfied_of, is_accepted};
ghost use Rattle.up_sign.specs.Hmac.{block_key, key_id as key_id_of};

use crate::envelope::{Envelope, Signature};
use crate::key_id::HashedKey;
use crate::scheme::Scheme;
use up_canon::bytes::Bytes;

/// Whether at least `threshold` of the keys have signed the envelope. A key counts once, however
/// many signatures of it there are. The identifiers of the keys are distinct.
pub fn accepts<K: Scheme>(
    scheme: &K,
    publics: &[Bytes],
    threshold: u32,
    envelope: &Envelope,
) -> bool
    requires distinct { IsNone (first_repeated (map key_id_of publics.now)) }
    ensures { result ≡ is_accepted (K.rules scheme.now) publics.now threshold envelope.now }
{
    let satisfied = publics
        .iter()
        .filter(|p| is_satisfied(scheme, p.as_slice(), envelope))
        .count();
    satisfied >= threshold as usize
}

/// Whether this one key has signed the envelope, as `accepts` answers of it with a threshold of 1. Who asks about several
/// envelopes makes the key's `HashedKey` once.
pub fn accepts_by<K: Scheme>(
    scheme: &K,
    key: &HashedKey,
    public: &[u8],
    envelope: &Envelope,
) -> bool
    requires { key.now ≡ block_key public.now }
    ensures { result ≡ is_accepted (K.rules scheme.now) (public.now ∷ []) 1 envelope.now }
{
    has_signed(scheme, key, public, envelope)
}

/// Whether a key has signed the envelope.
fn is_satisfied<K: Scheme>(scheme: &K, public: &[u8], envelope: &Envelope) -> bool
    ensures { result ≡ is_satisfied_of (K.rules scheme.now) envelope.now public.now }
{
    has_signed(scheme, &HashedKey::new(public), public, envelope)
}

/// Whether the key of the public part has signed the envelope; `key` is what is computed of it once.
fn has_signed<K: Scheme>(scheme: &K, key: &HashedKey, public: &[u8], envelope: &Envelope) -> bool
    requires { key.now ≡ block_key public.now }
    ensures { result ≡ is_satisfied_of (K.rules scheme.now) envelope.now public.now }
{
    let digits = key.digits();
    let signed = envelope.signed.as_str().as_bytes();
    envelope
        .signatures
        .as_slice()
        .iter()
        .any(|s| is_by(scheme, signed, key, public, &digits, s))
}

/// Whether the signature is the key's, whose identifier has these digits.
fn is_by<K: Scheme>(
    scheme: &K,
    signed: &[u8],
    key: &HashedKey,
    public: &[u8],
    digits: &[u8; 64],
    signature: &Signature,
) -> bool
    requires digits { digits.now ≡ key_id_of public.now }
    requires key { key.now ≡ block_key public.now }
    ensures { result ≡ is_by_of (K.rules scheme.now) signed.now public.now signature.now }
{
    signature.keyid.as_str().as_bytes() == &digits[..]
        && signature.method.as_str() == scheme.method()
        && scheme.verify_by(key.mac(), public, signed, signature.sig.as_slice())
}
