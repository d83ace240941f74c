//! Which keys a Root gives a role, and whether enough of them signed.
ghost use Rattle.std.specs.Prelude.{◌≡◌, ◌&&◌, IfOk, bytes_eq, count_by, nat_le};
ghost use Rattle.std.specs.List.{list_all, list_any};
ghost use Rattle.up_sign.specs.Envelopes.{is_satisfied};
ghost use Rattle.up_verify.specs.Verifiers.{verifier, is_of as is_of_key, is_known as is_known_to, are_known as are_known_to, has_signed as has_signed_by, is_signed_for as is_signed_for_role};

use crate::known_key::KnownKey;
use std::alloc::{AllocError, Global};
use up_roles::root::{RoleKeys, RootFile, RootKey};
use up_shown::shows::Shows;
use up_sign::envelope::Envelope;
use up_sign::scheme::Scheme;
use up_sign::threshold::accepts_by;

/// Whether each key of the Root is of the scheme, with a public part that can be read or is held.
pub(crate) fn are_known<K: Shows>(
    alloc: Global,
    scheme: &K,
    held: &[KnownKey],
    root: &RootFile,
) -> Result<bool, AllocError>
    ensures { IfOk result (λ known. known ≡ are_known_to (verifier (K.rules scheme.now) (K.reading scheme.now) held.now) root.now) }
{
    if !all_known(alloc, scheme, held, root.root.keys.as_slice())? {
        return Ok(false);
    }
    if !all_known(alloc, scheme, held, root.targets.keys.as_slice())? {
        return Ok(false);
    }
    if !all_known(alloc, scheme, held, root.snapshot.keys.as_slice())? {
        return Ok(false);
    }
    all_known(alloc, scheme, held, root.timestamp.keys.as_slice())
}

fn all_known<K: Shows>(
    alloc: Global,
    scheme: &K,
    held: &[KnownKey],
    keys: &[RootKey],
) -> Result<bool, AllocError>
    ensures { IfOk result (λ known. known ≡ list_all (is_known_to (verifier (K.rules scheme.now) (K.reading scheme.now) held.now)) keys.now) }
{
    for key in keys {
        if !is_known(alloc, scheme, held, key)? {
            return Ok(false);
        }
    }
    Ok(true)
}

/// Whether the key is one of the scheme, with a public part that is shown so.
fn is_known<K: Shows>(
    alloc: Global,
    scheme: &K,
    held: &[KnownKey],
    key: &RootKey,
) -> Result<bool, AllocError>
    ensures { IfOk result (λ known. known ≡ is_known_to (verifier (K.rules scheme.now) (K.reading scheme.now) held.now) key.now) }
{
    if key.method.as_str() != scheme.method() {
        return Ok(false);
    }
    match scheme.read_shown(alloc, key.shown.as_str())? {
        Some(public) => {
            let read = KnownKey::new(alloc, public)?;
            let shown = is_shown(alloc, scheme, &read, key);
            drop(read);
            if shown? {
                return Ok(true);
            }
            any_shown(alloc, scheme, held, key)
        }
        None => any_shown(alloc, scheme, held, key),
    }
}

fn any_shown<K: Shows>(
    alloc: Global,
    scheme: &K,
    held: &[KnownKey],
    key: &RootKey,
) -> Result<bool, AllocError>
    ensures { IfOk result (λ any. any ≡ list_any (λ p. is_of_key key.now p && bytes_eq ((K.rules scheme.now).shown p) key.now.shown) held.now) }
{
    for own in held {
        if is_shown(alloc, scheme, own, key)? {
            return Ok(true);
        }
    }
    Ok(false)
}

/// Whether the public part has the key's identifier, and is shown so.
fn is_shown<K: Shows>(
    alloc: Global,
    scheme: &K,
    own: &KnownKey,
    key: &RootKey,
) -> Result<bool, AllocError>
    ensures { IfOk result (λ shown. shown ≡ (is_of_key key.now own.now && bytes_eq ((K.rules scheme.now).shown own.now) key.now.shown)) }
{
    if !own.has_id(key.keyid.as_str()) {
        return Ok(false);
    }
    Ok(scheme.shown(alloc, own.public())?.as_str() == key.shown.as_str())
}

/// Whether at least the threshold of the role's keys have signed the envelope.
pub(crate) fn is_signed_for<K: Shows>(
    alloc: Global,
    scheme: &K,
    held: &[KnownKey],
    role: &RoleKeys,
    envelope: &Envelope,
) -> Result<bool, AllocError>
    ensures { IfOk result (λ signed. signed ≡ is_signed_for_role (verifier (K.rules scheme.now) (K.reading scheme.now) held.now) role.now envelope.now) }
{
    have_signed(
        alloc,
        scheme,
        held,
        role.threshold,
        role.keys.as_slice(),
        envelope,
    )
}

/// Whether so many of the keys have signed it.
#[tactic(auto, using(crate::proofs::Checking::first_counts, crate::proofs::Checking::first_misses))]
fn have_signed<K: Shows>(
    alloc: Global,
    scheme: &K,
    held: &[KnownKey],
    number: u32,
    keys: &[RootKey],
    envelope: &Envelope,
) -> Result<bool, AllocError>
    ensures { IfOk result (λ signed. signed ≡ nat_le number (count_by (has_signed_by (verifier (K.rules scheme.now) (K.reading scheme.now) held.now) envelope.now) keys.now)) }
{
    if number == 0 {
        return Ok(true);
    }
    match keys {
        [] => Ok(false),
        [key, more @ ..] => {
            if has_signed(alloc, scheme, held, key, envelope)? {
                have_signed(alloc, scheme, held, number - 1, more, envelope)
            } else {
                have_signed(alloc, scheme, held, number, more, envelope)
            }
        }
    }
}

/// Whether the key has signed the envelope, however many signatures of it there are.
fn has_signed<K: Shows>(
    alloc: Global,
    scheme: &K,
    held: &[KnownKey],
    key: &RootKey,
    envelope: &Envelope,
) -> Result<bool, AllocError>
    ensures { IfOk result (λ signed. signed ≡ has_signed_by (verifier (K.rules scheme.now) (K.reading scheme.now) held.now) envelope.now key.now) }
{
    match scheme.read_shown(alloc, key.shown.as_str())? {
        Some(public) => {
            let read = KnownKey::new(alloc, public)?;
            let signed = signs(scheme, &read, key, envelope);
            // Dropped by name: at the end of a scope it would be proved part by part.
            drop(read);
            Ok(signed || any_signs(scheme, held, key, envelope))
        }
        None => Ok(any_signs(scheme, held, key, envelope)),
    }
}

/// Whether one of those that are held has.
fn any_signs<K: Shows>(scheme: &K, held: &[KnownKey], key: &RootKey, envelope: &Envelope) -> bool
    ensures { result ≡ list_any (λ p. is_of_key key.now p && is_satisfied (K.rules scheme.now) envelope.now p) held.now }
{
    for own in held {
        if signs(scheme, own, key, envelope) {
            return true;
        }
    }
    false
}

/// Whether the public part has the key's identifier, and has signed the envelope.
#[tactic(auto, using(crate::proofs::Checking::one_accepts))]
fn signs<K: Shows>(scheme: &K, own: &KnownKey, key: &RootKey, envelope: &Envelope) -> bool
    ensures { result ≡ (is_of_key key.now own.now && is_satisfied (K.rules scheme.now) envelope.now own.now) }
{
    own.has_id(key.keyid.as_str()) && accepts_by(scheme, own.hashed(), own.public(), envelope)
}
