//! The keys that a Root shows, and what is signed for its roles.
ghost use Rattle.std.specs.Prelude.{◌≡◌, IfOk, filter_map, count_by, ◌≤◌, length, is_some};
ghost use Rattle.std.specs.List.{list_all};
ghost use Rattle.up_shown.specs.Showing.{showing};
ghost use Rattle.up_sign.specs.Envelopes.{is_satisfied};
ghost use Rattle.up_brought.specs.Shown.{if_named as if_named_in, public_of as public_in, has_signed as has_signed_in, shows_keys as shows_keys_in, accepts as accepts_in};

use std::alloc::{AllocError, Global};
use up_canon::bytes::Bytes;
use up_roles::root::{RoleKeys, RootFile, RootKey};
use up_shown::shows::Shows;
use up_sign::envelope::Envelope;
use up_sign::key_id::{HashedKey, key_id_text};
use up_sign::threshold::accepts_by;

/// Whether enough of the keys that a Root lists for a role signed the envelope. A key that shows no public part counts for
/// none.
pub fn accepts<K: Shows>(
    alloc: Global,
    scheme: &K,
    role: &RoleKeys,
    envelope: &Envelope,
) -> Result<bool, AllocError>
    ensures { IfOk result
        (λ enough. enough ≡ accepts_in (showing (K.rules scheme.now) (K.reading scheme.now)) role.now envelope.now) }
{
    let signed = signers(alloc, scheme, role.keys.as_slice(), envelope)?;
    Ok(signed >= role.threshold as usize)
}

/// How many of the keys signed.
fn signers<K: Shows>(
    alloc: Global,
    scheme: &K,
    keys: &[RootKey],
    envelope: &Envelope,
) -> Result<usize, AllocError>
    ensures value { IfOk result (λ n. n
        ≡ count_by (is_satisfied (K.rules scheme.now) envelope.now)
        (filter_map (public_in (showing (K.rules scheme.now) (K.reading scheme.now))) keys.now)) }
    ensures few { IfOk result (λ n. n ≤ length keys.now) }
{
    match keys {
        [] => Ok(0),
        [key, more @ ..] => {
            let others = signers(alloc, scheme, more, envelope)?;
            if has_signed(alloc, scheme, key, envelope)? {
                Ok(others + 1)
            } else {
                Ok(others)
            }
        }
    }
}

/// Whether the key shows a public part that signed.
fn has_signed<K: Shows>(
    alloc: Global,
    scheme: &K,
    key: &RootKey,
    envelope: &Envelope,
) -> Result<bool, AllocError>
    ensures { IfOk result
        (λ it. it ≡ has_signed_in (showing (K.rules scheme.now) (K.reading scheme.now)) envelope.now key.now) }
{
    match public_of(alloc, scheme, key)? {
        Some(public) => Ok(signs(scheme, public.as_slice(), envelope)),
        None => Ok(false),
    }
}

/// Whether the public part signed.
fn signs<K: Shows>(scheme: &K, public: &[u8], envelope: &Envelope) -> bool
    ensures { result ≡ is_satisfied (K.rules scheme.now) envelope.now public.now }
{
    accepts_by(scheme, &HashedKey::new(public), public, envelope)
}

/// Whether each key of a Root shows a public part. A vehicle refuses a Root of which one doesn't, and each later one with it.
#[tactic(auto, using(crate::proofs::Roles::each_role))]
pub fn shows_keys<K: Shows>(alloc: Global, scheme: &K, file: &RootFile) -> Result<bool, AllocError>
    ensures { IfOk result (λ all. all ≡ shows_keys_in (showing (K.rules scheme.now) (K.reading scheme.now)) file.now) }
{
    if !all_shown(alloc, scheme, file.root.keys.as_slice())? {
        return Ok(false);
    }
    if !all_shown(alloc, scheme, file.targets.keys.as_slice())? {
        return Ok(false);
    }
    if !all_shown(alloc, scheme, file.snapshot.keys.as_slice())? {
        return Ok(false);
    }
    Ok(all_shown(alloc, scheme, file.timestamp.keys.as_slice())?)
}

fn all_shown<K: Shows>(alloc: Global, scheme: &K, keys: &[RootKey]) -> Result<bool, AllocError>
    ensures { IfOk result (λ all. all
        ≡ list_all (λ key. is_some (public_in (showing (K.rules scheme.now) (K.reading scheme.now)) key)) keys.now) }
{
    match keys {
        [] => Ok(true),
        [key, more @ ..] => {
            Ok(public_of(alloc, scheme, key)?.is_some() && all_shown(alloc, scheme, more)?)
        }
    }
}

/// The public part of a key that a Root lists, where the key is of this scheme, stands under its identifier and shows one.
pub fn public_of<K: Shows>(
    alloc: Global,
    scheme: &K,
    key: &RootKey,
) -> Result<Option<Bytes>, AllocError>
    ensures { IfOk result (λ p. p ≡ public_in (showing (K.rules scheme.now) (K.reading scheme.now)) key.now) }
{
    match scheme.read_shown(alloc, key.shown.as_str())? {
        Some(public) => if_named(alloc, scheme, key, public),
        None => Ok(None),
    }
}

fn if_named<K: Shows>(
    alloc: Global,
    scheme: &K,
    key: &RootKey,
    public: Bytes,
) -> Result<Option<Bytes>, AllocError>
    ensures { IfOk result
        (λ p. p ≡ if_named_in (showing (K.rules scheme.now) (K.reading scheme.now)) key.now public) }
{
    let id = key_id_text(alloc, public.as_slice())?;
    if key.keyid.as_str() == id.as_str() && key.method.as_str() == scheme.method() {
        Ok(Some(public))
    } else {
        Ok(None)
    }
}
