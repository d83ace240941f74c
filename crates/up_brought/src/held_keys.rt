//! The keys that are held of a Root that was signed elsewhere.
ghost use Rattle.std.specs.Prelude.{◌≡◌, IfOk, List, ℕ, codes, map, unwrap_or};
ghost use Rattle.std.specs.Cmp.Lexicographic.{pointwise};
ghost use Rattle.std.specs.List.{list_all};
ghost use Rattle.up_shown.specs.Showing.{showing};
ghost use Rattle.up_metadata.specs.Files.{root_key};
ghost use Rattle.up_metadata.specs.Keys.{secret_fits as secret_fits_in};
ghost use Rattle.up_brought.specs.Faults.{Gives};
ghost use Rattle.up_brought.specs.Brought.{offline as offline_in};
ghost use Rattle.up_brought.specs.Brought.{same_key, are_secrets_of as are_secrets_of_in, none_may_be_held as none_may_be_held_in, held as held_in, held_keys as held_keys_in, next_keys as next_keys_in};

use crate::brought::BroughtRoot;
use crate::fault::Fault;
use crate::next_root::{Roots, check_root};
use std::alloc::{AllocError, Global};
use up_canon::bytes::Bytes;
use up_canon::listed::{Duplicate, Listed};
use up_canon::moment::Moment;
use up_canon::refusal::Field;
use up_metadata::keys::{RepoKeys, RoleSecrets};
use up_roles::repository::Repository;
use up_roles::root::{RoleKeys, RootFile, RootKey};
use up_shown::shows::Shows;
use up_sign::key_id::key_id_text;
use up_sign::scheme::Scheme;

/// The keys that are held behind a Root that is brought, if it may follow: no root keys, which are kept offline from then on;
/// of each other role the secrets that were given, or else those that are held. What `check_root` refuses; `OtherKeys` with a
/// role whose secrets aren't those of the keys that the Root lists, in order. Of the Image repository's Targets none may be
/// held: then they are kept offline.
#[tactic(auto, unfolding(crate::specs::Brought::next_keys, up_canon::specs::Steps::and_then))]
pub fn next_keys<K: Shows>(
    alloc: Global,
    scheme: &K,
    repository: Repository,
    roots: &Roots,
    at: Moment,
    present: &RepoKeys,
    brought: &BroughtRoot,
) -> Result<RepoKeys, Fault>
    ensures { Gives result
        (next_keys_in (showing (K.rules scheme.now) (K.reading scheme.now)) repository roots.now.number roots.now.last at present.now brought.now) }
{
    let file = check_root(
        alloc,
        scheme,
        repository,
        roots,
        at,
        brought.text.as_str().as_bytes(),
    )?;
    let held = held_keys(alloc, scheme, repository, &file, present, brought);
    drop(file);
    held
}

#[tactic(auto, unfolding(crate::specs::Brought::held_keys, up_canon::specs::Steps::and_then))]
fn held_keys<K: Shows>(
    alloc: Global,
    scheme: &K,
    repository: Repository,
    file: &RootFile,
    present: &RepoKeys,
    brought: &BroughtRoot,
) -> Result<RepoKeys, Fault>
    ensures { Gives result
        (held_keys_in (showing (K.rules scheme.now) (K.reading scheme.now)) repository file.now present.now brought.now) }
{
    let targets = held(
        alloc,
        scheme,
        none_may_be_held(repository),
        "targets",
        &file.targets,
        &present.targets,
        &brought.targets,
    )?;
    let snapshot = held(
        alloc,
        scheme,
        false,
        "snapshot",
        &file.snapshot,
        &present.snapshot,
        &brought.snapshot,
    )?;
    let timestamp = held(
        alloc,
        scheme,
        false,
        "timestamp",
        &file.timestamp,
        &present.timestamp,
        &brought.timestamp,
    )?;
    Ok(RepoKeys {
        root: offline(alloc),
        targets,
        snapshot,
        timestamp,
    })
}

/// Whether the keys of the repository's Targets may be kept offline: the Director's sign each reply.
fn none_may_be_held(repository: Repository) -> bool
    ensures { result ≡ none_may_be_held_in repository }
{
    matches!(repository, Repository::Image)
}

/// What is held of a role whose keys are kept offline: nothing.
fn offline(alloc: Global) -> RoleSecrets
    ensures { result ≡ offline_in }
{
    RoleSecrets {
        keys: Listed::new(Vec::new(alloc)),
        threshold: 0,
    }
}

/// What is held of a role: the secrets that were given, or else those that are held.
#[tactic(auto, unfolding(crate::specs::Brought::held, up_canon::specs::Steps::and_then))]
fn held<K: Shows>(
    alloc: Global,
    scheme: &K,
    may_be_none: bool,
    name: &'static str,
    listed: &RoleKeys,
    present: &RoleSecrets,
    given: &Option<Listed<Bytes>>,
) -> Result<RoleSecrets, Fault>
    ensures { Gives result
        (held_in (showing (K.rules scheme.now) (K.reading scheme.now)) may_be_none name.now listed.now present.now given.now) }
{
    let secrets = given_or_present(given, &present.keys);
    if may_be_none && secrets.is_empty() {
        return Ok(offline(alloc));
    }
    if !are_secrets_of(alloc, scheme, listed, secrets)? {
        return Err(Fault::OtherKeys(Field::new(name)));
    }
    Ok(RoleSecrets {
        keys: copied(alloc, secrets)?,
        threshold: listed.threshold,
    })
}

fn given_or_present<'a>(given: &'a Option<Listed<Bytes>>, present: &'a Listed<Bytes>) -> &'a [Bytes]
    ensures { result.now ≡ unwrap_or given.now present.now }
{
    match given {
        Some(keys) => keys.as_slice(),
        None => present.as_slice(),
    }
}

fn copied(alloc: Global, secrets: &[Bytes]) -> Result<Listed<Bytes>, AllocError>
    ensures { IfOk result (λ keys. keys ≡ secrets.now) }
{
    let mut keys = Vec::with_capacity(alloc, secrets.len())?;
    for secret in secrets {
        keys.push(secret.copy(alloc)?)?;
    }
    Ok(Listed::new(keys))
}

/// Whether these are the secrets of the keys that are listed, in order.
fn are_secrets_of<K: Shows>(
    alloc: Global,
    scheme: &K,
    listed: &RoleKeys,
    secrets: &[Bytes],
) -> Result<bool, AllocError>
    ensures { IfOk result
        (λ it. it ≡ are_secrets_of_in (showing (K.rules scheme.now) (K.reading scheme.now)) listed.now secrets.now) }
{
    Ok(secrets_fit(scheme, secrets) && are_of(alloc, scheme, secrets, listed.keys.as_slice())?)
}

fn secrets_fit<K: Scheme>(scheme: &K, secrets: &[Bytes]) -> bool
    ensures { result ≡ list_all (secret_fits_in (K.rules scheme.now)) secrets.now }
{
    secrets
        .iter()
        .all(|secret| secret_fits(scheme, secret.as_slice()))
}

fn are_of<K: Scheme>(
    alloc: Global,
    scheme: &K,
    secrets: &[Bytes],
    keys: &[RootKey],
) -> Result<bool, AllocError>
    ensures { IfOk result
        (λ it. it ≡ pointwise same_key (map (root_key (K.rules scheme.now)) secrets.now) keys.now) }
{
    match (secrets, keys) {
        ([], []) => Ok(true),
        ([secret, secrets @ ..], [key, keys @ ..]) => {
            Ok(
                is_of(alloc, scheme, secret.as_slice(), key)?
                    && are_of(alloc, scheme, secrets, keys)?,
            )
        }
        _ => Ok(false),
    }
}

/// Whether the secret's public part is shown as this key.
fn is_of<K: Scheme>(
    alloc: Global,
    scheme: &K,
    secret: &[u8],
    key: &RootKey,
) -> Result<bool, AllocError>
    ensures { IfOk result (λ it. it ≡ same_key (root_key (K.rules scheme.now) secret.now) key.now) }
{
    let public = scheme.public(alloc, secret)?;
    let id = key_id_text(alloc, public.as_slice())?;
    let shown = scheme.shown(alloc, public.as_slice())?;
    Ok(
        id.as_str() == key.keyid.as_str()
            && scheme.method() == key.method.as_str()
            && shown.as_str() == key.shown.as_str(),
    )
}

/// Whether the bytes, 1 to 256 of them, are a secret of the scheme.
fn secret_fits<K: Scheme>(scheme: &K, secret: &[u8]) -> bool
    ensures { result ≡ secret_fits_in (K.rules scheme.now) secret.now }
{
    secret.len() >= 1 && secret.len() <= 256 && scheme.secret_fits(secret)
}
