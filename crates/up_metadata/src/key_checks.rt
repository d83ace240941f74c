//! Checks of the keys of a founding or a rotation.
ghost use Rattle.std.specs.Prelude.{◌≡◌, IfOk, is_none, map};
ghost use Rattle.std.specs.List.{list_all};
ghost use Rattle.up_canon.specs.Names.{first_repeated};
ghost use Rattle.up_canon.specs.Refusals.{GivesAs};
ghost use Rattle.up_sign.specs.Envelopes.{identifier, key_block};
ghost use Rattle.up_metadata.specs.Keys.{secret_fits as secret_fits_rule, can_sign as can_sign_rule, roles_can_sign as roles_can_sign_rule, all_can_sign as all_can_sign_rule, hashed_role, hashed_repo, hashed_key_set, check_role as check_role_rule, check_repository as check_repository_rule, check_keys as check_keys_rule};

use crate::hashed_keys::{HashedKeySet, HashedRepoKeys, HashedRoleKeys};
use crate::keys::{KeySet, RepoKeys, RoleSecrets};
use std::alloc::{AllocError, Global};
use up_canon::bytes::Bytes;
use up_canon::listed::Listed;
use up_canon::named::are_distinct;
use up_canon::refusal::Refusal;
use up_sign::key_id::HashedKey;
use up_sign::scheme::Scheme;
use up_sign::seal::hashed_keys;

/// Tests the keys of both repositories, and gives them hashed. In each role, Director first, there are 1 to 4 that fit
/// and none stands twice, else `BadShape` with `keys`, and the threshold is 1 to their number, else `BadShape` with
/// `threshold`; `Memory`.
#[tactic(auto, unfolding(crate::specs::Keys::check_keys, up_canon::specs::Steps::and_then))]
pub fn check_keys<K: Scheme>(
    alloc: Global,
    scheme: &K,
    keys: &KeySet,
) -> Result<HashedKeySet, Refusal>
    ensures checked { GivesAs (λ hashed. tt) result (check_keys_rule (K.rules scheme.now) keys.now) }
    ensures hashed { IfOk result (λ hashed. hashed ≡ hashed_key_set (K.rules scheme.now) keys.now) }
{
    Ok(HashedKeySet {
        director: check_repository(alloc, scheme, &keys.director)?,
        image: check_repository(alloc, scheme, &keys.image)?,
    })
}

#[tactic(auto, unfolding(crate::specs::Keys::check_repository, up_canon::specs::Steps::and_then))]
fn check_repository<K: Scheme>(
    alloc: Global,
    scheme: &K,
    keys: &RepoKeys,
) -> Result<HashedRepoKeys, Refusal>
    ensures checked { GivesAs (λ hashed. tt) result (check_repository_rule (K.rules scheme.now) keys.now) }
    ensures hashed { IfOk result (λ hashed. hashed ≡ hashed_repo (K.rules scheme.now) keys.now) }
{
    let root = check_role(alloc, scheme, &keys.root)?;
    let roles = HashedRoleKeys {
        targets: check_role(alloc, scheme, &keys.targets)?,
        snapshot: check_role(alloc, scheme, &keys.snapshot)?,
        timestamp: check_role(alloc, scheme, &keys.timestamp)?,
    };
    Ok(HashedRepoKeys { root, roles })
}

#[tactic(auto, unfolding(crate::specs::Keys::check_role, up_canon::specs::Steps::and_then))]
fn check_role<K: Scheme>(
    alloc: Global,
    scheme: &K,
    role: &RoleSecrets,
) -> Result<Listed<HashedKey>, Refusal>
    ensures checked { GivesAs (λ hashed. tt) result (check_role_rule (K.rules scheme.now) role.now) }
    ensures hashed { IfOk result (λ hashed. hashed ≡ hashed_role (K.rules scheme.now) role.now) }
{
    let keys = role.keys.as_slice();
    if keys.is_empty() || keys.len() > 4 || !secrets_fit(scheme, keys) {
        return Err(Refusal::from("keys"));
    }
    let hashed = hashed_keys(alloc, scheme, keys)?;
    if !has_distinct_identifiers(alloc, scheme, keys, hashed.as_slice())? {
        return Err(Refusal::from("keys"));
    }
    let threshold = role.threshold as usize;
    if threshold < 1 || threshold > keys.len() {
        return Err(Refusal::from("threshold"));
    }
    Ok(hashed)
}

/// Whether no two of the keys have one identifier.
#[tactic(auto, using(up_canon::proofs::Repeated::names_themselves))]
fn has_distinct_identifiers<K: Scheme>(
    alloc: Global,
    scheme: &K,
    keys: &[Bytes],
    hashed: &[HashedKey],
) -> Result<bool, AllocError>
    requires { hashed.now ≡ map (key_block (K.rules scheme.now)) keys.now }
    ensures { IfOk result
        (λ distinct. distinct ≡ is_none (first_repeated (map (identifier (K.rules scheme.now)) keys.now))) }
{
    let mut names = Vec::with_capacity(alloc, hashed.len())?;
    for i in 0..keys.len() {
        names.push(hashed[i].id(alloc)?)?;
    }
    Ok(are_distinct(names.as_slice()))
}

/// Whether each role of both repositories has 1 to 4 secrets that the scheme takes. Identifiers and thresholds are not looked
/// at, so no hash is computed.
pub fn all_can_sign<K: Scheme>(scheme: &K, keys: &KeySet) -> bool
    ensures { result ≡ all_can_sign_rule (K.rules scheme.now) keys.now }
{
    roles_can_sign(scheme, &keys.director) && roles_can_sign(scheme, &keys.image)
}

fn roles_can_sign<K: Scheme>(scheme: &K, keys: &RepoKeys) -> bool
    ensures { result ≡ roles_can_sign_rule (K.rules scheme.now) keys.now }
{
    can_sign(scheme, &keys.root)
        && can_sign(scheme, &keys.targets)
        && can_sign(scheme, &keys.snapshot)
        && can_sign(scheme, &keys.timestamp)
}

fn can_sign<K: Scheme>(scheme: &K, role: &RoleSecrets) -> bool
    ensures { result ≡ can_sign_rule (K.rules scheme.now) role.now }
{
    let keys = role.keys.as_slice();
    1 <= keys.len() && keys.len() <= 4 && secrets_fit(scheme, keys)
}

fn secrets_fit<K: Scheme>(scheme: &K, keys: &[Bytes]) -> bool
    ensures { result ≡ list_all (secret_fits_rule (K.rules scheme.now)) keys.now }
{
    keys.iter().all(|key| secret_fits(scheme, key.as_slice()))
}

/// Whether the bytes, 1 to 256 of them, are a secret of the scheme.
fn secret_fits<K: Scheme>(scheme: &K, secret: &[u8]) -> bool
    ensures { result ≡ secret_fits_rule (K.rules scheme.now) secret.now }
{
    secret.len() >= 1 && secret.len() <= 256 && scheme.secret_fits(secret)
}
