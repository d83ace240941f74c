//! Making Root files.
ghost use Rattle.std.specs.Prelude.{◌≡◌, ◌≤◌, ◌+◌, ◌++◌, IsTrue, IfOk, OnOk, MatchOption, ⊤, bytes_eq, filter, map, not, option_copied};
ghost use Rattle.std.specs.List.{list_any};
ghost use Rattle.up_canon.specs.Moments.{last_command_moment};
ghost use Rattle.up_sign.specs.Envelopes.{key_block};
ghost use Rattle.up_roles.specs.Lifetimes.{lifetimes};
ghost use Rattle.up_roles.specs.Payload.{version_fits};
ghost use Rattle.up_metadata.specs.Files.{keys_of as keys_in, root_key as root_key_of, role_keys as role_keys_of, root_file as root_file_of, root_secrets, root_text as root_text_of};
ghost use Rattle.up_metadata.specs.Keys.{repository_fits, hashed_role, hashed_repo, can_sign};
ghost use Rattle.up_metadata.specs.Writing.{CanWriteRoot, WritesRoot};

use crate::hashed_keys::HashedRepoKeys;
use crate::keys::{KeySet, RoleSecrets};
use crate::role_files::keys_of;
use std::alloc::{AllocError, Global};
use up_canon::bytes::Bytes;
use up_canon::listed::{Duplicate, Listed};
use up_canon::moment::Moment;
use up_canon::text::Text;
use up_roles::lifetimes::lifetimes_of;
use up_roles::repository::Repository;
use up_roles::root::{RoleKeys, RootFile, RootKey};
use up_roles::root_text::root_text_by as signed_root;
use up_sign::key_id::HashedKey;
use up_sign::laws::envelope_laws;
use up_sign::scheme::Scheme;
use up_sign::seal::hashed_key_of;

/// The text of a repository's Root file of this number with these keys, which are hashed already. It expires its lifetime
/// after the moment, and is signed with its root keys, and with those of the version before, where there is one, that aren't
/// among them.
#[tactic(auto, unfolding(crate::specs::Files::root_text))]
pub fn root_text<K: Scheme>(
    alloc: Global,
    scheme: &K,
    repository: Repository,
    number: u64,
    keys: &KeySet,
    hashed: &HashedRepoKeys,
    at: Moment,
    before: Option<&KeySet>,
) -> Result<Text, AllocError>
    requires root { CanWriteRoot (K.rules scheme.now) repository number (record { keys = keys.now; at = at }) }
    requires hashed { hashed.now ≡ hashed_repo (K.rules scheme.now) (keys_in repository keys.now) }
    requires before { MatchOption before ⊤
        (λ b. IsTrue (can_sign (K.rules scheme.now) (keys_in repository b.now).root)) }
    ensures { WritesRoot (K.rules scheme.now) repository number (record { keys = keys.now; at = at })
        (option_copied before.entry) result }
{
    envelope_laws();
    let signers = root_signers(alloc, scheme, repository, keys, hashed, before)?;
    let file = root_file(alloc, scheme, repository, number, keys, hashed, at)?;
    let (secrets, hashed) = (signers.secrets.as_slice(), signers.hashed.as_slice());
    Ok(Text::new(signed_root(alloc, scheme, secrets, hashed, &file)?))
}

fn root_file<K: Scheme>(
    alloc: Global,
    scheme: &K,
    repository: Repository,
    number: u64,
    keys: &KeySet,
    hashed: &HashedRepoKeys,
    at: Moment,
) -> Result<RootFile, AllocError>
    requires hashed { hashed.now ≡ hashed_repo (K.rules scheme.now) (keys_in repository keys.now) }
    requires moment { at ≤ last_command_moment }
    ensures { IfOk result
        (λ file. file ≡ root_file_of (K.rules scheme.now) repository number (record { keys = keys.now; at = at })) }
{
    let keys = keys_of(repository, keys);
    Ok(RootFile {
        repository,
        version: number,
        expires: root_expiry(repository, at),
        root: role_keys(alloc, scheme, &keys.root, &hashed.root)?,
        targets: role_keys(alloc, scheme, &keys.targets, &hashed.roles.targets)?,
        snapshot: role_keys(alloc, scheme, &keys.snapshot, &hashed.roles.snapshot)?,
        timestamp: role_keys(alloc, scheme, &keys.timestamp, &hashed.roles.timestamp)?,
    })
}

/// When the Root file expires that is made at the moment.
#[tactic(auto, using(crate::proofs::RoleFiles::lifetimes_are_short))]
fn root_expiry(repository: Repository, at: Moment) -> Moment
    requires { at ≤ last_command_moment }
    ensures { result ≡ at + (lifetimes repository).root }
{
    at.plus(lifetimes_of(repository).root)
}

/// The keys of a role, as Root metadata shows them.
fn role_keys<K: Scheme>(
    alloc: Global,
    scheme: &K,
    role: &RoleSecrets,
    hashed: &Listed<HashedKey>,
) -> Result<RoleKeys, AllocError>
    requires { hashed.now ≡ hashed_role (K.rules scheme.now) role.now }
    ensures { IfOk result (λ keys. keys ≡ role_keys_of (K.rules scheme.now) role.now) }
{
    Ok(RoleKeys {
        keys: root_keys(alloc, scheme, role.keys.as_slice(), hashed.as_slice())?,
        threshold: role.threshold,
    })
}

fn root_keys<K: Scheme>(
    alloc: Global,
    scheme: &K,
    secrets: &[Bytes],
    hashed: &[HashedKey],
) -> Result<Listed<RootKey>, AllocError>
    requires { hashed.now ≡ map (key_block (K.rules scheme.now)) secrets.now }
    ensures { IfOk result (λ keys. keys ≡ map (root_key_of (K.rules scheme.now)) secrets.now) }
{
    let mut keys = Vec::with_capacity(alloc, secrets.len())?;
    for (i, secret) in secrets.iter().enumerate() {
        keys.push(root_key(alloc, scheme, secret, &hashed[i])?)?;
    }
    Ok(Listed::new(keys))
}

fn root_key<K: Scheme>(
    alloc: Global,
    scheme: &K,
    secret: &Bytes,
    hashed: &HashedKey,
) -> Result<RootKey, AllocError>
    requires { hashed.now ≡ key_block (K.rules scheme.now) secret.now }
    ensures { IfOk result (λ key. key ≡ root_key_of (K.rules scheme.now) secret.now) }
{
    let public = scheme.public(alloc, secret.as_slice())?;
    Ok(RootKey {
        keyid: hashed.id(alloc)?,
        method: Text::new(scheme.method().to_string(alloc)?),
        shown: Text::new(scheme.shown(alloc, public.as_slice())?),
    })
}

/// Secrets, with their keys, hashed, in the same order.
#[derive(Drop)]
struct Signers {
    secrets: Vec<Bytes>,
    hashed: Vec<HashedKey>,
}

/// The root keys that sign a Root file. Those alone are hashed that aren't among the root's own.
fn root_signers<K: Scheme>(
    alloc: Global,
    scheme: &K,
    repository: Repository,
    keys: &KeySet,
    hashed: &HashedRepoKeys,
    before: Option<&KeySet>,
) -> Result<Signers, AllocError>
    requires { hashed.now.root ≡ hashed_role (K.rules scheme.now) (keys_in repository keys.now).root }
    ensures secrets { IfOk result (λ signers. signers.secrets.items ≡ (keys_in repository keys.now).root.keys
        ++ filter (λ secret. not (list_any (bytes_eq secret) (keys_in repository keys.now).root.keys))
        (root_secrets repository (option_copied before.entry))) }
    ensures hashed { IfOk result
        (λ signers. signers.hashed.items ≡ map (key_block (K.rules scheme.now)) signers.secrets.items) }
{
    let own = &keys_of(repository, keys).root.keys;
    let mut signers = Signers {
        secrets: own.copy(alloc)?.into_vec(),
        hashed: hashed.root.copy(alloc)?.into_vec(),
    };
    if let Some(before) = before {
        let old = keys_of(repository, before).root.keys.as_slice();
        push_others(alloc, scheme, &mut signers, old, own.as_slice())?;
    }
    Ok(signers)
}

/// Puts the old secrets behind that aren't among a root's own.
fn push_others<K: Scheme>(
    alloc: Global,
    scheme: &K,
    signers: &mut Signers,
    old: &[Bytes],
    own: &[Bytes],
) -> Result<(), AllocError>
    requires { signers.old.hashed.items ≡ map (key_block (K.rules scheme.now)) signers.old.secrets.items }
    ensures secrets { OnOk result (signers.new.secrets.items ≡ signers.old.secrets.items ++ filter
        (λ secret. not (list_any (bytes_eq secret) own.now)) old.now) }
    ensures hashed { OnOk result
        (signers.new.hashed.items ≡ map (key_block (K.rules scheme.now)) signers.new.secrets.items) }
{
    for secret in old {
        if !is_among(secret.as_slice(), own) {
            let key = hashed_key_of(alloc, scheme, secret.as_slice())?;
            signers.hashed.push(key)?;
            signers.secrets.push(secret.copy(alloc)?)?;
        }
    }
    Ok(())
}

fn is_among(secret: &[u8], secrets: &[Bytes]) -> bool
    ensures { result ≡ list_any (bytes_eq secret.now) secrets.now }
{
    secrets.iter().any(|other| secret == other.as_slice())
}
