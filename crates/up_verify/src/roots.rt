//! From the trusted Root to the latest one, version by version.
ghost use Rattle.std.specs.Prelude.{◌≡◌, ◌==◌, ◌+◌};
ghost use Rattle.std.specs.List.{list_all, list_any};
ghost use Rattle.up_verify.specs.Results.{ChecksFile, PassesFile, Follows};
ghost use Rattle.up_verify.specs.Roots.{same_repository as same_repository_as, if_next as if_next_of, next_root as next_root_of, has_id as has_id_in, same_keys as same_keys_as, kept_if as kept_if_of, same_listing_keys as same_listing_keys_as, with_root as with_root_of, follow as follow_roots};
ghost use Rattle.up_verify.specs.Verifiers.{verifier};

use crate::known_key::KnownKey;
use crate::refused::Fault;
use crate::signers::{are_known, is_signed_for};
use crate::trust::{Trust, Versions};
use std::alloc::Global;
use up_canon::bytes::Bytes;
use up_roles::repository::Repository;
use up_roles::root::{RoleKeys, RootFile, RootKey, read_root};
use up_shown::shows::Shows;
use up_sign::envelope::Envelope;

/// How far Roots could be followed: what is trusted then, and the fault of the first that couldn't.
#[derive(Drop)]
pub struct Followed {
    pub trust: Trust,
    pub fault: Option<Fault>,
}

/// The Root that the bytes are, if it may follow this one: it is of the next version, its keys are known, and enough root keys
/// of the one before and of its own have signed it. Else its fault.
#[tactic(auto, unfolding(crate::specs::Roots::next_root, up_canon::specs::Steps::and_then))]
pub fn next_root<K: Shows>(
    alloc: Global,
    scheme: &K,
    held: &[KnownKey],
    repository: Repository,
    before: &RootFile,
    bytes: &[u8],
) -> Result<RootFile, Fault>
    ensures { ChecksFile result (next_root_of (verifier (K.rules scheme.now) (K.reading scheme.now) held.now) repository before.now bytes.now) }
{
    let (root, envelope) = read_root(alloc, bytes)?;
    match test_root(alloc, scheme, held, repository, before, &root, &envelope) {
        Ok(()) => {
            drop(envelope);
            Ok(root)
        }
        Err(fault) => {
            // Dropped by name: at the end of a scope they would be proved part by part.
            drop(root);
            drop(envelope);
            Err(fault)
        }
    }
}

#[tactic(auto, unfolding(crate::specs::Roots::if_next, up_canon::specs::Steps::and_then))]
fn test_root<K: Shows>(
    alloc: Global,
    scheme: &K,
    held: &[KnownKey],
    repository: Repository,
    before: &RootFile,
    root: &RootFile,
    envelope: &Envelope,
) -> Result<(), Fault>
    ensures { PassesFile root.now result (if_next_of (verifier (K.rules scheme.now) (K.reading scheme.now) held.now) repository before.now root.now envelope.now) }
{
    if !same_repository(root.repository, repository) {
        return Err(Fault::OtherRepository);
    }
    if !is_next(before.version, root.version) {
        return Err(Fault::NotNext);
    }
    if !are_known(alloc, scheme, held, root)? {
        return Err(Fault::UnknownKey);
    }
    if !is_signed_for(alloc, scheme, held, &before.root, envelope)? {
        return Err(Fault::NotSignedBefore);
    }
    if !is_signed_for(alloc, scheme, held, &root.root, envelope)? {
        return Err(Fault::NotSigned);
    }
    Ok(())
}

fn is_next(before: u64, version: u64) -> bool
    ensures { result ≡ (version == before + 1) }
{
    version > before && version - before == 1
}

pub(crate) fn same_repository(a: Repository, b: Repository) -> bool
    ensures { result ≡ same_repository_as a b }
{
    match (a, b) {
        (Repository::Director, Repository::Director) => true,
        (Repository::Image, Repository::Image) => true,
        _ => false,
    }
}

/// What is trusted once this Root is. Where it gives the Timestamp or the Snapshot other keys, the versions of both are
/// forgotten, and where it gives Targets other keys, its version.
pub fn with_root(trust: Trust, root: RootFile) -> Trust
    ensures { result ≡ with_root_of trust root }
{
    let listing = same_listing_keys(&trust.root, &root);
    let targets = same_keys(&trust.root.targets, &root.targets);
    let versions = trust.versions;
    Trust {
        root,
        versions: Versions {
            timestamp: kept_if(listing, versions.timestamp),
            snapshot: kept_if(listing, versions.snapshot),
            targets: kept_if(targets, versions.targets),
        },
    }
}

fn kept_if(kept: bool, version: u64) -> u64
    ensures { result ≡ kept_if_of kept version }
{
    if kept { version } else { 0 }
}

fn same_listing_keys(a: &RootFile, b: &RootFile) -> bool
    ensures { result ≡ same_listing_keys_as a.now b.now }
{
    same_keys(&a.timestamp, &b.timestamp) && same_keys(&a.snapshot, &b.snapshot)
}

/// Whether the roles have the same keys, in whatever order.
fn same_keys(a: &RoleKeys, b: &RoleKeys) -> bool
    ensures { result ≡ same_keys_as a.now b.now }
{
    have_ids(b.keys.as_slice(), a.keys.as_slice()) && have_ids(a.keys.as_slice(), b.keys.as_slice())
}

/// Whether the first have the identifiers of the second.
fn have_ids(keys: &[RootKey], others: &[RootKey]) -> bool
    ensures { result ≡ list_all (has_id_in keys.now) others.now }
{
    for key in others {
        if !has_id(keys, key) {
            return false;
        }
    }
    true
}

fn has_id(keys: &[RootKey], key: &RootKey) -> bool
    ensures { result ≡ has_id_in keys.now key.now }
{
    for own in keys {
        if own.keyid.as_str() == key.keyid.as_str() {
            return true;
        }
    }
    false
}

/// Each Root in its turn. What was verified stays, whatever comes behind it.
#[tactic(auto, using(crate::proofs::Checking::stops, crate::proofs::Checking::goes_on))]
pub fn follow<K: Shows>(
    alloc: Global,
    scheme: &K,
    held: &[KnownKey],
    repository: Repository,
    trust: Trust,
    roots: &[Bytes],
) -> Followed
    ensures { Follows result (follow_roots (verifier (K.rules scheme.now) (K.reading scheme.now) held.now) repository trust roots.now) }
{
    match roots {
        [] => Followed { trust, fault: None },
        [bytes, more @ ..] => {
            match next_root(
                alloc,
                scheme,
                held,
                repository,
                &trust.root,
                bytes.as_slice(),
            ) {
                Ok(root) => {
                    let next = with_root(trust, root);
                    follow(alloc, scheme, held, repository, next, more)
                }
                Err(fault) => Followed {
                    trust,
                    fault: Some(fault),
                },
            }
        }
    }
}
