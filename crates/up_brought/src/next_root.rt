//! The next Root of a repository, signed elsewhere.
ghost use Rattle.std.specs.Prelude.{◌≡◌, IfOk, Option, option_map};
ghost use Rattle.up_shown.specs.Showing.{showing};
ghost use Rattle.up_brought.specs.Faults.{Gives};
ghost use Rattle.up_brought.specs.Brought.{accepted_before as accepted_before_in, root_read, same_repository as same_repository_in, test_root as test_root_in, check_root as check_root_in};

use crate::apart::roles_are_apart;
use crate::fault::Fault;
use crate::shown::{accepts, shows_keys};
use crate::spelled::spelled_root;
use std::alloc::{AllocError, Global};
use up_canon::moment::Moment;
use up_canon::refusal::{Field, Refusal};
use up_canon::text::Text;
use up_roles::repository::Repository;
use up_roles::root::{RootFile, read_root};
use up_shown::shows::Shows;
use up_sign::envelope::Envelope;

/// How many root versions there may be.
const MAX_ROOTS: u64 = 64;

/// How many root versions a repository has, and the text of the last one.
#[derive(Debug, Drop)]
pub struct Roots {
    pub number: u64,
    pub last: Option<Text>,
}

/// The Root that a text is, if it may follow these root versions of the repository: `Known` with what `read_root` refuses, with
/// `NotCanonical` where it is spelled in another way, with `BadShape` and `repository` where it is the other repository's, with
/// `BadShape` and `keys` where a key shows no public part or stands in two roles, with `RootFull` after 64 versions;
/// `WrongVersion` with the next number; `Expired` with `root`; `BadSignature` with `before` where too few keys of the last Root
/// signed, with `root` where too few of its own did.
#[tactic(auto, unfolding(crate::specs::Brought::check_root, up_canon::specs::Steps::and_then))]
pub fn check_root<K: Shows>(
    alloc: Global,
    scheme: &K,
    repository: Repository,
    roots: &Roots,
    at: Moment,
    text: &[u8],
) -> Result<RootFile, Fault>
    ensures { Gives result
        (check_root_in (showing (K.rules scheme.now) (K.reading scheme.now)) repository roots.now.number roots.now.last at text.now) }
{
    let (file, envelope) = spelled_root(alloc, text)?;
    match test_root(alloc, scheme, repository, roots, at, &file, &envelope) {
        Ok(()) => {
            drop(envelope);
            Ok(file)
        }
        Err(fault) => {
            // Dropped by name: at the end of a scope they would be proved part by part.
            drop(file);
            drop(envelope);
            Err(fault)
        }
    }
}

#[tactic(auto, unfolding(crate::specs::Brought::test_root, up_canon::specs::Steps::and_then))]
fn test_root<K: Shows>(
    alloc: Global,
    scheme: &K,
    repository: Repository,
    roots: &Roots,
    at: Moment,
    file: &RootFile,
    envelope: &Envelope,
) -> Result<(), Fault>
    ensures { Gives result
        (test_root_in (showing (K.rules scheme.now) (K.reading scheme.now)) repository roots.now.number roots.now.last at file.now envelope.now) }
{
    if !same_repository(repository, file.repository) {
        return Err(Fault::Known(Refusal::from("repository")));
    }
    if !(shows_keys(alloc, scheme, file)? && roles_are_apart(alloc, file)?) {
        return Err(Fault::Known(Refusal::from("keys")));
    }
    if roots.number >= MAX_ROOTS {
        return Err(Fault::Known(Refusal::RootFull));
    }
    if file.version != roots.number + 1 {
        return Err(Fault::WrongVersion(roots.number + 1));
    }
    if file.expires.get() <= at.get() {
        return Err(Fault::Expired(Field::new("root")));
    }
    if !accepted_before(alloc, scheme, &roots.last, envelope)? {
        return Err(Fault::BadSignature(Field::new("before")));
    }
    if !accepts(alloc, scheme, &file.root, envelope)? {
        return Err(Fault::BadSignature(Field::new("root")));
    }
    Ok(())
}

/// Whether enough root keys of the last Root signed; before the first there are none to ask.
fn accepted_before<K: Shows>(
    alloc: Global,
    scheme: &K,
    last: &Option<Text>,
    envelope: &Envelope,
) -> Result<bool, AllocError>
    ensures { IfOk result
        (λ it. it ≡ accepted_before_in (showing (K.rules scheme.now) (K.reading scheme.now)) last.now envelope.now) }
{
    match last {
        None => Ok(true),
        Some(text) => match root_of(alloc, text)? {
            Some(before) => accepts(alloc, scheme, &before.root, envelope),
            None => Ok(false),
        },
    }
}

/// The Root that a text means, if any.
pub(crate) fn root_of(alloc: Global, text: &Text) -> Result<Option<RootFile>, AllocError>
    ensures { IfOk result (λ file. file ≡ root_read text.now) }
{
    match read_root(alloc, text.as_str().as_bytes()) {
        Ok((file, envelope)) => {
            drop(envelope);
            Ok(Some(file))
        }
        Err(Refusal::Memory) => Err(AllocError),
        Err(_) => Ok(None),
    }
}

/// Whether both are the same repository.
pub(crate) fn same_repository(a: Repository, b: Repository) -> bool
    ensures { result ≡ same_repository_in a b }
{
    matches!(
        (a, b),
        (Repository::Director, Repository::Director) | (Repository::Image, Repository::Image)
    )
}
