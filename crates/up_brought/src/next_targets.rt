//! The Image repository's Targets, signed elsewhere.
ghost use Rattle.std.specs.Prelude.{◌≡◌};
ghost use Rattle.up_shown.specs.Showing.{showing};
ghost use Rattle.up_brought.specs.Faults.{Gives};
ghost use Rattle.up_brought.specs.Brought.{check_listing as check_listing_in, test_targets as test_targets_in, check_targets as check_targets_in, check_kept as check_kept_in};

use crate::fault::Fault;
use crate::next_root::{root_of, same_repository};
use crate::same_target::same_targets;
use crate::shown::accepts;
use crate::spelled::spelled_targets;
use std::alloc::Global;
use up_canon::moment::Moment;
use up_canon::refusal::{Field, Refusal};
use up_canon::text::Text;
use up_roles::repository::Repository;
use up_roles::root::RootFile;
use up_roles::targets::{Target, TargetsFile, read_targets};
use up_shown::shows::Shows;
use up_sign::envelope::Envelope;

/// What Targets have to follow: the text of the last Root of the image repository, all registered images in order, the version
/// of the Targets before, and the next version of the Snapshot.
#[derive(Debug, Drop)]
pub struct Followed<'a> {
    pub root: &'a Option<Text>,
    pub listed: &'a [Target],
    pub above: u64,
    pub most: u64,
}

/// The Targets that a text is, if they may follow: `Known` with what `read_targets` refuses, with `NotCanonical` where it is
/// spelled in another way, with `BadShape` and `repository` where they are the Director's, with `VersionNotGreater`;
/// `WrongVersion` with the greatest version that may be; `Expired` with `targets`; `BadSignature` with `targets` where too few
/// keys of the last Root signed; `OtherImages`.
#[tactic(auto, unfolding(crate::specs::Brought::check_targets, up_canon::specs::Steps::and_then))]
pub fn check_targets<K: Shows>(
    alloc: Global,
    scheme: &K,
    followed: &Followed,
    at: Moment,
    text: &[u8],
) -> Result<TargetsFile, Fault>
    ensures { Gives result
        (check_targets_in (showing (K.rules scheme.now) (K.reading scheme.now)) followed.now.root.now followed.now.listed.now followed.now.above followed.now.most at text.now) }
{
    let (file, envelope) = spelled_targets(alloc, text)?;
    match test_targets(alloc, scheme, followed, at, &file, &envelope) {
        Ok(()) => {
            drop(envelope);
            Ok(file)
        }
        Err(fault) => {
            // Dropped by name: at the end of a scope they would be proved part by part.
            drop(file);
            drop(envelope);
            Err(fault)
        }
    }
}

#[tactic(auto, unfolding(crate::specs::Brought::test_targets, up_canon::specs::Steps::and_then))]
fn test_targets<K: Shows>(
    alloc: Global,
    scheme: &K,
    followed: &Followed,
    at: Moment,
    file: &TargetsFile,
    envelope: &Envelope,
) -> Result<(), Fault>
    ensures { Gives result
        (test_targets_in (showing (K.rules scheme.now) (K.reading scheme.now)) followed.now.root.now followed.now.listed.now followed.now.above followed.now.most at file.now envelope.now) }
{
    if !same_repository(Repository::Image, file.repository) {
        return Err(Fault::Known(Refusal::from("repository")));
    }
    if file.version <= followed.above {
        return Err(Fault::Known(Refusal::VersionNotGreater));
    }
    if followed.most < file.version {
        return Err(Fault::WrongVersion(followed.most));
    }
    if file.expires.get() <= at.get() {
        return Err(Fault::Expired(Field::new("targets")));
    }
    check_listing(
        alloc,
        scheme,
        followed.root,
        followed.listed,
        file,
        envelope,
    )
}

/// Tests Targets that were published, and stay: signed for the last Root, of just these images. They may have expired.
#[tactic(auto, unfolding(crate::specs::Brought::check_kept, up_canon::specs::Steps::and_then))]
pub fn check_kept<K: Shows>(
    alloc: Global,
    scheme: &K,
    root: &Option<Text>,
    listed: &[Target],
    text: &[u8],
) -> Result<(), Fault>
    ensures { Gives result
        (check_kept_in (showing (K.rules scheme.now) (K.reading scheme.now)) root.now listed.now text.now) }
{
    let (file, envelope) = read_targets(alloc, text)?;
    let checked = check_listing(alloc, scheme, root, listed, &file, &envelope);
    drop(file);
    drop(envelope);
    checked
}

#[tactic(auto, unfolding(crate::specs::Brought::check_listing, up_canon::specs::Steps::and_then))]
fn check_listing<K: Shows>(
    alloc: Global,
    scheme: &K,
    root: &Option<Text>,
    listed: &[Target],
    file: &TargetsFile,
    envelope: &Envelope,
) -> Result<(), Fault>
    ensures { Gives result
        (check_listing_in (showing (K.rules scheme.now) (K.reading scheme.now)) root.now listed.now file.now envelope.now) }
{
    let Some(text) = root else {
        return Err(Fault::BadSignature(Field::new("targets")));
    };
    let Some(root) = root_of(alloc, text)? else {
        return Err(Fault::BadSignature(Field::new("targets")));
    };
    let signed = accepts(alloc, scheme, &root.targets, envelope);
    drop(root);
    if !signed? {
        return Err(Fault::BadSignature(Field::new("targets")));
    }
    if !same_targets(file.targets.as_slice(), listed) {
        return Err(Fault::OtherImages);
    }
    Ok(())
}
