//! The rows and files of a root version, or of a change of the register, that is due.
ghost use Rattle.std.specs.Prelude.{◌≡◌, ◌≤◌, IsTrue, IfOk, MatchOption, ⊤, None, insert, map, option_copied};
ghost use Rattle.std.specs.List.{list_all};
ghost use Rattle.up_canon.specs.Moments.{last_command_moment};
ghost use Rattle.up_roles.specs.declared.repository.Repository.TheVariants.{Director, Image as ImageRepository};
ghost use Rattle.up_canon.specs.Names.{are_distinct};
ghost use Rattle.up_roles.specs.Payload.{version_fits};
ghost use Rattle.up_roles.specs.Targets.{target_fits, ecus_of};
ghost use Rattle.up_metadata.specs.Files.{role_texts as role_texts_of, root_text as root_text_of};
ghost use Rattle.up_metadata.specs.Keys.{key_set_fits, hashed_key_set, all_can_sign};
ghost use Rattle.up_metadata.specs.Writing.{metadata_set};
ghost use Rattle.up_machine.specs.Due.{CanMakeFiles, CanMakeRoot};
ghost use Rattle.up_machine.specs.Files.{target_of};
ghost use Rattle.up_machine.specs.Registers.{place_among};
ghost use Rattle.up_machine.specs.TwoSteps.{MakesRegisterRows, MakesRootRows};

use crate::decision::{NextRoot, RegisterRows, RootRows};
use crate::image_targets::{image_targets, targets_with};
use crate::rows::Founding;
use std::alloc::{AllocError, Global};
use up_canon::listed::{Duplicate, Listed};
use up_canon::moment::Moment;
use up_canon::table::Table;
use up_metadata::hashed_keys::{HashedKeySet, hashed_roles};
use up_metadata::keys::KeySet;
use up_metadata::role_files::{RoleTexts, role_texts};
use up_metadata::root_files::root_text;
use up_plan::image::Image;
use up_roles::repository::Repository;
use up_roles::targets::Target;
use up_sign::scheme::Scheme;

/// The rows of a root version that a first step answered as due, with these keys at a command's moment: the founding's, both
/// repositories' Root files, signed with the keys of the version before too, and the image repository's files of these images.
/// Nothing is said of the rows of a root version that no state has.
pub fn root_rows<K: Scheme>(
    alloc: Global,
    scheme: &K,
    at: Moment,
    keys: &KeySet,
    new: &NextRoot,
    images: &Table<Image>,
) -> Result<RootRows, AllocError>
    requires { CanMakeRoot (K.rules scheme.now) at keys.now new.now }
    ensures { MakesRootRows (K.rules scheme.now) at keys.now new.now images.now result }
{
    let before = new.before.as_ref();
    let images = images.values();
    rows_of_root(
        alloc,
        scheme,
        new.number,
        new.image_number,
        keys,
        &new.hashed,
        at,
        before,
        new.version,
        images,
    )
}

/// The same of these numbers, with keys that are hashed already, these keys before and this version of the image repository.
#[tactic(auto, using(crate::proofs::NewFiles::both_fit, crate::proofs::NewFiles::no_ecus))]
fn rows_of_root<K: Scheme>(
    alloc: Global,
    scheme: &K,
    number: u64,
    image_number: u64,
    keys: &KeySet,
    hashed: &HashedKeySet,
    at: Moment,
    before: Option<&KeySet>,
    version: u64,
    images: &[Image],
) -> Result<RootRows, AllocError>
    requires keys { IsTrue (key_set_fits (K.rules scheme.now) keys.now) }
    requires hashed { hashed.now ≡ hashed_key_set (K.rules scheme.now) keys.now }
    requires before { MatchOption before ⊤ (λ b. IsTrue (all_can_sign (K.rules scheme.now) b.now)) }
    requires number { IsTrue (version_fits number) }
    requires image_number { IsTrue (version_fits image_number) }
    requires version { IsTrue (version_fits version) }
    requires moment { at ≤ last_command_moment }
    ensures { IfOk result (λ rows. rows ≡ record {
      founding = record {
        root = number;
        image_root = image_number;
        keys = keys.now;
        image_version = version;
        targets_version = version;
        stamp = at;
      };
      director = root_text_of (K.rules scheme.now) Director number (record { keys = keys.now; at = at })
          (option_copied before.entry);
      image = root_text_of (K.rules scheme.now) ImageRepository image_number (record { keys = keys.now; at = at })
          (option_copied before.entry);
      files = role_texts_of (K.rules scheme.now)
          (metadata_set ImageRepository keys.now None version at (map (target_of None) images.now));
    }) }
{
    let targets = image_targets(alloc, images)?;
    let director = root_text(
        alloc,
        scheme,
        Repository::Director,
        number,
        keys,
        &hashed.director,
        at,
        before,
    )?;
    let image = root_text(
        alloc,
        scheme,
        Repository::Image,
        image_number,
        keys,
        &hashed.image,
        at,
        before,
    )?;
    let files = role_texts(
        alloc,
        scheme,
        Repository::Image,
        keys,
        &hashed.image.roles,
        &None,
        version,
        at,
        targets,
    )?;
    Ok(RootRows {
        founding: founding_with(alloc, number, image_number, keys, version, at)?,
        director,
        image,
        files,
    })
}

/// The founding's row with files that are all made with this version.
fn founding_with(
    alloc: Global,
    root: u64,
    image_root: u64,
    keys: &KeySet,
    version: u64,
    stamp: Moment,
) -> Result<Founding, AllocError>
    ensures { IfOk result (λ founding. founding ≡ record {
      root = root;
      image_root = image_root;
      keys = keys.now;
      image_version = version;
      targets_version = version;
      stamp = stamp;
    }) }
{
    Ok(Founding {
        root,
        image_root,
        keys: keys.copy(alloc)?,
        image_version: version,
        targets_version: version,
        stamp,
    })
}

/// The rows of new files of the image repository that a first step answered as due: the founding's, and the files of these
/// images. Nothing is said of those of a founding's row that no state has.
pub fn register_rows<K: Scheme>(
    alloc: Global,
    scheme: &K,
    founding: Founding,
    images: &Table<Image>,
) -> Result<RegisterRows, AllocError>
    requires { CanMakeFiles (K.rules scheme.now) founding }
    ensures { MakesRegisterRows (K.rules scheme.now) founding images.now result }
{
    match image_targets(alloc, images.values()) {
        Ok(targets) => rows_with_targets(alloc, scheme, founding, targets),
        Err(error) => {
            // Dropped by name: at the end of a scope it would be proved part by part.
            drop(founding);
            Err(error)
        }
    }
}

/// The same with these targets.
pub(crate) fn rows_with_targets<K: Scheme>(
    alloc: Global,
    scheme: &K,
    founding: Founding,
    targets: Listed<Target>,
) -> Result<RegisterRows, AllocError>
    requires founding { CanMakeFiles (K.rules scheme.now) founding }
    requires targets { IsTrue (list_all (target_fits ImageRepository) targets) }
    requires ecus { IsTrue (are_distinct (ecus_of targets)) }
    ensures { IfOk result (λ rows. rows ≡ record {
      founding = founding;
      files = role_texts_of (K.rules scheme.now)
          (metadata_set ImageRepository founding.keys None founding.image_version founding.stamp targets);
    }) }
{
    match image_files(alloc, scheme, &founding, targets) {
        Ok(files) => Ok(RegisterRows { founding, files }),
        Err(error) => {
            drop(founding);
            Err(error)
        }
    }
}

/// The same with a new image at its place among these.
pub(crate) fn rows_with_image<K: Scheme>(
    alloc: Global,
    scheme: &K,
    founding: Founding,
    images: &[Image],
    image: &Image,
) -> Result<RegisterRows, AllocError>
    requires { CanMakeFiles (K.rules scheme.now) founding }
    ensures { IfOk result (λ rows. rows ≡ record {
      founding = founding;
      files = role_texts_of (K.rules scheme.now)
          (metadata_set ImageRepository founding.keys None founding.image_version founding.stamp
          (map (target_of None) (insert images.now (place_among image.now.file images.now) image.now)));
    }) }
{
    match targets_with(alloc, images, image) {
        Ok(targets) => rows_with_targets(alloc, scheme, founding, targets),
        Err(error) => {
            drop(founding);
            Err(error)
        }
    }
}

/// The image repository's files.
fn image_files<K: Scheme>(
    alloc: Global,
    scheme: &K,
    founding: &Founding,
    targets: Listed<Target>,
) -> Result<RoleTexts, AllocError>
    requires founding { CanMakeFiles (K.rules scheme.now) founding.now }
    requires targets { IsTrue (list_all (target_fits ImageRepository) targets) }
    requires ecus { IsTrue (are_distinct (ecus_of targets)) }
    ensures { IfOk result (λ files. files ≡ role_texts_of (K.rules scheme.now)
        (metadata_set ImageRepository founding.now.keys None founding.now.image_version founding.now.stamp targets)) }
{
    let hashed = hashed_roles(alloc, scheme, &founding.keys.image)?;
    role_texts(
        alloc,
        scheme,
        Repository::Image,
        &founding.keys,
        &hashed,
        &None,
        founding.image_version,
        founding.stamp,
        targets,
    )
}
