//! Decisions on the register of images: on an image over the founding's row and the image of its filename, on one of a new
//! filename over all images too, and on new files over the founding's row alone, of which `new_files::register_rows` makes them.
ghost use Rattle.std.specs.Prelude.{◌≡◌, ◌≤◌, ◌<◌, IfOk, IfSome, IsTrue, Ok, Err, option_copied};
ghost use Rattle.std.specs.FinMap as table;
ghost use Rattle.up_canon.specs.Canon.{max_count};
ghost use Rattle.up_canon.specs.Moments.{last_command_moment};
ghost use Rattle.up_canon.specs.declared.refusal.Refusal.TheVariants.{Memory};
ghost use Rattle.up_sign.specs.Schemes.{Rules};
ghost use Rattle.up_machine.specs.declared.decision.Decision.TheVariants.{New};
ghost use Rattle.up_machine.specs.declared.rows.Founding.{Founding};
ghost use Rattle.up_machine.specs.RowsFit.{founding_fits};
ghost use Rattle.up_machine.specs.Due.{CanMakeFiles};
ghost use Rattle.up_machine.specs.TwoSteps.{TellsImage, MakesImageRows, TellsRefresh};

use crate::decision::{Decision, RegisterRows};
use crate::new_files::rows_with_image;
use crate::rows::Founding;
use crate::same_image::same_image;
use std::alloc::Global;
use up_canon::count::{Count, MAX_COUNT};
use up_canon::moment::Moment;
use up_canon::refusal::Refusal;
use up_canon::table::Table;
use up_plan::image::Image;
use up_sign::scheme::Scheme;

/// How many images may be registered.
const MAX_IMAGES: usize = 1024;

/// Decides on an image, at a command's moment, given the one that is registered under its filename: `NotFounded`;
/// `Already` where that one is equal; `ImageTaken` where it is another one, also where just one of the two has a SHA-512: no
/// image gains one later. Where there is none the founding's row is handed back, for `decide_new_image`.
pub fn decide_image(
    at: Moment,
    image: &Image,
    founding: Option<Founding>,
    old: Option<&Image>,
) -> Result<Decision<Founding>, Refusal>
    requires { at ≤ last_command_moment }
    ensures decided { TellsImage at image.now founding (option_copied old.entry) result }
    ensures same { (new : Founding) → result ≡ Ok (New new) → founding ≡ Some new }
{
    let Some(founding) = founding else {
        return Err(Refusal::NotFounded);
    };
    match old {
        Some(old) => {
            // Dropped by name: at the end of a scope it would be proved part by part.
            drop(founding);
            if same_image(image, old) {
                Ok(Decision::Already)
            } else {
                Err(Refusal::ImageTaken)
            }
        }
        None => Ok(Decision::New(founding)),
    }
}

/// Decides on an image whose filename is new, at a command's moment: `RegisterFull` at 1,024 images; `VersionLimit`;
/// `Memory`; else the rows with it.
pub fn decide_new_image<K: Scheme>(
    alloc: Global,
    scheme: &K,
    at: Moment,
    image: &Image,
    founding: Founding,
    images: &Table<Image>,
) -> Result<RegisterRows, Refusal>
    requires moment { at ≤ last_command_moment }
    requires keys { IsTrue (founding_fits (K.rules scheme.now) founding) }
    ensures memory { result ≡ Err Memory → (table.len images.now < 1024) × (founding.image_version < max_count) }
    ensures decided { MakesImageRows (K.rules scheme.now) at image.now founding images.now result }
{
    if images.len() >= MAX_IMAGES {
        drop(founding);
        return Err(Refusal::RegisterFull);
    }
    if founding.image_version >= MAX_COUNT {
        drop(founding);
        return Err(Refusal::VersionLimit);
    }
    let version = founding.image_version + 1;
    let founding = with_version(founding, version, at);
    Ok(rows_with_image(alloc, scheme, founding, images.values(), image)?)
}

/// Decides on making the image repository's files anew with this version, at a command's moment: `NotFounded`;
/// `VersionNotGreater`; else the founding's row with that version.
pub fn decide_refresh(
    at: Moment,
    version: Count,
    founding: Option<Founding>,
) -> Result<Founding, Refusal>
    requires { at ≤ last_command_moment }
    ensures decided { TellsRefresh at version founding result }
    ensures fits { (k : Rules) → IfSome founding (λ f. IsTrue (founding_fits k f))
        → IfOk result (λ new. CanMakeFiles k new) }
{
    let Some(old) = founding else {
        return Err(Refusal::NotFounded);
    };
    if version.get() <= old.image_version {
        drop(old);
        return Err(Refusal::VersionNotGreater);
    }
    Ok(with_version(old, version.get(), at))
}

/// The founding's row with new files of the image repository.
fn with_version(old: Founding, version: u64, at: Moment) -> Founding
    ensures { result ≡ record {
      root = old.root;
      image_root = old.image_root;
      keys = old.keys;
      image_version = version;
      targets_version = version;
      stamp = at;
    } }
{
    Founding {
        root: old.root,
        image_root: old.image_root,
        keys: old.keys,
        image_version: version,
        targets_version: version,
        stamp: at,
    }
}
