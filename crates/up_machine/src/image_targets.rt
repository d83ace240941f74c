//! The targets of the image repository: all images in the order of their filenames.
ghost use Rattle.std.specs.Prelude.{◌≡◌, ◌≤◌, [], IsOk, IfOk, OnOk, insert, length, map, true, None};
ghost use Rattle.std.specs.List.{list_all};
ghost use Rattle.up_roles.specs.declared.repository.Repository.TheVariants.{Image as ImageRepository};
ghost use Rattle.up_roles.specs.Targets.{target_fits};
ghost use Rattle.up_machine.specs.Files.{target_of as target_of_image};
ghost use Rattle.up_machine.specs.Registers.{place_among as place_in};

use std::alloc::{AllocError, Global};
use std::cmp::Ordering;
use up_canon::listed::{Duplicate, Listed};
use up_plan::image::Image;
use up_roles::targets::Target;

/// The targets of the images, in their order.
pub(crate) fn image_targets(alloc: Global, images: &[Image]) -> Result<Listed<Target>, AllocError>
    ensures value { IfOk result (λ targets. targets ≡ map (target_of_image None) images.now) }
    ensures fit { IfOk result (λ targets. list_all (target_fits ImageRepository) targets ≡ true) }
    ensures none { images.now ≡ [] → IsOk result }
{
    let mut targets = Vec::with_capacity(alloc, images.len())?;
    for image in images {
        targets.push(image_target(alloc, image)?)?;
    }
    Ok(Listed::new(targets))
}

/// The same with a new image at its place.
pub(crate) fn targets_with(
    alloc: Global,
    images: &[Image],
    new: &Image,
) -> Result<Listed<Target>, AllocError>
    ensures value { IfOk result (λ targets. targets
        ≡ map (target_of_image None) (insert images.now (place_in new.now.file images.now) new.now)) }
    ensures fit { IfOk result (λ targets. list_all (target_fits ImageRepository) targets ≡ true) }
{
    let target = image_target(alloc, new)?;
    let place = place_among(new.file.text(), images);
    let mut targets = image_targets(alloc, images)?.into_vec();
    targets.insert(place, target)?;
    Ok(Listed::new(targets))
}

fn image_target(alloc: Global, image: &Image) -> Result<Target, AllocError>
    ensures value { IfOk result (λ target. target ≡ target_of_image None image.now) }
    ensures fits { OnOk result (target_fits ImageRepository (target_of_image None image.now) ≡ true) }
{
    Ok(Target {
        ecu: None,
        file: image.file.copy(alloc)?,
        length: image.length,
        sha256: image.sha256,
        sha512: image.sha512,
        hardware: image.hardware.copy(alloc)?,
        release: image.release,
    })
}

/// The place where an image of this filename would stand.
fn place_among(file: &str, images: &[Image]) -> usize
    ensures value { result ≡ place_in file.now images.now }
    ensures within { result ≤ length images.now }
{
    for (place, image) in images.iter().enumerate() {
        match file.cmp(image.file.text()) {
            Ordering::Less => return place,
            Ordering::Equal => {}
            Ordering::Greater => {}
        }
    }
    images.len()
}
