//! Levels, and the image that an ECU wants.
ghost use Rattle.std.specs.Prelude.{◌≡◌, option_copied};
ghost use Rattle.up_plan.specs.ByFile.{registered_at};
ghost use Rattle.up_plan.specs.ByOffers.{level_by, wanted_by};
ghost use Rattle.up_plan.specs.Planning.{agrees as agrees_as, is_reported as is_reported_as, reported_image as registered_image};

use crate::assigned::Fitted;
use crate::image::Image;
use crate::offers::{Offer, greatest_for};
use up_canon::named::has_name;
use up_canon::table::Table;

/// The registered image of what the ECU reports.
pub(crate) fn registered<'a>(images: &'a [Image], e: &Fitted) -> Option<&'a Image>
    ensures { option_copied result ≡ registered_image images.now e.now }
{
    images.iter().find(|image| is_reported(image, e))
}

/// The same of images that are looked up by their filenames.
pub(crate) fn registered_over<'a>(images: &'a Table<Image>, e: &Fitted) -> Option<&'a Image>
    ensures { option_copied result ≡ registered_at images.now e.now }
{
    match images.get(e.image.file.text()) {
        Some(image) if is_reported(image, e) => Some(image),
        _ => None,
    }
}

fn is_reported(image: &Image, e: &Fitted) -> bool
    ensures { result ≡ is_reported_as e.now.hardware e.now.image image.now }
{
    image.file.text() == e.image.file.text()
        && image.length.get() == e.image.length.get()
        && image.sha256 == e.image.sha256
        && agrees(&image.sha512, &e.image.sha512)
        && has_name(image.hardware.as_slice(), e.hardware.text())
}

/// Whether second hashes are equal, or one of them isn't there.
fn agrees(registered: &Option<[u8; 64]>, reported: &Option<[u8; 64]>) -> bool
    ensures { result ≡ agrees_as registered.now reported.now }
{
    match (registered, reported) {
        (Some(a), Some(b)) => a == b,
        _ => true,
    }
}

/// The release counter of the image, 0 where there is none.
pub(crate) fn level(registered: Option<&Image>) -> u64
    ensures { result ≡ level_by (option_copied registered.entry) }
{
    match registered {
        Some(image) => image.release.get(),
        None => 0,
    }
}

/// The greatest image that is offered for the ECU's hardware, where it is above the level of the registered image.
pub(crate) fn wanted<'a>(
    offers: &[Offer<'a>],
    e: &Fitted,
    registered: Option<&Image>,
) -> Option<&'a Image>
    ensures { option_copied result ≡ wanted_by offers.now e.now (option_copied registered.entry) }
{
    let image = greatest_for(offers, &e.hardware)?;
    if level(registered) < image.release.get() {
        Some(image)
    } else {
        None
    }
}
