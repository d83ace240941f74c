//! What items offer: the images of their files, looked up once for all ECUs.
ghost use Rattle.std.specs.Prelude.{◌≡◌, ℕ, List, [], map, option_copied, IfOk, IsOk};
ghost use Rattle.std.specs.BTreeMap.{get_by};
ghost use Rattle.std.specs.Cmp.Lexicographic.{slice_cmp};
ghost use Rattle.std.specs.Ordering.{nat_cmp};
ghost use Rattle.up_plan.specs.ByFile.{offers_at};
ghost use Rattle.up_plan.specs.Offers.{greatest_of_file, greatest_offer, offers_of};
ghost use Rattle.up_plan.specs.Planning.{greater as greater_of, is_above as is_above_of};

use crate::campaign::Item;
use crate::image::Image;
use std::alloc::{AllocError, Global};
use std::collections::BTreeMap;
use std::marker::Model;
use up_canon::ident::Ident;
use up_canon::table::Table;

/// An image that an item has for the hardware.
#[derive(Drop)]
pub(crate) struct Offer<'a> {
    pub(crate) hardware: &'a Ident,
    pub(crate) image: &'a Image,
}

impl<'a> Model for Offer<'a> {
    ghost use Rattle.up_plan.specs.Offers.{OfferData};

    ghost Value = { OfferData };

    ghost view = { λ a. record { hardware = a.hardware.now; image = a.image.now } };
}

/// What the items offer, without those whose file isn't registered.
pub(crate) fn offers<'a>(
    alloc: Global,
    images: &'a [Image],
    items: &[&'a Item],
) -> Result<Vec<Offer<'a>>, AllocError>
    ensures { IfOk result (λ offers. offers.items ≡ offers_of images.now (map (λ i. i.now) items.now)) }
{
    let files = greatest_by_file(alloc, images)?;
    let mut offers = Vec::new(alloc);
    for item in items {
        if let Some(image) = files.get(item.file.text()) {
            offers.push(Offer {
                hardware: &item.hardware,
                image,
            })?;
        }
    }
    Ok(offers)
}

/// The same of images that are looked up by their filenames.
pub(crate) fn offers_over<'a>(
    alloc: Global,
    images: &'a Table<Image>,
    items: &[&'a Item],
) -> Result<Vec<Offer<'a>>, AllocError>
    ensures value { IfOk result (λ offers. offers.items ≡ offers_at images.now (map (λ i. i.now) items.now)) }
    ensures none { offers_at images.now (map (λ i. i.now) items.now) ≡ [] → IsOk result }
{
    let mut offers = Vec::new(alloc);
    for item in items {
        if let Some(image) = images.get(item.file.text()) {
            offers.push(Offer {
                hardware: &item.hardware,
                image,
            })?;
        }
    }
    Ok(offers)
}

/// For each filename the greatest of its images.
fn greatest_by_file<'a>(
    alloc: Global,
    images: &'a [Image],
) -> Result<BTreeMap<&'a str, &'a Image>, AllocError>
    ensures { IfOk result (λ files. (q : List ℕ)
        → option_copied (get_by (λ k. slice_cmp nat_cmp q k.now) files) ≡ greatest_of_file images.now q) }
{
    let mut files = BTreeMap::new(alloc);
    for image in images {
        let file = image.file.text();
        let best = greater(files.get(file).copied(), image);
        files.insert(file, best)?;
    }
    Ok(files)
}

/// The greatest of the images that are offered for the hardware.
pub(crate) fn greatest_for<'a>(offers: &[Offer<'a>], hardware: &Ident) -> Option<&'a Image>
    ensures { option_copied result ≡ greatest_offer offers.now hardware.now }
{
    let mut best = None;
    for offer in offers {
        if offer.hardware.text() == hardware.text() {
            best = Some(greater(best, offer.image));
        }
    }
    best
}

fn greater<'a>(best: Option<&'a Image>, image: &'a Image) -> &'a Image
    ensures { result.now ≡ greater_of (option_copied best.entry) image.now }
{
    match best {
        Some(other) if !is_above(image, other) => other,
        _ => image,
    }
}

fn is_above(a: &Image, b: &Image) -> bool
    ensures { result ≡ is_above_of a.now b.now }
{
    b.release.get() < a.release.get()
        || (a.release.get() == b.release.get() && a.file.text() < b.file.text())
}
