//! The resulting set: each ECU as it is where each gets its wanted image.
ghost use Rattle.std.specs.Prelude.{◌≡◌, map, option_copied, IfOk};
ghost use Rattle.up_plan.specs.ByFile.{resulting_at};
ghost use Rattle.up_plan.specs.ByOffers.{resulting_by, with_wanted_by};
ghost use Rattle.up_plan.specs.Planning.{resulting as resulting_of};

use crate::assigned::Fitted;
use crate::campaign::Item;
use crate::image::Image;
use crate::offers::{Offer, offers, offers_over};
use crate::wanted::{level, registered, registered_over, wanted};
use std::alloc::{AllocError, Global};
use std::marker::Model;
use up_canon::file_name::FileName;
use up_canon::ident::Ident;
use up_canon::table::Table;

/// An ECU as it is where each gets its wanted image: whether it is updated, its file, its level, and its registered image.
#[derive(Drop)]
pub(crate) struct Resulting<'a> {
    pub(crate) ecu: &'a Ident,
    pub(crate) hardware: &'a Ident,
    pub(crate) updated: bool,
    pub(crate) file: &'a FileName,
    pub(crate) level: u64,
    pub(crate) image: Option<&'a Image>,
}

impl<'a> Model for Resulting<'a> {
    ghost use Rattle.std.specs.Prelude.{option_copied};
    ghost use Rattle.up_plan.specs.Planning.{Resulting as Seen};

    ghost Value = { Seen };

    ghost view = { λ a. record {
      ecu = a.ecu.now;
      hardware = a.hardware.now;
      updated = a.updated;
      file = a.file.now;
      level = a.level;
      image = option_copied a.image;
    } };
}

pub(crate) fn resulting_set<'a>(
    alloc: Global,
    images: &'a [Image],
    items: &[&'a Item],
    fitted: &'a [Fitted],
) -> Result<Vec<Resulting<'a>>, AllocError>
    ensures { IfOk result (λ set. set.items ≡ resulting_of images.now (map (λ i. i.now) items.now) fitted.now) }
{
    let offers = offers(alloc, images, items)?;
    let mut set = Vec::with_capacity(alloc, fitted.len())?;
    for e in fitted {
        set.push(resulting_ecu(offers.as_slice(), e, registered(images, e)))?;
    }
    Ok(set)
}

/// The same of images that are looked up by their filenames.
pub(crate) fn resulting_over<'a>(
    alloc: Global,
    images: &'a Table<Image>,
    items: &[&'a Item],
    fitted: &'a [Fitted],
) -> Result<Vec<Resulting<'a>>, AllocError>
    ensures { IfOk result (λ set. set.items ≡ resulting_at images.now (map (λ i. i.now) items.now) fitted.now) }
{
    let offers = offers_over(alloc, images, items)?;
    let mut set = Vec::with_capacity(alloc, fitted.len())?;
    for e in fitted {
        set.push(resulting_ecu(offers.as_slice(), e, registered_over(images, e)))?;
    }
    Ok(set)
}

/// An ECU by what is offered, and by the registered image of what it reports.
fn resulting_ecu<'a>(
    offers: &[Offer<'a>],
    e: &'a Fitted,
    registered: Option<&'a Image>,
) -> Resulting<'a>
    ensures { result ≡ resulting_by offers.now e.now (option_copied registered.entry) }
{
    match wanted(offers, e, registered) {
        Some(image) => Resulting {
            ecu: &e.ecu,
            hardware: &e.hardware,
            updated: true,
            file: &image.file,
            level: image.release.get(),
            image: Some(image),
        },
        None => as_reported(e, registered),
    }
}

fn as_reported<'a>(e: &'a Fitted, registered: Option<&'a Image>) -> Resulting<'a>
    ensures { result ≡ with_wanted_by e.now (option_copied registered.entry) None }
{
    Resulting {
        ecu: &e.ecu,
        hardware: &e.hardware,
        updated: false,
        file: &e.image.file,
        level: level(registered),
        image: registered,
    }
}
