//! The register of images.
ghost use Rattle.std.specs.Prelude.{◌≡◌};
ghost use Rattle.up_machine.specs.Repositories.{decide_image as decide_image_in};
ghost use Rattle.up_machine.specs.Repositories.{decide_refresh as decide_refresh_in};
ghost use Rattle.up_machine.specs.Decisions.{HasRegisterRows};
ghost use Rattle.up_machine.specs.Due.{CanMakeFiles, HasFounding, HasNewFiles};
ghost use Rattle.up_machine.specs.State.{State};
ghost use Rattle.up_desk.specs.Carrying.{CarriesIn};
ghost use Rattle.up_desk.specs.Deciding.{DecidesImage, DecidesRefresh};
ghost use Rattle.up_records.specs.Sessions.{FindsUnder};

use crate::carried::{Carried, put_of};
use crate::command_moment::CommandMoment;
use sqlite::{Alter, Transaction};
use std::alloc::Global;
use up_canon::count::Count;
use up_canon::refusal::Refusal;
use up_machine::answer::Answer;
use up_machine::decide_register::{decide_image, decide_new_image, decide_refresh};
use up_machine::decision::{Decision, RegisterRows};
use up_machine::new_files::register_rows;
use up_machine::rows::Founding;
use up_plan::image::Image;
use up_records::catalog::{Catalog, forget};
use up_records::faults::refusal_of;
use up_records::session::read_founding;
use up_rows::laws::images_are_added;
use up_sign::scheme::Scheme;
use up_store::images::{find_image, find_images, put_image};
use up_store::roots::put_register;
use up_store::store::StoreFault;

/// Registers an image.
pub fn add_image<K: Scheme, D: Alter>(
    tx: &mut Transaction<'_, D>,
    catalog: &mut Option<Catalog>,
    alloc: Global,
    scheme: &K,
    at: CommandMoment,
    image: &Image,
) -> Result<Carried, Refusal>
    ensures { CarriesIn D.Store (K.rules scheme.now) (λ s. decide_image_in (K.rules scheme.now) s at image.now)
        tx.old.conn tx.new.conn catalog.old catalog.new result }
{
    images_are_added();
    match decide_adding(tx, alloc, scheme, at, image) {
        Ok(Decision::Already) => Ok(Carried::Unchanged(Answer::Already)),
        Ok(Decision::New(rows)) => {
            forget(catalog); // its images lack the new one
            put_of(Answer::Done, put_image(tx, alloc, image, &rows))
        }
        Err(refusal) => Err(refusal),
    }
}

/// Decides on an image, over the rows that are read: all images only where its filename is new.
fn decide_adding<K: Scheme, D: Alter>(
    tx: &mut Transaction<'_, D>,
    alloc: Global,
    scheme: &K,
    at: CommandMoment,
    image: &Image,
) -> Result<Decision<RegisterRows>, Refusal>
    ensures { DecidesImage D.Store (K.rules scheme.now) at image.now tx.old.conn tx.new.conn result }
{
    let founding = match read_founding(tx, alloc, scheme) {
        Ok(founding) => founding,
        Err(fault) => return Err(refusal_of(fault)),
    };
    let old = match find_image(tx, alloc, &image.file) {
        Ok(old) => old,
        Err(fault) => return Err(refusal_of(fault)),
    };
    let at = at.moment();
    let founding = match decide_image(at, image, founding, old.as_ref()) {
        Ok(Decision::Already) => return Ok(Decision::Already),
        Ok(Decision::New(founding)) => founding,
        Err(refusal) => return Err(refusal),
    };
    match find_images(tx, alloc) {
        Ok(images) => Ok(Decision::New(decide_new_image(
            alloc, scheme, at, image, founding, &images,
        )?)),
        Err(fault) => Err(refusal_of(fault)),
    }
}

/// Makes the image repository's files anew, with this version.
pub fn refresh<K: Scheme, D: Alter>(
    tx: &mut Transaction<'_, D>,
    catalog: &mut Option<Catalog>,
    alloc: Global,
    scheme: &K,
    at: CommandMoment,
    version: Count,
) -> Result<Carried, Refusal>
    ensures { CarriesIn D.Store (K.rules scheme.now) (λ s. decide_refresh_in (K.rules scheme.now) s at version)
        tx.old.conn tx.new.conn catalog.old catalog.new result }
{
    images_are_added();
    match decide_refreshing(tx, alloc, scheme, at, version) {
        Ok(rows) => {
            forget(catalog); // its numbers are those before the refresh
            put_of(Answer::Done, put_register(tx, &rows))
        }
        Err(refusal) => Err(refusal),
    }
}

/// Decides on new files, and makes their rows.
fn decide_refreshing<K: Scheme, D: Alter>(
    tx: &mut Transaction<'_, D>,
    alloc: Global,
    scheme: &K,
    at: CommandMoment,
    version: Count,
) -> Result<RegisterRows, Refusal>
    ensures { DecidesRefresh D.Store (K.rules scheme.now) at version tx.old.conn tx.new.conn result }
{
    let founding = match read_founding(tx, alloc, scheme) {
        Ok(founding) => founding,
        Err(fault) => return Err(refusal_of(fault)),
    };
    match decide_refresh(at.moment(), version, founding) {
        Ok(founding) => match make_register_rows(tx, alloc, scheme, founding) {
            Ok(rows) => Ok(rows),
            Err(fault) => Err(refusal_of(fault)),
        },
        Err(refusal) => Err(refusal),
    }
}

/// Makes the rows of new files that are due, with all images, which are read here, after every refusal.
fn make_register_rows<K: Scheme, D: Alter>(
    tx: &mut Transaction<'_, D>,
    alloc: Global,
    scheme: &K,
    founding: Founding,
) -> Result<RegisterRows, StoreFault>
    requires { CanMakeFiles (K.rules scheme.now) founding }
    ensures { FindsUnder D.Store (K.rules scheme.now) (λ s rows. (next : State) → HasFounding next founding → HasNewFiles (K.rules scheme.now) next
        → next.images ≡ s.images → HasRegisterRows next rows) tx.old.conn tx.new.conn result }
{
    match find_images(tx, alloc) {
        Ok(images) => Ok(register_rows(alloc, scheme, founding, &images)?),
        Err(fault) => Err(fault),
    }
}
