//! Foundings and rotations.
ghost use Rattle.std.specs.Prelude.{◌≡◌};
ghost use Rattle.up_machine.specs.Repositories.{decide_found as decide_found_in, decide_rotate as decide_rotate_in};
ghost use Rattle.up_machine.specs.Decisions.{HasRootRows};
ghost use Rattle.up_machine.specs.Due.{CanMakeRoot, HasRoot};
ghost use Rattle.up_machine.specs.State.{State};
ghost use Rattle.up_desk.specs.Carrying.{CarriesIn};
ghost use Rattle.up_desk.specs.Deciding.{DecidesFound, DecidesRotate};
ghost use Rattle.up_records.specs.Sessions.{FindsUnder};

use crate::carried::{Carried, put_of};
use crate::command_moment::CommandMoment;
use sqlite::{Alter, Transaction};
use std::alloc::Global;
use up_canon::moment::Moment;
use up_canon::refusal::Refusal;
use up_machine::answer::Answer;
use up_machine::decide_root::{decide_found, decide_rotate};
use up_machine::decision::{NextRoot, RootRows};
use up_machine::new_files::root_rows;
use up_metadata::keys::KeySet;
use up_records::catalog::{Catalog, forget};
use up_records::faults::refusal_of;
use up_records::session::read_founding;
use up_rows::laws::roots_are_added;
use up_sign::scheme::Scheme;
use up_store::images::find_images;
use up_store::roots::{find_whether_founded, put_root};
use up_store::store::StoreFault;

/// Founds the repositories with these keys.
pub fn found<K: Scheme, D: Alter>(
    tx: &mut Transaction<'_, D>,
    catalog: &mut Option<Catalog>,
    alloc: Global,
    scheme: &K,
    at: CommandMoment,
    keys: &KeySet,
) -> Result<Carried, Refusal>
    ensures { CarriesIn D.Store (K.rules scheme.now) (λ s. decide_found_in (K.rules scheme.now) s at keys.now)
        tx.old.conn tx.new.conn catalog.old catalog.new result }
{
    roots_are_added();
    match decide_founding(tx, alloc, scheme, at, keys) {
        Ok(rows) => {
            forget(catalog); // nothing was founded of which it could be
            put_of(Answer::Done, put_root(tx, alloc, &rows))
        }
        Err(refusal) => Err(refusal),
    }
}

/// Decides on a founding, and makes its rows.
fn decide_founding<K: Scheme, D: Alter>(
    tx: &mut Transaction<'_, D>,
    alloc: Global,
    scheme: &K,
    at: CommandMoment,
    keys: &KeySet,
) -> Result<RootRows, Refusal>
    ensures { DecidesFound D.Store (K.rules scheme.now) at keys.now tx.old.conn tx.new.conn result }
{
    let founded = match find_whether_founded(tx, alloc) {
        Ok(founded) => founded,
        Err(fault) => return Err(refusal_of(fault)),
    };
    let at = at.moment();
    match decide_found(alloc, scheme, at, keys, founded) {
        Ok(new) => match make_root_rows(tx, alloc, scheme, at, keys, &new) {
            Ok(rows) => Ok(rows),
            Err(fault) => Err(refusal_of(fault)),
        },
        Err(refusal) => Err(refusal),
    }
}

/// Makes the next root version, with these keys.
pub fn rotate<K: Scheme, D: Alter>(
    tx: &mut Transaction<'_, D>,
    catalog: &mut Option<Catalog>,
    alloc: Global,
    scheme: &K,
    at: CommandMoment,
    keys: &KeySet,
) -> Result<Carried, Refusal>
    ensures { CarriesIn D.Store (K.rules scheme.now) (λ s. decide_rotate_in (K.rules scheme.now) s at keys.now)
        tx.old.conn tx.new.conn catalog.old catalog.new result }
{
    roots_are_added();
    match decide_rotation(tx, alloc, scheme, at, keys) {
        Ok(rows) => {
            forget(catalog); // its keys are those of the root version before
            put_of(Answer::Done, put_root(tx, alloc, &rows))
        }
        Err(refusal) => Err(refusal),
    }
}

/// Decides on a rotation, and makes its rows.
fn decide_rotation<K: Scheme, D: Alter>(
    tx: &mut Transaction<'_, D>,
    alloc: Global,
    scheme: &K,
    at: CommandMoment,
    keys: &KeySet,
) -> Result<RootRows, Refusal>
    ensures { DecidesRotate D.Store (K.rules scheme.now) at keys.now tx.old.conn tx.new.conn result }
{
    let founding = match read_founding(tx, alloc, scheme) {
        Ok(founding) => founding,
        Err(fault) => return Err(refusal_of(fault)),
    };
    let at = at.moment();
    match decide_rotate(alloc, scheme, at, keys, founding) {
        Ok(new) => match make_root_rows(tx, alloc, scheme, at, keys, &new) {
            Ok(rows) => Ok(rows),
            Err(fault) => Err(refusal_of(fault)),
        },
        Err(refusal) => Err(refusal),
    }
}

/// Makes the rows of a root version that is due, with all images, which are read here, after every refusal.
fn make_root_rows<K: Scheme, D: Alter>(
    tx: &mut Transaction<'_, D>,
    alloc: Global,
    scheme: &K,
    at: Moment,
    keys: &KeySet,
    new: &NextRoot,
) -> Result<RootRows, StoreFault>
    requires { CanMakeRoot (K.rules scheme.now) at keys.now new.now }
    ensures { FindsUnder D.Store (K.rules scheme.now) (λ s rows. (next : State) → HasRoot (K.rules scheme.now) next at keys.now new.now
        → next.images ≡ s.images → HasRootRows next rows) tx.old.conn tx.new.conn result }
{
    match find_images(tx, alloc) {
        Ok(images) => Ok(root_rows(alloc, scheme, at, keys, new, &images)?),
        Err(fault) => Err(fault),
    }
}
