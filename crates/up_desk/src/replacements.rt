//! ECUs that replace others.
ghost use Rattle.std.specs.Prelude.{◌≡◌};
ghost use Rattle.up_machine.specs.Vehicles.{public_fits as public_fits_in};
ghost use Rattle.up_machine.specs.Inventory.{decide_replace as decide_replace_in};
ghost use Rattle.up_desk.specs.Carrying.{CarriesIn};
ghost use Rattle.up_desk.specs.Deciding.{DecidesReplace};

use crate::carried::{Carried, put_of};
use crate::command_moment::CommandMoment;
use sqlite::{Alter, Transaction};
use std::alloc::Global;
use up_canon::refusal::Refusal;
use up_machine::answer::Answer;
use up_machine::decide_replace::decide_replace;
use up_machine::public_keys::public_fits;
use up_machine::vehicle::Replacement;
use up_records::catalog::{Catalog, forget};
use up_records::faults::refusal_of;
use up_records::session::{is_taken, read_vehicle};
use up_rows::laws::{ecus_are_replaced, rows_are_found};
use up_sign::scheme::Scheme;
use up_store::replaced::put_replaced;
use up_store::roots::find_whether_founded;

/// Whether the key of the ECU that replaces another fits.
pub fn key_fits<K: Scheme>(scheme: &K, new: &Replacement) -> bool
    ensures { result ≡ public_fits_in (K.rules scheme.now) new.now.ecu.public }
{
    public_fits(scheme, new.ecu.public.as_slice())
}

/// Replaces an ECU.
pub fn replace_ecu<K: Scheme, D: Alter>(
    tx: &mut Transaction<'_, D>,
    catalog: &mut Option<Catalog>,
    alloc: Global,
    scheme: &K,
    at: CommandMoment,
    new: &Replacement,
) -> Result<Carried, Refusal>
    ensures { CarriesIn D.Store (K.rules scheme.now) (λ s. decide_replace_in (K.rules scheme.now) s at new.now)
        tx.old.conn tx.new.conn catalog.old catalog.new result }
{
    rows_are_found();
    ecus_are_replaced();
    match decide_replacing(tx, alloc, scheme, at, new) {
        Ok(()) => {
            forget(catalog); // the Primary of the vehicle may change
            put_of(Answer::Done, put_replaced(tx, new))
        }
        Err(refusal) => Err(refusal),
    }
}

/// Decides on a replacement, over the rows that are read.
fn decide_replacing<K: Scheme, D: Alter>(
    tx: &mut Transaction<'_, D>,
    alloc: Global,
    scheme: &K,
    at: CommandMoment,
    new: &Replacement,
) -> Result<(), Refusal>
    ensures { DecidesReplace D.Store (K.rules scheme.now) at new.now tx.old.conn tx.new.conn result }
{
    let founded = match find_whether_founded(tx, alloc) {
        Ok(founded) => founded,
        Err(fault) => return Err(refusal_of(fault)),
    };
    let vehicle = match read_vehicle(tx, alloc, &new.vehicle) {
        Ok(vehicle) => vehicle,
        Err(fault) => return Err(refusal_of(fault)),
    };
    match is_taken(tx, &new.ecu.ecu) {
        Ok(taken) => decide_replace(
            alloc,
            scheme,
            at.moment(),
            new,
            founded,
            vehicle.as_ref(),
            taken,
        ),
        Err(fault) => Err(refusal_of(fault)),
    }
}
