//! Vehicles of the inventory.
ghost use Rattle.std.specs.Prelude.{◌≡◌, map};
ghost use Rattle.std.specs.List.{list_all};
ghost use Rattle.up_machine.specs.Vehicles.{public_fits};
ghost use Rattle.up_machine.specs.Inventory.{decide_vehicle as decide_vehicle_in};
ghost use Rattle.up_machine.specs.State.{is_taken as is_taken_in};
ghost use Rattle.up_desk.specs.Carrying.{CarriesIn};
ghost use Rattle.up_desk.specs.Deciding.{DecidesVehicle};
ghost use Rattle.up_records.specs.Sessions.{FindsIn};

use crate::carried::{Carried, put_of};
use crate::command_moment::CommandMoment;
use sqlite::{Alter, Transaction};
use std::alloc::Global;
use up_canon::refusal::Refusal;
use up_machine::answer::Answer;
use up_machine::decide_vehicle::decide_vehicle;
use up_machine::decision::Decision;
use up_machine::public_keys::publics_fit;
use up_machine::rows::VehicleRows;
use up_machine::vehicle::{NewEcu, NewVehicle};
use up_records::catalog::{Catalog, forget};
use up_records::faults::refusal_of;
use up_records::session::{is_taken, read_vehicle};
use up_rows::laws::{ecus_tell_their_hash, rows_are_found, vehicles_are_added};
use up_sign::scheme::Scheme;
use up_store::roots::find_whether_founded;
use up_store::store::StoreFault;
use up_store::vehicles::put_vehicle;

/// Whether the key of each ECU of a new vehicle fits.
pub fn keys_fit<K: Scheme>(scheme: &K, new: &NewVehicle) -> bool
    ensures { result ≡ list_all (λ e. public_fits (K.rules scheme.now) e.public) new.now.ecus }
{
    publics_fit(scheme, new.ecus.as_slice())
}

/// Adds a vehicle.
pub fn add_vehicle<K: Scheme, D: Alter>(
    tx: &mut Transaction<'_, D>,
    catalog: &mut Option<Catalog>,
    alloc: Global,
    scheme: &K,
    at: CommandMoment,
    new: &NewVehicle,
) -> Result<Carried, Refusal>
    ensures { CarriesIn D.Store (K.rules scheme.now) (λ s. decide_vehicle_in (K.rules scheme.now) s at new.now)
        tx.old.conn tx.new.conn catalog.old catalog.new result }
{
    rows_are_found();
    vehicles_are_added();
    ecus_tell_their_hash();
    match decide_adding_vehicle(tx, alloc, scheme, at, new) {
        Ok(Decision::Already) => Ok(Carried::Unchanged(Answer::Already)),
        Ok(Decision::New(rows)) => {
            forget(catalog); // it may be of a vehicle that is not this one
            put_of(Answer::Done, put_vehicle(tx, &rows))
        }
        Err(refusal) => Err(refusal),
    }
}

/// Decides on a vehicle, over the rows that are read.
fn decide_adding_vehicle<K: Scheme, D: Alter>(
    tx: &mut Transaction<'_, D>,
    alloc: Global,
    scheme: &K,
    at: CommandMoment,
    new: &NewVehicle,
) -> Result<Decision<VehicleRows>, Refusal>
    ensures { DecidesVehicle D.Store (K.rules scheme.now) at new.now tx.old.conn tx.new.conn result }
{
    let founded = match find_whether_founded(tx, alloc) {
        Ok(founded) => founded,
        Err(fault) => return Err(refusal_of(fault)),
    };
    let old = match read_vehicle(tx, alloc, &new.vehicle) {
        Ok(old) => old,
        Err(fault) => return Err(refusal_of(fault)),
    };
    match taken_marks(tx, alloc, new.ecus.as_slice()) {
        Ok(marks) => decide_vehicle(
            alloc,
            scheme,
            at.moment(),
            new,
            founded,
            old.as_ref(),
            marks.as_slice(),
        ),
        Err(fault) => Err(refusal_of(fault)),
    }
}

/// Marks for each new ECU whether its name is that of an ECU, or of one that was replaced.
fn taken_marks<D: Alter>(
    tx: &mut Transaction<'_, D>,
    alloc: Global,
    ecus: &[NewEcu],
) -> Result<Vec<bool>, StoreFault>
    ensures { FindsIn D.Store (λ _ s marks. marks.items ≡ map (λ e. is_taken_in s e.ecu) ecus.now)
        tx.old.conn tx.new.conn result }
{
    let mut marks = Vec::with_capacity(alloc, ecus.len())?;
    for ecu in ecus {
        match is_taken(tx, &ecu.ecu) {
            Ok(is_taken) => marks.push(is_taken)?,
            Err(fault) => return Err(fault),
        }
    }
    Ok(marks)
}
