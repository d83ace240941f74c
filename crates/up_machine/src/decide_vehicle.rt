//! Decisions on vehicles of the inventory.
ghost use Rattle.std.specs.Prelude.{◌≡◌, ◌≤◌, [], None, Err, is_some, map, option_copied, codes, false, true};
ghost use Rattle.std.specs.List.{list_all};
ghost use Rattle.std.specs.FinMap as table;
ghost use Rattle.up_canon.specs.Moments.{last_command_moment};
ghost use Rattle.up_canon.specs.declared.refusal.Refusal.TheVariants.{BadShape, Memory, VehicleTaken};
ghost use Rattle.up_canon.specs.Steps.{and_then};
ghost use Rattle.up_machine.specs.Deciding.{check_founded as check_founded_in, where_new};
ghost use Rattle.up_machine.specs.State.{State, added, is_taken};
ghost use Rattle.up_machine.specs.Sound.{IsSound};
ghost use Rattle.up_machine.specs.Rows.{founding_row, rows_of, vehicle_rows};
ghost use Rattle.up_machine.specs.Vehicles.{ecu_names, first_marked, public_fits};
ghost use Rattle.up_machine.specs.Inventory.{same_vehicle as same_vehicle_of, decide_new_vehicle, decide_vehicle as decide_vehicle_in, with_vehicle};
ghost use Rattle.up_machine.specs.Decisions.{GivesDecision};

use crate::decision::Decision;
use crate::founded::check_founded;
use crate::new_vehicle::new_rows;
use crate::public_keys::publics_fit;
use crate::rows::VehicleRows;
use crate::same_vehicle::same_vehicle;
use crate::vehicle::{NewEcu, NewVehicle};
use std::alloc::Global;
use up_canon::ident::Ident;
use up_canon::listed::Duplicate;
use up_canon::moment::Moment;
use up_canon::named::first_repeated;
use up_canon::refusal::Refusal;
use up_sign::scheme::Scheme;

/// Decides on a new vehicle, at a command's moment: `BadShape` with `key` where a public part doesn't fit; `NotFounded`;
/// `Already` where an equal vehicle is there; `VehicleTaken` where another one has its name; `DuplicateEcu`; `EcuTaken`;
/// `Memory`. The rows are those of the vehicle of that name, and for each new ECU whether its name is that of any ECU,
/// or of one that was replaced.
#[tactic(auto, unfolding(crate::specs::Inventory::decide_vehicle, up_canon::specs::Steps::and_then))]
pub fn decide_vehicle<K: Scheme>(
    alloc: Global,
    scheme: &K,
    at: Moment,
    new: &NewVehicle,
    is_founded: bool,
    old: Option<&VehicleRows>,
    taken: &[bool],
) -> Result<Decision<VehicleRows>, Refusal>
    requires { at ≤ last_command_moment }
    ensures key { list_all (λ e. public_fits (K.rules scheme.now) e.public) new.now.ecus ≡ false
        → result ≡ Err (BadShape (codes "key")) }
    ensures memory { result ≡ Err Memory → (is_founded ≡ true) × (option_copied old.entry ≡ None) }
    ensures decided { (s : State) → IsSound (K.rules scheme.now) s → is_founded ≡ is_some (founding_row s)
        → option_copied old.entry ≡ vehicle_rows s new.now.vehicle
        → taken.now ≡ map (is_taken s) (ecu_names new.now.ecus)
        → GivesDecision (λ rows. rows ≡ rows_of new.now.vehicle (added new.now)) s (with_vehicle s new.now) result
        (decide_vehicle_in (K.rules scheme.now) s at new.now) }
{
    if publics_fit(scheme, new.ecus.as_slice()) {
        decide_fitting(alloc, new, is_founded, old, taken)
    } else {
        Err(Refusal::from("key"))
    }
}

/// Decides on a new vehicle whose public parts fit.
#[tactic(auto, unfolding(up_canon::specs::Steps::and_then))]
fn decide_fitting(
    alloc: Global,
    new: &NewVehicle,
    is_founded: bool,
    old: Option<&VehicleRows>,
    taken: &[bool],
) -> Result<Decision<VehicleRows>, Refusal>
    ensures memory { result ≡ Err Memory → (is_founded ≡ true) × (option_copied old.entry ≡ None) }
    ensures decided { (s : State) → is_founded ≡ is_some (founding_row s)
        → option_copied old.entry ≡ vehicle_rows s new.now.vehicle
        → taken.now ≡ map (is_taken s) (ecu_names new.now.ecus)
        → GivesDecision (λ rows. rows ≡ rows_of new.now.vehicle (added new.now)) s (with_vehicle s new.now) result
        (and_then (check_founded_in s) (λ _. where_new s (same_vehicle_of new.now) VehicleTaken
        (table.get s.vehicles new.now.vehicle) (decide_new_vehicle s new.now))) }
{
    check_founded(is_founded)?;
    decide_named(alloc, new, old, taken)
}

/// Decides on a new vehicle, once the repositories are founded.
fn decide_named(
    alloc: Global,
    new: &NewVehicle,
    old: Option<&VehicleRows>,
    taken: &[bool],
) -> Result<Decision<VehicleRows>, Refusal>
    ensures memory { result ≡ Err Memory → option_copied old.entry ≡ None }
    ensures decided { (s : State) → option_copied old.entry ≡ vehicle_rows s new.now.vehicle
        → taken.now ≡ map (is_taken s) (ecu_names new.now.ecus)
        → GivesDecision (λ rows. rows ≡ rows_of new.now.vehicle (added new.now)) s (with_vehicle s new.now) result
        (where_new s (same_vehicle_of new.now) VehicleTaken (table.get s.vehicles new.now.vehicle)
        (decide_new_vehicle s new.now)) }
{
    match old {
        Some(rows) => {
            if same_vehicle(new, rows) {
                Ok(Decision::Already)
            } else {
                Err(Refusal::VehicleTaken)
            }
        }
        None => decide_new(alloc, new, taken),
    }
}

/// Decides on a vehicle of a name that none has.
#[tactic(auto, using(crate::proofs::AddedVehicles::taken_first, crate::proofs::AddedVehicles::rows_of_new), unfolding(crate::specs::Inventory::decide_new_vehicle, up_canon::specs::Steps::and_then))]
fn decide_new(
    alloc: Global,
    new: &NewVehicle,
    taken: &[bool],
) -> Result<Decision<VehicleRows>, Refusal>
    ensures { (s : State) → taken.now ≡ map (is_taken s) (ecu_names new.now.ecus)
        → GivesDecision (λ rows. rows ≡ rows_of new.now.vehicle (added new.now)) s (with_vehicle s new.now) result
        (decide_new_vehicle s new.now) }
{
    let ecus = new.ecus.as_slice();
    if let Some(repeated) = first_repeated(ecus) {
        return Err(Refusal::DuplicateEcu(repeated.ecu.copy(alloc)?));
    }
    if let Some(ecu) = first_taken(ecus, taken) {
        return Err(Refusal::EcuTaken(ecu.copy(alloc)?));
    }
    Ok(Decision::New(new_rows(alloc, new)?))
}

/// The first ECU whose name is marked.
fn first_taken<'a>(ecus: &'a [NewEcu], taken: &[bool]) -> Option<&'a Ident>
    ensures { option_copied result ≡ first_marked ecus.now taken.now }
{
    let [ecu, ecus @ ..] = ecus else {
        return None;
    };
    match taken {
        [] => None,
        [true, ..] => Some(&ecu.ecu),
        [false, taken @ ..] => first_taken(ecus, taken),
    }
}
