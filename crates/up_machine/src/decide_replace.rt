//! The decision on an ECU that another one replaces.
ghost use Rattle.std.specs.Prelude.{◌≡◌, ◌≤◌, Some, is_some, option_copied, bytes_eq, codes, false, true, Err};
ghost use Rattle.std.specs.List.{list_any};
ghost use Rattle.std.specs.FinMap as table;
ghost use Rattle.up_canon.specs.Moments.{last_command_moment};
ghost use Rattle.up_canon.specs.declared.refusal.Refusal.TheVariants.{BadShape, Memory};
ghost use Rattle.up_canon.specs.Steps.{and_then, or_error};
ghost use Rattle.up_canon.specs.declared.refusal.Refusal.TheVariants.{UnknownVehicle};
ghost use Rattle.up_machine.specs.Vehicles.{public_fits as public_fits_in};
ghost use Rattle.up_machine.specs.Decisions.{GivesReplacement, refusal_names_ecu};
ghost use Rattle.up_machine.specs.declared.rows.VehicleRows.{VehicleRows as VehicleRowsData};
ghost use Rattle.up_machine.specs.Deciding.{check_founded as check_founded_in};
ghost use Rattle.up_machine.specs.Inventory.{decide_replace as decide_replace_in, decide_replacement};
ghost use Rattle.up_machine.specs.Rows.{founding_row, rows_of, vehicle_rows};
ghost use Rattle.up_machine.specs.State.{State, Vehicle, is_taken};

use crate::founded::check_founded;
use crate::public_keys::public_fits;
use crate::rows::VehicleRows;
use crate::vehicle::Replacement;
use std::alloc::Global;
use up_canon::ident::Ident;
use up_canon::listed::Duplicate;
use up_canon::moment::Moment;
use up_canon::refusal::Refusal;
use up_sign::scheme::Scheme;

/// Decides on a replacement, at a command's moment: `BadShape` with `key` where the new ECU's public part doesn't fit; `NotFounded`; `UnknownVehicle`;
/// `UnknownEcu` where the old one is no ECU of the vehicle, as after a first replacement of it; `PrimaryFixed` where it is the Primary; `EcuTaken` where
/// the new identifier is recorded or retired anywhere; `Memory`. The rows are those of the vehicle, and whether the new identifier is so.
#[tactic(auto, unfolding(crate::specs::Inventory::decide_replace, up_canon::specs::Steps::and_then))]
pub fn decide_replace<K: Scheme>(
    alloc: Global,
    scheme: &K,
    at: Moment,
    replacement: &Replacement,
    is_founded: bool,
    vehicle: Option<&VehicleRows>,
    is_taken_already: bool,
) -> Result<(), Refusal>
    requires { at ≤ last_command_moment }
    ensures key { public_fits_in (K.rules scheme.now) replacement.now.ecu.public ≡ false
        → result ≡ Err (BadShape (codes "key")) }
    ensures memory { result ≡ Err Memory → (is_founded ≡ true) × ((v : VehicleRowsData)
        × (option_copied vehicle.entry ≡ Some v) × (refusal_names_ecu replacement.now.old is_taken_already v ≡ true)) }
    ensures decided { (s : State) → is_founded ≡ is_some (founding_row s)
        → option_copied vehicle.entry ≡ vehicle_rows s replacement.now.vehicle
        → is_taken_already ≡ is_taken s replacement.now.ecu.ecu
        → GivesReplacement s replacement.now result (decide_replace_in (K.rules scheme.now) s at replacement.now) }
{
    if public_fits(scheme, replacement.ecu.public.as_slice()) {
        decide_fitting(alloc, replacement, is_founded, vehicle, is_taken_already)
    } else {
        Err(Refusal::from("key"))
    }
}

/// Decides on a replacement whose public part fits.
#[tactic(auto, unfolding(up_canon::specs::Steps::and_then))]
fn decide_fitting(
    alloc: Global,
    replacement: &Replacement,
    is_founded: bool,
    vehicle: Option<&VehicleRows>,
    is_taken_already: bool,
) -> Result<(), Refusal>
    ensures memory { result ≡ Err Memory → (is_founded ≡ true) × ((v : VehicleRowsData)
        × (option_copied vehicle.entry ≡ Some v) × (refusal_names_ecu replacement.now.old is_taken_already v ≡ true)) }
    ensures decided { (s : State) → is_founded ≡ is_some (founding_row s)
        → option_copied vehicle.entry ≡ vehicle_rows s replacement.now.vehicle
        → is_taken_already ≡ is_taken s replacement.now.ecu.ecu → GivesReplacement s replacement.now result
        (and_then (check_founded_in s) (λ _. and_then (or_error UnknownVehicle
        (table.get s.vehicles replacement.now.vehicle)) (decide_replacement s replacement.now))) }
{
    check_founded(is_founded)?;
    decide_known(alloc, replacement, vehicle, is_taken_already)
}

/// Decides on a replacement, once the repositories are founded.
fn decide_known(
    alloc: Global,
    replacement: &Replacement,
    vehicle: Option<&VehicleRows>,
    is_taken_already: bool,
) -> Result<(), Refusal>
    ensures memory { result ≡ Err Memory → (v : VehicleRowsData) × (option_copied vehicle.entry ≡ Some v)
        × (refusal_names_ecu replacement.now.old is_taken_already v ≡ true) }
    ensures decided { (s : State) → option_copied vehicle.entry ≡ vehicle_rows s replacement.now.vehicle
        → is_taken_already ≡ is_taken s replacement.now.ecu.ecu → GivesReplacement s replacement.now result
        (and_then (or_error UnknownVehicle (table.get s.vehicles replacement.now.vehicle))
        (decide_replacement s replacement.now)) }
{
    match vehicle {
        Some(rows) => decide_in(alloc, replacement, rows, is_taken_already),
        None => Err(Refusal::UnknownVehicle),
    }
}

/// Decides on a replacement in a vehicle that is known.
fn decide_in(
    alloc: Global,
    replacement: &Replacement,
    rows: &VehicleRows,
    is_taken_already: bool,
) -> Result<(), Refusal>
    ensures memory { result ≡ Err Memory → refusal_names_ecu replacement.now.old is_taken_already rows.now ≡ true }
    ensures decided { (s : State) (v : Vehicle) → table.get s.vehicles replacement.now.vehicle ≡ Some v
        → rows.now ≡ rows_of replacement.now.vehicle v
        → is_taken_already ≡ is_taken s replacement.now.ecu.ecu
        → GivesReplacement s replacement.now result (decide_replacement s replacement.now v) }
{
    if !stands_in(&replacement.old, rows) {
        return Err(Refusal::UnknownEcu(replacement.old.copy(alloc)?));
    }
    if replacement.old == rows.vehicle.primary {
        return Err(Refusal::PrimaryFixed);
    }
    if is_taken_already {
        return Err(Refusal::EcuTaken(replacement.ecu.ecu.copy(alloc)?));
    }
    Ok(())
}

/// Whether an ECU of the name is among the vehicle's.
fn stands_in(ecu: &Ident, rows: &VehicleRows) -> bool
    ensures { result ≡ list_any (λ row. bytes_eq row.ecu ecu.now) rows.now.ecus }
{
    rows.ecus
        .as_slice()
        .iter()
        .any(|row| row.ecu.text() == ecu.text())
}
