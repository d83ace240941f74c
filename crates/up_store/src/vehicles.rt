//! Vehicles and their ECUs.
ghost use Rattle.std.specs.Prelude.{◌≡◌, ◌<◌, ◌^◌, ⊤, IfOk, IfErr, Some, false, string_bytes};
ghost use Rattle.up_canon.specs.Names.{is_ident};
ghost use Rattle.up_rows.specs.Changes.{with_vehicle_rows};
ghost use Rattle.up_rows.specs.Lookups.{last_owner, owner_found};
ghost use Rattle.up_tables.specs.Forms.{FitVehicle};
ghost use Rattle.up_tables.specs.Statements.{Finds};
ghost use Rattle.up_tables.specs.Tables.{ecu_table, retired_table, vehicle_table};
ghost use Rattle.up_tables.specs.declared.values.StoreFault.TheVariants as StoreFault;
ghost use Rattle.up_store.specs.Connections.{PutsRows};
ghost use Rattle.up_store.specs.Fitting.{IsNewVehicle};
ghost use Rattle.up_store.specs.Found.{vehicle_found, ecus_found};
ghost use Rattle.up_store.specs.ReadAs.{FindsBoth, ReadsEcus, ReadsOwner, ReadsVehicle, StandsIn};
ghost use Rattle.up_store.specs.Shown.{vehicle_read};
ghost use Rattle.up_store.specs.Typed.{IsTypedVehicleRow};
ghost use Rattle.up_store.specs.Within.{FindsWithin, MakesAndPuts};
ghost use Rattle.up_store.specs.Writes.{FitsVehicle, vehicle_writes};

use crate::column_values::{check_places, check_version, count_at, ident_at, ident_in};
use crate::ecus::{EcuReading, add_ecus};
use crate::store::StoreFault;
use sqlite::{Alter, Row, Transaction};
use std::alloc::Global;
use up_canon::ident::Ident;
use up_canon::listed::Listed;
use up_machine::rows::{EcuRow, VehicleRow, VehicleRows};
use up_tables::ecu::{ecu_owner as owner_shown, ecus as ecus_shown};
use up_tables::reading::RowReading;
use up_tables::retired::retired_owner;
use up_tables::values::number_at;
use up_tables::vehicle::{VehicleRow as VehicleShown, insert_vehicle, vehicle as vehicle_shown};

/// How a row of `vehicle` is read.
pub struct VehicleReading;

impl RowReading for VehicleReading {
    ghost use Rattle.up_store.specs.Lines.{row_of_vehicle};
    ghost use Rattle.up_store.specs.ReadAs.{SaysVehicle};
    ghost use Rattle.up_store.specs.Typed.{IsTypedVehicleRow};

    type Item = VehicleRow;

    ghost says = { SaysVehicle };

    ghost fits = { IsTypedVehicleRow };

    ghost line = { row_of_vehicle };

    fn read(_: Global, row: &Row) -> Result<VehicleRow, StoreFault> {
        // Numbers first: where one is damaged, no text was copied yet.
        Ok(VehicleRow {
            version: number_at(row, 2)?,
            last: count_at(row, 3)?,
            vehicle: ident_at(row, 0)?,
            primary: ident_at(row, 1)?,
        })
    }
}

/// The vehicle's row.
pub fn find_vehicle<D: Alter>(
    tx: &mut Transaction<'_, D>,
    alloc: Global,
    vehicle: &Ident,
) -> Result<Option<VehicleRow>, StoreFault>
    ensures { FindsWithin D.Store (λ rows found. found ≡ vehicle_found vehicle.now rows)
        (Finds vehicle_table 1 (ReadsVehicle vehicle.now)) (λ _. ⊤) tx.old.conn tx.new.conn result }
{
    vehicle_shown::<D, VehicleReading>(tx, alloc, vehicle.text())
}

/// The vehicle's ECUs.
pub fn find_ecus<D: Alter>(
    tx: &mut Transaction<'_, D>,
    alloc: Global,
    vehicle: &Ident,
) -> Result<Listed<EcuRow>, StoreFault>
    ensures { FindsWithin D.Store (λ rows found. found ≡ ecus_found vehicle.now rows)
        (Finds ecu_table 2 (ReadsEcus vehicle.now)) (λ _. ⊤) tx.old.conn tx.new.conn result }
{
    match ecus_shown::<D, EcuReading>(tx, alloc, vehicle.text()) {
        Ok(ecus) => Ok(Listed::new(ecus)),
        Err(fault) => Err(fault),
    }
}

/// The vehicle of an ECU, or of one that was replaced.
pub fn find_owner<D: Alter>(
    tx: &mut Transaction<'_, D>,
    ecu: &Ident,
) -> Result<Option<Ident>, StoreFault>
    ensures { FindsWithin D.Store (λ rows found. found ≡ owner_found ecu.now rows)
        (FindsBoth ecu_table 2 retired_table 2 (ReadsOwner ecu.now)) (λ _. ⊤) tx.old.conn tx.new.conn result }
{
    match owner_shown(tx, ecu.text()) {
        Ok(Some(shown)) => name_of(shown),
        Ok(None) => find_retired(tx, ecu),
        Err(fault) => Err(fault),
    }
}

/// The vehicle in which an ECU of the name was replaced.
fn find_retired<D: Alter>(
    tx: &mut Transaction<'_, D>,
    ecu: &Ident,
) -> Result<Option<Ident>, StoreFault>
    ensures { FindsWithin D.Store (λ rows found. found ≡ last_owner ecu.now rows)
        (Finds retired_table 2 (StandsIn ecu.now)) (λ _. ⊤) tx.old.conn tx.new.conn result }
{
    match retired_owner(tx, ecu.text()) {
        Ok(Some(last)) => name_of(last),
        Ok(None) => Ok(None),
        Err(fault) => Err(fault),
    }
}

/// A name as it stands in the table.
fn name_of(shown: String) -> Result<Option<Ident>, StoreFault>
    ensures ok { IfOk result (λ read. read ≡ Some (string_bytes shown)) }
    ensures fault { IfErr result (λ fault. (fault ≡ StoreFault.Store) × (is_ident (string_bytes shown) ≡ false)) }
{
    match ident_in(shown) {
        Ok(name) => Ok(Some(name)),
        Err(fault) => Err(fault),
    }
}

/// Puts in a vehicle with its ECUs.
pub fn put_vehicle<D: Alter>(
    tx: &mut Transaction<'_, D>,
    new: &VehicleRows,
) -> Result<(), StoreFault>
    ensures { MakesAndPuts D.Store (PutsRows (IsNewVehicle new.now) (λ rows. with_vehicle_rows rows new.now))
        (vehicle_writes new.now) (λ _. FitsVehicle new.now) tx.old.conn tx.new.conn result }
{
    check_version(new.vehicle.version)?;
    check_places(new.ecus.as_slice().len())?;
    insert_vehicle(tx, &row_of(&new.vehicle))?;
    add_ecus(tx, &new.vehicle.vehicle, new.ecus.as_slice())
}

/// The row of a vehicle, whose version fits its column.
pub(crate) fn row_of<'a>(row: &'a VehicleRow) -> VehicleShown<'a>
    requires version { row.now.version < 2 ^ 63 }
    ensures same { vehicle_read result ≡ row.now }
    ensures fit { FitVehicle result }
    ensures typed { IsTypedVehicleRow row.now }
{
    VehicleShown {
        vehicle: row.vehicle.text(),
        primary_ecu: row.primary.text(),
        version: row.version,
        last_counter: row.last.get(),
    }
}
