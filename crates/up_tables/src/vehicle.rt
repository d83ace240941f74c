//! The rows of vehicles.

ghost use Rattle.std.specs.Prelude.{◌≡◌, ◌≢◌, ◌↔◌, ◌∷◌, [], map, Err, IsTrue, OnOk, IfOk, IfErr};
ghost use Rattle.std.specs.Result.{IsOkAnd};
ghost use Rattle.sqlite.specs.declared.types.Value.TheVariants.{Text};
ghost use Rattle.up_tables.specs.Texts.{insert_vehicle_text, upsert_vehicle_text, find_vehicle_text};
ghost use Rattle.up_tables.specs.Faults.{store_fault};
ghost use Rattle.up_tables.specs.Tables.{vehicle_table};
ghost use Rattle.up_tables.specs.Rows.{columns_at, with_row};
ghost use Rattle.up_tables.specs.Forms.{vehicle_places, vehicle_row, FitVehicle};
ghost use Rattle.up_tables.specs.Stored.{AreLines, AreWritten, IsFound, IsTold, IsWritten};
ghost use Rattle.up_tables.specs.Statements.{AltersRows, SetsVehicle, HasVehicle};
ghost use Rattle.up_tables.specs.declared.values.StoreFault.TheVariants as StoreFault;

use crate::reading::RowReading;
use crate::statement::{find_value, write};
use crate::values::{StoreFault, fault_of, has_number, has_words, number, words};
use sqlite::{Alter, Error, Row, Transaction};
use std::alloc::Global;

/// A row of `vehicle`: its Primary ECU, the number of its accepted manifests, and the counter of the last one, 0 before it.
#[derive(Drop)]
pub struct VehicleRow<'a> {
    pub vehicle: &'a str,
    pub primary_ecu: &'a str,
    pub version: u64,
    pub last_counter: u64,
}

/// Puts in the row of a vehicle; `Store` where one has its name.
pub fn insert_vehicle<S: Alter>(
    tx: &mut Transaction<'_, S>,
    vehicle: &VehicleRow<'_>,
) -> Result<(), StoreFault>
    requires fit { FitVehicle vehicle.now }
    ensures { IsWritten S.Store insert_vehicle_text (vehicle_row vehicle.now) (AltersRows vehicle_table 1
        (with_row vehicle.now.vehicle.now (vehicle_row vehicle.now))) tx.old.conn tx.new.conn result }
{
    write(
        tx,
        "INSERT INTO vehicle (vehicle, primary_ecu, version, last_counter) VALUES (?1, ?2, ?3, ?4)",
        &[
            words(vehicle.vehicle),
            words(vehicle.primary_ecu),
            number(vehicle.version),
            number(vehicle.last_counter),
        ],
    )
}

/// Sets the version and the last counter of a vehicle that is there. The statement hands the row back as it stands then; `Store` where it is another
/// than this one, as with another Primary.
pub fn upsert_vehicle<S: Alter>(
    tx: &mut Transaction<'_, S>,
    vehicle: &VehicleRow<'_>,
) -> Result<(), StoreFault>
    requires fit { FitVehicle vehicle.now }
    ensures { AreWritten S.Store ((upsert_vehicle_text, vehicle_row vehicle.now) ∷ []) (HasVehicle vehicle.now)
        (SetsVehicle vehicle.now) tx.old.conn tx.new.conn result }
{
    shows(
        tx.query_all(
            "INSERT INTO vehicle (vehicle, primary_ecu, version, last_counter) VALUES (?1, ?2, ?3, ?4) ON CONFLICT (vehicle) DO UPDATE SET version = excluded.version, last_counter = excluded.last_counter RETURNING vehicle, primary_ecu, version, last_counter",
            &[
                words(vehicle.vehicle),
                words(vehicle.primary_ecu),
                number(vehicle.version),
                number(vehicle.last_counter),
            ],
        ),
        vehicle,
    )
}

/// Whether the answer is this row alone; `Store` where it is another. The rows are compared where they stand, so that no memory is taken.
fn shows(answer: Result<Vec<Row>, Error>, vehicle: &VehicleRow<'_>) -> Result<(), StoreFault>
    ensures ok { OnOk result (IsOkAnd answer
        (λ rows. map (columns_at vehicle_places) rows.items ≡ vehicle_row vehicle.now ∷ [])) }
    ensures fault { IfErr answer (λ e. result ≡ Err (store_fault e)) }
    ensures another { IfOk answer (λ rows. IfErr result (λ fault. (fault ≡ StoreFault.Store)
        × (map (columns_at vehicle_places) rows.items ≢ vehicle_row vehicle.now ∷ []))) }
{
    match answer {
        Ok(rows) => {
            if is_alone(&rows, vehicle) {
                Ok(())
            } else {
                Err(StoreFault::Store)
            }
        }
        Err(error) => Err(fault_of(error)),
    }
}

/// Whether the rows are this one alone.
fn is_alone(rows: &[Row], vehicle: &VehicleRow<'_>) -> bool
    ensures { IsTrue result ↔ (map (columns_at vehicle_places) rows.now ≡ vehicle_row vehicle.now ∷ []) }
{
    match rows {
        [row] => is_same(row, vehicle),
        _ => false,
    }
}

/// Whether a row that was handed back is this one, column by column.
fn is_same(row: &Row, vehicle: &VehicleRow<'_>) -> bool
    ensures { IsTrue result ↔ (columns_at vehicle_places row.now ≡ vehicle_row vehicle.now) }
{
    has_words(row, 0, vehicle.vehicle)
        && has_words(row, 1, vehicle.primary_ecu)
        && has_number(row, 2, vehicle.version)
        && has_number(row, 3, vehicle.last_counter)
}

/// The vehicle of this name, none where there is none.
pub fn vehicle<S: Alter, R: RowReading>(
    tx: &mut Transaction<'_, S>,
    alloc: Global,
    name: &str,
) -> Result<Option<R::Item>, StoreFault>
    ensures { IsFound S.Store find_vehicle_text (Text name.now ∷ []) vehicle_table 1
        (λ rows_of. map (columns_at vehicle_places) (rows_of name.now)) (IsTold R.says R.fits R.line)
        (AreLines R.fits R.line) tx.old.conn tx.new.conn result }
{
    find_value::<S, R>(
        tx,
        alloc,
        "SELECT vehicle, primary_ecu, version, last_counter FROM vehicle WHERE vehicle = ?1",
        &[words(name)],
    )
}
