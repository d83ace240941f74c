//! Accepted manifests.
ghost use Rattle.std.specs.Prelude.{◌≡◌, ◌<◌, ◌^◌, ⊤, OnOk, length};
ghost use Rattle.std.specs.List.{AllByRecursion};
ghost use Rattle.up_rows.specs.Changes.{with_accepted_rows};
ghost use Rattle.up_rows.specs.Lookups.{kept_with, latest_kept};
ghost use Rattle.up_rows.specs.SecondHashes.{TellsItsHash};
ghost use Rattle.up_tables.specs.Statements.{Finds};
ghost use Rattle.up_tables.specs.Tables.{kept_table, vehicle_table};
ghost use Rattle.up_store.specs.Connections.{PutsRows, PutsTables};
ghost use Rattle.up_store.specs.Fitting.{IsRecorded};
ghost use Rattle.up_store.specs.Puts.{IsMadeOfKept, IsReported, MayAccept, MayReport, with_reported};
ghost use Rattle.up_store.specs.ReadAs.{FindsBoth, ReadsKept, ReadsLatest};
ghost use Rattle.up_store.specs.Typed.{IsTypedVehicle};
ghost use Rattle.up_store.specs.Within.{FindsWithin, MakesAndPuts, PutsWithin};
ghost use Rattle.up_store.specs.Writes.{FitsAccepted, accept_writes, reported_writes};

use crate::column_values::{check_places, check_version};
use crate::ecus::set_ecus;
use crate::kept_rows::{KeptReading, make_plan, row_of};
use crate::store::StoreFault;
use crate::vehicles::{VehicleReading, row_of as vehicle_row_of};
use sqlite::{Alter, Transaction};
use std::alloc::Global;
use up_canon::count::Count;
use up_canon::ident::Ident;
use up_machine::decision::AcceptedRows;
use up_machine::rows::{Kept, VehicleRows};
use up_tables::kept::{insert_kept, kept as kept_found};
use up_tables::vehicle::{upsert_vehicle, vehicle as vehicle_shown};

/// Sets the rows of a vehicle, and keeps a manifest.
pub fn put_accepted<D: Alter>(
    tx: &mut Transaction<'_, D>,
    alloc: Global,
    new: &AcceptedRows,
) -> Result<(), StoreFault>
    ensures { MakesAndPuts D.Store (PutsRows (IsRecorded new.now) (λ rows. with_accepted_rows rows new.now))
        (accept_writes new.now) (MayAccept new.now) tx.old.conn tx.new.conn result }
{
    check_version(new.vehicle.vehicle.version)?;
    check_places(new.vehicle.ecus.as_slice().len())?;
    let plan = make_plan(alloc, &new.kept)?;
    put_planned(tx, new, plan.as_str())
}

/// The same with the column of its plan, which takes no memory but the database's own.
fn put_planned<D: Alter>(
    tx: &mut Transaction<'_, D>,
    new: &AcceptedRows,
    plan: &str,
) -> Result<(), StoreFault>
    requires version { new.now.vehicle.vehicle.version < 2 ^ 63 }
    requires few { length new.now.vehicle.ecus < 2 ^ 63 }
    requires kept { IsMadeOfKept new.now.kept plan.now }
    ensures { PutsWithin D.Store (PutsRows (IsRecorded new.now) (λ rows. with_accepted_rows rows new.now))
        (accept_writes new.now) (MayAccept new.now) tx.old.conn tx.new.conn result }
{
    put_reported(tx, &new.vehicle)?;
    insert_kept(tx, &row_of(&new.kept, plan))
}

/// Sets the row of a vehicle that is there, and what its ECUs reported.
fn put_reported<D: Alter>(tx: &mut Transaction<'_, D>, new: &VehicleRows) -> Result<(), StoreFault>
    requires version { new.now.vehicle.version < 2 ^ 63 }
    requires few { length new.now.ecus < 2 ^ 63 }
    ensures put { PutsWithin D.Store (PutsTables (IsReported new.now) (with_reported new.now)) (reported_writes new.now)
        (MayReport new.now) tx.old.conn tx.new.conn result }
    ensures typed { OnOk result (AllByRecursion TellsItsHash new.now.ecus
        → IsTypedVehicle new.now.vehicle.vehicle new.now) }
{
    upsert_vehicle(tx, &vehicle_row_of(&new.vehicle))?;
    set_ecus(tx, &new.vehicle.vehicle, new.ecus.as_slice())
}

/// The vehicle's row with this counter.
pub fn find_kept<D: Alter>(
    tx: &mut Transaction<'_, D>,
    alloc: Global,
    vehicle: &Ident,
    counter: Count,
) -> Result<Option<Kept>, StoreFault>
    ensures { FindsWithin D.Store (λ rows found. found ≡ kept_with vehicle.now counter rows)
        (Finds kept_table 1 (ReadsKept vehicle.now counter)) (λ _. ⊤) tx.old.conn tx.new.conn result }
{
    kept_found::<D, KeptReading>(tx, alloc, vehicle.text(), counter.get())
}

/// The vehicle's row with its greatest counter, which its own row tells.
pub fn find_latest<D: Alter>(
    tx: &mut Transaction<'_, D>,
    alloc: Global,
    vehicle: &Ident,
) -> Result<Option<Kept>, StoreFault>
    ensures { FindsWithin D.Store (λ rows found. found ≡ latest_kept vehicle.now rows)
        (FindsBoth vehicle_table 1 kept_table 1 (ReadsLatest vehicle.now)) (λ _. ⊤) tx.old.conn tx.new.conn result }
{
    match vehicle_shown::<D, VehicleReading>(tx, alloc, vehicle.text()) {
        Ok(Some(row)) => find_kept(tx, alloc, vehicle, row.last),
        Ok(None) => Ok(None),
        Err(fault) => Err(fault),
    }
}
