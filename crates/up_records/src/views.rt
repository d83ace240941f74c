//! What is read of the inventory.
ghost use Rattle.std.specs.Prelude.{◌≡◌, IfErr, IfOk, Some, map, option_and_then, find, bytes_eq, option_copied};
ghost use Rattle.sqlite.specs.Held.{state};
ghost use Rattle.up_machine.specs.Reads.{ecus_of as ecus_in, version_of as version_in, installed as installed_in};
ghost use Rattle.up_machine.specs.Reads.{assigned_to};
ghost use Rattle.up_machine.specs.Rows.{vehicle_rows};
ghost use Rattle.up_rows.specs.Lookups.{installed_among};
ghost use Rattle.up_tables.specs.declared.values.StoreFault.TheVariants as faults;
ghost use Rattle.up_records.specs.Connected.{Finds};

use crate::session::read_vehicle;
use sqlite::Alter;
use std::alloc::{AllocError, Global};
use up_canon::ident::Ident;
use up_canon::listed::{Duplicate, Listed};
use up_machine::rows::{EcuRow, VehicleRows};
use up_manifest::report::Installed;
use up_plan::assigned::Plan;
use up_rows::laws::{rows_are_found, views_are_told};
use up_store::manifests::find_latest;
use up_store::store::{Store, StoreFault};
use up_store::vehicles::{find_ecus, find_owner, find_vehicle};

/// The rows of a vehicle, none of an unknown one.
pub fn rows_of<D: Alter>(
    store: &mut Store<D>,
    alloc: Global,
    vehicle: &Ident,
) -> Result<Option<VehicleRows>, StoreFault>
    ensures { Finds (λ k s. vehicle_rows s vehicle.now)
        (state D.Store store.old) (state D.Store store.new) result }
{
    let mut tx = store.conn.transaction();
    read_vehicle(&mut tx, alloc, vehicle)
}

/// How many manifests of a vehicle were accepted, none of an unknown vehicle.
pub fn version_of<D: Alter>(
    store: &mut Store<D>,
    alloc: Global,
    vehicle: &Ident,
) -> Result<Option<u64>, StoreFault>
    ensures { Finds (λ k s. version_in s vehicle.now)
        (state D.Store store.old) (state D.Store store.new) result }
{
    views_are_told();
    let mut tx = store.conn.transaction();
    match find_vehicle(&mut tx, alloc, vehicle) {
        Ok(Some(row)) => Ok(Some(row.version)),
        Ok(None) => Ok(None),
        Err(fault) => Err(fault),
    }
}

/// The ECUs of a vehicle in inventory order, none of an unknown vehicle.
pub fn ecus_of<D: Alter>(
    store: &mut Store<D>,
    alloc: Global,
    vehicle: &Ident,
) -> Result<Option<Listed<Ident>>, StoreFault>
    ensures { Finds (λ k s. ecus_in s vehicle.now)
        (state D.Store store.old) (state D.Store store.new) result }
{
    rows_are_found();
    views_are_told();
    let mut tx = store.conn.transaction();
    match read_vehicle(&mut tx, alloc, vehicle) {
        Ok(Some(rows)) => some_names(alloc, rows.ecus.as_slice()),
        Ok(None) => Ok(None),
        Err(fault) => Err(fault),
    }
}

fn some_names(alloc: Global, rows: &[EcuRow]) -> Result<Option<Listed<Ident>>, StoreFault>
    ensures made { IfOk result (λ names. names ≡ Some (map (λ row. row.ecu) rows.now)) }
    ensures memory { IfErr result (λ fault. fault ≡ faults.Memory) }
{
    Ok(Some(names_of(alloc, rows)?))
}

fn names_of(alloc: Global, rows: &[EcuRow]) -> Result<Listed<Ident>, AllocError>
    ensures { IfOk result (λ names. names ≡ map (λ row. row.ecu) rows.now) }
{
    let mut names = Vec::with_capacity(alloc, rows.len())?;
    for row in rows {
        names.push(row.ecu.copy(alloc)?)?;
    }
    Ok(Listed::new(names))
}

/// The image that an ECU reported last, none of an unknown ECU and before its first report.
pub fn installed_on<D: Alter>(
    store: &mut Store<D>,
    alloc: Global,
    ecu: &Ident,
) -> Result<Option<Installed>, StoreFault>
    ensures { Finds (λ k s. installed_in s ecu.now)
        (state D.Store store.old) (state D.Store store.new) result }
{
    views_are_told();
    let mut tx = store.conn.transaction();
    let owner = match find_owner(&mut tx, ecu) {
        Ok(Some(owner)) => owner,
        Ok(None) => return Ok(None),
        Err(fault) => return Err(fault),
    };
    match find_ecus(&mut tx, alloc, &owner) {
        Ok(rows) => image_among(alloc, rows.as_slice(), ecu),
        Err(fault) => Err(fault),
    }
}

/// The image in the row of the ECU.
fn image_among(alloc: Global, rows: &[EcuRow], ecu: &Ident) -> Result<Option<Installed>, StoreFault>
    ensures told { IfOk result (λ found. found ≡ installed_among ecu.now rows.now) }
    ensures memory { IfErr result (λ fault. fault ≡ faults.Memory) }
{
    Ok(image_of(alloc, row_of(rows, ecu))?)
}

fn row_of<'a>(rows: &'a [EcuRow], ecu: &Ident) -> Option<&'a EcuRow>
    ensures { option_copied result ≡ find (λ row. bytes_eq row.ecu ecu.now) rows.now }
{
    rows.iter().find(|row| row.ecu.text() == ecu.text())
}

fn image_of(alloc: Global, row: Option<&EcuRow>) -> Result<Option<Installed>, AllocError>
    ensures { IfOk result (λ found. found ≡ option_and_then (λ r. r.installed) (option_copied row.entry)) }
{
    match row {
        Some(row) => row.installed.copy(alloc),
        None => Ok(None),
    }
}

/// What is assigned to a vehicle, none of an unknown vehicle and before its first manifest.
pub fn assigned_of<D: Alter>(
    store: &mut Store<D>,
    alloc: Global,
    vehicle: &Ident,
) -> Result<Option<Plan>, StoreFault>
    ensures { Finds (λ k s. assigned_to s vehicle.now)
        (state D.Store store.old) (state D.Store store.new) result }
{
    views_are_told();
    let mut tx = store.conn.transaction();
    match find_latest(&mut tx, alloc, vehicle) {
        Ok(Some(row)) => Ok(Some(row.plan)),
        Ok(None) => Ok(None),
        Err(fault) => Err(fault),
    }
}
