//! The rows of a vehicle that is added.
ghost use Rattle.std.specs.Prelude.{◌≡◌, map, IfOk};
ghost use Rattle.up_machine.specs.Rows.{new_row as new_row_of, new_rows as new_rows_of};

use crate::rows::{EcuRow, VehicleRow, VehicleRows};
use crate::vehicle::{NewEcu, NewVehicle};
use std::alloc::{AllocError, Global};
use up_canon::count::Count;
use up_canon::listed::{Duplicate, Listed};

/// The rows of a vehicle before its first manifest.
pub(crate) fn new_rows(alloc: Global, new: &NewVehicle) -> Result<VehicleRows, AllocError>
    ensures { IfOk result (λ rows. rows ≡ new_rows_of new.now) }
{
    Ok(VehicleRows {
        vehicle: VehicleRow {
            vehicle: new.vehicle.copy(alloc)?,
            primary: new.primary.copy(alloc)?,
            version: 0,
            last: zero(),
        },
        ecus: ecu_rows(alloc, new.ecus.as_slice())?,
    })
}

fn ecu_rows(alloc: Global, ecus: &[NewEcu]) -> Result<Listed<EcuRow>, AllocError>
    ensures { IfOk result (λ rows. rows ≡ map new_row_of ecus.now) }
{
    let mut rows = Vec::with_capacity(alloc, ecus.len())?;
    for ecu in ecus {
        rows.push(new_row(alloc, ecu)?)?;
    }
    Ok(Listed::new(rows))
}

fn new_row(alloc: Global, ecu: &NewEcu) -> Result<EcuRow, AllocError>
    ensures { IfOk result (λ row. row ≡ new_row_of ecu.now) }
{
    Ok(EcuRow {
        ecu: ecu.ecu.copy(alloc)?,
        hardware: ecu.hardware.copy(alloc)?,
        public: ecu.public.copy(alloc)?,
        installed: None,
        counter: zero(),
        report: None,
    })
}

pub(crate) fn zero() -> Count
    ensures { result ≡ 0 }
{
    Count::new(0).unwrap()
}
