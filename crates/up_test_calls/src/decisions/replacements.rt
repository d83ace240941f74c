//! Replaced ECUs.
ghost use Rattle.std.specs.Prelude.{◌≤◌};
ghost use Rattle.up_canon.specs.Moments.{last_command_moment};

use crate::decisions::refused::refused;
use crate::decisions::register::{Register, put_vehicle};
use crate::decisions::vehicles::{is_taken, rows_text};
use std::alloc::{AllocError, Global};
use up_canon::count::Count;
use up_canon::listed::{Duplicate, Listed};
use up_canon::moment::Moment;
use up_canon::refusal::Refusal;
use up_machine::decide_replace::decide_replace;
use up_machine::rows::{EcuRow, VehicleRows};
use up_machine::vehicle::{NewEcu, Replacement};
use up_sign::scheme::Scheme;

/// The answer to a replacement.
pub(crate) fn replace_ecu<K: Scheme>(
    alloc: Global,
    scheme: &K,
    at: Moment,
    register: &mut Register,
    replacement: Replacement,
) -> Result<String, AllocError>
    requires { at ≤ last_command_moment }
{
    match decided(alloc, scheme, at, register, &replacement) {
        Ok(()) => replaced(alloc, register, &replacement.copy(alloc)?),
        Err(refusal) => refused(alloc, refusal),
    }
}

fn decided<K: Scheme>(
    alloc: Global,
    scheme: &K,
    at: Moment,
    register: &Register,
    replacement: &Replacement,
) -> Result<(), Refusal>
    requires { at ≤ last_command_moment }
{
    let is_founded = register.founding.is_some();
    let vehicle = register.vehicles.get(replacement.vehicle.text());
    let is_taken = is_taken(register, replacement.ecu.ecu.text());
    decide_replace(
        alloc,
        scheme,
        at,
        replacement,
        is_founded,
        vehicle,
        is_taken,
    )
}

/// Puts the new ECU's row in the old one's place, and retires the old identifier.
fn replaced(
    alloc: Global,
    register: &mut Register,
    replacement: &Replacement,
) -> Result<String, AllocError> {
    let Some(old) = register.vehicles.get(replacement.vehicle.text()) else {
        return "no vehicle".to_string(alloc);
    };
    let rows = VehicleRows {
        vehicle: old.vehicle.copy(alloc)?,
        ecus: replaced_rows(alloc, old.ecus.as_slice(), replacement)?,
    };
    let text = rows_text(alloc, &rows);
    register.retired.push(replacement.old.copy(alloc)?)?;
    put_vehicle(alloc, &mut register.vehicles, rows)?;
    text
}

fn replaced_rows(
    alloc: Global,
    rows: &[EcuRow],
    replacement: &Replacement,
) -> Result<Listed<EcuRow>, AllocError> {
    let mut replaced = Vec::new(alloc);
    for row in rows {
        replaced.push(replaced_row(alloc, row, replacement)?)?;
    }
    Ok(Listed::new(replaced))
}

fn replaced_row(
    alloc: Global,
    row: &EcuRow,
    replacement: &Replacement,
) -> Result<EcuRow, AllocError> {
    if row.ecu == replacement.old {
        Ok(new_row(replacement.ecu.copy(alloc)?))
    } else {
        row.copy(alloc)
    }
}

/// The row of an ECU before its first report.
fn new_row(ecu: NewEcu) -> EcuRow {
    EcuRow {
        ecu: ecu.ecu,
        hardware: ecu.hardware,
        public: ecu.public,
        installed: None,
        counter: Count::new(0).unwrap(),
        report: None,
    }
}
