//! Views of a vehicle.
ghost use Rattle.std.specs.Prelude.{◌≡◌, ◌++◌, Ok, Err, IfOk, IfErr, string_bytes};
ghost use Rattle.up_canon.specs.declared.refusal.Refusal.TheVariants.{Memory};
ghost use Rattle.up_service.specs.LineAnswers.{row_text, rows_text};
ghost use Rattle.up_service.specs.Told.{Shows, ShowsRows};

use crate::desk::Viewed;
use std::alloc::{AllocError, Global};
use up_canon::ident::Ident;
use up_canon::refusal::Refusal;
use up_desk::faults::refusal_of;
use up_machine::rows::{EcuRow, VehicleRows};
use up_plan::assigned::Plan;
use up_script::printed::{push_ecu, vehicle_text};

/// The line that shows a vehicle: its version, and for each ECU in inventory order what is installed and what is assigned.
pub(crate) fn shown<V: Viewed>(
    alloc: Global,
    desk: &mut V,
    vehicle: &Ident,
) -> Result<String, Refusal>
    ensures line { IfOk result
        (λ line. Shows V.finds V.finds_plan desk.old vehicle.now (Ok (string_bytes line)) desk.new) }
    ensures refused { IfErr result (λ r. Shows V.finds V.finds_plan desk.old vehicle.now (Err r) desk.new) }
{
    match desk.vehicle(alloc, vehicle) {
        Ok(Some(rows)) => shown_with(alloc, desk, &rows),
        Ok(None) => Err(Refusal::UnknownVehicle),
        Err(fault) => Err(refusal_of(fault)),
    }
}

/// The line of a vehicle of these rows.
fn shown_with<V: Viewed>(alloc: Global, desk: &mut V, rows: &VehicleRows) -> Result<String, Refusal>
    ensures line { IfOk result (λ line. ShowsRows V.finds_plan rows.now desk.old (Ok (string_bytes line)) desk.new) }
    ensures refused { IfErr result (λ r. ShowsRows V.finds_plan rows.now desk.old (Err r) desk.new) }
{
    match desk.assigned(alloc, &rows.vehicle.vehicle) {
        Ok(plan) => line_with(alloc, rows, &plan),
        Err(fault) => Err(refusal_of(fault)),
    }
}

/// The same, where this plan is assigned.
fn line_with(alloc: Global, rows: &VehicleRows, plan: &Option<Plan>) -> Result<String, Refusal>
    ensures line { IfOk result (λ line. string_bytes line ≡ rows_text plan.now rows.now) }
    ensures memory { IfErr result (λ r. r ≡ Memory) }
{
    match line_of(alloc, rows, plan) {
        Ok(line) => Ok(line),
        Err(_) => Err(Refusal::Memory),
    }
}

fn line_of(alloc: Global, rows: &VehicleRows, plan: &Option<Plan>) -> Result<String, AllocError>
    ensures { IfOk result (λ line. string_bytes line ≡ rows_text plan.now rows.now) }
{
    let mut line = vehicle_text(alloc, &rows.vehicle.vehicle, rows.vehicle.version)?;
    let ecus = rows.ecus.as_slice();
    for row in ecus {
        push_row(&mut line, plan, row)?;
    }
    Ok(line)
}

/// Appends what is installed and what is assigned of an ECU.
fn push_row(line: &mut String, plan: &Option<Plan>, row: &EcuRow) -> Result<(), AllocError>
    ensures { IfOk result (λ _. string_bytes line.new ≡ string_bytes line.old ++ row_text plan.now row.now) }
{
    push_ecu(line, plan, &row.ecu, &row.installed)
}
