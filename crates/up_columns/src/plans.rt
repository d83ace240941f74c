//! Plans: the images that a vehicle gets, or why it gets none.
ghost use Rattle.std.specs.Prelude.{◌≡◌, ◌++◌, codes, Ok, Err, None, Some, IfOk, IfErr, OnOk, MatchResult, map, string_bytes, true, false};
ghost use Rattle.std.specs.List.{list_all};
ghost use Rattle.serde_json.specs.Find.{get};
ghost use Rattle.serde_json.specs.View.{view};
ghost use Rattle.up_canon.specs.Build.{list_with};
ghost use Rattle.up_canon.specs.Canon.{text};
ghost use Rattle.up_canon.specs.Members.{object_of as object_of_value, object_of_map, member_in, list_in};
ghost use Rattle.up_canon.specs.Refusals.{Gives};
ghost use Rattle.up_columns.specs.PlanColumns.{assigned_data, plan_column, cause_data, is_null as is_null_value, demand_of, cause_of, some_cause_of, withheld_in, assigned_in, plan_of, plan_in};
ghost use Rattle.up_columns.specs.Typed.{is_typed_assigned, is_typed_cause, is_typed_plan};
ghost use Rattle.up_plan.specs.declared.assigned.Cause.TheVariants.{Need, Conflict};
ghost use Rattle.up_plan.specs.declared.assigned.Plan.{Plan as PlanData};

use crate::values::column_value;
use serde_json::{Map, Value};
use std::alloc::{AllocError, Global};
use up_canon::canonical_laws;
use up_canon::each::{Reading, each_of};
use up_canon::fields::{find, list_at, member_at};
use up_canon::file_name::FileName;
use up_canon::ident::Ident;
use up_canon::kinds::object_of;
use up_canon::listed::Listed;
use up_canon::readers::{file_name_at, ident_at, ident_of};
use up_canon::refusal::Refusal;
use up_canon::writing::{push_file_name, push_ident};
use up_plan::assigned::{Assigned, Cause, Plan};

struct AssignedReading;

impl Reading for AssignedReading {
    ghost use Rattle.up_columns.specs.PlanColumns.{assigned_of};

    type Item = Assigned;

    ghost meaning = { assigned_of };

    #[tactic(auto, unfolding(crate::specs::PlanColumns::assigned_of, up_canon::specs::Steps::and_then))]
    fn read(alloc: Global, value: &Value, place: &'static str) -> Result<Assigned, Refusal> {
        let assigned = object_of(value, place)?;
        let ecu = ident_at(alloc, assigned, "ecu")?;
        let file = file_name_at(alloc, assigned, "file")?;
        Ok(Assigned { ecu, file })
    }
}

/// Bytes of room that the text of a plan gets, so that it seldom grows while it is written.
const ROOM: usize = 224;

/// Bytes of room that it gets beside for each image that is assigned.
const ROOM_OF_AN_IMAGE: usize = 96;

/// The column of a plan.
#[tactic(auto, unfolding(crate::specs::PlanColumns::plan_column))]
pub fn plan_text(alloc: Global, plan: &Plan) -> Result<String, AllocError>
    ensures column { IfOk result (λ t. string_bytes t ≡ plan_column plan.now) }
    ensures typed { OnOk result (is_typed_plan plan.now ≡ true) }
{
    let assigned = plan.assigned.as_slice();
    let room = ROOM_OF_AN_IMAGE.saturating_mul(assigned.len());
    let mut out = String::with_capacity(alloc, room.saturating_add(ROOM))?;
    out.push_str("{\"assigned\":")?;
    push_assigned(&mut out, assigned)?;
    out.push_str(",\"withheld\":")?;
    push_withheld(&mut out, &plan.withheld)?;
    out.push_str("}")?;
    Ok(out)
}

/// Appends the list of what is assigned.
fn push_assigned(out: &mut String, assigned: &[Assigned]) -> Result<(), AllocError>
    ensures value { IfOk result
        (λ _. string_bytes out.new ≡ string_bytes out.old ++ text (list_with (map assigned_data assigned.now))) }
    ensures typed { OnOk result (list_all is_typed_assigned assigned.now ≡ true) }
{
    out.push('[')?;
    let mut separator = "";
    for image in assigned.iter() {
        out.push_str(separator)?;
        push_item(out, image)?;
        separator = ",";
    }
    out.push(']')?;
    Ok(())
}

fn push_item(out: &mut String, image: &Assigned) -> Result<(), AllocError>
    ensures value { IfOk result (λ _. string_bytes out.new ≡ string_bytes out.old ++ text (assigned_data image.now)) }
    ensures typed { OnOk result (is_typed_assigned image.now ≡ true) }
{
    push_image(out, &image.ecu, &image.file)
}

/// Appends the object of an ECU and a file.
fn push_image(out: &mut String, ecu: &Ident, file: &FileName) -> Result<(), AllocError>
    ensures value { IfOk result
        (λ _. string_bytes out.new ≡ string_bytes out.old ++ text (cause_data (Some (Conflict ecu.now file.now)))) }
    ensures typed { OnOk result (is_typed_cause (Some (Conflict ecu.now file.now)) ≡ true) }
{
    // Noted for the proof: what names are.
    ecu.text();
    file.text();
    out.push_str("{\"ecu\":")?;
    push_ident(out, ecu)?;
    out.push_str(",\"file\":")?;
    push_file_name(out, file)?;
    out.push_str("}")?;
    Ok(())
}

/// Appends the object of the ECU of that name and the hardware that it needs.
fn push_need(out: &mut String, name: &Ident, hardware: &Ident) -> Result<(), AllocError>
    ensures value { IfOk result
        (λ _. string_bytes out.new ≡ string_bytes out.old ++ text (cause_data (Some (Need name.now hardware.now)))) }
    ensures typed { OnOk result (is_typed_cause (Some (Need name.now hardware.now)) ≡ true) }
{
    // Noted for the proof: what identifiers are.
    name.text();
    hardware.text();
    out.push_str("{\"ecu\":")?;
    push_ident(out, name)?;
    out.push_str(",\"hardware\":")?;
    push_ident(out, hardware)?;
    out.push_str("}")?;
    Ok(())
}

/// Appends the cause for which all is withheld, or `null`.
fn push_withheld(out: &mut String, withheld: &Option<Cause>) -> Result<(), AllocError>
    ensures value { IfOk result (λ _. string_bytes out.new ≡ string_bytes out.old ++ text (cause_data withheld.now)) }
    ensures typed { OnOk result (is_typed_cause withheld.now ≡ true) }
{
    match withheld {
        None => out.push_str("null"),
        Some(Cause::Need { ecu, hardware }) => push_need(out, ecu, hardware),
        Some(Cause::Conflict { ecu, file }) => push_image(out, ecu, file),
    }
}

/// The plan of a column: `Memory`, or the first fault of a text that can't be read as a plan.
pub fn read_plan(alloc: Global, column: &str) -> Result<Plan, Refusal>
    ensures read { Gives result (plan_in column.now) }
    ensures again { (plan : PlanData) → is_typed_plan plan ≡ true → column.now ≡ plan_column plan
        → Gives result (Ok plan) }
{
    canonical_laws();
    plan_in_column(alloc, column)
}

#[tactic(auto, unfolding(crate::specs::PlanColumns::plan_in, up_canon::specs::Steps::and_then))]
fn plan_in_column(alloc: Global, column: &str) -> Result<Plan, Refusal>
    ensures { Gives result (plan_in column.now) }
{
    let value = column_value(alloc, column)?;
    plan_at(alloc, &value)
}

#[tactic(auto, unfolding(crate::specs::PlanColumns::plan_of, up_canon::specs::Steps::and_then))]
fn plan_at(alloc: Global, value: &Value) -> Result<Plan, Refusal>
    ensures plan { Gives result (plan_of (view value.now)) }
    ensures object { MatchResult (object_of_value (codes "plan") (view value.now))
        (λ d. IfErr (list_in (codes "assigned") d) (λ r. result ≡ Err r)) (λ r. result ≡ Err r) }
{
    let map = object_of(value, "plan")?;
    let assigned = assigned_at(alloc, map)?;
    Ok(Plan {
        assigned,
        withheld: withheld_at(alloc, map)?,
    })
}

#[tactic(auto, unfolding(crate::specs::PlanColumns::assigned_in, up_canon::specs::Steps::and_then))]
fn assigned_at(alloc: Global, map: &Map<String, Value>) -> Result<Listed<Assigned>, Refusal>
    ensures assigned { Gives result (assigned_in (object_of_map map.now.entries)) }
    ensures list { IfErr (list_in (codes "assigned") (object_of_map map.now.entries)) (λ r. result ≡ Err r) }
{
    let values = list_at(map, "assigned")?;
    each_of::<AssignedReading>(alloc, values.as_slice(), "assigned")
}

#[tactic(auto, unfolding(crate::specs::PlanColumns::withheld_in, up_canon::specs::Steps::and_then))]
fn withheld_at(alloc: Global, map: &Map<String, Value>) -> Result<Option<Cause>, Refusal>
    ensures withheld { Gives result (withheld_in (object_of_map map.now.entries)) }
    ensures none { MatchResult (member_in (codes "withheld") (object_of_map map.now.entries))
        (λ value. is_null_value value ≡ true → result ≡ Ok None) (λ r. result ≡ Err r) }
    ensures object { IfOk (member_in (codes "withheld") (object_of_map map.now.entries))
        (λ value. is_null_value value ≡ false
        → IfErr (object_of_value (codes "withheld") value) (λ r. result ≡ Err r)) }
{
    let value = member_at(map, "withheld")?;
    if is_null(value) {
        Ok(None)
    } else {
        some_cause(alloc, value)
    }
}

#[tactic(auto, unfolding(crate::specs::PlanColumns::some_cause_of, up_canon::specs::Steps::and_then))]
fn some_cause(alloc: Global, value: &Value) -> Result<Option<Cause>, Refusal>
    ensures cause { Gives result (some_cause_of (view value.now)) }
    ensures object { IfErr (object_of_value (codes "withheld") (view value.now)) (λ r. result ≡ Err r) }
{
    Ok(Some(cause_at(alloc, value)?))
}

#[tactic(auto, unfolding(crate::specs::PlanColumns::cause_of, up_canon::specs::Steps::and_then))]
fn cause_at(alloc: Global, value: &Value) -> Result<Cause, Refusal>
    ensures cause { Gives result (cause_of (view value.now)) }
    ensures object { IfErr (object_of_value (codes "withheld") (view value.now)) (λ r. result ≡ Err r) }
{
    let map = object_of(value, "withheld")?;
    let ecu = ident_at(alloc, map, "ecu")?;
    demand_at(alloc, ecu, map)
}

/// A need where hardware is named, else a conflict.
#[tactic(auto, unfolding(crate::specs::PlanColumns::demand_of, up_canon::specs::Steps::and_then))]
fn demand_at(alloc: Global, ecu: Ident, map: &Map<String, Value>) -> Result<Cause, Refusal>
    ensures { Gives result
        (demand_of ecu (get (codes "hardware") (object_of_map map.now.entries)) (object_of_map map.now.entries)) }
{
    match find(map, "hardware") {
        Some(value) => {
            let hardware = ident_of(alloc, value, "hardware")?;
            Ok(Cause::Need { ecu, hardware })
        }
        None => {
            let file = file_name_at(alloc, map, "file")?;
            Ok(Cause::Conflict { ecu, file })
        }
    }
}

fn is_null(value: &Value) -> bool
    ensures { result ≡ is_null_value (view value.now) }
{
    match value {
        Value::Null => true,
        _ => false,
    }
}
