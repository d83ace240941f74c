//! Manifests that are delivered.
ghost use Rattle.std.specs.Prelude.{◌≤◌};
ghost use Rattle.up_canon.specs.Moments.{last_command_moment};
ghost use Rattle.up_machine.specs.Decisions.{IsRead};

use crate::decisions::conditions::{check_founding, check_rows, read};
use crate::decisions::digests::digest_of;
use crate::decisions::refused::refused;
use crate::decisions::register::{Register, put_vehicle};
use crate::decisions::vehicles::rows_text;
use std::alloc::{AllocError, Global};
use up_canon::bytes::Bytes;
use up_canon::count::Count;
use up_canon::ident::Ident;
use up_canon::listed::Duplicate;
use up_canon::moment::Moment;
use up_canon::refusal::Refusal;
use up_machine::answer::Reply;
use up_machine::decide_manifest::{DeliveryRows, decide_manifest};
use up_machine::decision::{AcceptedRows, Delivered};
use up_machine::rows::{Kept, VehicleRows};
use up_manifest::manifest::Incoming;
use up_plan::assigned::Plan;
use up_sign::scheme::Scheme;

/// The answer to the body of a manifest.
pub(crate) fn deliver<K: Scheme>(
    alloc: Global,
    scheme: &K,
    at: Moment,
    register: &mut Register,
    body: Bytes,
) -> Result<String, AllocError>
    requires { at ≤ last_command_moment }
{
    if register.respells {
        let body = respelled(alloc, body.as_slice())?;
        deliver_text(alloc, scheme, at, register, body.as_bytes())
    } else {
        deliver_text(alloc, scheme, at, register, body.as_slice())
    }
}

/// The body with spaces round its commas.
fn respelled(alloc: Global, body: &[u8]) -> Result<String, AllocError> {
    let text = str::from_utf8(body).unwrap_or("");
    text.replace(alloc, ",", " , ")
}

fn deliver_text<K: Scheme>(
    alloc: Global,
    scheme: &K,
    at: Moment,
    register: &mut Register,
    body: &[u8],
) -> Result<String, AllocError>
    requires { at ≤ last_command_moment }
{
    match read(alloc, body) {
        Ok(incoming) => receive(alloc, scheme, at, register, incoming),
        Err(refusal) => refused(alloc, refusal),
    }
}

fn receive<K: Scheme>(
    alloc: Global,
    scheme: &K,
    at: Moment,
    register: &mut Register,
    incoming: Incoming,
) -> Result<String, AllocError>
    requires moment { at ≤ last_command_moment }
    requires read { IsRead incoming }
{
    let decided = decide(alloc, scheme, at, register, &incoming);

    decided_on(alloc, register, decided)
}

fn decide<K: Scheme>(
    alloc: Global,
    scheme: &K,
    at: Moment,
    register: &Register,
    incoming: &Incoming,
) -> Result<Delivered, Refusal>
    requires moment { at ≤ last_command_moment }
    requires read { IsRead incoming.now }
{
    check_founding(scheme, &register.founding)?;
    let manifest = &incoming.manifest;
    let vehicle = register.vehicles.get(manifest.vehicle.text());
    check_rows(vehicle)?;
    let rows = DeliveryRows {
        founding: register.founding.as_ref(),
        vehicle,
        kept: find_kept(
            register.kept.as_slice(),
            &manifest.vehicle,
            manifest.counter,
        ),
        images: &register.images,
        campaigns: register.campaigns.values(),
    };
    decide_manifest(alloc, scheme, at, incoming, &rows)
}

/// The row that is kept of a manifest of this vehicle with this counter.
fn find_kept<'a>(rows: &'a [Kept], vehicle: &Ident, counter: Count) -> Option<&'a Kept> {
    rows.iter()
        .find(|row| row.vehicle == *vehicle && row.counter == counter)
}

fn decided_on(
    alloc: Global,
    register: &mut Register,
    decided: Result<Delivered, Refusal>,
) -> Result<String, AllocError> {
    match decided {
        Ok(Delivered::Repeat(reply)) => repeat_text(alloc, register, &reply),
        Ok(Delivered::Accepted(rows)) => accepted(alloc, register, rows),
        Err(refusal) => refused(alloc, refusal),
    }
}

/// `repeat` where the reply is the one that was kept.
fn repeat_text(alloc: Global, register: &Register, reply: &Reply) -> Result<String, AllocError> {
    let is_kept = register
        .kept
        .as_slice()
        .iter()
        .any(|row| is_reply_of(reply, row));
    let text = if is_kept { "repeat" } else { "another reply" };
    text.to_string(alloc)
}

fn is_reply_of(reply: &Reply, row: &Kept) -> bool {
    let targets = row.plan.assigned.as_slice().len();
    reply.vehicle == row.vehicle
        && reply.version == row.version
        && reply.targets as usize == targets
        && reply.text == row.reply
}

fn accepted(
    alloc: Global,
    register: &mut Register,
    rows: AcceptedRows,
) -> Result<String, AllocError> {
    keep_copies(alloc, register, &rows)?;
    accepted_text(alloc, &rows)
}

/// Keeps copies of the rows, over which later decisions are made.
fn keep_copies(
    alloc: Global,
    register: &mut Register,
    rows: &AcceptedRows,
) -> Result<(), AllocError> {
    register.kept.push(rows.kept.copy(alloc)?)?;
    let vehicle = copied(alloc, &rows.vehicle)?;
    put_vehicle(alloc, &mut register.vehicles, vehicle)
}

fn copied(alloc: Global, rows: &VehicleRows) -> Result<VehicleRows, AllocError> {
    Ok(VehicleRows {
        vehicle: rows.vehicle.copy(alloc)?,
        ecus: rows.ecus.copy(alloc)?,
    })
}

fn accepted_text(alloc: Global, rows: &AcceptedRows) -> Result<String, AllocError> {
    let mut text = rows_text(alloc, &rows.vehicle)?;
    push_kept(&mut text, alloc, &rows.kept)?;
    Ok(text)
}

/// Appends a kept row: its counter, version, moment and root version, a digest of its signed text and its reply, and its plan.
fn push_kept(text: &mut String, alloc: Global, kept: &Kept) -> Result<(), AllocError> {
    let (counter, at) = (kept.counter.get(), kept.at.get());
    let digest = digest_of(alloc, &[&kept.signed, &kept.reply])?;
    let (version, root) = (kept.version, kept.root);
    let row = format!(in alloc; "; kept {counter} as {version} at {at} under {root} {digest}")?;
    text.push_str(row.as_str())?;
    push_plan(text, &kept.plan)
}

fn push_plan(text: &mut String, plan: &Plan) -> Result<(), AllocError> {
    for assigned in plan.assigned.as_slice() {
        text.push(' ')?;
        text.push_str(assigned.ecu.text())?;
        text.push('=')?;
        text.push_str(assigned.file.text())?;
    }
    Ok(())
}
