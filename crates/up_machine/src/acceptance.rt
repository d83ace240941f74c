//! What an accepted manifest changes.
ghost use Rattle.std.specs.Prelude.{◌≡◌, ◌<◌, ◌≤◌, ◌+◌, None, IsTrue, IfOk, filter_map, map};
ghost use Rattle.up_canon.specs.Canon.{max_count};
ghost use Rattle.up_canon.specs.Moments.{last_command_moment};
ghost use Rattle.up_canon.specs.Names.{first_repeated};
ghost use Rattle.up_plan.specs.ByFile.{AreByFile};
ghost use Rattle.up_metadata.specs.Keys.{hashed_roles, roles_can_sign};
ghost use Rattle.up_machine.specs.ManifestRows.{accepted_row as accepted_row_of, accepted_rows as accepted_rows_of, kept_of, plan_by_rows, reply_of, reported_row, target_for};

use crate::decision::AcceptedRows;
use crate::director_files::{reply_text, targets_for};
use crate::reported::{fitted_ecus, reported_rows};
use crate::rows::{Founding, Kept, VehicleRow, VehicleRows};
use std::alloc::{AllocError, Global};
use up_canon::count::Count;
use up_canon::ident::Ident;
use up_canon::listed::Duplicate;
use up_canon::moment::Moment;
use up_canon::table::Table;
use up_canon::text::Text;
use up_manifest::manifest::{Incoming, Manifest};
use up_manifest::report::SignedReport;
use up_metadata::hashed_keys::HashedRoleKeys;
use up_plan::assigned::{Assigned, Plan};
use up_plan::campaign::Item;
use up_plan::image::Image;
use up_plan::plan::plan_over;
use up_sign::scheme::Scheme;

/// The rows of the manifest's vehicle with one version more, and the row that is kept for the manifest: the plan of this
/// moment, and the reply with the Director's files for it, signed with keys that are hashed already.
pub(crate) fn accepted_rows<K: Scheme>(
    alloc: Global,
    scheme: &K,
    at: Moment,
    incoming: &Incoming,
    founding: &Founding,
    hashed: &HashedRoleKeys,
    rows: &VehicleRows,
    images: &Table<Image>,
    items: &[&Item],
) -> Result<AcceptedRows, AllocError>
    requires keys { IsTrue (roles_can_sign (K.rules scheme.now) founding.now.keys.director) }
    requires hashed { hashed.now ≡ hashed_roles (K.rules scheme.now) founding.now.keys.director }
    requires version { rows.now.vehicle.version < max_count }
    requires moment { at ≤ last_command_moment }
    requires once { first_repeated (map (λ row. row.ecu) rows.now.ecus) ≡ None }
    ensures { AreByFile images.now → IfOk result (λ accepted. accepted ≡ accepted_rows_of
        (K.rules scheme.now) founding.now rows.now at incoming.now images.now (map (λ i. i.now) items.now)) }
{
    let reports = incoming.manifest.reports.as_slice();
    let plan = plan_for(alloc, rows, reports, images, items)?;
    let kept = kept_row(
        alloc,
        scheme,
        at,
        incoming,
        founding,
        hashed,
        &rows.vehicle,
        images,
        plan,
    )?;
    match vehicle_rows(alloc, rows, &incoming.manifest) {
        Ok(vehicle) => Ok(AcceptedRows { vehicle, kept }),
        Err(error) => {
            // Dropped by name: at the end of a scope it would be proved part by part.
            drop(kept);
            Err(error)
        }
    }
}

/// The vehicle's rows with one version more.
fn vehicle_rows(
    alloc: Global,
    rows: &VehicleRows,
    manifest: &Manifest,
) -> Result<VehicleRows, AllocError>
    requires { rows.now.vehicle.version < max_count }
    ensures { IfOk result (λ vehicle. vehicle ≡ record {
      vehicle = accepted_row_of rows.now.vehicle manifest.now.counter;
      ecus = map (reported_row manifest.now.reports) rows.now.ecus;
    }) }
{
    Ok(VehicleRows {
        vehicle: accepted_row(alloc, &rows.vehicle, manifest.counter)?,
        ecus: reported_rows(alloc, rows.ecus.as_slice(), manifest.reports.as_slice())?,
    })
}

fn plan_for(
    alloc: Global,
    rows: &VehicleRows,
    reports: &[SignedReport],
    images: &Table<Image>,
    items: &[&Item],
) -> Result<Plan, AllocError>
    requires { first_repeated (map (λ row. row.ecu) rows.now.ecus) ≡ None }
    ensures planned { AreByFile images.now
        → IfOk result (λ plan. plan ≡ plan_by_rows images.now (map (λ i. i.now) items.now) rows.now reports.now) }
    ensures once { IfOk result (λ plan. first_repeated (map (λ a. a.ecu) plan.assigned) ≡ None) }
{
    let fitted = fitted_ecus(alloc, rows.ecus.as_slice(), reports)?;
    plan_over(alloc, images, items, fitted.as_slice())
}

fn kept_row<K: Scheme>(
    alloc: Global,
    scheme: &K,
    at: Moment,
    incoming: &Incoming,
    founding: &Founding,
    hashed: &HashedRoleKeys,
    row: &VehicleRow,
    images: &Table<Image>,
    plan: Plan,
) -> Result<Kept, AllocError>
    requires keys { IsTrue (roles_can_sign (K.rules scheme.now) founding.now.keys.director) }
    requires hashed { hashed.now ≡ hashed_roles (K.rules scheme.now) founding.now.keys.director }
    requires version { row.now.version < max_count }
    requires moment { at ≤ last_command_moment }
    requires once { first_repeated (map (λ a. a.ecu) plan.assigned) ≡ None }
    ensures { IfOk result
        (λ kept. kept ≡ kept_of (K.rules scheme.now) founding.now row.now at incoming.now images.now plan) }
{
    let assigned = plan.assigned.as_slice();
    match kept_texts(
        alloc, scheme, at, incoming, founding, hashed, row, images, assigned,
    ) {
        Ok((vehicle, signed, reply)) => Ok(Kept {
            vehicle,
            counter: incoming.manifest.counter,
            version: row.version + 1,
            at,
            root: founding.root,
            signed,
            plan,
            reply,
        }),
        Err(error) => {
            drop(plan);
            Err(error)
        }
    }
}

/// The vehicle's identifier, the manifest's canonical signed text, and the text of the reply with these images.
#[tactic(auto, using(crate::proofs::DirectorTargets::targets_apart))]
fn kept_texts<K: Scheme>(
    alloc: Global,
    scheme: &K,
    at: Moment,
    incoming: &Incoming,
    founding: &Founding,
    hashed: &HashedRoleKeys,
    row: &VehicleRow,
    images: &Table<Image>,
    assigned: &[Assigned],
) -> Result<(Ident, Text, Text), AllocError>
    requires signs { IsTrue (roles_can_sign (K.rules scheme.now) founding.now.keys.director)
        × (hashed.now ≡ hashed_roles (K.rules scheme.now) founding.now.keys.director) }
    requires limits { (row.now.version < max_count) × (at ≤ last_command_moment) }
    requires once { first_repeated (map (λ a. a.ecu) assigned.now) ≡ None }
    ensures { IfOk result (λ texts. texts ≡ (
      row.now.vehicle,
      incoming.now.envelope.signed,
      reply_of (K.rules scheme.now) founding.now row.now at (filter_map (target_for images.now) assigned.now),
    )) }
{
    let targets = targets_for(alloc, images, assigned)?;
    let reply = reply_text(alloc, scheme, at, founding, hashed, row, targets)?;
    let vehicle = row.vehicle.copy(alloc)?;
    let signed = incoming.envelope.signed.copy(alloc)?;
    Ok((vehicle, signed, reply))
}

fn accepted_row(alloc: Global, row: &VehicleRow, counter: Count) -> Result<VehicleRow, AllocError>
    requires { row.now.version < max_count }
    ensures { IfOk result (λ accepted. accepted ≡ accepted_row_of row.now counter) }
{
    Ok(VehicleRow {
        vehicle: row.vehicle.copy(alloc)?,
        primary: row.primary.copy(alloc)?,
        version: row.version + 1,
        last: counter,
    })
}
