//! The Director's files for a vehicle, and the reply that holds them.
ghost use Rattle.std.specs.Prelude.{◌≡◌, ◌<◌, ◌≤◌, ◌++◌, [], IsTrue, IsOk, IfOk, Some, filter_map, string_bytes, true};
ghost use Rattle.std.specs.List.{list_all};
ghost use Rattle.up_canon.specs.Canon.{max_count};
ghost use Rattle.up_canon.specs.Moments.{last_command_moment};
ghost use Rattle.up_canon.specs.Names.{are_distinct};
ghost use Rattle.up_roles.specs.Targets.{target_fits, ecus_of};
ghost use Rattle.up_roles.specs.declared.repository.Repository.TheVariants.{Director as TheDirector};
ghost use Rattle.up_metadata.specs.Keys.{hashed_roles, roles_can_sign};
ghost use Rattle.up_machine.specs.Files.{target_of};
ghost use Rattle.up_machine.specs.ManifestRows.{target_for, reply_of};
ghost use Rattle.up_machine.specs.Replies.{reply_json as reply_json_of};

use crate::rows::{Founding, VehicleRow};
use std::alloc::{AllocError, Global};
use up_canon::ident::Ident;
use up_canon::listed::{Duplicate, Listed};
use up_canon::moment::Moment;
use up_canon::table::Table;
use up_canon::text::Text;
use up_canon::writing::{push_ident, push_number};
use up_metadata::hashed_keys::HashedRoleKeys;
use up_metadata::role_files::{RoleTexts, role_texts};
use up_plan::assigned::Assigned;
use up_plan::image::Image;
use up_roles::repository::Repository;
use up_roles::targets::Target;
use up_sign::scheme::Scheme;

/// The targets of the images that are assigned.
pub(crate) fn targets_for(
    alloc: Global,
    images: &Table<Image>,
    assigned: &[Assigned],
) -> Result<Listed<Target>, AllocError>
    ensures value { IfOk result (λ targets. targets ≡ filter_map (target_for images.now) assigned.now) }
    ensures fit { IfOk result (λ targets. list_all (target_fits TheDirector) targets ≡ true) }
    ensures none { assigned.now ≡ [] → IsOk result }
{
    let mut targets = Vec::with_capacity(alloc, assigned.len())?;
    for a in assigned {
        let Some(image) = images.get(a.file.text()) else {
            continue;
        };
        targets.push(target(alloc, &a.ecu, image)?)?;
    }
    Ok(Listed::new(targets))
}

#[tactic(auto, using(crate::proofs::DirectorTargets::fits))]
fn target(alloc: Global, ecu: &Ident, image: &Image) -> Result<Target, AllocError>
    ensures value { IfOk result (λ target. target ≡ target_of (Some ecu.now) image.now) }
    ensures fits { IfOk result (λ target. target_fits TheDirector target ≡ true) }
{
    Ok(Target {
        ecu: Some(ecu.copy(alloc)?),
        file: image.file.copy(alloc)?,
        length: image.length,
        sha256: image.sha256,
        sha512: image.sha512,
        hardware: image.hardware.copy(alloc)?,
        release: image.release,
    })
}

/// The text of the reply to the manifest that gives the vehicle its next version: the Director's files for that version, signed
/// with the keys of their roles, which are hashed already.
pub(crate) fn reply_text<K: Scheme>(
    alloc: Global,
    scheme: &K,
    at: Moment,
    founding: &Founding,
    hashed: &HashedRoleKeys,
    row: &VehicleRow,
    targets: Listed<Target>,
) -> Result<Text, AllocError>
    requires keys { IsTrue (roles_can_sign (K.rules scheme.now) founding.now.keys.director) }
    requires hashed { hashed.now ≡ hashed_roles (K.rules scheme.now) founding.now.keys.director }
    requires version { row.now.version < max_count }
    requires moment { at ≤ last_command_moment }
    requires targets { list_all (target_fits TheDirector) targets ≡ true }
    requires ecus { are_distinct (ecus_of targets) ≡ true }
    ensures { IfOk result (λ text. text ≡ reply_of (K.rules scheme.now) founding.now row.now at targets) }
{
    let vehicle = Some(row.vehicle.copy(alloc)?);
    let version = row.version + 1;
    let files = role_texts(
        alloc,
        scheme,
        Repository::Director,
        &founding.keys,
        hashed,
        &vehicle,
        version,
        at,
        targets,
    )?;
    reply_json(alloc, &row.vehicle, version, founding.root, &files)
}

/// Bytes of room that a reply gets beside its files, so that it doesn't grow while it is written.
const ROOM: usize = 192;

/// The three files as they are, in one object.
fn reply_json(
    alloc: Global,
    vehicle: &Ident,
    version: u64,
    root: u64,
    files: &RoleTexts,
) -> Result<Text, AllocError>
    ensures { IfOk result (λ text. text ≡ reply_json_of vehicle.now version root files.now) }
{
    let room = ROOM
        .saturating_add(files.snapshot.as_str().len())
        .saturating_add(files.targets.as_str().len())
        .saturating_add(files.timestamp.as_str().len());
    let mut out = String::with_capacity(alloc, room)?;
    out.push_str("{\"root\":")?;
    push_number(&mut out, root)?;
    push_two(&mut out, ",\"snapshot\":", files.snapshot.as_str())?;
    push_two(&mut out, ",\"targets\":", files.targets.as_str())?;
    push_two(&mut out, ",\"timestamp\":", files.timestamp.as_str())?;
    out.push_str(",\"vehicle\":")?;
    push_ident(&mut out, vehicle)?;
    out.push_str(",\"version\":")?;
    push_number(&mut out, version)?;
    out.push('}')?;
    Ok(Text::new(out))
}

fn push_two(out: &mut String, first: &str, second: &str) -> Result<(), AllocError>
    ensures { IfOk result (λ _. string_bytes out.new ≡ string_bytes out.old ++ first.now ++ second.now) }
{
    out.push_str(first)?;
    out.push_str(second)
}
