//! Targets files: images, and in the Director repository the ECU that installs each.
ghost use Rattle.std.specs.Prelude.{◌≡◌, ◌<◌, ◌++◌, Err, codes, length, not, option_to_list, List, IfOk};
ghost use Rattle.serde_json.specs.View.{view};
ghost use Rattle.up_canon.specs.Members.{object_of_map, values_of};
ghost use Rattle.up_canon.specs.Names.{Name, are_distinct as are_distinct_names};
ghost use Rattle.up_canon.specs.Readers.{ident_of as name_of};
ghost use Rattle.up_canon.specs.Refusals.{Gives};
ghost use Rattle.up_canon.specs.Steps.{each};
ghost use Rattle.up_canon.specs.declared.refusal.Refusal.TheVariants.{TooLarge};
ghost use Rattle.up_roles.specs.Payload.{largest_file};
ghost use Rattle.up_roles.specs.Targets.{targets_in, targets_of, target_list_in, target_of, ecu_of, hardware_of, ecus_of, repeats_ecu, IsSeen};

use crate::file::{RoleFile, read_file};
use crate::parts::{count_part, few_part, file_name_part, ident_part, sha256_part, sha512_part};
use crate::payload::{head_at, vehicle_at};
use crate::repository::Repository;
use serde_json::{Map, Value};
use std::alloc::{AllocError, Global};
use std::collections::BTreeSet;
use up_canon::count::Count;
use up_canon::fields::list_at;
use up_canon::file_name::FileName;
use up_canon::ident::Ident;
use up_canon::kinds::object_of;
use up_canon::listed::{Duplicate, Listed};
use up_canon::moment::Moment;
use up_canon::named::are_distinct;
use up_canon::readers::ident_of;
use up_canon::refusal::Refusal;
use up_sign::envelope::Envelope;

/// An image: its filename, length in bytes, SHA-256, SHA-512 where it has one, the hardware that it is for and its release
/// counter. The Director's names the ECU that installs it. The type keeps no limits; `TargetsFile::fits` tells.
#[derive(Debug, Drop)]
pub struct Target {
    pub ecu: Option<Ident>,
    pub file: FileName,
    pub length: Count,
    pub sha256: [u8; 32],
    pub sha512: Option<[u8; 64]>,
    pub hardware: Listed<Ident>,
    pub release: Count,
}

impl Duplicate for Target {
    fn copy(&self, alloc: Global) -> Result<Target, AllocError> {
        Ok(Target {
            ecu: self.ecu.copy(alloc)?,
            file: self.file.copy(alloc)?,
            length: self.length,
            sha256: self.sha256,
            sha512: self.sha512,
            hardware: self.hardware.copy(alloc)?,
            release: self.release,
        })
    }
}

/// Targets metadata. The Director's is for one vehicle, which it names, and has no ECU twice. The type keeps no limits;
/// `fits` tells.
#[derive(Debug, Drop)]
pub struct TargetsFile {
    pub repository: Repository,
    pub version: u64,
    pub expires: Moment,
    pub vehicle: Option<Ident>,
    pub targets: Listed<Target>,
}

impl Duplicate for TargetsFile {
    fn copy(&self, alloc: Global) -> Result<TargetsFile, AllocError> {
        Ok(TargetsFile {
            repository: self.repository,
            version: self.version,
            expires: self.expires,
            vehicle: self.vehicle.copy(alloc)?,
            targets: self.targets.copy(alloc)?,
        })
    }
}

/// The Targets file that the bytes mean, and its envelope. `TooLarge` above 4,194,304 bytes, `NotJson`, `BadShape` with the
/// name of the first member at fault (of the envelope, then of the payload), `NotCanonical` between the two, `Memory`,
/// though never in place of `TooLarge`.
#[tactic(auto, unfolding(crate::specs::Targets::targets_in))]
pub fn read_targets(alloc: Global, bytes: &[u8]) -> Result<(TargetsFile, Envelope), Refusal>
    ensures value { Gives result (targets_in bytes.now) }
    ensures large { largest_file < length bytes.now → result ≡ Err TooLarge }
{
    read_file(alloc, bytes)
}

impl RoleFile for TargetsFile {
    ghost use Rattle.up_roles.specs.Targets.{targets_of};

    ghost meaning = { targets_of };

    fn of_payload(alloc: Global, map: &Map<String, Value>) -> Result<TargetsFile, Refusal> {
        targets_at(alloc, map)
    }
}

/// The Targets file that a payload means.
#[tactic(auto, unfolding(crate::specs::Targets::targets_of, up_canon::specs::Steps::and_then))]
fn targets_at(alloc: Global, map: &Map<String, Value>) -> Result<TargetsFile, Refusal>
    ensures { Gives result (targets_of (object_of_map map.now.entries)) }
{
    let head = head_at(map, "targets")?;
    let vehicle = vehicle_at(alloc, head.repository, map)?;
    Ok(TargetsFile {
        repository: head.repository,
        version: head.version,
        expires: head.expires,
        vehicle,
        targets: target_list_at(alloc, head.repository, map)?,
    })
}

#[tactic(auto, unfolding(crate::specs::Targets::target_list_in, up_canon::specs::Steps::and_then))]
fn target_list_at(
    alloc: Global,
    repository: Repository,
    map: &Map<String, Value>,
) -> Result<Listed<Target>, Refusal>
    ensures { Gives result (target_list_in repository (object_of_map map.now.entries)) }
{
    let values = list_at(map, "targets")?;
    let targets = each_target(alloc, repository, values.as_slice())?;
    if !has_distinct_ecus(alloc, targets.as_slice())? {
        return Err(Refusal::from("targets"));
    }
    Ok(targets)
}

/// Each target, in order. Memory is taken as they are read: a list of any length may stand there, which is no target.
#[tactic(auto, unfolding(up_canon::specs::Steps::each, up_canon::specs::Steps::and_then))]
fn each_target(
    alloc: Global,
    repository: Repository,
    values: &[Value],
) -> Result<Listed<Target>, Refusal>
    ensures { Gives result (each (target_of repository) (values_of values.now)) }
{
    let mut targets = Vec::new(alloc);
    for value in values {
        targets.push(target_at(alloc, repository, value)?)?;
    }
    Ok(Listed::new(targets))
}

#[tactic(auto, unfolding(crate::specs::Targets::target_of, up_canon::specs::Steps::and_then))]
fn target_at(alloc: Global, repository: Repository, value: &Value) -> Result<Target, Refusal>
    ensures { Gives result (target_of repository (view value.now)) }
{
    let map = object_of(value, "targets")?;
    let ecu = ecu_at(alloc, repository, map)?;
    let file = file_name_part(alloc, map, "file", "targets")?;
    let hardware = hardware_at(alloc, map)?;
    let sha256 = sha256_part(map, "targets")?;
    let length = count_part(map, "length", "targets")?;
    Ok(Target {
        ecu,
        file,
        length,
        sha256,
        sha512: sha512_part(map),
        hardware,
        release: count_part(map, "release", "targets")?,
    })
}

/// The ECU that the Director names.
#[tactic(auto, unfolding(crate::specs::Targets::ecu_of, up_canon::specs::Steps::and_then))]
fn ecu_at(
    alloc: Global,
    repository: Repository,
    map: &Map<String, Value>,
) -> Result<Option<Ident>, Refusal>
    ensures { Gives result (ecu_of repository (object_of_map map.now.entries)) }
{
    match repository {
        Repository::Director => Ok(Some(ident_part(alloc, map, "ecu", "targets")?)),
        Repository::Image => Ok(None),
    }
}

#[tactic(auto, using(up_canon::proofs::Repeated::names_themselves), unfolding(crate::specs::Targets::hardware_of, up_canon::specs::Steps::and_then))]
fn hardware_at(alloc: Global, map: &Map<String, Value>) -> Result<Listed<Ident>, Refusal>
    ensures { Gives result (hardware_of (object_of_map map.now.entries)) }
{
    let values = few_part(map, "hardware", "targets", 1, 16)?;
    let hardware = each_name(alloc, values.as_slice())?;
    if !are_distinct(hardware.as_slice()) {
        return Err(Refusal::from("targets"));
    }
    Ok(hardware)
}

#[tactic(auto, unfolding(up_canon::specs::Steps::each, up_canon::specs::Steps::and_then))]
fn each_name(alloc: Global, values: &[Value]) -> Result<Listed<Ident>, Refusal>
    ensures { Gives result (each (name_of (codes "targets")) (values_of values.now)) }
{
    let mut names = Vec::with_capacity(alloc, values.len())?;
    for value in values {
        names.push(ident_of(alloc, value, "targets")?)?;
    }
    Ok(Listed::new(names))
}

/// Whether no ECU stands twice.
pub(crate) fn has_distinct_ecus(alloc: Global, targets: &[Target]) -> Result<bool, AllocError>
    ensures { IfOk result (λ distinct. distinct ≡ are_distinct_names (ecus_of targets.now)) }
{
    let mut seen = BTreeSet::new(alloc);
    for target in targets {
        if !adds_ecu(&mut seen, &target.ecu)? {
            return Ok(false);
        }
    }
    Ok(true)
}

/// Adds the ECU, if there is one, to those that were seen; whether it isn't one of them.
fn adds_ecu<'a>(seen: &mut BTreeSet<&'a str>, ecu: &'a Option<Ident>) -> Result<bool, AllocError>
    ensures { IfOk result (λ new. (names : List Name) → IsSeen seen.old names
        → (new ≡ not (repeats_ecu names ecu.now)) × IsSeen seen.new (names ++ option_to_list ecu.now)) }
{
    match ecu {
        Some(ecu) => Ok(seen.insert(ecu.text())?),
        None => Ok(true),
    }
}
