//! New vehicles.
ghost use Rattle.std.specs.Prelude.{◌≤◌};
ghost use Rattle.up_canon.specs.Moments.{last_command_moment};

use crate::decisions::digests::digest_of;
use crate::decisions::refused::refused;
use crate::decisions::register::{Register, put_vehicle};
use std::alloc::{AllocError, Global};
use up_canon::ident::Ident;
use up_canon::moment::Moment;
use up_canon::refusal::Refusal;
use up_canon::text::Text;
use up_machine::decide_vehicle::decide_vehicle;
use up_machine::decision::Decision;
use up_machine::rows::{EcuRow, VehicleRows};
use up_machine::vehicle::NewVehicle;
use up_manifest::report::Installed;
use up_sign::scheme::Scheme;

/// The answer to a new vehicle.
pub(crate) fn add_vehicle<K: Scheme>(
    alloc: Global,
    scheme: &K,
    at: Moment,
    register: &mut Register,
    new: NewVehicle,
) -> Result<String, AllocError>
    requires { at ≤ last_command_moment }
{
    let decided = addition(alloc, scheme, at, register, &new);
    decided_on(alloc, register, decided)
}

fn decided_on(
    alloc: Global,
    register: &mut Register,
    decided: Result<Decision<VehicleRows>, Refusal>,
) -> Result<String, AllocError> {
    match decided {
        Ok(Decision::Already) => "already".to_string(alloc),
        Ok(Decision::New(rows)) => added(alloc, register, rows),
        Err(refusal) => refused(alloc, refusal),
    }
}

fn addition<K: Scheme>(
    alloc: Global,
    scheme: &K,
    at: Moment,
    register: &Register,
    new: &NewVehicle,
) -> Result<Decision<VehicleRows>, Refusal>
    requires { at ≤ last_command_moment }
{
    let marks = marks(alloc, register, new)?;
    let name = &new.vehicle;
    let old = register.vehicles.get(name.text());
    let is_founded = register.founding.is_some();
    decide_vehicle(alloc, scheme, at, new, is_founded, old, marks.as_slice())
}

/// For each new ECU whether its name is taken.
fn marks(alloc: Global, register: &Register, new: &NewVehicle) -> Result<Vec<bool>, AllocError> {
    let mut marks = Vec::new(alloc);
    for ecu in new.ecus.as_slice() {
        marks.push(is_taken(register, ecu.ecu.text()))?;
    }
    Ok(marks)
}

/// Whether the name is that of an ECU, or of one that was replaced.
pub(crate) fn is_taken(register: &Register, name: &str) -> bool {
    is_recorded(register.vehicles.values(), name) || is_retired(register.retired.as_slice(), name)
}

fn is_recorded(vehicles: &[VehicleRows], name: &str) -> bool {
    vehicles.iter().any(|rows| has_ecu(rows, name))
}

fn is_retired(retired: &[Ident], name: &str) -> bool {
    retired.iter().any(|ecu| ecu.text() == name)
}

fn has_ecu(rows: &VehicleRows, name: &str) -> bool {
    rows.ecus
        .as_slice()
        .iter()
        .any(|row| row.ecu.text() == name)
}

fn added(alloc: Global, register: &mut Register, rows: VehicleRows) -> Result<String, AllocError> {
    let text = rows_text(alloc, &rows);
    put_vehicle(alloc, &mut register.vehicles, rows)?;
    text
}

/// A vehicle's row, and a digest of those of its ECUs.
pub(crate) fn rows_text(alloc: Global, rows: &VehicleRows) -> Result<String, AllocError> {
    let row = &rows.vehicle;
    let (vehicle, primary, last) = (row.vehicle.text(), row.primary.text(), row.last.get());
    let ecus = ecus_text(alloc, rows.ecus.as_slice())?;
    let digest = digest_of(alloc, &[&ecus])?;
    format!(in alloc;
        "{vehicle} of {primary} version {} last {last} {digest}",
        row.version
    )
}

fn ecus_text(alloc: Global, rows: &[EcuRow]) -> Result<Text, AllocError> {
    let mut text = String::new(alloc);
    for row in rows {
        text.push_str(ecu_text(alloc, row)?.as_str())?;
    }
    Ok(Text::new(text))
}

/// An ECU's name, hardware, public part, counter, installed image and last report, and a newline.
fn ecu_text(alloc: Global, row: &EcuRow) -> Result<String, AllocError> {
    let public = hex::encode(alloc, row.public.as_slice())?;
    let (ecu, hardware, counter) = (row.ecu.text(), row.hardware.text(), row.counter.get());
    let (image, report) = (installed_text(alloc, row)?, report_text(row));
    format!(in alloc; "{ecu} {hardware} {public} {counter} {image} {report}\n")
}

/// The filename, and behind a `+` the second hash where there is one.
fn installed_text(alloc: Global, row: &EcuRow) -> Result<String, AllocError> {
    match &row.installed {
        Some(image) => image_text(alloc, image),
        None => "none".to_string(alloc),
    }
}

fn image_text(alloc: Global, image: &Installed) -> Result<String, AllocError> {
    match &image.sha512 {
        Some(hash) => with_hash(alloc, image.file.text(), &hash[..]),
        None => image.file.text().to_string(alloc),
    }
}

fn with_hash(alloc: Global, file: &str, hash: &[u8]) -> Result<String, AllocError> {
    let digits = hex::encode(alloc, hash)?;
    format!(in alloc; "{file}+{digits}")
}

fn report_text(row: &EcuRow) -> &str {
    match &row.report {
        Some(text) => text.as_str(),
        None => "none",
    }
}
