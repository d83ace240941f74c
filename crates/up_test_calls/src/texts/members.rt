//! Members of JSON objects, read and copied.
ghost use Rattle.std.specs.Prelude.{codes};
ghost use Rattle.up_canon.specs.Members.{object_of_map};
ghost use Rattle.up_canon.specs.Readers.{word_in, ident_in};
ghost use Rattle.up_canon.specs.Refusals.{Gives};
ghost use Rattle.up_canon.specs.Steps.{and_then};

use crate::texts::values::hex_digits;
use serde_json::{Map, Value};
use std::alloc::{AllocError, Global};
use up_canon::bytes::Bytes;
use up_canon::each::each_of;
use up_canon::fields::{count_at, list_at, member_at, object_at};
use up_canon::file_name::FileName;
use up_canon::hex_text::{hex_at, sha256_at, sha512_at, sha512_of};
use up_canon::ident::Ident;
use up_canon::limits::word_at;
use up_canon::listed::{Duplicate, Listed};
use up_canon::name_readings::{FileNameReading, IdentReading};
use up_canon::readers::{file_name_at, ident_at, note_at};
use up_canon::refusal::Refusal;

/// A member `ecu`, an identifier.
pub(crate) fn ecu(alloc: Global, members: &Map<String, Value>) -> Result<String, AllocError> {
    match ident_at(alloc, members, "ecu") {
        Ok(name) => name.copy(alloc)?.text().to_string(alloc),
        Err(refusal) => refusal.text(alloc),
    }
}

/// A member `file`, a filename.
pub(crate) fn file(alloc: Global, members: &Map<String, Value>) -> Result<String, AllocError> {
    match file_name_at(alloc, members, "file") {
        Ok(name) => name.copy(alloc)?.text().to_string(alloc),
        Err(refusal) => refusal.text(alloc),
    }
}

/// A member `attack`, a note.
pub(crate) fn note(alloc: Global, members: &Map<String, Value>) -> Result<String, AllocError> {
    match note_at(alloc, members, "attack") {
        Ok(note) => note.copy(alloc)?.text().to_string(alloc),
        Err(refusal) => refusal.text(alloc),
    }
}

/// A member `sig` of 2 to 1,024 hex digits.
pub(crate) fn signature(alloc: Global, members: &Map<String, Value>) -> Result<String, AllocError> {
    match hex_at(alloc, members, "sig", 2, 1024) {
        Ok(bytes) => copied_digits(alloc, &bytes),
        Err(refusal) => refusal.text(alloc),
    }
}

fn copied_digits(alloc: Global, bytes: &Bytes) -> Result<String, AllocError> {
    hex_digits(alloc, bytes.copy(alloc)?.as_slice())
}

/// A member `sha256`.
pub(crate) fn sha256(alloc: Global, members: &Map<String, Value>) -> Result<String, AllocError> {
    match sha256_at(members, "sha256") {
        Ok(hash) => hex_digits(alloc, &hash[..]),
        Err(name) => name.to_string(alloc),
    }
}

/// A member `sha512`, where any other than a SHA-512 counts as none, and where it is a fault.
pub(crate) fn sha512(alloc: Global, members: &Map<String, Value>) -> Result<String, AllocError> {
    let counted = sha512_or_none(alloc, members)?;
    let wanted = sha512_or_name(alloc, members)?;
    format!(in alloc; "{counted}, wanted {wanted}")
}

fn sha512_or_none(alloc: Global, members: &Map<String, Value>) -> Result<String, AllocError> {
    match sha512_at(members) {
        Some(hash) => hex_digits(alloc, &hash[..]),
        None => "none".to_string(alloc),
    }
}

fn sha512_or_name(alloc: Global, members: &Map<String, Value>) -> Result<String, AllocError> {
    match member_at(members, "sha512") {
        Ok(value) => sha512_in(alloc, value),
        Err(name) => name.to_string(alloc),
    }
}

fn sha512_in(alloc: Global, value: &Value) -> Result<String, AllocError> {
    match sha512_of(value, "sha512") {
        Ok(hash) => hex_digits(alloc, &hash[..]),
        Err(name) => name.to_string(alloc),
    }
}

/// A member `ecus`, a list of identifiers.
pub(crate) fn ecus(alloc: Global, members: &Map<String, Value>) -> Result<String, AllocError> {
    match list_at(members, "ecus") {
        Ok(listed) => all_ecus(alloc, listed.as_slice()),
        Err(name) => name.to_string(alloc),
    }
}

fn all_ecus(alloc: Global, listed: &[Value]) -> Result<String, AllocError> {
    match each_of::<IdentReading>(alloc, listed, "ecus") {
        Ok(ecus) => names_and_copy(alloc, &ecus),
        Err(refusal) => refusal.text(alloc),
    }
}

/// The names of a copy, and whether it equals its source.
fn names_and_copy(alloc: Global, names: &Listed<Ident>) -> Result<String, AllocError> {
    let copied = names.copy(alloc)?;
    let text = names_of(alloc, &copied)?;
    let equal = copied == *names;
    format!(in alloc; "{text} equal {equal}")
}

fn names_of(alloc: Global, names: &Listed<Ident>) -> Result<String, AllocError> {
    let mut out = String::new(alloc);
    for name in names.as_slice() {
        out.push_str(name.text())?;
        out.push(',')?;
    }
    Ok(out)
}

/// A member `files`, a list of filenames.
pub(crate) fn files(alloc: Global, members: &Map<String, Value>) -> Result<String, AllocError> {
    match list_at(members, "files") {
        Ok(listed) => all_files(alloc, listed.as_slice()),
        Err(name) => name.to_string(alloc),
    }
}

fn all_files(alloc: Global, listed: &[Value]) -> Result<String, AllocError> {
    match each_of::<FileNameReading>(alloc, listed, "files") {
        Ok(files) => file_names_of(alloc, &files),
        Err(refusal) => refusal.text(alloc),
    }
}

fn file_names_of(alloc: Global, names: &Listed<FileName>) -> Result<String, AllocError> {
    let mut out = String::new(alloc);
    for name in names.as_slice() {
        out.push_str(name.text())?;
        out.push(',')?;
    }
    Ok(out)
}

/// A member `counter`, a count.
pub(crate) fn count(alloc: Global, members: &Map<String, Value>) -> Result<String, AllocError> {
    match count_at(members, "counter") {
        Ok(count) => format!(in alloc; "{}", count.get()),
        Err(name) => name.to_string(alloc),
    }
}

/// The identifier `ecu` of a member `image`, an object.
pub(crate) fn object(alloc: Global, members: &Map<String, Value>) -> Result<String, AllocError> {
    match object_at(members, "image") {
        Ok(inner) => ecu(alloc, inner),
        Err(name) => name.to_string(alloc),
    }
}

/// A vehicle, as a crate above reads a payload.
pub(crate) fn vehicle(alloc: Global, members: &Map<String, Value>) -> Result<String, AllocError> {
    match vehicle_in(alloc, members) {
        Ok(name) => name.text().to_string(alloc),
        Err(refusal) => refusal.text(alloc),
    }
}

// The same steps stand in the definition and in the code.
#[tactic(auto, unfolding(up_canon::specs::Steps::and_then))]
fn vehicle_in(alloc: Global, payload: &Map<String, Value>) -> Result<Ident, Refusal>
    ensures { let d = object_of_map payload.now.entries in
        Gives result (and_then (word_in (codes "manifest") (codes "type") d) (λ _. ident_in (codes "vehicle") d)) }
{
    word_at(payload, "type", "manifest")?;
    ident_at(alloc, payload, "vehicle")
}
