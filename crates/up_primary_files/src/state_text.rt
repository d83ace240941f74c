//! A Primary's state, written as the JSON file that is read again.
ghost use Rattle.std.specs.Prelude.{◌≡◌, IfOk, IsUtf8, Ok, codes, map as map_of, string_bytes};
ghost use Rattle.serde_json.specs.Data.{string, put as put_of};
ghost use Rattle.serde_json.specs.View.{members_view, view};
ghost use Rattle.up_canon.specs.Build.{list_with, count_value, hex_value};
ghost use Rattle.up_primary_files.specs.States.{state_in};
ghost use Rattle.up_primary_files.specs.Written.{trust_value as trust_value_of, ecu_value as ecu_value_of, state_value as state_value_of, root_text as root_text_of, state_then, IsWhole};

use crate::state::State;
use serde_json::{Map, Value, put};
use std::alloc::{AllocError, Global};
use std::str;
use up_canon::bytes::Bytes;
use up_canon::ident::Ident;
use up_verify::known_key::KnownKey;
use up_verify::served::Served;
use up_verify::trust::{OwnEcu, Primary, Versions};

/// The file's text in which this is known and trusted behind what was served: one line of JSON. Each Root has the text in which it came.
pub(crate) fn state_text(
    alloc: Global,
    state: &State,
    next: &Primary,
    served: &Served,
) -> Result<String, AllocError>
    ensures { IfOk result (λ text. IsWhole (state_then state.now next.now served.now) → state_in (string_bytes text) ≡ Ok (state_then state.now next.now served.now)) }
{
    let director = root_text(
        state.roots.director.as_str(),
        state.primary.director.root.version,
        served.director_roots.as_slice(),
        next.director.root.version,
    );
    let image = root_text(
        state.roots.image.as_str(),
        state.primary.image.root.version,
        served.image_roots.as_slice(),
        next.image.root.version,
    );
    let value = state_value(alloc, state, next, director, image)?;
    let written = value.to_string(alloc);
    // Dropped by name: at the end of a scope it would be proved part by part.
    drop(value);
    written
}

/// The file's value, where the texts of both Roots are these.
fn state_value(
    alloc: Global,
    state: &State,
    next: &Primary,
    director: &str,
    image: &str,
) -> Result<Value, AllocError>
    ensures { IfOk result (λ v. view v ≡ state_value_of (record { method = state.now.method; held = state.now.held; primary = next.now; roots = record { director = director.now; image = image.now } })) }
{
    let map = with_trust(
        alloc,
        Map::new(alloc),
        "director",
        director,
        next.director.versions,
    )?;
    let map = with_ecus(alloc, map, next.ecus.as_slice())?;
    let map = with_held(alloc, map, state.held.as_slice())?;
    let map = with_trust(alloc, map, "image", image, next.image.versions)?;
    let map = with_text(alloc, map, "method", state.method.name())?;
    let map = with_replaced(alloc, map, next.replaced.as_slice())?;
    let map = with_text(alloc, map, "vehicle", next.vehicle.text())?;
    Ok(Value::Object(map))
}

fn trust_value(alloc: Global, root: &str, versions: Versions) -> Result<Value, AllocError>
    ensures { IfOk result (λ v. view v ≡ trust_value_of root.now versions) }
{
    let map = with_text(alloc, Map::new(alloc), "root", root)?;
    let map = with_count(alloc, map, "snapshot", versions.snapshot)?;
    let map = with_count(alloc, map, "targets", versions.targets)?;
    let map = with_count(alloc, map, "timestamp", versions.timestamp)?;
    Ok(Value::Object(map))
}

fn ecus_value(alloc: Global, ecus: &[OwnEcu]) -> Result<Value, AllocError>
    ensures { IfOk result (λ v. view v ≡ list_with (map_of ecu_value_of ecus.now)) }
{
    let mut values = Vec::with_capacity(alloc, ecus.len())?;
    for own in ecus {
        values.push(ecu_value(alloc, own)?)?;
    }
    Ok(Value::Array(values))
}

fn ecu_value(alloc: Global, own: &OwnEcu) -> Result<Value, AllocError>
    ensures { IfOk result (λ v. view v ≡ ecu_value_of own.now) }
{
    let map = with_text(alloc, Map::new(alloc), "ecu", own.ecu.text())?;
    let map = with_text(alloc, map, "hardware", own.hardware.text())?;
    let map = with_count(alloc, map, "release", own.release.get())?;
    Ok(Value::Object(map))
}

fn names_value(alloc: Global, names: &[Ident]) -> Result<Value, AllocError>
    ensures { IfOk result (λ v. view v ≡ list_with (map_of string names.now)) }
{
    let mut values = Vec::with_capacity(alloc, names.len())?;
    for name in names {
        values.push(Value::try_from_str(alloc, name.text())?)?;
    }
    Ok(Value::Array(values))
}

fn held_value(alloc: Global, held: &[KnownKey]) -> Result<Value, AllocError>
    ensures { IfOk result (λ v. view v ≡ list_with (map_of hex_value held.now)) }
{
    let mut values = Vec::with_capacity(alloc, held.len())?;
    for key in held {
        values.push(Value::String(hex::encode(alloc, key.public())?))?;
    }
    Ok(Value::Array(values))
}

// ---- objects with one member more

type Members = Map<String, Value>;

fn with_value(alloc: Global, map: Members, name: &str, value: Value) -> Result<Members, AllocError>
    ensures { IfOk result (λ m. members_view m.entries ≡ put_of name.now (view value) (members_view map.entries)) }
{
    let mut map = map;
    match put(&mut map, alloc, name, value) {
        Ok(()) => Ok(map),
        Err(fault) => {
            drop(map);
            Err(fault)
        }
    }
}

fn with_text(alloc: Global, map: Members, name: &str, text: &str) -> Result<Members, AllocError>
    ensures { IfOk result (λ m. members_view m.entries ≡ put_of name.now (string text.now) (members_view map.entries)) }
{
    match Value::try_from_str(alloc, text) {
        Ok(value) => with_value(alloc, map, name, value),
        Err(fault) => {
            drop(map);
            Err(fault)
        }
    }
}

fn with_count(alloc: Global, map: Members, name: &str, count: u64) -> Result<Members, AllocError>
    ensures { IfOk result (λ m. members_view m.entries ≡ put_of name.now (count_value count) (members_view map.entries)) }
{
    with_value(alloc, map, name, Value::from(count))
}

fn with_trust(
    alloc: Global,
    map: Members,
    name: &str,
    root: &str,
    versions: Versions,
) -> Result<Members, AllocError>
    ensures { IfOk result (λ m. members_view m.entries ≡ put_of name.now (trust_value_of root.now versions) (members_view map.entries)) }
{
    match trust_value(alloc, root, versions) {
        Ok(value) => with_value(alloc, map, name, value),
        Err(fault) => {
            drop(map);
            Err(fault)
        }
    }
}

fn with_ecus(alloc: Global, map: Members, ecus: &[OwnEcu]) -> Result<Members, AllocError>
    ensures { IfOk result (λ m. members_view m.entries ≡ put_of (codes "ecus") (list_with (map_of ecu_value_of ecus.now)) (members_view map.entries)) }
{
    match ecus_value(alloc, ecus) {
        Ok(value) => with_value(alloc, map, "ecus", value),
        Err(fault) => {
            drop(map);
            Err(fault)
        }
    }
}

fn with_held(alloc: Global, map: Members, held: &[KnownKey]) -> Result<Members, AllocError>
    ensures { IfOk result (λ m. members_view m.entries ≡ put_of (codes "held") (list_with (map_of hex_value held.now)) (members_view map.entries)) }
{
    match held_value(alloc, held) {
        Ok(value) => with_value(alloc, map, "held", value),
        Err(fault) => {
            drop(map);
            Err(fault)
        }
    }
}

fn with_replaced(alloc: Global, map: Members, names: &[Ident]) -> Result<Members, AllocError>
    ensures { IfOk result (λ m. members_view m.entries ≡ put_of (codes "replaced") (list_with (map_of string names.now)) (members_view map.entries)) }
{
    match names_value(alloc, names) {
        Ok(value) => with_value(alloc, map, "replaced", value),
        Err(fault) => {
            drop(map);
            Err(fault)
        }
    }
}

// ---- which Root's text

/// The text of the Root that is trusted behind these: the one before, where the version is no greater, else the one of that
/// version among those that came behind it.
pub(crate) fn root_text<'a>(
    before: &'a str,
    first: u64,
    roots: &'a [Bytes],
    version: u64,
) -> &'a str
    ensures { IsUtf8 (root_text_of before.now first roots.now version) → result.now ≡ root_text_of before.now first roots.now version }
{
    if version <= first {
        return before;
    }
    let Ok(place) = usize::try_from(version - first - 1) else {
        return before;
    };
    match roots.get(place) {
        Some(bytes) => str::from_utf8(bytes.as_slice()).unwrap_or(before),
        None => before,
    }
}
