//! A Primary's state as a JSON file: its scheme, what it knows of its vehicle, and what it trusts.
ghost use Rattle.serde_json.specs.View.{view};
ghost use Rattle.up_canon.specs.Members.{object_of_map};
ghost use Rattle.up_canon.specs.Refusals.{Gives};
ghost use Rattle.up_primary_files.specs.States.{versions_of, root_of, trust_of, both_of, ecu_in, own_of, primary_of, method_of, texts_of, kept_of, state_behind as state_behind_of, state_of as state_of_value, state_in};

use crate::form::{each_at, text_of_member};
use crate::method::Method;
use serde_json::{Map, Value};
use std::alloc::Global;
use up_canon::each::Reading;
use up_canon::fields::{count_at, object_at, text_at};
use up_canon::hex_text::hex_of;
use up_canon::ident::Ident;
use up_canon::json_text::value_of_text;
use up_canon::kinds::object_of;
use up_canon::listed::Listed;
use up_canon::name_readings::IdentReading;
use up_canon::readers::ident_at;
use up_canon::refusal::Refusal;
use up_canon::text::Text;
use up_roles::root::{RootFile, read_root};
use up_verify::known_key::KnownKey;
use up_verify::trust::{OwnEcu, Primary, Trust, Versions};

/// The text of the Root that is trusted of each repository.
#[derive(Drop)]
pub struct RootTexts {
    pub director: Text,
    pub image: Text,
}

/// A Primary: its scheme, the public parts that it holds itself (none where Roots show them), what it knows and trusts, and the
/// text of the Root that it trusts of each repository.
#[derive(Drop)]
pub struct State {
    pub method: Method,
    pub held: Listed<KnownKey>,
    pub primary: Primary,
    pub roots: RootTexts,
}

/// The state that the file's text says: `NotJson`, `BadShape` with the name of the first member at fault, or what is wrong with
/// a trusted Root's text, which is taken as it is: whoever writes the file vouches for it. `Memory`.
#[tactic(auto, unfolding(crate::specs::States::state_in, up_canon::specs::Steps::and_then))]
pub fn read_state(alloc: Global, text: &str) -> Result<State, Refusal>
    ensures { Gives result (state_in text.now) }
{
    let value = value_of_text(alloc, text)?;
    let read = state_of(alloc, &value);
    // Dropped by name: at the end of a scope it would be proved part by part.
    drop(value);
    read
}

#[tactic(auto, unfolding(crate::specs::States::state_of, up_canon::specs::Steps::and_then))]
fn state_of(alloc: Global, value: &Value) -> Result<State, Refusal>
    ensures { Gives result (state_of_value (view value.now)) }
{
    let map = object_of(value, "state")?;
    let director = object_at(map, "director")?;
    let image = object_at(map, "image")?;
    let method = method_at(map)?;
    match primary_at(alloc, map, director, image) {
        Ok(primary) => state_behind(alloc, map, director, image, method, primary),
        Err(refusal) => Err(refusal),
    }
}

#[tactic(auto, unfolding(crate::specs::States::state_behind, up_canon::specs::Steps::and_then))]
fn state_behind(
    alloc: Global,
    map: &Map<String, Value>,
    director: &Map<String, Value>,
    image: &Map<String, Value>,
    method: Method,
    primary: Primary,
) -> Result<State, Refusal>
    ensures { Gives result (state_behind_of (object_of_map map.now.entries) (object_of_map director.now.entries) (object_of_map image.now.entries) method primary) }
{
    match kept_at(alloc, map, director, image) {
        Ok(Kept { held, roots }) => Ok(State {
            method,
            held,
            primary,
            roots,
        }),
        Err(refusal) => {
            drop(primary);
            Err(refusal)
        }
    }
}

#[tactic(auto, unfolding(crate::specs::States::method_of, up_canon::specs::Steps::and_then))]
fn method_at(map: &Map<String, Value>) -> Result<Method, Refusal>
    ensures { Gives result (method_of (object_of_map map.now.entries)) }
{
    match Method::named(text_at(map, "method")?) {
        Some(method) => Ok(method),
        None => Err(Refusal::from("method")),
    }
}

// ---- keys that are held, and texts

/// What is kept beside what is known and trusted.
#[derive(Drop)]
pub struct Kept {
    pub held: Listed<KnownKey>,
    pub roots: RootTexts,
}

#[tactic(auto, unfolding(crate::specs::States::kept_of, crate::specs::States::held_of, up_canon::specs::Steps::and_then))]
fn kept_at(
    alloc: Global,
    map: &Map<String, Value>,
    director: &Map<String, Value>,
    image: &Map<String, Value>,
) -> Result<Kept, Refusal>
    ensures { Gives result (kept_of (object_of_map map.now.entries) (object_of_map director.now.entries) (object_of_map image.now.entries)) }
{
    let roots = texts_at(alloc, director, image)?;
    match each_at::<KeyReading>(alloc, map, "held") {
        Ok(held) => Ok(Kept { held, roots }),
        Err(refusal) => {
            drop(roots);
            Err(refusal)
        }
    }
}

#[tactic(auto, unfolding(crate::specs::States::texts_of, up_canon::specs::Steps::and_then))]
fn texts_at(
    alloc: Global,
    director: &Map<String, Value>,
    image: &Map<String, Value>,
) -> Result<RootTexts, Refusal>
    ensures { Gives result (texts_of (object_of_map director.now.entries) (object_of_map image.now.entries)) }
{
    Ok(RootTexts {
        director: text_of_member(alloc, director, "root")?,
        image: text_of_member(alloc, image, "root")?,
    })
}

/// Public parts; the list's name is the fault of a value that is none.
pub struct KeyReading;

impl Reading for KeyReading {
    ghost use Rattle.up_canon.specs.HexText.{hex_of as hex_of_value};

    type Item = KnownKey;

    ghost meaning = { hex_of_value 2 128 };

    fn read(alloc: Global, value: &Value, place: &'static str) -> Result<KnownKey, Refusal> {
        Ok(KnownKey::new(alloc, hex_of(alloc, value, place, 2, 128)?)?)
    }
}

// ---- what is known and trusted

#[tactic(auto, unfolding(crate::specs::States::primary_of, up_canon::specs::Steps::and_then))]
fn primary_at(
    alloc: Global,
    map: &Map<String, Value>,
    director: &Map<String, Value>,
    image: &Map<String, Value>,
) -> Result<Primary, Refusal>
    ensures { Gives result (primary_of (object_of_map map.now.entries) (object_of_map director.now.entries) (object_of_map image.now.entries)) }
{
    let own = own_at(alloc, map)?;
    match both_at(alloc, director, image) {
        Ok(Both { director, image }) => {
            let Own {
                vehicle,
                ecus,
                replaced,
            } = own;
            Ok(Primary {
                vehicle,
                ecus,
                replaced,
                director,
                image,
            })
        }
        Err(refusal) => {
            drop(own);
            Err(refusal)
        }
    }
}

/// What a Primary knows of its vehicle.
#[derive(Drop)]
pub struct Own {
    pub vehicle: Ident,
    pub ecus: Listed<OwnEcu>,
    pub replaced: Listed<Ident>,
}

#[tactic(auto, unfolding(crate::specs::States::own_of, crate::specs::States::ecus_of, crate::specs::States::replaced_of, up_canon::specs::Steps::and_then))]
fn own_at(alloc: Global, map: &Map<String, Value>) -> Result<Own, Refusal>
    ensures { Gives result (own_of (object_of_map map.now.entries)) }
{
    Ok(Own {
        vehicle: ident_at(alloc, map, "vehicle")?,
        ecus: each_at::<EcuReading>(alloc, map, "ecus")?,
        replaced: each_at::<IdentReading>(alloc, map, "replaced")?,
    })
}

/// ECUs; the list's name is the fault of a value that is no object.
pub struct EcuReading;

impl Reading for EcuReading {
    ghost use Rattle.up_primary_files.specs.States.{ecu_of as ecu_of_value};

    type Item = OwnEcu;

    ghost meaning = { ecu_of_value };

    #[tactic(auto, unfolding(crate::specs::States::ecu_of, up_canon::specs::Steps::and_then))]
    fn read(alloc: Global, value: &Value, place: &'static str) -> Result<OwnEcu, Refusal> {
        ecu_at(alloc, object_of(value, place)?)
    }
}

#[tactic(auto, unfolding(crate::specs::States::ecu_in, up_canon::specs::Steps::and_then))]
fn ecu_at(alloc: Global, map: &Map<String, Value>) -> Result<OwnEcu, Refusal>
    ensures { Gives result (ecu_in (object_of_map map.now.entries)) }
{
    Ok(OwnEcu {
        ecu: ident_at(alloc, map, "ecu")?,
        hardware: ident_at(alloc, map, "hardware")?,
        release: count_at(map, "release")?,
    })
}

/// What is trusted of both repositories.
#[derive(Drop)]
pub struct Both {
    pub director: Trust,
    pub image: Trust,
}

#[tactic(auto, unfolding(crate::specs::States::both_of, up_canon::specs::Steps::and_then))]
fn both_at(
    alloc: Global,
    director: &Map<String, Value>,
    image: &Map<String, Value>,
) -> Result<Both, Refusal>
    ensures { Gives result (both_of (object_of_map director.now.entries) (object_of_map image.now.entries)) }
{
    match trust_at(alloc, director) {
        Ok(director) => match trust_at(alloc, image) {
            Ok(image) => Ok(Both { director, image }),
            Err(refusal) => {
                drop(director);
                Err(refusal)
            }
        },
        Err(refusal) => Err(refusal),
    }
}

#[tactic(auto, unfolding(crate::specs::States::trust_of, up_canon::specs::Steps::and_then))]
fn trust_at(alloc: Global, map: &Map<String, Value>) -> Result<Trust, Refusal>
    ensures { Gives result (trust_of (object_of_map map.now.entries)) }
{
    let versions = versions_at(map)?;
    match root_at(alloc, map) {
        Ok(root) => Ok(Trust { root, versions }),
        Err(refusal) => Err(refusal),
    }
}

#[tactic(auto, unfolding(crate::specs::States::versions_of, up_canon::specs::Steps::and_then))]
fn versions_at(map: &Map<String, Value>) -> Result<Versions, Refusal>
    ensures { Gives result (versions_of (object_of_map map.now.entries)) }
{
    Ok(Versions {
        timestamp: count_at(map, "timestamp")?.get(),
        snapshot: count_at(map, "snapshot")?.get(),
        targets: count_at(map, "targets")?.get(),
    })
}

#[tactic(auto, unfolding(crate::specs::States::root_of, up_canon::specs::Steps::and_then))]
fn root_at(alloc: Global, map: &Map<String, Value>) -> Result<RootFile, Refusal>
    ensures { Gives result (root_of (object_of_map map.now.entries)) }
{
    match read_root(alloc, text_at(map, "root")?.as_bytes()) {
        Ok((root, envelope)) => {
            drop(envelope);
            Ok(root)
        }
        Err(refusal) => Err(refusal),
    }
}
