//! What was served to a Primary, as a JSON file.
ghost use Rattle.std.specs.Prelude.{◌≡◌, IfOk, Ok, codes};
ghost use Rattle.serde_json.specs.View.{view};
ghost use Rattle.up_canon.specs.Members.{object_of_map};
ghost use Rattle.up_primary_files.specs.Served.{texts_in, AreTexts, IsServedBy, IsServed};

use crate::form::{TextReading, each_at, text_or_empty};
use crate::reply::read_reply;
use serde_json::{Map, Value};
use std::alloc::Global;
use up_canon::bytes::Bytes;
use up_canon::fields::text_at;
use up_canon::json_text::value_of_text;
use up_canon::kinds::object_of;
use up_canon::listed::Listed;
use up_canon::refusal::Refusal;
use up_metadata::role_files::RoleTexts;
use up_verify::served::Served;

/// What the file's text says was served: `director_roots` and `image_roots`, the texts of the Roots behind the trusted ones, in
/// order; `reply`, the Director's; `timestamp`, `snapshot` and `targets`, the Image repository's, each as it came. Where one of
/// these three is missing, it is taken as an empty text. `NotJson`, `BadShape` with the name of the first member at fault, of the
/// file and then of the reply, `Memory`.
pub(crate) fn read_served(alloc: Global, text: &str) -> Result<Served, Refusal>
    ensures { IfOk result (IsServed text.now) }
{
    let value = value_of_text(alloc, text)?;
    let read = served_of(alloc, &value);
    // Dropped by name: at the end of a scope it would be proved part by part.
    drop(value);
    read
}

fn served_of(alloc: Global, value: &Value) -> Result<Served, Refusal>
    ensures { IfOk result (IsServedBy (view value.now)) }
{
    let map = object_of(value, "served")?;
    let reply = read_reply(alloc, text_at(map, "reply")?)?;
    match files_at(alloc, map) {
        Ok(
            Files {
                director_roots,
                image_roots,
                image,
            },
        ) => Ok(Served {
            director_roots,
            reply,
            image_roots,
            image,
        }),
        Err(refusal) => {
            drop(reply);
            Err(refusal)
        }
    }
}

/// The Roots of both repositories, and the Image repository's other files.
#[derive(Drop)]
struct Files {
    director_roots: Listed<Bytes>,
    image_roots: Listed<Bytes>,
    image: RoleTexts,
}

#[tactic(auto, unfolding(crate::specs::Served::texts_in))]
fn files_at(alloc: Global, map: &Map<String, Value>) -> Result<Files, Refusal>
    ensures director { IfOk result (λ f. texts_in (codes "director_roots") (object_of_map map.now.entries) ≡ Ok f.director_roots) }
    ensures image { IfOk result (λ f. texts_in (codes "image_roots") (object_of_map map.now.entries) ≡ Ok f.image_roots) }
    ensures files { IfOk result (λ f. AreTexts (object_of_map map.now.entries) f.image) }
{
    Ok(Files {
        director_roots: each_at::<TextReading>(alloc, map, "director_roots")?,
        image_roots: each_at::<TextReading>(alloc, map, "image_roots")?,
        image: image_at(alloc, map)?,
    })
}

fn image_at(alloc: Global, map: &Map<String, Value>) -> Result<RoleTexts, Refusal>
    ensures { IfOk result (AreTexts (object_of_map map.now.entries)) }
{
    let targets = text_or_empty(alloc, map, "targets")?;
    let snapshot = text_or_empty(alloc, map, "snapshot")?;
    let timestamp = text_or_empty(alloc, map, "timestamp")?;
    Ok(RoleTexts {
        targets,
        snapshot,
        timestamp,
    })
}
