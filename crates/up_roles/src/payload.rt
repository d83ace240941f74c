//! What the payloads of the four roles have in common.
ghost use Rattle.std.specs.Prelude.{◌≡◌, Ok, MatchResult, codes};
ghost use Rattle.up_canon.specs.Members.{IsFault, object_of_map};
ghost use Rattle.up_canon.specs.Refusals.{Gives};
ghost use Rattle.up_roles.specs.Payload.{repository_in, vehicle_in, expires_in, head_in};

use crate::repository::Repository;
use serde_json::{Map, Value};
use std::alloc::Global;
use up_canon::fields::text_at;
use up_canon::ident::Ident;
use up_canon::limits::{positive_at, word_at};
use up_canon::moment::Moment;
use up_canon::readers::ident_at;
use up_canon::refusal::Refusal;

/// What each payload says of itself.
#[derive(Debug, Drop)]
pub struct Head {
    pub repository: Repository,
    pub version: u64,
    pub expires: Moment,
}

/// The vehicle that a file of the Director names.
#[tactic(auto, unfolding(crate::specs::Payload::vehicle_in, up_canon::specs::Steps::and_then))]
pub(crate) fn vehicle_at(
    alloc: Global,
    repository: Repository,
    map: &Map<String, Value>,
) -> Result<Option<Ident>, Refusal>
    ensures { Gives result (vehicle_in repository (object_of_map map.now.entries)) }
{
    match repository {
        Repository::Director => Ok(Some(ident_at(alloc, map, "vehicle")?)),
        Repository::Image => Ok(None),
    }
}

/// The repository that the member `repository` names, or that name as the fault.
#[tactic(auto, unfolding(crate::specs::Payload::repository_in, up_canon::specs::Steps::and_then))]
pub fn repository_at(map: &Map<String, Value>) -> Result<Repository, &'static str>
    ensures { MatchResult result
        (λ repository. repository_in (object_of_map map.now.entries) ≡ Ok repository)
        (λ f. IsFault (repository_in (object_of_map map.now.entries)) (codes "repository") f.now) }
{
    match text_at(map, "repository")? {
        "director" => Ok(Repository::Director),
        "image" => Ok(Repository::Image),
        _ => Err("repository"),
    }
}

/// What the payload says of itself; its type has to be this one.
#[tactic(auto, unfolding(crate::specs::Payload::head_in, up_canon::specs::Steps::and_then))]
pub(crate) fn head_at(map: &Map<String, Value>, kind: &str) -> Result<Head, Refusal>
    ensures { result ≡ head_in kind.now (object_of_map map.now.entries) }
{
    word_at(map, "type", kind)?;
    let repository = repository_at(map)?;
    let version = positive_at(map, "version")?;
    Ok(Head {
        repository,
        version: version.get(),
        expires: expires_at(map)?,
    })
}

#[tactic(auto, unfolding(crate::specs::Payload::expires_in, up_canon::specs::Steps::and_then))]
fn expires_at(map: &Map<String, Value>) -> Result<Moment, &'static str>
    ensures { MatchResult result
        (λ moment. expires_in (object_of_map map.now.entries) ≡ Ok moment)
        (λ f. IsFault (expires_in (object_of_map map.now.entries)) (codes "expires") f.now) }
{
    let text = text_at(map, "expires")?;
    match Moment::read(text) {
        Some(moment) => Ok(moment),
        None => Err("expires"),
    }
}
