//! What a request asks, but for its body.
ghost use Rattle.std.specs.Prelude.{◌≡◌, IfOk, codes};
ghost use Rattle.httparse.specs.Grammar.{RequestHead};
ghost use Rattle.up_heads.specs.Fronts.{IsFactsOf};
ghost use Rattle.up_heads.specs.Routed.{request_route, routed_at, routed_by, got, named_file, path_of as path_before, post_route as posted_by};
ghost use Rattle.up_heads.specs.Routes.{kind, strip};

use crate::check::Check;
use crate::heads::Facts;
use crate::methods::Verb;
use crate::routes::{Kind, Routes};
use std::alloc::{AllocError, Global};
use std::str;
use up_canon::file_name::FileName;

/// What a request asks, but for its body.
#[derive(Debug, Drop)]
pub enum Routed {
    /// A fixed answer.
    Fixed(Check),
    /// The delivery of a vehicle version manifest, which is the body.
    Deliver,
    /// A file of the Director repository.
    FetchDirector(FileName),
    /// A file of the Image repository.
    FetchImage(FileName),
}

/// What the request of the head at the front of bytes asks, but for its body, whose length is the stated one or none.
#[tactic(auto, unfolding(crate::specs::Routed::request_route))]
pub fn route_of(
    alloc: Global,
    routes: &mut Routes,
    bytes: &[u8],
    facts: &Facts,
    stated: Option<usize>,
) -> Result<Routed, AllocError>
    requires { (head : RequestHead) × IsFactsOf bytes.now head facts.now }
    ensures { IfOk result (λ route. (head : RequestHead) → IsFactsOf bytes.now head facts.now
        → route ≡ request_route head stated) }
{
    route_at(alloc, routes, facts.target.of(bytes), facts.verb, stated)
}

/// What is asked by a target and a method.
#[tactic(auto, unfolding(crate::specs::Routed::routed_at))]
fn route_at(
    alloc: Global,
    routes: &mut Routes,
    target: &[u8],
    verb: Verb,
    stated: Option<usize>,
) -> Result<Routed, AllocError>
    ensures { IfOk result (λ route. route ≡ routed_at target.now verb stated) }
{
    match str::from_utf8(target) {
        Ok(text) => route_path(alloc, routes, path_of(text), verb, stated),
        Err(_) => Ok(Routed::Fixed(Check::NotFound)),
    }
}

/// What is asked by a path and a method.
fn route_path(
    alloc: Global,
    routes: &mut Routes,
    path: &str,
    verb: Verb,
    stated: Option<usize>,
) -> Result<Routed, AllocError>
    ensures { IfOk result (λ route. route ≡ routed_by (kind path.now) path.now verb stated) }
{
    match routes.kind_of(path)? {
        Some(Kind::Manifest) => Ok(posted(verb, stated)),
        Some(Kind::Director) => director_file(alloc, path, verb),
        Some(Kind::Image) => image_file(alloc, path, verb),
        None => Ok(Routed::Fixed(Check::NotFound)),
    }
}

/// The target up to its first `?`.
fn path_of(target: &str) -> &str
    ensures { result.now ≡ path_before target.now }
{
    match target.split_once('?') {
        Some((path, _)) => path,
        None => target,
    }
}

/// What is asked of the route of manifests.
fn posted(verb: Verb, stated: Option<usize>) -> Routed
    ensures { result ≡ posted_by verb stated }
{
    match (verb, stated) {
        (Verb::Post, Some(_)) => Routed::Deliver,
        (Verb::Post, None) => Routed::Fixed(Check::LengthRequired),
        _ => Routed::Fixed(Check::AllowPost),
    }
}

/// What is asked of a file of the Director repository.
fn director_file(alloc: Global, path: &str, verb: Verb) -> Result<Routed, AllocError>
    ensures { IfOk result
        (λ route. route ≡ got (λ name. Routed.FetchDirector name) (named_file (strip (codes "/director/") path.now)) verb) }
{
    match file_behind(alloc, path, "/director/")? {
        Some(file) if verb == Verb::Get => Ok(Routed::FetchDirector(file)),
        Some(_) => Ok(Routed::Fixed(Check::AllowGet)),
        None => Ok(Routed::Fixed(Check::NotFound)),
    }
}

/// What is asked of a file of the Image repository.
fn image_file(alloc: Global, path: &str, verb: Verb) -> Result<Routed, AllocError>
    ensures { IfOk result
        (λ route. route ≡ got (λ name. Routed.FetchImage name) (named_file (strip (codes "/image/") path.now)) verb) }
{
    match file_behind(alloc, path, "/image/")? {
        Some(file) if verb == Verb::Get => Ok(Routed::FetchImage(file)),
        Some(_) => Ok(Routed::Fixed(Check::AllowGet)),
        None => Ok(Routed::Fixed(Check::NotFound)),
    }
}

/// The filename behind a text at the front of a path, none where what stands there isn't one.
fn file_behind(alloc: Global, path: &str, text: &str) -> Result<Option<FileName>, AllocError>
    ensures { IfOk result (λ file. file ≡ named_file (strip text.now path.now)) }
{
    match path.strip_prefix(text) {
        Some(name) => Ok(FileName::new(name.to_string(alloc)?)),
        None => Ok(None),
    }
}
