//! The routes.
ghost use Rattle.std.specs.Prelude.{◌≡◌, IfOk, option_map};
ghost use Rattle.matchit.specs.Seek.{first};
ghost use Rattle.up_heads.specs.Routes.{kind};
ghost use Rattle.up_heads.specs.Rows.{known_routes};

use matchit::{InsertError, Router};
use std::alloc::{AllocError, Global};
use std::marker::Model;

/// What a route leads to.
#[derive(Clone, Copy, Debug, PartialEq, Eq, Drop)]
pub(crate) enum Kind {
    /// The Director's manifests.
    Manifest,
    /// A file of the Director repository.
    Director,
    /// A file of the Image repository.
    Image,
}

/// Finds the routes of requests. Its router is made for the first of them, and serves all that follow.
#[derive(Drop)]
pub struct Routes {
    alloc: Global,
    router: Option<Router<Kind>>,
}

impl Model for Routes {
    ghost use Rattle.std.specs.Prelude.{◌≡◌, IfSome};
    ghost use Rattle.up_heads.specs.Rows.{known_routes};

    ghost Value = { Unit {0} };

    ghost view = { λ _. tt };

    ghost invariant = { λ a. IfSome a.router (λ router. router ≡ known_routes) };
}

impl Routes {
    /// Takes no memory.
    pub fn new(alloc: Global) -> Routes {
        Routes {
            alloc,
            router: None,
        }
    }

    /// What the route of a path leads to, none where it has no route.
    pub(crate) fn kind_of(&mut self, path: &str) -> Result<Option<Kind>, AllocError>
        ensures { IfOk result (λ found. found ≡ kind path.now) }
    {
        if let Some(router) = &self.router {
            return Ok(kind_by(router, path));
        }
        match make_router(self.alloc) {
            Ok(router) => {
                let found = kind_by(&router, path);
                self.router = Some(router);
                Ok(found)
            }
            Err(_) => Err(AllocError),
        }
    }
}

/// The router of all routes. They don't conflict, so an error is want of memory.
fn make_router(alloc: Global) -> Result<Router<Kind>, InsertError>
    ensures { IfOk result (λ router. router ≡ known_routes) }
{
    let mut router = Router::new(alloc);
    router.insert("/director/manifest", Kind::Manifest)?;
    router.insert("/director/{file}", Kind::Director)?;
    router.insert("/image/{file}", Kind::Image)?;
    Ok(router)
}

/// What the route of a path leads to, by the router of all routes.
fn kind_by(router: &Router<Kind>, path: &str) -> Option<Kind>
    requires { router.now ≡ known_routes }
    ensures { result ≡ kind path.now }
{
    matched(router, path)
}

/// What the route that a router finds leads to.
fn matched(router: &Router<Kind>, path: &str) -> Option<Kind>
    ensures { result ≡ option_map (λ row. row.value) (first router.now path.now) }
{
    match router.at(path) {
        Ok(found) => Some(*found.value),
        Err(_) => None,
    }
}
