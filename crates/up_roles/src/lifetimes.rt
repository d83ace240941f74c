//! How long files are valid.
ghost use Rattle.std.specs.Prelude.{◌≡◌};
ghost use Rattle.up_roles.specs.Lifetimes.{lifetimes};

use crate::repository::Repository;

/// The lifetimes of a repository's files, in seconds.
#[derive(Clone, Copy, Debug)]
pub struct Lifetimes {
    pub root: u64,
    pub targets: u64,
    pub snapshot: u64,
    pub timestamp: u64,
}

/// How long the files of a repository are valid after they are made.
pub fn lifetimes_of(repository: Repository) -> Lifetimes
    ensures { result ≡ lifetimes repository }
{
    match repository {
        Repository::Director => Lifetimes {
            root: 31536000,
            targets: 604800,
            snapshot: 604800,
            timestamp: 604800,
        },
        Repository::Image => Lifetimes {
            root: 31536000,
            targets: 7776000,
            snapshot: 2592000,
            timestamp: 86400,
        },
    }
}
