//! Foundings and rotations.
ghost use Rattle.std.specs.Prelude.{◌≤◌};
ghost use Rattle.up_canon.specs.Moments.{last_command_moment};

use crate::decisions::conditions::check_founding;
use crate::decisions::digests::digest_of;
use crate::decisions::refused::refused;
use crate::decisions::register::{Register, founding_text, keep_founding};
use std::alloc::{AllocError, Global};
use up_canon::listed::Duplicate;
use up_canon::moment::Moment;
use up_canon::refusal::Refusal;
use up_machine::decide_root::{decide_found, decide_rotate};
use up_machine::decision::RootRows;
use up_machine::new_files::root_rows;
use up_metadata::keys::KeySet;
use up_sign::scheme::Scheme;

/// The answer to a founding.
pub(crate) fn found<K: Scheme>(
    alloc: Global,
    scheme: &K,
    at: Moment,
    register: &mut Register,
    keys: KeySet,
) -> Result<String, AllocError>
    requires { at ≤ last_command_moment }
{
    let decided = founding(alloc, scheme, at, register, &keys);
    decided_on(alloc, register, decided)
}

fn founding<K: Scheme>(
    alloc: Global,
    scheme: &K,
    at: Moment,
    register: &Register,
    keys: &KeySet,
) -> Result<RootRows, Refusal>
    requires { at ≤ last_command_moment }
{
    let is_founded = register.founding.is_some();
    let new = decide_found(alloc, scheme, at, keys, is_founded)?;
    Ok(root_rows(alloc, scheme, at, keys, &new, &register.images)?)
}

/// The answer to a rotation.
pub(crate) fn rotate<K: Scheme>(
    alloc: Global,
    scheme: &K,
    at: Moment,
    register: &mut Register,
    keys: KeySet,
) -> Result<String, AllocError>
    requires { at ≤ last_command_moment }
{
    let decided = rotation(alloc, scheme, at, register, &keys);
    decided_on(alloc, register, decided)
}

fn rotation<K: Scheme>(
    alloc: Global,
    scheme: &K,
    at: Moment,
    register: &Register,
    keys: &KeySet,
) -> Result<RootRows, Refusal>
    requires { at ≤ last_command_moment }
{
    let founding = register.founding.copy(alloc)?;
    check_founding(scheme, &founding)?;
    let new = decide_rotate(alloc, scheme, at, keys, founding)?;
    Ok(root_rows(alloc, scheme, at, keys, &new, &register.images)?)
}

fn decided_on(
    alloc: Global,
    register: &mut Register,
    decided: Result<RootRows, Refusal>,
) -> Result<String, AllocError> {
    match decided {
        Ok(rows) => new_root(alloc, register, rows),
        Err(refusal) => refused(alloc, refusal),
    }
}

/// Tells a new root version.
fn new_root(alloc: Global, register: &mut Register, rows: RootRows) -> Result<String, AllocError> {
    kept_root(alloc, register, &rows)
}

/// Keeps a new root version, and tells it with a digest of both Root files and of the image repository's three.
fn kept_root(
    alloc: Global,
    register: &mut Register,
    rows: &RootRows,
) -> Result<String, AllocError> {
    keep_founding(alloc, register, &rows.founding)?;

    let files = &rows.files;
    let texts = [
        &rows.director,
        &rows.image,
        &files.targets,
        &files.snapshot,
        &files.timestamp,
    ];
    let digest = digest_of(alloc, &texts[..])?;
    founding_text(alloc, &rows.founding, digest.as_str())
}
