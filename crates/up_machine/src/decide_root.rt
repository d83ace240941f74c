//! Decisions on new root versions: foundings and rotations. Each is taken over the founding's row alone;
//! `new_files::root_rows` makes the rows of what is due.
ghost use Rattle.std.specs.Prelude.{◌≡◌, ◌≤◌, ℕ, Ok, IfOk, IfSome, IsTrue};
ghost use Rattle.up_canon.specs.Moments.{last_command_moment};
ghost use Rattle.up_sign.specs.Schemes.{Rules};
ghost use Rattle.up_metadata.specs.Keys.{check_keys as check_keys_in, hashed_key_set};
ghost use Rattle.up_metadata.specs.declared.keys.KeySet.{KeySet as KeySetData};
ghost use Rattle.up_machine.specs.RowsFit.{founding_fits};
ghost use Rattle.up_machine.specs.Due.{CanMakeRoot};
ghost use Rattle.up_machine.specs.Repositories.{are_roots_full as are_roots_full_of};
ghost use Rattle.up_machine.specs.TwoSteps.{TellsFounding, TellsRotation, TellsFoundingOutright, TellsRotationOutright};

use crate::decision::NextRoot;
use crate::rows::Founding;
use std::alloc::Global;
use up_canon::count::MAX_COUNT;
use up_canon::moment::Moment;
use up_canon::refusal::Refusal;
use up_metadata::hashed_keys::HashedKeySet;
use up_metadata::key_checks::check_keys;
use up_metadata::keys::KeySet;
use up_sign::scheme::Scheme;

/// How many root versions a repository may have.
const MAX_ROOTS: u64 = 64;

/// Decides on a founding, at a command's moment: `BadShape` where a key doesn't fit, a key stands twice in a role or a
/// threshold isn't 1 to the number of its keys; `AlreadyFounded`; `Memory`; else the root version that is due.
pub fn decide_found<K: Scheme>(
    alloc: Global,
    scheme: &K,
    at: Moment,
    keys: &KeySet,
    is_founded: bool,
) -> Result<NextRoot, Refusal>
    requires { at ≤ last_command_moment }
    ensures decided { TellsFounding (K.rules scheme.now) at keys.now is_founded result }
    ensures fits { IfOk result (λ new. CanMakeRoot (K.rules scheme.now) at keys.now new) }
{
    let hashed = check_keys(alloc, scheme, keys)?;
    first_root(hashed, is_founded)
}

/// The root version that is due of a founding with keys that fit; `AlreadyFounded`. It takes no memory.
fn first_root(hashed: HashedKeySet, is_founded: bool) -> Result<NextRoot, Refusal>
    ensures decided { (k : Rules) (at : ℕ) (keys : KeySetData) → at ≤ last_command_moment → check_keys_in k keys ≡ Ok tt
        → TellsFoundingOutright k at keys is_founded result }
    ensures fits { (k : Rules) (at : ℕ) (keys : KeySetData) → at ≤ last_command_moment → check_keys_in k keys ≡ Ok tt
        → hashed ≡ hashed_key_set k keys
        → IfOk result (λ new. CanMakeRoot k at keys new) }
{
    if is_founded {
        // Dropped by name: at the end of a scope it would be proved part by part.
        drop(hashed);
        return Err(Refusal::AlreadyFounded);
    }
    Ok(NextRoot {
        number: 1,
        image_number: 1,
        version: 1,
        hashed,
        before: None,
    })
}

/// Decides on a rotation, at a command's moment: `BadShape` as in a founding; `NotFounded`; `RootFull` after 64 root
/// versions; `VersionLimit` where the image repository's version can't be raised; `Memory`; else the root version that is
/// due.
pub fn decide_rotate<K: Scheme>(
    alloc: Global,
    scheme: &K,
    at: Moment,
    keys: &KeySet,
    founding: Option<Founding>,
) -> Result<NextRoot, Refusal>
    requires { at ≤ last_command_moment }
    ensures decided { TellsRotation (K.rules scheme.now) at keys.now founding result }
    ensures fits { IfSome founding (λ f. IsTrue (founding_fits (K.rules scheme.now) f))
        → IfOk result (λ new. CanMakeRoot (K.rules scheme.now) at keys.now new) }
{
    match check_keys(alloc, scheme, keys) {
        Ok(hashed) => next_root(hashed, founding),
        Err(refusal) => {
            drop(founding);
            Err(refusal)
        }
    }
}

/// The root version that is due of a rotation with keys that fit; `NotFounded`; `RootFull`; `VersionLimit`. It takes no
/// memory.
fn next_root(hashed: HashedKeySet, founding: Option<Founding>) -> Result<NextRoot, Refusal>
    ensures decided { (k : Rules) (at : ℕ) (keys : KeySetData) → at ≤ last_command_moment → check_keys_in k keys ≡ Ok tt
        → TellsRotationOutright k at keys founding result }
    ensures fits { (k : Rules) (at : ℕ) (keys : KeySetData) → at ≤ last_command_moment → check_keys_in k keys ≡ Ok tt
        → hashed ≡ hashed_key_set k keys
        → IfSome founding (λ f. IsTrue (founding_fits k f)) → IfOk result (λ new. CanMakeRoot k at keys new) }
{
    let Some(old) = founding else {
        drop(hashed);
        return Err(Refusal::NotFounded);
    };
    if are_roots_full(&old) {
        drop(old);
        drop(hashed);
        return Err(Refusal::RootFull);
    }
    if old.image_version >= MAX_COUNT {
        drop(old);
        drop(hashed);
        return Err(Refusal::VersionLimit);
    }
    Ok(NextRoot {
        number: old.root + 1,
        image_number: old.image_root + 1,
        version: old.image_version + 1,
        hashed,
        before: Some(old.keys),
    })
}

/// Whether one of the repositories has as many root versions as it may have.
fn are_roots_full(founding: &Founding) -> bool
    ensures { result ≡ are_roots_full_of founding.now.root founding.now.image_root }
{
    founding.root >= MAX_ROOTS || founding.image_root >= MAX_ROOTS
}
