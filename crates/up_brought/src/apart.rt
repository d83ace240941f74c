//! Keys that stand in one role of one repository alone.
ghost use Rattle.std.specs.Prelude.{◌≡◌, ◌++◌, IfOk, map};
ghost use Rattle.up_brought.specs.Shown.{key_names, roles_are_apart as roles_are_apart_in, files_are_apart as files_are_apart_in, names_of};

use std::alloc::{AllocError, Global};
use up_canon::listed::{Duplicate, Listed};
use up_canon::named::{are_distinct, has_name};
use up_canon::text::Text;
use up_roles::root::{RootFile, RootKey};

/// Whether no key stands in two roles of a Root.
#[tactic(auto, using(up_canon::proofs::Repeated::names_themselves))]
pub fn roles_are_apart(alloc: Global, file: &RootFile) -> Result<bool, AllocError>
    ensures { IfOk result (λ apart. apart ≡ roles_are_apart_in file.now) }
{
    let names = names(alloc, file)?;
    Ok(are_distinct(names.as_slice()))
}

/// Whether no key stands in both Roots.
#[tactic(auto, using(up_canon::proofs::Repeated::names_themselves))]
pub fn files_are_apart(alloc: Global, a: &RootFile, b: &RootFile) -> Result<bool, AllocError>
    ensures { IfOk result (λ apart. apart ≡ files_are_apart_in a.now b.now) }
{
    let others = names(alloc, b)?;
    let own = names(alloc, a)?;
    Ok(
        own.as_slice()
            .iter()
            .all(|name| !has_name(others.as_slice(), name.as_str())),
    )
}

/// The identifiers of all keys of a Root.
fn names(alloc: Global, file: &RootFile) -> Result<Listed<Text>, AllocError>
    ensures { IfOk result (λ names. names ≡ key_names file.now) }
{
    let mut names = Vec::new(alloc);
    push_names(alloc, &mut names, file.root.keys.as_slice())?;
    push_names(alloc, &mut names, file.targets.keys.as_slice())?;
    push_names(alloc, &mut names, file.snapshot.keys.as_slice())?;
    push_names(alloc, &mut names, file.timestamp.keys.as_slice())?;
    Ok(Listed::new(names))
}

fn push_names(alloc: Global, names: &mut Vec<Text>, keys: &[RootKey]) -> Result<(), AllocError>
    ensures { IfOk result (λ _. names.new.items ≡ names.old.items ++ names_of keys.now) }
{
    for key in keys {
        names.push(key.keyid.copy(alloc)?)?;
    }
    Ok(())
}
