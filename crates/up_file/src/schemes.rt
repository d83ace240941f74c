//! Whose keys a database has: a file belongs to one scheme of signatures.
ghost use Rattle.std.specs.Prelude.{◌≡◌, Bool, false, IfOk, IfErr, Ok, Err};
ghost use Rattle.sqlite.specs.Held.{state};
ghost use Rattle.up_roles.specs.Root.{root_in};
ghost use Rattle.up_file.specs.Schemes.{AnswersKeys, IsRead, are_keys_of, is_by, is_root_by, is_role_by};
ghost use Rattle.up_tables.specs.declared.values.StoreFault.TheVariants as StoreFault;

use crate::latest_root::latest_root;
use sqlite::{Alter, Connection};
use std::alloc::{AllocError, Global};
use up_canon::refusal::Refusal;
use up_canon::text::Text;
use up_roles::root::{RoleKeys, RootFile, read_root};
use up_store::store::StoreFault;

/// Whether all keys in the Director's latest Root are of the method: where nothing is founded, or what stands there is no Root,
/// no key is of another. The database stays as it is, and so does one of an older schema.
pub fn has_keys_of<D: Alter>(
    alloc: Global,
    method: &str,
    conn: &mut Connection<D>,
) -> Result<bool, StoreFault>
    requires { (state D.Store conn.old).in_transaction ≡ false }
    ensures told { AnswersKeys method.now (state D.Store conn.old) (state D.Store conn.new) result }
    ensures read { IsRead (state D.Store conn.old) (state D.Store conn.new) }
{
    let found = latest_root(alloc, conn)?;
    told(are_of(alloc, method, &found))
}

/// Whether all keys in that text of a Root are of the method, where there is one.
fn are_of(alloc: Global, method: &str, found: &Option<Text>) -> Result<bool, AllocError>
    ensures { IfOk result (λ yes. yes ≡ are_keys_of method.now found.now) }
{
    match found {
        Some(text) => are_of_text(alloc, method, text.as_str()),
        None => Ok(true),
    }
}

/// The same of a text.
fn are_of_text(alloc: Global, method: &str, text: &str) -> Result<bool, AllocError>
    ensures { IfOk result (λ yes. yes ≡ is_by method.now (root_in text.now)) }
{
    match read_root(alloc, text.as_bytes()) {
        Ok((file, _)) => Ok(is_of(method, &file)),
        Err(Refusal::Memory) => Err(AllocError),
        Err(_) => Ok(true),
    }
}

/// Whether each key of the Root is of the method.
fn is_of(method: &str, file: &RootFile) -> bool
    ensures { result ≡ is_root_by method.now file.now }
{
    is_role_of(method, &file.root)
        && is_role_of(method, &file.targets)
        && is_role_of(method, &file.snapshot)
        && is_role_of(method, &file.timestamp)
}

/// Whether each key of a role is of the method.
fn is_role_of(method: &str, role: &RoleKeys) -> bool
    ensures { result ≡ is_role_by method.now role.now }
{
    role.keys
        .as_slice()
        .iter()
        .all(|key| key.method.as_str() == method)
}

/// What is told of an answer without memory.
fn told(answer: Result<bool, AllocError>) -> Result<bool, StoreFault>
    ensures yes { (yes : Bool) → answer ≡ Ok yes → result ≡ Ok yes }
    ensures memory { IfErr answer (λ _. result ≡ Err StoreFault.Memory) }
{
    match answer {
        Ok(yes) => Ok(yes),
        Err(_) => Err(StoreFault::Memory),
    }
}
