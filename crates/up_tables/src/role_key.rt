//! The rows of the keys of roles.

ghost use Rattle.std.specs.Prelude.{◌<◌, ◌∷◌, [], ◌^◌, ⊤, pos, map, All};
ghost use Rattle.std.specs.List.{AllByRecursion};
ghost use Rattle.sqlite.specs.declared.types.Value.TheVariants.{Int};
ghost use Rattle.up_tables.specs.Forms.{FitRoleKey, keys_shown, role_key_row};
ghost use Rattle.up_tables.specs.Statements.{AppendsRows, FindsAll, HoldsOfAll, SetsRows, WhereOpen};
ghost use Rattle.up_tables.specs.Stored.{AreWritten, EachSays, IsLine, IsQueried, IsWritten, Tells};
ghost use Rattle.up_tables.specs.Tables.{role_key_table};
ghost use Rattle.up_tables.specs.Texts.{all_role_keys_text, delete_role_keys_text, insert_role_key_text};

use crate::reading::RowReading;
use crate::statement::{list_values, write};
use crate::values::{StoreFault, bytes, number, words};
use sqlite::{Alter, Transaction};
use std::alloc::Global;

/// A row of `role_key`: a key of a role in a root version of a repository, its place among the role's keys, and the role's threshold.
#[derive(Drop)]
pub struct RoleKeyRow<'a> {
    pub root: u64,
    pub repository: &'a str,
    pub role: &'a str,
    pub place: u64,
    pub secret: &'a [u8],
    pub threshold: u64,
}

/// Puts in the row of a key, behind the others; `Store` where one has its place.
fn insert_role_key<S: Alter>(
    tx: &mut Transaction<'_, S>,
    key: &RoleKeyRow<'_>,
) -> Result<(), StoreFault>
    requires fit { FitRoleKey key.now }
    ensures { IsWritten S.Store insert_role_key_text (role_key_row key.now)
        (AppendsRows role_key_table (role_key_row key.now ∷ [])) tx.old.conn tx.new.conn result }
{
    write(
        tx,
        "INSERT INTO role_key (root, repository, role, place, secret, threshold) VALUES (?1, ?2, ?3, ?4, ?5, ?6)",
        &[
            number(key.root),
            words(key.repository),
            words(key.role),
            number(key.place),
            bytes(key.secret),
            number(key.threshold),
        ],
    )
}

/// Takes away the rows of all keys.
fn delete_role_keys<S: Alter>(tx: &mut Transaction<'_, S>) -> Result<(), StoreFault>
    ensures { IsWritten S.Store delete_role_keys_text [] (SetsRows role_key_table []) tx.old.conn tx.new.conn result }
{
    write(tx, "DELETE FROM role_key", &[])
}

/// Puts the rows of keys in the place of all that were there.
pub fn replace_role_keys<S: Alter>(
    tx: &mut Transaction<'_, S>,
    keys: &[RoleKeyRow<'_>],
) -> Result<(), StoreFault>
    requires fit { All FitRoleKey keys.now }
    ensures { WhereOpen S.Store tx.old.conn
        (AreWritten S.Store ((delete_role_keys_text, []) ∷ map (λ k. (insert_role_key_text, role_key_row k)) keys.now) (λ _. ⊤)
        (SetsRows role_key_table (map role_key_row keys.now)) tx.old.conn tx.new.conn result) }
{
    delete_role_keys(tx)?;
    insert_role_keys(tx, keys)
}

/// Puts in the rows of keys, one after another, behind the others.
pub fn insert_role_keys<S: Alter>(
    tx: &mut Transaction<'_, S>,
    keys: &[RoleKeyRow<'_>],
) -> Result<(), StoreFault>
    requires fit { All FitRoleKey keys.now }
    ensures { WhereOpen S.Store tx.old.conn
        (AreWritten S.Store (map (λ k. (insert_role_key_text, role_key_row k)) keys.now) (λ _. ⊤)
        (AppendsRows role_key_table (map role_key_row keys.now)) tx.old.conn tx.new.conn result) }
{
    for key in keys {
        insert_role_key(tx, key)?;
    }
    Ok(())
}

/// All keys, in the order of the table.
pub fn role_keys<S: Alter, R: RowReading>(
    tx: &mut Transaction<'_, S>,
    alloc: Global,
) -> Result<Vec<R::Item>, StoreFault>
    ensures { IsQueried S.Store all_role_keys_text []
        (λ rows found. EachSays (Tells R.says R.fits R.line) rows found.items)
        (FindsAll role_key_table (λ all found. EachSays (Tells R.says R.fits R.line) (keys_shown all) found.items))
        (HoldsOfAll role_key_table (λ all. AllByRecursion (IsLine R.fits R.line) (keys_shown all)))
        tx.old.conn tx.new.conn result }
{
    list_values::<S, R>(
        tx,
        alloc,
        "SELECT root, repository, role, place, secret, threshold FROM role_key ORDER BY rowid",
        &[],
    )
}
