//! Root versions and the files that are served.
ghost use Rattle.std.specs.Prelude.{◌≡◌, ◌≢◌, ◌==◌, ◌<◌, ◌^◌, ⊤, not, All, Option, Some, IfErr, IfOk, is_some, map, option_map};
ghost use Rattle.up_machine.specs.declared.rows.Founding.{Founding as FoundingData};
ghost use Rattle.up_rows.specs.Changes.{with_root_rows, with_register_rows};
ghost use Rattle.up_rows.specs.Lookups.{text_held};
ghost use Rattle.up_tables.specs.Forms.{FitRoleKey, role_key_row};
ghost use Rattle.up_tables.specs.Statements.{FindsAll, FindsFiles, WhereOpen};
ghost use Rattle.up_tables.specs.Tables.{role_key_table};
ghost use Rattle.up_tables.specs.declared.values.StoreFault.TheVariants as StoreFault;
ghost use Rattle.up_store.specs.Connections.{PutsRows, PutsTables};
ghost use Rattle.up_store.specs.Fitting.{IsNextRoot, IsSameRoot};
ghost use Rattle.up_store.specs.Lines.{repository_word as word_of};
ghost use Rattle.up_store.specs.Puts.{AreMadeOfRoot, HasFilesOnce, with_files, with_key_lines};
ghost use Rattle.up_store.specs.ReadAs.{FindsFounded, FindsFounding, FindsNumbers, ReadsFile, ReadsKeyed};
ghost use Rattle.up_store.specs.Shown.{file_read, meta_told, own_told, IsFoundingOf};
ghost use Rattle.up_store.specs.Typed.{IsTypedFounding};
ghost use Rattle.up_store.specs.Within.{FindsWithin, MakesAndPuts, PutsWithin};
ghost use Rattle.up_store.specs.Writes.{FitsFounding, file_writes, key_line_writes, register_writes, root_writes};

use crate::column_values::moment_in;
use crate::files::{FileReading, ServedFile, role_files, root_files, root_name};
use crate::keys::{KeyReading, RoleKey, make_keys, read_keys, repository_word};
use crate::numbers::{Numbers, find_numbers, find_own_numbers, make_numbers, put_numbers};
use crate::store::StoreFault;
use sqlite::{Alter, Transaction};
use std::alloc::Global;
use up_canon::file_name::FileName;
use up_canon::text::Text;
use up_machine::decision::{RegisterRows, RootRows};
use up_machine::rows::Founding;
use up_roles::repository::Repository;
use up_tables::image_repository::ImageRepositoryRow;
use up_tables::meta::MetaRow;
use up_tables::repo_file::{FileRow, file, upsert_files};
use up_tables::role_key::{RoleKeyRow, replace_role_keys, role_keys};

/// The founding.
pub fn find_founding<D: Alter>(
    tx: &mut Transaction<'_, D>,
    alloc: Global,
) -> Result<Option<Founding>, StoreFault>
    ensures { FindsWithin D.Store (λ rows found. found ≡ rows.founding) FindsFounding
        (λ _. ⊤) tx.old.conn tx.new.conn result }
{
    match find_numbers(tx, alloc) {
        Ok(row) => find_founded(tx, alloc, row),
        Err(fault) => Err(fault),
    }
}

/// Whether there is a founding, which its numbers tell: the keys aren't read.
pub fn find_whether_founded<D: Alter>(
    tx: &mut Transaction<'_, D>,
    alloc: Global,
) -> Result<bool, StoreFault>
    ensures { FindsWithin D.Store (λ rows found. found ≡ is_some rows.founding)
        (FindsNumbers (λ row founded. founded ≡ not (row.root == 0))) (λ _. ⊤) tx.old.conn tx.new.conn result }
{
    match find_numbers(tx, alloc) {
        Ok(row) => Ok(row.root != 0),
        Err(fault) => Err(fault),
    }
}

/// The founding whose numbers these are, none where the root version is 0.
fn find_founded<D: Alter>(
    tx: &mut Transaction<'_, D>,
    alloc: Global,
    row: MetaRow,
) -> Result<Option<Founding>, StoreFault>
    ensures { WhereOpen D.Store tx.old.conn (FindsWithin D.Store (λ rows found. row ≡ meta_told rows.founding
        → found ≡ rows.founding) (FindsFounded row) (λ rows. row ≡ meta_told rows.founding)
        tx.old.conn tx.new.conn result) }
{
    if row.root == 0 {
        return Ok(None);
    }
    match find_own_numbers(tx, alloc) {
        Ok(own) => find_keyed(tx, alloc, row, own),
        Err(fault) => Err(fault),
    }
}

/// The founding whose numbers these are, and the Image repository's own.
fn find_keyed<D: Alter>(
    tx: &mut Transaction<'_, D>,
    alloc: Global,
    row: MetaRow,
    own: ImageRepositoryRow,
) -> Result<Option<Founding>, StoreFault>
    requires founded { row.root ≢ 0 }
    ensures { WhereOpen D.Store tx.old.conn (FindsWithin D.Store (λ rows found. row ≡ meta_told rows.founding
        → own ≡ own_told rows.founding → found ≡ rows.founding) (FindsAll role_key_table (ReadsKeyed row own))
        (λ rows. (row ≡ meta_told rows.founding) × (own ≡ own_told rows.founding)) tx.old.conn tx.new.conn result) }
{
    match role_keys::<D, KeyReading>(tx, alloc) {
        Ok(keys) => read_founding(alloc, row, own, keys.as_slice()),
        Err(fault) => Err(fault),
    }
}

/// The founding of these numbers and rows of keys, read; where they are of a founding, `Memory` is the one fault.
fn read_founding(
    alloc: Global,
    row: MetaRow,
    own: ImageRepositoryRow,
    keys: &[RoleKey],
) -> Result<Option<Founding>, StoreFault>
    ensures found { IfOk result (λ read. IsFoundingOf row own keys.now read) }
    ensures fault { (told : Option FoundingData) (is : IsFoundingOf row own keys.now told) → IsTypedFounding
        is.founding → IfErr result (λ fault. fault ≡ StoreFault.Memory) }
{
    Ok(Some(Founding {
        stamp: moment_in(row.stamp)?,
        root: row.root,
        image_root: own.root,
        keys: read_keys(alloc, keys, row.root, own.root)?,
        image_version: row.image_version,
        targets_version: own.targets,
    }))
}

/// The text of a repository's file of this name, none where there is none, of tables that no store was made over yet, too.
pub fn find_file<D: Alter>(
    tx: &mut Transaction<'_, D>,
    alloc: Global,
    repository: Repository,
    name: &FileName,
) -> Result<Option<Text>, StoreFault>
    ensures { FindsWithin D.Store (λ rows found. found ≡ text_held rows repository name.now)
        (FindsFiles (ReadsFile (word_of repository) name.now)) (λ _. ⊤) tx.old.conn tx.new.conn result }
{
    match file::<D, FileReading>(tx, alloc, repository_word(repository), name.text()) {
        Ok(found) => Ok(body_of(found)),
        Err(fault) => Err(fault),
    }
}

/// The text alone.
fn body_of(found: Option<ServedFile>) -> Option<Text>
    ensures { result ≡ option_map (λ f. f.body) found }
{
    match found {
        Some(row) => Some(row.body),
        None => None,
    }
}

/// Puts in a root version: the founding, its keys, and all files. What is made of it is made before anything is written.
pub fn put_root<D: Alter>(
    tx: &mut Transaction<'_, D>,
    alloc: Global,
    new: &RootRows,
) -> Result<(), StoreFault>
    ensures { MakesAndPuts D.Store (PutsRows (IsNextRoot new.now) (λ rows. with_root_rows rows new.now))
        (root_writes new.now) (λ _. FitsFounding new.now.founding) tx.old.conn tx.new.conn result }
{
    let numbers = make_numbers(&new.founding)?;
    let keys = make_keys(
        alloc,
        numbers.meta.root,
        numbers.own.root,
        &new.founding.keys,
    )?;
    let name = root_name(alloc, numbers.meta.root)?;
    let image_name = root_name(alloc, numbers.own.root)?;
    put_root_made(
        tx,
        new,
        &numbers,
        keys.as_slice(),
        name.as_str(),
        image_name.as_str(),
    )
}

/// The same with what was made of it, which takes no memory but the database's own.
fn put_root_made<D: Alter>(
    tx: &mut Transaction<'_, D>,
    new: &RootRows,
    numbers: &Numbers,
    keys: &[RoleKeyRow<'_>],
    name: &str,
    image_name: &str,
) -> Result<(), StoreFault>
    requires made { AreMadeOfRoot new.now numbers.now keys.now name.now image_name.now }
    ensures { PutsWithin D.Store (PutsRows (IsNextRoot new.now) (λ rows. with_root_rows rows new.now))
        (root_writes new.now) (λ _. ⊤) tx.old.conn tx.new.conn result }
{
    put_numbers(tx, numbers)?;
    put_keys(tx, keys)?;
    put_files(tx, &root_files(new, name, image_name))?;
    put_files(tx, &role_files(&new.files))
}

/// Puts in what changes with the register of images: the founding's numbers, and the image repository's files.
pub fn put_register<D: Alter>(
    tx: &mut Transaction<'_, D>,
    new: &RegisterRows,
) -> Result<(), StoreFault>
    ensures { PutsWithin D.Store (PutsRows (IsSameRoot new.now) (λ rows. with_register_rows rows new.now))
        (register_writes new.now) (λ _. FitsFounding new.now.founding) tx.old.conn tx.new.conn result }
{
    let numbers = make_numbers(&new.founding)?;
    put_numbers(tx, &numbers)?;
    put_files(tx, &role_files(&new.files))
}

/// Puts the rows of keys in the place of those that were there.
fn put_keys<D: Alter>(
    tx: &mut Transaction<'_, D>,
    keys: &[RoleKeyRow<'_>],
) -> Result<(), StoreFault>
    requires fit { All FitRoleKey keys.now }
    ensures { WhereOpen D.Store tx.old.conn
        (PutsWithin D.Store (PutsTables (λ _. ⊤) (with_key_lines (map role_key_row keys.now)))
        (key_line_writes (map role_key_row keys.now)) (λ _. ⊤) tx.old.conn tx.new.conn result) }
{
    replace_role_keys(tx, keys)
}

/// Sets the texts of files.
fn put_files<D: Alter>(tx: &mut Transaction<'_, D>, files: &[FileRow<'_>]) -> Result<(), StoreFault>
    ensures { WhereOpen D.Store tx.old.conn
        (PutsWithin D.Store (PutsTables HasFilesOnce (with_files (map file_read files.now)))
        (file_writes (map file_read files.now)) (λ _. ⊤) tx.old.conn tx.new.conn result) }
{
    upsert_files(tx, files)
}
