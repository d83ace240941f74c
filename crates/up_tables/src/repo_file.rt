//! The rows of files that are served.

ghost use Rattle.std.specs.Prelude.{◌∷◌, [], ⊤, map};
ghost use Rattle.sqlite.specs.declared.types.Value.TheVariants.{Text};
ghost use Rattle.up_tables.specs.Rows.{columns_at};
ghost use Rattle.up_tables.specs.Forms.{file_places, file_row};
ghost use Rattle.up_tables.specs.Texts.{upsert_file_text, find_file_text};
ghost use Rattle.up_tables.specs.Stored.{AreLines, AreWritten, IsQueried, IsTold, IsWritten};
ghost use Rattle.up_tables.specs.Statements.{SetsFile, SetsFiles, FindsFiles, HoldsOfFiles, WhereOpen};

use crate::reading::RowReading;
use crate::statement::{find_value, write};
use crate::values::{StoreFault, words};
use sqlite::{Alter, Transaction};
use std::alloc::Global;

/// A row of `repo_file`: the text of a file that a repository serves.
#[derive(Drop)]
pub struct FileRow<'a> {
    pub repository: &'a str,
    pub name: &'a str,
    pub body: &'a str,
}

/// Sets the text of a file, which may be there or not.
fn upsert_file<S: Alter>(tx: &mut Transaction<'_, S>, file: &FileRow<'_>) -> Result<(), StoreFault>
    ensures { IsWritten S.Store upsert_file_text (file_row file.now) (SetsFile file.now)
        tx.old.conn tx.new.conn result }
{
    write(
        tx,
        "INSERT INTO repo_file (repository, name, body) VALUES (?1, ?2, ?3) ON CONFLICT (repository, name) DO UPDATE SET body = excluded.body",
        &[words(file.repository), words(file.name), words(file.body)],
    )
}

/// Sets the texts of files, one after another.
pub fn upsert_files<S: Alter>(
    tx: &mut Transaction<'_, S>,
    files: &[FileRow<'_>],
) -> Result<(), StoreFault>
    ensures { WhereOpen S.Store tx.old.conn (AreWritten S.Store (map (λ f. (upsert_file_text, file_row f)) files.now)
        (λ _. ⊤) (SetsFiles files.now) tx.old.conn tx.new.conn result) }
{
    for file in files {
        upsert_file(tx, file)?;
    }
    Ok(())
}

/// The file of this name that a repository serves, none where there is none.
pub fn file<S: Alter, R: RowReading>(
    tx: &mut Transaction<'_, S>,
    alloc: Global,
    repository: &str,
    name: &str,
) -> Result<Option<R::Item>, StoreFault>
    ensures { IsQueried S.Store find_file_text (Text repository.now ∷ Text name.now ∷ []) (IsTold R.says R.fits R.line)
        (FindsFiles (λ rows_of. IsTold R.says R.fits R.line (map (columns_at file_places)
        (rows_of repository.now name.now))))
        (HoldsOfFiles (λ rows_of. AreLines R.fits R.line (map (columns_at file_places)
        (rows_of repository.now name.now)))) tx.old.conn tx.new.conn result }
{
    find_value::<S, R>(
        tx,
        alloc,
        "SELECT repository, name, body FROM repo_file WHERE repository = ?1 AND name = ?2",
        &[words(repository), words(name)],
    )
}
