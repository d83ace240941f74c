//! The rows of second hashes of images.

ghost use Rattle.std.specs.Prelude.{◌∷◌, ℕ, List, [], map};
ghost use Rattle.std.specs.List.{AllByRecursion};
ghost use Rattle.sqlite.specs.declared.types.Value.TheVariants.{Text};
ghost use Rattle.up_tables.specs.Texts.{insert_sha512_text, find_sha512_text, all_sha512s_text};
ghost use Rattle.up_tables.specs.Tables.{image_sha512_table};
ghost use Rattle.up_tables.specs.Rows.{columns_at, with_row};
ghost use Rattle.up_tables.specs.Lines.{sha512_line};
ghost use Rattle.up_tables.specs.Forms.{sha512_places};
ghost use Rattle.up_tables.specs.Statements.{AltersRows, FindsAll, HoldsBy};
ghost use Rattle.up_tables.specs.Stored.{AreLines, EachSays, IsFound, IsLine, IsQueried, IsTold, IsWritten, Tells};

use crate::reading::RowReading;
use crate::statement::{find_value, list_values, write};
use crate::values::{StoreFault, bytes, words};
use sqlite::{Alter, Transaction};
use std::alloc::Global;

/// Puts in the second hash of an image that is there; `Store` where the image isn't, or has one already.
pub fn insert_image_sha512<S: Alter>(
    tx: &mut Transaction<'_, S>,
    file: &str,
    sha512: &[u8],
) -> Result<(), StoreFault>
    ensures { IsWritten S.Store insert_sha512_text (sha512_line file.now sha512.now) (AltersRows image_sha512_table 1
        (with_row file.now (sha512_line file.now sha512.now))) tx.old.conn tx.new.conn result }
{
    write(
        tx,
        "INSERT INTO image_sha512 (file, sha512) VALUES (?1, ?2)",
        &[words(file), bytes(sha512)],
    )
}

/// The second hash of the image of this name, none where it has none.
pub fn image_sha512<S: Alter, R: RowReading>(
    tx: &mut Transaction<'_, S>,
    alloc: Global,
    file: &str,
) -> Result<Option<R::Item>, StoreFault>
    ensures { IsFound S.Store find_sha512_text (Text file.now ∷ []) image_sha512_table 1
        (λ rows_of. map (columns_at sha512_places) (rows_of file.now)) (IsTold R.says R.fits R.line)
        (AreLines R.fits R.line) tx.old.conn tx.new.conn result }
{
    find_value::<S, R>(
        tx,
        alloc,
        "SELECT file, sha512 FROM image_sha512 WHERE file = ?1",
        &[words(file)],
    )
}

/// All second hashes, in the order of the table.
pub fn image_sha512s<S: Alter, R: RowReading>(
    tx: &mut Transaction<'_, S>,
    alloc: Global,
) -> Result<Vec<R::Item>, StoreFault>
    ensures { IsQueried S.Store all_sha512s_text []
        (λ rows found. EachSays (Tells R.says R.fits R.line) rows found.items) (FindsAll image_sha512_table
        (λ all found. EachSays (Tells R.says R.fits R.line) (map (columns_at sha512_places) all) found.items))
        (HoldsBy image_sha512_table 1 (λ rows_of. (name : List ℕ) → AllByRecursion (IsLine R.fits R.line)
        (map (columns_at sha512_places) (rows_of name)))) tx.old.conn tx.new.conn result }
{
    list_values::<S, R>(
        tx,
        alloc,
        "SELECT file, sha512 FROM image_sha512 ORDER BY rowid",
        &[],
    )
}
