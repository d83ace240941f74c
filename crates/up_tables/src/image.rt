//! The rows of images.

ghost use Rattle.std.specs.Prelude.{◌∷◌, ℕ, List, [], map};
ghost use Rattle.std.specs.List.{AllByRecursion};
ghost use Rattle.sqlite.specs.declared.types.Value.TheVariants.{Text};
ghost use Rattle.up_tables.specs.Texts.{insert_image_text, find_image_text, all_images_text};
ghost use Rattle.up_tables.specs.Tables.{image_table};
ghost use Rattle.up_tables.specs.Rows.{columns_at, with_row};
ghost use Rattle.up_tables.specs.Forms.{image_places, image_row, FitImage};
ghost use Rattle.up_tables.specs.Statements.{AltersRows, FindsAll, HoldsBy};
ghost use Rattle.up_tables.specs.Stored.{AreLines, EachSays, IsFound, IsLine, IsQueried, IsTold, IsWritten, Tells};

use crate::reading::RowReading;
use crate::statement::{find_value, list_values, write};
use crate::values::{StoreFault, bytes, number, words};
use sqlite::{Alter, Transaction};
use std::alloc::Global;

/// A row of `image`: lengths in bytes, lists as canonical JSON.
#[derive(Drop)]
pub struct ImageRow<'a> {
    pub file: &'a str,
    pub length: u64,
    pub sha256: &'a [u8],
    pub hardware: &'a str,
    pub release_count: u64,
    pub needs: &'a str,
    pub conflicts: &'a str,
}

/// Puts in the row of an image; `Store` where one has its name.
pub fn insert_image<S: Alter>(
    tx: &mut Transaction<'_, S>,
    image: &ImageRow<'_>,
) -> Result<(), StoreFault>
    requires fit { FitImage image.now }
    ensures { IsWritten S.Store insert_image_text (image_row image.now)
        (AltersRows image_table 1 (with_row image.now.file.now (image_row image.now))) tx.old.conn tx.new.conn result }
{
    write(
        tx,
        "INSERT INTO image (file, length, sha256, hardware, release_count, needs, conflicts) VALUES (?1, ?2, ?3, ?4, ?5, ?6, ?7)",
        &[
            words(image.file),
            number(image.length),
            bytes(image.sha256),
            words(image.hardware),
            number(image.release_count),
            words(image.needs),
            words(image.conflicts),
        ],
    )
}

/// The image of this name, none where there is none.
pub fn image<S: Alter, R: RowReading>(
    tx: &mut Transaction<'_, S>,
    alloc: Global,
    file: &str,
) -> Result<Option<R::Item>, StoreFault>
    ensures { IsFound S.Store find_image_text (Text file.now ∷ []) image_table 1
        (λ rows_of. map (columns_at image_places) (rows_of file.now)) (IsTold R.says R.fits R.line)
        (AreLines R.fits R.line) tx.old.conn tx.new.conn result }
{
    find_value::<S, R>(
        tx,
        alloc,
        "SELECT file, length, sha256, hardware, release_count, needs, conflicts FROM image WHERE file = ?1",
        &[words(file)],
    )
}

/// All images, in the order of the table.
pub fn images<S: Alter, R: RowReading>(
    tx: &mut Transaction<'_, S>,
    alloc: Global,
) -> Result<Vec<R::Item>, StoreFault>
    ensures { IsQueried S.Store all_images_text []
        (λ rows found. EachSays (Tells R.says R.fits R.line) rows found.items)
        (FindsAll image_table (λ all found. EachSays (Tells R.says R.fits R.line)
        (map (columns_at image_places) all) found.items)) (HoldsBy image_table 1 (λ rows_of. (name : List ℕ)
        → AllByRecursion (IsLine R.fits R.line) (map (columns_at image_places) (rows_of name))))
        tx.old.conn tx.new.conn result }
{
    list_values::<S, R>(
        tx,
        alloc,
        "SELECT file, length, sha256, hardware, release_count, needs, conflicts FROM image ORDER BY rowid",
        &[],
    )
}
