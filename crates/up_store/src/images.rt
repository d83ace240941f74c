//! Registered images.
ghost use Rattle.std.specs.Prelude.{◌≡◌, None, Some, ⊤, IfOk, IsSomeAnd};
ghost use Rattle.std.specs.FinMap as table;
ghost use Rattle.up_plan.specs.Images.{ImageData};
ghost use Rattle.up_rows.specs.Changes.{with_image_rows};
ghost use Rattle.up_tables.specs.Statements.{Finds};
ghost use Rattle.up_tables.specs.Tables.{image_table, image_sha512_table};
ghost use Rattle.up_tables.specs.declared.values.StoreFault.TheVariants.{Memory};
ghost use Rattle.up_store.specs.ColumnRows.{AreImages, IsImage, OfImage, OnlyMemory, with_image};
ghost use Rattle.up_store.specs.Connections.{PutsRows};
ghost use Rattle.up_store.specs.Fitting.{IsNewImage};
ghost use Rattle.up_store.specs.Puts.{HasColumns};
ghost use Rattle.up_store.specs.ReadAs.{FindsBoth, IsRead, IsReadImage, ReadsBeside, ReadsImage, ReadsImages, ReadsSha512};
ghost use Rattle.up_store.specs.Within.{FindsWithin, MakesAndPuts, PutsWithin};
ghost use Rattle.up_store.specs.Writes.{FitsFounding, image_row_writes, image_writes};

use crate::image_rows::{
    ImageColumns, ImageReading, ImageShown, make_lists, read_image, read_images, row_of,
};
use crate::roots::put_register;
use crate::second_hashes::{find_sha512, find_sha512s, put_sha512};
use crate::store::StoreFault;
use sqlite::{Alter, Transaction};
use std::alloc::Global;
use up_canon::file_name::FileName;
use up_canon::table::Table;
use up_machine::decision::RegisterRows;
use up_plan::image::Image;
use up_tables::image::{image as image_shown, images as images_shown, insert_image};

/// The image of this filename.
pub fn find_image<D: Alter>(
    tx: &mut Transaction<'_, D>,
    alloc: Global,
    file: &FileName,
) -> Result<Option<Image>, StoreFault>
    ensures { FindsWithin D.Store (λ rows found. found ≡ table.get rows.images file.now)
        (FindsBoth image_table 1 image_sha512_table 1 (ReadsImage file.now)) (λ _. ⊤) tx.old.conn tx.new.conn result }
{
    match image_shown::<D, ImageReading>(tx, alloc, file.text()) {
        Ok(Some(shown)) => find_with_sha512(tx, alloc, file, shown),
        Ok(None) => Ok(None),
        Err(fault) => Err(fault),
    }
}

/// The image of this row, with its second hash.
fn find_with_sha512<D: Alter>(
    tx: &mut Transaction<'_, D>,
    alloc: Global,
    file: &FileName,
    shown: ImageShown,
) -> Result<Option<Image>, StoreFault>
    ensures { FindsWithin D.Store (λ rows read. (image : ImageData) → table.get rows.images file.now ≡ Some image
        → IsImage shown image → read ≡ Some image) (Finds image_sha512_table 1 (λ rows_of read. IsSomeAnd read
        (λ image. IsRead shown image × ReadsSha512 file.now rows_of image.sha512))) (λ rows. (image : ImageData) ×
        (table.get rows.images file.now ≡ Some image) × IsImage shown image) tx.old.conn tx.new.conn result }
{
    match find_sha512(tx, alloc, file) {
        Ok(hash) => some_image(alloc, shown, hash),
        Err(fault) => Err(fault),
    }
}

/// A row as it stands in the table, read, with the image's second hash; of a row that stands for an image, `Memory` is the one fault.
fn some_image(
    alloc: Global,
    shown: ImageShown,
    sha512: Option<[u8; 64]>,
) -> Result<Option<Image>, StoreFault>
    ensures same { IfOk result (λ read. OfImage shown (λ image. sha512 ≡ image.sha512 → read ≡ Some image)) }
    ensures told { IfOk result (λ read. IsSomeAnd read (IsReadImage shown sha512)) }
    ensures fault { OfImage shown (λ _. OnlyMemory result) }
{
    match read_image(alloc, shown, sha512) {
        Ok(image) => Ok(Some(image)),
        Err(fault) => Err(fault),
    }
}

/// All images.
pub fn find_images<D: Alter>(
    tx: &mut Transaction<'_, D>,
    alloc: Global,
) -> Result<Table<Image>, StoreFault>
    ensures { FindsWithin D.Store (λ rows found. found ≡ rows.images)
        (FindsBoth image_table 1 image_sha512_table 1 ReadsImages) (λ _. ⊤) tx.old.conn tx.new.conn result }
{
    match images_shown::<D, ImageReading>(tx, alloc) {
        Ok(shown) => find_with_sha512s(tx, alloc, shown),
        Err(fault) => Err(fault),
    }
}

/// The images of these rows, each with its second hash.
fn find_with_sha512s<D: Alter>(
    tx: &mut Transaction<'_, D>,
    alloc: Global,
    shown: Vec<ImageShown>,
) -> Result<Table<Image>, StoreFault>
    ensures { FindsWithin D.Store (λ rows read. AreImages shown.items rows.images → read ≡ rows.images)
        (Finds image_sha512_table 1 (ReadsBeside shown.items)) (λ rows. AreImages shown.items rows.images)
        tx.old.conn tx.new.conn result }
{
    match find_sha512s(tx, alloc) {
        Ok(hashes) => read_images(alloc, shown, &hashes),
        Err(fault) => Err(fault),
    }
}

/// Puts in an image, and sets the files of the image repository. The columns of its lists are made before anything is written.
pub fn put_image<D: Alter>(
    tx: &mut Transaction<'_, D>,
    alloc: Global,
    image: &Image,
    new: &RegisterRows,
) -> Result<(), StoreFault>
    ensures { MakesAndPuts D.Store (PutsRows (IsNewImage image.now new.now)
        (λ rows. with_image_rows rows image.now new.now)) (image_writes image.now new.now)
        (λ _. FitsFounding new.now.founding) tx.old.conn tx.new.conn result }
{
    let lists = make_lists(alloc, image)?;
    put_image_made(tx, image, new, &lists)
}

/// The same with the columns of its lists, which takes no memory but the database's own.
fn put_image_made<D: Alter>(
    tx: &mut Transaction<'_, D>,
    image: &Image,
    new: &RegisterRows,
    lists: &ImageColumns,
) -> Result<(), StoreFault>
    requires made { HasColumns image.now lists.now }
    ensures { PutsWithin D.Store (PutsRows (IsNewImage image.now new.now)
        (λ rows. with_image_rows rows image.now new.now)) (image_writes image.now new.now)
        (λ _. FitsFounding new.now.founding) tx.old.conn tx.new.conn result }
{
    put_image_rows(tx, image, lists)?;
    put_register(tx, new)
}

/// Puts in the row of an image, and that of its second hash where it has one.
fn put_image_rows<D: Alter>(
    tx: &mut Transaction<'_, D>,
    image: &Image,
    lists: &ImageColumns,
) -> Result<(), StoreFault>
    requires made { HasColumns image.now lists.now }
    ensures { PutsWithin D.Store (PutsRows (λ rows. table.get rows.images image.now.file ≡ None)
        (λ rows. with_image rows image.now)) (image_row_writes image.now) (λ _. ⊤) tx.old.conn tx.new.conn result }
{
    insert_image(tx, &row_of(image, lists))?;
    put_sha512(tx, image)
}
