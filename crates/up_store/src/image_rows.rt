//! The rows of images, read and made.
ghost use Rattle.std.specs.Prelude.{◌≡◌, false, length, Ok, IfOk, IfErr, IfSome, OnOk};
ghost use Rattle.up_canon.specs.Names.{Table as Named};
ghost use Rattle.up_columns.specs.Columns.{names_in, needs_in, file_names_in};
ghost use Rattle.up_plan.specs.Images.{ImageData, image_fits};
ghost use Rattle.up_tables.specs.Forms.{FitImage, image_row};
ghost use Rattle.up_store.specs.Lines.{image_line};
ghost use Rattle.up_store.specs.Puts.{HasColumns};
ghost use Rattle.up_store.specs.ColumnRows.{AreHashesOf, AreImages, OfImage, OnlyMemory};
ghost use Rattle.up_store.specs.Typed.{IsTypedImage};
ghost use Rattle.up_tables.specs.declared.values.StoreFault.TheVariants.{Memory, Store};
ghost use Rattle.up_store.specs.Shown.{image_made};
ghost use Rattle.up_store.specs.ReadAs.{InTurn, IsReadImage, PutsImage};
ghost use Rattle.std.specs.FinMap as table;

use crate::column_values::{count_at, file_name_at, read_column, sha256_at, words_at};
use crate::store::StoreFault;
use sqlite::Row;
use std::alloc::{AllocError, Global};
use up_canon::count::Count;
use up_canon::file_name::FileName;
use up_canon::ident::Ident;
use up_canon::listed::Listed;
use up_canon::table::Table;
use up_canon::text::Text;
use up_columns::file_names::{file_names_text, read_file_names};
use up_columns::names::{names_text, read_names};
use up_columns::needs::{needs_text, read_needs};
use up_plan::image::{Image, Need};
use up_tables::image::ImageRow;
use up_tables::reading::RowReading;

/// A row of `image`, as it is read: its lists still texts.
#[derive(Drop)]
pub struct ImageShown {
    pub file: FileName,
    pub length: Count,
    pub sha256: [u8; 32],
    pub hardware: Text,
    pub release: Count,
    pub needs: Text,
    pub conflicts: Text,
}

/// How a row of `image` is read.
pub struct ImageReading;

impl RowReading for ImageReading {
    ghost use Rattle.up_store.specs.Lines.{image_shown_line};
    ghost use Rattle.up_store.specs.ReadAs.{SaysImage};
    ghost use Rattle.up_store.specs.Typed.{IsTypedImageRow};

    type Item = ImageShown;

    ghost says = { SaysImage };

    ghost fits = { IsTypedImageRow };

    ghost line = { image_shown_line };

    fn read(_: Global, row: &Row) -> Result<ImageShown, StoreFault> {
        // Numbers first: where one is damaged, no text was copied yet.
        Ok(ImageShown {
            length: count_at(row, 1)?,
            sha256: sha256_at(row, 2)?,
            release: count_at(row, 4)?,
            file: file_name_at(row, 0)?,
            hardware: words_at(row, 3)?,
            needs: words_at(row, 5)?,
            conflicts: words_at(row, 6)?,
        })
    }
}

/// The lists of an image.
#[derive(Drop)]
struct ImageLists {
    hardware: Listed<Ident>,
    needs: Listed<Need>,
    conflicts: Listed<FileName>,
}

/// The lists of a row as it stands in the table, read as its columns say; of a row that stands for an image, `Memory` is the one fault.
fn read_lists(alloc: Global, shown: &ImageShown) -> Result<ImageLists, StoreFault>
    ensures same { IfOk result (λ lists. OfImage shown.now (λ image. (lists.hardware ≡ image.hardware)
        × (lists.needs ≡ image.needs) × (lists.conflicts ≡ image.conflicts))) }
    ensures told { IfOk result (λ lists. (names_in shown.now.hardware ≡ Ok lists.hardware)
        × (needs_in shown.now.needs ≡ Ok lists.needs) × (file_names_in shown.now.conflicts ≡ Ok lists.conflicts)) }
    ensures fault { OfImage shown.now (λ _. OnlyMemory result) }
{
    let hardware = read_column(read_names(alloc, shown.hardware.as_str()))?;
    let needs = read_column(read_needs(alloc, shown.needs.as_str()))?;
    let conflicts = read_column(read_file_names(alloc, shown.conflicts.as_str()))?;
    Ok(ImageLists {
        hardware,
        needs,
        conflicts,
    })
}

/// A row as it stands in the table, read, with the image's second hash; of a row that stands for an image, `Memory` is the one fault.
pub fn read_image(
    alloc: Global,
    shown: ImageShown,
    sha512: Option<[u8; 64]>,
) -> Result<Image, StoreFault>
    ensures same { IfOk result (λ read. OfImage shown (λ image. sha512 ≡ image.sha512 → read ≡ image)) }
    ensures told { IfOk result (IsReadImage shown sha512) }
    ensures fault { OfImage shown (λ _. OnlyMemory result) }
{
    let lists = read_lists(alloc, &shown)?;
    let ImageShown {
        file,
        length,
        sha256,
        release,
        ..
    } = shown;
    image_of(file, length, sha256, sha512, release, lists)
}

/// The image of these parts; `Store` where they are past an image's limits, which takes no memory to tell.
fn image_of(
    file: FileName,
    length: Count,
    sha256: [u8; 32],
    sha512: Option<[u8; 64]>,
    release: Count,
    lists: ImageLists,
) -> Result<Image, StoreFault>
    ensures ok { IfOk result (λ image. image ≡ image_made file length sha256 sha512 lists.hardware release lists.needs
        lists.conflicts) }
    ensures fault { IfErr result (λ fault. (fault ≡ Store) ×
        (image_fits (image_made file length sha256 sha512 lists.hardware release lists.needs lists.conflicts)
        ≡ false)) }
{
    let hardware = lists.hardware.into_vec();
    let needs = lists.needs.into_vec();
    let conflicts = lists.conflicts.into_vec();
    match Image::new(
        file, length, sha256, sha512, hardware, release, needs, conflicts,
    ) {
        Ok(image) => Ok(image),
        Err(_) => Err(StoreFault::Store),
    }
}

/// The rows of all images as they stand in the table, read, each with the second hash of its name; of rows that stand for images,
/// `Memory` is the one fault.
pub fn read_images(
    alloc: Global,
    shown: Vec<ImageShown>,
    hashes: &Table<[u8; 64]>,
) -> Result<Table<Image>, StoreFault>
    ensures same { IfOk result (λ read. (images : Named ImageData) → AreImages shown.items images
        → AreHashesOf hashes.now images → read ≡ images) }
    ensures told { IfOk result (InTurn (PutsImage hashes.now) shown.items table.empty) }
    ensures fault { (images : Named ImageData) → AreImages shown.items images → OnlyMemory result }
{
    let mut images = Table::new(alloc);
    for row in shown {
        add_image(&mut images, alloc, row, hashes)?;
    }
    Ok(images)
}

/// Reads a row as it stands in the table, and puts the image under its name.
fn add_image(
    images: &mut Table<Image>,
    alloc: Global,
    shown: ImageShown,
    hashes: &Table<[u8; 64]>,
) -> Result<(), StoreFault>
    ensures same { OnOk result (OfImage shown (λ image. table.get hashes.now image.file ≡ image.sha512
        → images.new ≡ table.insert images.old image.file image)) }
    ensures told { OnOk result (PutsImage hashes.now shown images.old images.new) }
    ensures fault { OfImage shown (λ _. OnlyMemory result) }
{
    let sha512 = hash_named(hashes, shown.file.text());
    let image = read_image(alloc, shown, sha512)?;
    let name = name_of(alloc, image.file.text())?;
    images.insert(name, image)?;
    Ok(())
}

/// The second hash of this name, none where there is none.
fn hash_named(hashes: &Table<[u8; 64]>, name: &str) -> Option<[u8; 64]>
    ensures { result ≡ table.get hashes.now name.now }
{
    hashes.get(name).copied()
}

/// The name as the key of a table.
pub(crate) fn name_of(alloc: Global, name: &str) -> Result<Text, AllocError>
    ensures { IfOk result (λ text. text ≡ name.now) }
{
    Ok(Text::new(name.to_string(alloc)?))
}

/// The columns of an image's lists.
#[derive(Drop)]
pub(crate) struct ImageColumns {
    pub hardware: String,
    pub needs: String,
    pub conflicts: String,
}

/// The columns of its lists.
pub(crate) fn make_lists(alloc: Global, image: &Image) -> Result<ImageColumns, AllocError>
    ensures { IfOk result (HasColumns image.now) }
{
    Ok(ImageColumns {
        hardware: names_text(alloc, image.hardware.as_slice())?,
        needs: needs_text(alloc, image.needs.as_slice())?,
        conflicts: file_names_text(alloc, image.conflicts.as_slice())?,
    })
}

/// Its row, without its second hash.
pub(crate) fn row_of<'a>(image: &'a Image, lists: &'a ImageColumns) -> ImageRow<'a>
    requires made { HasColumns image.now lists.now }
    ensures is { image_row result ≡ image_line image.now }
    ensures fit { FitImage result }
    ensures typed { IfSome image.now.sha512 (λ hash. length hash ≡ 64) → IsTypedImage image.now.file image.now }
{
    ImageRow {
        file: image.file.text(),
        length: image.length.get(),
        sha256: &image.sha256[..],
        hardware: lists.hardware.as_str(),
        release_count: image.release.get(),
        needs: lists.needs.as_str(),
        conflicts: lists.conflicts.as_str(),
    }
}
