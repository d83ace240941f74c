//! Images that are read by the files that name them.
ghost use Rattle.std.specs.Prelude.{◌≡◌, IfErr, IfOk, OnOk};
ghost use Rattle.std.specs.FinMap as table;
ghost use Rattle.up_tables.specs.declared.values.StoreFault.TheVariants as faults;
ghost use Rattle.up_desk.specs.Gathered.{IsPart, with_found, gathered, item_files};
ghost use Rattle.up_records.specs.Sessions.{FindsIn};

use sqlite::{Alter, Transaction};
use std::alloc::{AllocError, Global};
use up_canon::file_name::FileName;
use up_canon::table::Table;
use up_canon::text::Text;
use up_plan::campaign::Item;
use up_plan::image::Image;
use up_store::images::find_image;
use up_store::store::StoreFault;

/// The images of these items' files, each under its filename.
pub fn images_of<D: Alter>(
    tx: &mut Transaction<'_, D>,
    alloc: Global,
    items: &[Item],
) -> Result<Table<Image>, StoreFault>
    ensures { FindsIn D.Store (λ _ s found. found ≡ gathered s.images (item_files items.now) table.empty)
        tx.old.conn tx.new.conn result }
{
    let mut images = Table::new(alloc);
    for item in items {
        add_file(tx, alloc, &mut images, &item.file)?;
    }
    Ok(images)
}

/// Puts the image of this filename among the others, where one is registered. One that is there is not read again.
fn add_file<D: Alter>(
    tx: &mut Transaction<'_, D>,
    alloc: Global,
    images: &mut Table<Image>,
    file: &FileName,
) -> Result<(), StoreFault>
    ensures { FindsIn D.Store
        (λ _ s _. IsPart s.images images.old → images.new ≡ with_found s.images images.old file.now)
        tx.old.conn tx.new.conn result }
{
    if images.contains(file.text()) {
        return Ok(());
    }
    match find_image(tx, alloc, file) {
        Ok(Some(image)) => put_image(alloc, images, file, image),
        Ok(None) => Ok(()),
        Err(fault) => Err(fault),
    }
}

fn put_image(
    alloc: Global,
    images: &mut Table<Image>,
    file: &FileName,
    image: Image,
) -> Result<(), StoreFault>
    ensures put { OnOk result (images.new ≡ table.insert images.old file.now image) }
    ensures memory { IfErr result (λ fault. fault ≡ faults.Memory) }
{
    let name = text_of(alloc, file.text())?;
    images.insert(name, image)?;
    Ok(())
}

/// A text, copied.
fn text_of(alloc: Global, text: &str) -> Result<Text, AllocError>
    ensures { IfOk result (λ made. made ≡ text.now) }
{
    Ok(Text::new(text.to_string(alloc)?))
}
