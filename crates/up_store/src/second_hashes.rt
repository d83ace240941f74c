//! The second hashes of images: found, read and put in.
ghost use Rattle.std.specs.Prelude.{◌≡◌, ⊤, length, IfErr, IfOk, IfSome, OnOk, option_map};
ghost use Rattle.std.specs.FinMap as table;
ghost use Rattle.up_canon.specs.Names.{Table as Named};
ghost use Rattle.up_plan.specs.Images.{ImageData};
ghost use Rattle.up_tables.specs.Statements.{Finds, WhereOpen};
ghost use Rattle.up_tables.specs.Tables.{image_sha512_table};
ghost use Rattle.up_tables.specs.Texts.{insert_sha512_text};
ghost use Rattle.up_tables.specs.declared.values.StoreFault.TheVariants as StoreFault;
ghost use Rattle.up_store.specs.ColumnRows.{AreHashesOf, AreSha512s};
ghost use Rattle.up_store.specs.Connections.{PutsTables};
ghost use Rattle.up_store.specs.Lines.{second_hash, sha512_lines};
ghost use Rattle.up_store.specs.Puts.{with_sha512_line};
ghost use Rattle.up_store.specs.ReadAs.{InTurn, PutsSha512, ReadsSha512, ReadsSha512s};
ghost use Rattle.up_store.specs.Within.{FindsWithin, PutsWithin};
ghost use Rattle.up_store.specs.Writes.{each_with};

use crate::column_values::{sha512_at, words_at};
use crate::store::StoreFault;
use sqlite::{Alter, Row, Transaction};
use std::alloc::Global;
use up_canon::file_name::FileName;
use up_canon::table::Table;
use up_canon::text::Text;
use up_plan::image::Image;
use up_tables::image_sha512::{image_sha512, image_sha512s, insert_image_sha512};
use up_tables::reading::RowReading;

/// A second hash, with the filename of its image.
#[derive(Drop)]
pub struct SecondHash {
    pub file: Text,
    pub sha512: [u8; 64],
}

/// How a row of `image_sha512` is read.
pub struct HashReading;

impl RowReading for HashReading {
    ghost use Rattle.up_store.specs.Lines.{hash_line};
    ghost use Rattle.up_store.specs.ReadAs.{SaysHash};
    ghost use Rattle.up_store.specs.Typed.{IsTypedHash};

    type Item = SecondHash;

    ghost says = { SaysHash };

    ghost fits = { IsTypedHash };

    ghost line = { hash_line };

    fn read(_: Global, row: &Row) -> Result<SecondHash, StoreFault> {
        Ok(SecondHash {
            file: words_at(row, 0)?,
            sha512: sha512_at(row, 1)?,
        })
    }
}

/// The second hash of the image of this filename, none where there is none.
pub(crate) fn find_sha512<D: Alter>(
    tx: &mut Transaction<'_, D>,
    alloc: Global,
    file: &FileName,
) -> Result<Option<[u8; 64]>, StoreFault>
    ensures { FindsWithin D.Store (λ rows found. found ≡ second_hash (table.get rows.images file.now))
        (Finds image_sha512_table 1 (ReadsSha512 file.now)) (λ _. ⊤) tx.old.conn tx.new.conn result }
{
    match image_sha512::<D, HashReading>(tx, alloc, file.text()) {
        Ok(found) => Ok(hash_of(found)),
        Err(fault) => Err(fault),
    }
}

/// The hash alone.
fn hash_of(found: Option<SecondHash>) -> Option<[u8; 64]>
    ensures { result ≡ option_map (λ h. h.sha512) found }
{
    match found {
        Some(row) => Some(row.sha512),
        None => None,
    }
}

/// All second hashes by the filenames of their images.
pub(crate) fn find_sha512s<D: Alter>(
    tx: &mut Transaction<'_, D>,
    alloc: Global,
) -> Result<Table<[u8; 64]>, StoreFault>
    ensures { FindsWithin D.Store (λ rows read. AreHashesOf read rows.images) (Finds image_sha512_table 1 ReadsSha512s)
        (λ _. ⊤) tx.old.conn tx.new.conn result }
{
    match image_sha512s::<D, HashReading>(tx, alloc) {
        Ok(found) => by_file(alloc, found),
        Err(fault) => Err(fault),
    }
}

/// The hashes by their filenames; `Memory` is the one fault.
fn by_file(alloc: Global, found: Vec<SecondHash>) -> Result<Table<[u8; 64]>, StoreFault>
    ensures same { IfOk result (λ read. (images : Named ImageData) → AreSha512s found.items images
        → AreHashesOf read images) }
    ensures told { IfOk result (InTurn PutsSha512 found.items table.empty) }
    ensures fault { IfErr result (λ fault. fault ≡ StoreFault.Memory) }
{
    let mut hashes = Table::new(alloc);
    for row in found {
        hashes.insert(row.file, row.sha512)?;
    }
    Ok(hashes)
}

/// Puts in the row of an image's second hash, where it has one.
pub(crate) fn put_sha512<D: Alter>(
    tx: &mut Transaction<'_, D>,
    image: &Image,
) -> Result<(), StoreFault>
    ensures put { WhereOpen D.Store tx.old.conn (PutsWithin D.Store (PutsTables (λ _. ⊤) (with_sha512_line image.now))
        (each_with insert_sha512_text (sha512_lines image.now.file image.now.sha512))
        (λ _. ⊤) tx.old.conn tx.new.conn result) }
    ensures typed { OnOk result (IfSome image.now.sha512 (λ hash. length hash ≡ 64)) }
{
    match &image.sha512 {
        Some(hash) => insert_image_sha512(tx, image.file.text(), &hash[..]),
        None => Ok(()),
    }
}
