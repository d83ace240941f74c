//! The founding's numbers: the rows of `meta` and `image_repository`, read and written.
ghost use Rattle.std.specs.Prelude.{◌<◌, ◌≡◌, ◌↔◌, ◌⊎◌, ◌≤◌, ◌∷◌, ◌^◌, [], ⊤, Some, Err, IfErr, IfOk, OnOk};
ghost use Rattle.up_tables.specs.Forms.{image_repository_values, meta_values};
ghost use Rattle.up_tables.specs.Texts.{update_image_repository_text, update_meta_text};
ghost use Rattle.up_tables.specs.declared.values.StoreFault.TheVariants as StoreFault;
ghost use Rattle.up_store.specs.Connections.{PutsTables};
ghost use Rattle.up_store.specs.Puts.{FitNumbers, with_numbers};
ghost use Rattle.up_store.specs.ReadAs.{FindsNumbers, FindsOwn};
ghost use Rattle.up_store.specs.Shown.{meta_told, numbers_told, own_told};
ghost use Rattle.up_store.specs.Typed.{IsTypedFounding};
ghost use Rattle.up_store.specs.Within.{FindsWithin, PutsWithin};

use crate::keys::keeps_thresholds;
use crate::store::{MOST_NUMBER, StoreFault};
use sqlite::{Alter, Row, Transaction};
use std::alloc::Global;
use up_machine::rows::Founding;
use up_tables::image_repository::{ImageRepositoryRow, image_repository, update_image_repository};
use up_tables::meta::{MetaRow, meta, update_meta};
use up_tables::reading::RowReading;
use up_tables::values::number_at;

/// The founding's numbers as they stand in the tables: in `meta`, and the Image repository's own.
#[derive(Clone, Copy)]
pub struct Numbers {
    pub meta: MetaRow,
    pub own: ImageRepositoryRow,
}

/// How the row of `meta` is read.
pub struct NumbersReading;

impl RowReading for NumbersReading {
    ghost use Rattle.up_tables.specs.Forms.{FitMeta, meta_values};
    ghost use Rattle.up_store.specs.ReadAs.{SaysNumbers};

    type Item = MetaRow;

    ghost says = { SaysNumbers };

    ghost fits = { FitMeta };

    ghost line = { meta_values };

    fn read(_: Global, row: &Row) -> Result<MetaRow, StoreFault> {
        Ok(MetaRow {
            root: number_at(row, 0)?,
            image_version: number_at(row, 1)?,
            stamp: number_at(row, 2)?,
        })
    }
}

/// How the row of `image_repository` is read.
pub struct OwnReading;

impl RowReading for OwnReading {
    ghost use Rattle.up_tables.specs.Forms.{FitImageRepository, image_repository_values};
    ghost use Rattle.up_store.specs.ReadAs.{SaysOwn};

    type Item = ImageRepositoryRow;

    ghost says = { SaysOwn };

    ghost fits = { FitImageRepository };

    ghost line = { image_repository_values };

    fn read(_: Global, row: &Row) -> Result<ImageRepositoryRow, StoreFault> {
        Ok(ImageRepositoryRow {
            root: number_at(row, 0)?,
            targets: number_at(row, 1)?,
        })
    }
}

/// The founding's numbers in `meta`, all 0 before it; `Store` where a database that isn't of this product has none.
pub(crate) fn find_numbers<D: Alter>(
    tx: &mut Transaction<'_, D>,
    alloc: Global,
) -> Result<MetaRow, StoreFault>
    ensures { FindsWithin D.Store (λ rows row. row ≡ meta_told rows.founding)
        (FindsNumbers (λ row read. read ≡ row)) (λ _. ⊤) tx.old.conn tx.new.conn result }
{
    match meta::<D, NumbersReading>(tx, alloc) {
        Ok(Some(row)) => Ok(row),
        Ok(None) => Err(StoreFault::Store),
        Err(fault) => Err(fault),
    }
}

/// The Image repository's own numbers, both 0 before founding; `Store` where a database that isn't of this product has none.
pub(crate) fn find_own_numbers<D: Alter>(
    tx: &mut Transaction<'_, D>,
    alloc: Global,
) -> Result<ImageRepositoryRow, StoreFault>
    ensures { FindsWithin D.Store (λ rows own. own ≡ own_told rows.founding) FindsOwn
        (λ _. ⊤) tx.old.conn tx.new.conn result }
{
    match image_repository::<D, OwnReading>(tx, alloc) {
        Ok(Some(row)) => Ok(row),
        Ok(None) => Err(StoreFault::Store),
        Err(fault) => Err(fault),
    }
}

/// The founding's numbers as they stand in the tables; `Store` where one of its versions is 2^63 or more.
pub(crate) fn make_numbers(founding: &Founding) -> Result<Numbers, StoreFault>
    ensures same { IfOk result (λ made. made ≡ numbers_told (Some founding.now)) }
    ensures fit { IfOk result FitNumbers }
    ensures typed { OnOk result (IsTypedFounding founding.now) }
    ensures large { (result ≡ Err StoreFault.Store) ↔ (((2 ^ 63 ≤ founding.now.root) ⊎ (2 ^ 63 ≤ founding.now.image_root)) ⊎
        ((2 ^ 63 ≤ founding.now.image_version) ⊎ (2 ^ 63 ≤ founding.now.targets_version))) }
    ensures fault { IfErr result (λ fault. fault ≡ StoreFault.Store) }
{
    if founding.root > MOST_NUMBER
        || founding.image_root > MOST_NUMBER
        || founding.image_version > MOST_NUMBER
        || founding.targets_version > MOST_NUMBER
    {
        return Err(StoreFault::Store);
    }
    keeps_thresholds(&founding.keys.director);
    keeps_thresholds(&founding.keys.image);
    Ok(Numbers {
        meta: MetaRow {
            root: founding.root,
            image_version: founding.image_version,
            stamp: founding.stamp.get(),
        },
        own: ImageRepositoryRow {
            root: founding.image_root,
            targets: founding.targets_version,
        },
    })
}

/// Sets the founding's numbers.
pub(crate) fn put_numbers<D: Alter>(
    tx: &mut Transaction<'_, D>,
    numbers: &Numbers,
) -> Result<(), StoreFault>
    requires fit { FitNumbers numbers.now }
    ensures { PutsWithin D.Store (PutsTables (λ _. ⊤) (with_numbers numbers.now))
        ((update_meta_text, meta_values numbers.now.meta)
        ∷ (update_image_repository_text, image_repository_values numbers.now.own) ∷ [])
        (λ _. ⊤) tx.old.conn tx.new.conn result }
{
    update_meta(tx, &numbers.meta)?;
    update_image_repository(tx, &numbers.own)
}
