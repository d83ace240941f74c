//! The row of `image_repository`.

ghost use Rattle.std.specs.Prelude.{[]};
ghost use Rattle.up_tables.specs.Forms.{FitImageRepository, image_repository_values};
ghost use Rattle.up_tables.specs.Found.{FindsImageRepository, HoldsOfImageRepository};
ghost use Rattle.up_tables.specs.Statements.{SetsImageRepository};
ghost use Rattle.up_tables.specs.Stored.{AreLines, IsQueried, IsTold, IsWritten};
ghost use Rattle.up_tables.specs.Texts.{update_image_repository_text, find_image_repository_text};

use crate::reading::RowReading;
use crate::statement::{find_value, write};
use crate::values::{StoreFault, number};
use sqlite::{Alter, Transaction};
use std::alloc::Global;

/// The Image repository's own numbers: its last root version, and the version of its Targets; both 0 before founding.
#[derive(Clone, Copy, Debug, PartialEq, Eq)]
pub struct ImageRepositoryRow {
    pub root: u64,
    pub targets: u64,
}

/// Sets the Image repository's own numbers.
pub fn update_image_repository<S: Alter>(
    tx: &mut Transaction<'_, S>,
    row: &ImageRepositoryRow,
) -> Result<(), StoreFault>
    requires fit { FitImageRepository row.now }
    ensures { IsWritten S.Store update_image_repository_text (image_repository_values row.now)
        (SetsImageRepository row.now) tx.old.conn tx.new.conn result }
{
    write(
        tx,
        "UPDATE image_repository SET root = ?1, targets = ?2 WHERE id = 1",
        &[number(row.root), number(row.targets)],
    )
}

/// The Image repository's own numbers, none where there is no row.
pub fn image_repository<S: Alter, R: RowReading>(
    tx: &mut Transaction<'_, S>,
    alloc: Global,
) -> Result<Option<R::Item>, StoreFault>
    ensures { IsQueried S.Store find_image_repository_text [] (IsTold R.says R.fits R.line)
        (FindsImageRepository (IsTold R.says R.fits R.line)) (HoldsOfImageRepository (AreLines R.fits R.line))
        tx.old.conn tx.new.conn result }
{
    find_value::<S, R>(
        tx,
        alloc,
        "SELECT root, targets FROM image_repository WHERE id = 1",
        &[],
    )
}
