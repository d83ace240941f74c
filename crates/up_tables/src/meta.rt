//! The row of `meta`.

ghost use Rattle.std.specs.Prelude.{[]};
ghost use Rattle.up_tables.specs.Forms.{FitMeta, meta_values};
ghost use Rattle.up_tables.specs.Found.{FindsMeta, HoldsOfMeta};
ghost use Rattle.up_tables.specs.Statements.{SetsMeta};
ghost use Rattle.up_tables.specs.Stored.{AreLines, IsQueried, IsTold, IsWritten};
ghost use Rattle.up_tables.specs.Texts.{update_meta_text, find_founding_text};

use crate::reading::RowReading;
use crate::statement::{find_value, write};
use crate::values::{StoreFault, number};
use sqlite::{Alter, Transaction};
use std::alloc::Global;

/// What `meta` says of the founding: the last root version, the version of the Image repository's files and their moment in seconds; all 0 before it.
#[derive(Clone, Copy, Debug, PartialEq, Eq)]
pub struct MetaRow {
    pub root: u64,
    pub image_version: u64,
    pub stamp: u64,
}

/// Sets what `meta` says of the founding.
pub fn update_meta<S: Alter>(tx: &mut Transaction<'_, S>, meta: &MetaRow) -> Result<(), StoreFault>
    requires fit { FitMeta meta.now }
    ensures { IsWritten S.Store update_meta_text (meta_values meta.now) (SetsMeta meta.now)
        tx.old.conn tx.new.conn result }
{
    write(
        tx,
        "UPDATE meta SET root = ?1, image_version = ?2, stamp = ?3 WHERE id = 1",
        &[
            number(meta.root),
            number(meta.image_version),
            number(meta.stamp),
        ],
    )
}

/// What `meta` says of the founding, none where it has no row.
pub fn meta<S: Alter, R: RowReading>(
    tx: &mut Transaction<'_, S>,
    alloc: Global,
) -> Result<Option<R::Item>, StoreFault>
    ensures { IsQueried S.Store find_founding_text [] (IsTold R.says R.fits R.line)
        (FindsMeta (IsTold R.says R.fits R.line)) (HoldsOfMeta (AreLines R.fits R.line))
        tx.old.conn tx.new.conn result }
{
    find_value::<S, R>(
        tx,
        alloc,
        "SELECT root, image_version, stamp FROM meta WHERE id = 1",
        &[],
    )
}
