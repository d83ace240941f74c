//! The rows of kept manifests.

ghost use Rattle.std.specs.Prelude.{◌<◌, ◌∷◌, ◌^◌, [], pos, map, filter};
ghost use Rattle.sqlite.specs.declared.types.Value.TheVariants.{Int, Text};
ghost use Rattle.up_tables.specs.Texts.{insert_kept_text, find_kept_text};
ghost use Rattle.up_tables.specs.Tables.{kept_table};
ghost use Rattle.up_tables.specs.Rows.{columns_at, has_number, with_row};
ghost use Rattle.up_tables.specs.Forms.{kept_places, kept_row, FitKept};
ghost use Rattle.up_tables.specs.Statements.{AltersRows};
ghost use Rattle.up_tables.specs.Stored.{AreLines, IsFound, IsTold, IsWritten};

use crate::reading::RowReading;
use crate::statement::{find_value, write};
use crate::values::{StoreFault, number, words};
use sqlite::{Alter, Transaction};
use std::alloc::Global;

/// A row of `kept`: an accepted manifest of a vehicle, with what was planned and answered. The moment is in seconds, the plan canonical JSON.
#[derive(Drop)]
pub struct KeptRow<'a> {
    pub vehicle: &'a str,
    pub counter: u64,
    pub version: u64,
    pub moment: u64,
    pub root: u64,
    pub signed: &'a str,
    pub plan_text: &'a str,
    pub reply: &'a str,
}

/// Puts in the row of an accepted manifest, behind those of its vehicle; `Store` where one has its counter or its version.
pub fn insert_kept<S: Alter>(
    tx: &mut Transaction<'_, S>,
    kept: &KeptRow<'_>,
) -> Result<(), StoreFault>
    requires fit { FitKept kept.now }
    ensures { IsWritten S.Store insert_kept_text (kept_row kept.now)
        (AltersRows kept_table 1 (with_row kept.now.vehicle.now (kept_row kept.now))) tx.old.conn tx.new.conn result }
{
    write(
        tx,
        "INSERT INTO kept (vehicle, counter, version, moment, root, signed, plan_text, reply) VALUES (?1, ?2, ?3, ?4, ?5, ?6, ?7, ?8)",
        &[
            words(kept.vehicle),
            number(kept.counter),
            number(kept.version),
            number(kept.moment),
            number(kept.root),
            words(kept.signed),
            words(kept.plan_text),
            words(kept.reply),
        ],
    )
}

/// The accepted manifest of a vehicle with this counter, none where there is none.
pub fn kept<S: Alter, R: RowReading>(
    tx: &mut Transaction<'_, S>,
    alloc: Global,
    vehicle: &str,
    counter: u64,
) -> Result<Option<R::Item>, StoreFault>
    requires counter { counter < 2 ^ 63 }
    ensures { IsFound S.Store find_kept_text (Text vehicle.now ∷ Int (pos counter) ∷ []) kept_table 1
        (λ rows_of. map (columns_at kept_places) (filter (has_number 1 (pos counter)) (rows_of vehicle.now)))
        (IsTold R.says R.fits R.line) (AreLines R.fits R.line) tx.old.conn tx.new.conn result }
{
    find_value::<S, R>(
        tx,
        alloc,
        "SELECT vehicle, counter, version, moment, root, signed, plan_text, reply FROM kept WHERE vehicle = ?1 AND counter = ?2",
        &[words(vehicle), number(counter)],
    )
}
