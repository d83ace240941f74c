//! The rows of kept manifests, read and made.
ghost use Rattle.std.specs.Prelude.{◌≡◌, ◌↔◌, ◌⊎◌, ◌<◌, ◌≤◌, ◌^◌, Err, IfOk, string_bytes};
ghost use Rattle.up_tables.specs.Forms.{FitKept, kept_row};
ghost use Rattle.up_tables.specs.declared.values.StoreFault.TheVariants.{Store};
ghost use Rattle.up_store.specs.Lines.{kept_line};
ghost use Rattle.up_store.specs.Puts.{IsMadeOfKept};
ghost use Rattle.up_store.specs.Typed.{IsTypedKept};

use crate::column_values::{count_at, ident_at, moment_at, plan_at, words_at};
use crate::store::{MOST_NUMBER, StoreFault};
use sqlite::Row;
use std::alloc::Global;
use up_columns::plans::plan_text;
use up_machine::rows::Kept;
use up_tables::kept::KeptRow;
use up_tables::reading::RowReading;
use up_tables::values::number_at;

/// How a row of `kept` is read.
pub struct KeptReading;

impl RowReading for KeptReading {
    ghost use Rattle.up_store.specs.Lines.{kept_line};
    ghost use Rattle.up_store.specs.ReadAs.{SaysKept};
    ghost use Rattle.up_store.specs.Typed.{IsTypedKept};

    type Item = Kept;

    ghost says = { SaysKept };

    ghost fits = { λ kept. IsTypedKept kept.vehicle kept };

    ghost line = { kept_line };

    fn read(alloc: Global, row: &Row) -> Result<Kept, StoreFault> {
        // Numbers first: where one is damaged, no text was copied yet.
        Ok(Kept {
            counter: count_at(row, 1)?,
            version: number_at(row, 2)?,
            at: moment_at(row, 3)?,
            root: number_at(row, 4)?,
            vehicle: ident_at(row, 0)?,
            signed: words_at(row, 5)?,
            reply: words_at(row, 7)?,
            plan: plan_at(alloc, row, 6)?,
        })
    }
}

/// The column of its plan; `Store` where its version or its root version is 2^63 or more.
pub fn make_plan(alloc: Global, kept: &Kept) -> Result<String, StoreFault>
    ensures made { IfOk result (λ plan. IsMadeOfKept kept.now (string_bytes plan)) }
    ensures large { (result ≡ Err Store) ↔ ((2 ^ 63 ≤ kept.now.version) ⊎ (2 ^ 63 ≤ kept.now.root)) }
{
    if kept.version > MOST_NUMBER || kept.root > MOST_NUMBER {
        return Err(StoreFault::Store);
    }
    Ok(plan_text(alloc, &kept.plan)?)
}

/// Its row, with the column of its plan.
pub fn row_of<'a>(kept: &'a Kept, plan_text: &'a str) -> KeptRow<'a>
    requires made { IsMadeOfKept kept.now plan_text.now }
    ensures is { kept_row result ≡ kept_line kept.now }
    ensures fit { FitKept result }
    ensures typed { IsTypedKept kept.now.vehicle kept.now }
{
    KeptRow {
        vehicle: kept.vehicle.text(),
        counter: kept.counter.get(),
        version: kept.version,
        moment: kept.at.get(),
        root: kept.root,
        signed: kept.signed.as_str(),
        plan_text,
        reply: kept.reply.as_str(),
    }
}
