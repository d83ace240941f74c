//! Campaigns.
ghost use Rattle.std.specs.Prelude.{◌≡◌, ⊤, Some, IfOk, IsSomeAnd};
ghost use Rattle.std.specs.FinMap as table;
ghost use Rattle.up_rows.specs.Changes.{with_campaign_row};
ghost use Rattle.up_tables.specs.Statements.{Finds};
ghost use Rattle.up_tables.specs.Tables.{campaign_table};
ghost use Rattle.up_tables.specs.declared.values.StoreFault.TheVariants.{Memory};
ghost use Rattle.up_store.specs.ColumnRows.{OfCampaign, OnlyMemory};
ghost use Rattle.up_store.specs.Connections.{PutsRows};
ghost use Rattle.up_store.specs.Fitting.{IsNewCampaign, IsClosing};
ghost use Rattle.up_store.specs.Found.{running_found};
ghost use Rattle.up_store.specs.ReadAs.{IsReadCampaign, ReadsCampaign, ReadsRunning};
ghost use Rattle.up_store.specs.Within.{FindsWithin, MakesAndPuts, PutsWithin};
ghost use Rattle.up_store.specs.Writes.{campaign_writes, close_writes};

use crate::campaign_rows::{CampaignReading, CampaignShown, read_campaign, read_running, row_of};
use crate::store::StoreFault;
use sqlite::{Alter, Transaction};
use std::alloc::Global;
use up_canon::ident::Ident;
use up_canon::table::Table;
use up_columns::campaigns::{items_text, reach_text};
use up_plan::campaign::Campaign;
use up_tables::campaign::{
    campaign as campaign_shown, close_campaign, insert_campaign, running_campaigns as running_shown,
};

/// Says in its row that a campaign doesn't run.
pub fn put_closed<D: Alter>(
    tx: &mut Transaction<'_, D>,
    closed: &Campaign,
) -> Result<(), StoreFault>
    ensures { PutsWithin D.Store (PutsRows (IsClosing closed.now) (λ rows. with_campaign_row rows closed.now))
        (close_writes closed.now) (λ _. ⊤) tx.old.conn tx.new.conn result }
{
    close_campaign(tx, closed.name.text())
}

/// The campaign of this name.
pub fn find_campaign<D: Alter>(
    tx: &mut Transaction<'_, D>,
    alloc: Global,
    name: &Ident,
) -> Result<Option<Campaign>, StoreFault>
    ensures { FindsWithin D.Store (λ rows found. found ≡ table.get rows.campaigns name.now)
        (Finds campaign_table 1 (ReadsCampaign name.now)) (λ _. ⊤) tx.old.conn tx.new.conn result }
{
    match campaign_shown::<D, CampaignReading>(tx, alloc, name.text()) {
        Ok(Some(shown)) => some_campaign(alloc, &shown),
        Ok(None) => Ok(None),
        Err(fault) => Err(fault),
    }
}

/// A row as it stands in the table, read; of a row that stands for a campaign, `Memory` is the one fault.
fn some_campaign(alloc: Global, shown: &CampaignShown) -> Result<Option<Campaign>, StoreFault>
    ensures same { IfOk result (λ read. OfCampaign shown.now (λ campaign. read ≡ Some campaign)) }
    ensures told { IfOk result (λ read. IsSomeAnd read (IsReadCampaign shown.now)) }
    ensures fault { OfCampaign shown.now (λ _. OnlyMemory result) }
{
    match read_campaign(alloc, shown) {
        Ok(campaign) => Ok(Some(campaign)),
        Err(fault) => Err(fault),
    }
}

/// The running campaigns.
pub fn find_running<D: Alter>(
    tx: &mut Transaction<'_, D>,
    alloc: Global,
) -> Result<Table<Campaign>, StoreFault>
    ensures { FindsWithin D.Store (λ rows found. found ≡ running_found rows) (Finds campaign_table 1 ReadsRunning)
        (λ _. ⊤) tx.old.conn tx.new.conn result }
{
    match running_shown::<D, CampaignReading>(tx, alloc) {
        Ok(shown) => read_running(alloc, shown.as_slice()),
        Err(fault) => Err(fault),
    }
}

/// Puts in the row of a campaign. Its columns are made before it is written.
pub fn put_campaign<D: Alter>(
    tx: &mut Transaction<'_, D>,
    alloc: Global,
    new: &Campaign,
) -> Result<(), StoreFault>
    ensures { MakesAndPuts D.Store (PutsRows (IsNewCampaign new.now) (λ rows. with_campaign_row rows new.now))
        (campaign_writes new.now) (λ _. ⊤) tx.old.conn tx.new.conn result }
{
    let reach = reach_text(alloc, &new.reach)?;
    let items = items_text(alloc, new.items.as_slice())?;
    insert_campaign(tx, &row_of(new, reach.as_str(), items.as_str()))
}
