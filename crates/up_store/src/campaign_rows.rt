//! The rows of campaigns, read and made.
ghost use Rattle.std.specs.Prelude.{◌≡◌, false, IfOk, IfErr, OnOk};
ghost use Rattle.std.specs.FinMap as table;
ghost use Rattle.up_canon.specs.Names.{Table as Named};
ghost use Rattle.up_plan.specs.Campaigns.{CampaignData, campaign_fits};
ghost use Rattle.up_store.specs.ColumnRows.{AreRunning, OfCampaign, OnlyMemory};
ghost use Rattle.up_store.specs.Found.{values_where};
ghost use Rattle.up_store.specs.ReadAs.{InTurn, IsReadCampaign, PutsCampaign};
ghost use Rattle.up_store.specs.Typed.{IsTypedCampaign};
ghost use Rattle.up_tables.specs.declared.values.StoreFault.TheVariants.{Memory, Store};
ghost use Rattle.up_store.specs.Lines.{line_of_campaign};
ghost use Rattle.up_store.specs.Puts.{IsMadeOfCampaign};
ghost use Rattle.up_store.specs.Shown.{campaign_made};
ghost use Rattle.up_tables.specs.Forms.{campaign_row};

use crate::column_values::{ident_at, read_column, words_at};
use crate::image_rows::name_of;
use crate::store::StoreFault;
use sqlite::Row;
use std::alloc::Global;
use up_canon::ident::Ident;
use up_canon::listed::{Duplicate, Listed};
use up_canon::table::Table;
use up_canon::text::Text;
use up_columns::campaigns::{read_campaign_items, read_reach};
use up_plan::campaign::{Campaign, Item, Reach};
use up_tables::campaign::CampaignRow;
use up_tables::reading::RowReading;
use up_tables::values::flag_at;

/// A row of `campaign`, as it is read: its reach and its items still texts.
#[derive(Drop)]
pub struct CampaignShown {
    pub name: Ident,
    pub reach: Text,
    pub items: Text,
    pub running: bool,
}

/// How a row of `campaign` is read.
pub struct CampaignReading;

impl RowReading for CampaignReading {
    ghost use Rattle.up_store.specs.Lines.{campaign_shown_line};
    ghost use Rattle.up_store.specs.ReadAs.{SaysCampaign};
    ghost use Rattle.up_store.specs.Typed.{IsTypedCampaignRow};

    type Item = CampaignShown;

    ghost says = { SaysCampaign };

    ghost fits = { IsTypedCampaignRow };

    ghost line = { campaign_shown_line };

    fn read(_: Global, row: &Row) -> Result<CampaignShown, StoreFault> {
        // The number first: where it is damaged, no text was copied yet.
        Ok(CampaignShown {
            running: flag_at(row, 3)?,
            name: ident_at(row, 0)?,
            reach: words_at(row, 1)?,
            items: words_at(row, 2)?,
        })
    }
}

/// A row as it stands in the table, read; of a row that stands for a campaign, `Memory` is the one fault.
pub fn read_campaign(alloc: Global, shown: &CampaignShown) -> Result<Campaign, StoreFault>
    ensures same { IfOk result (λ read. OfCampaign shown.now (λ campaign. read ≡ campaign)) }
    ensures told { IfOk result (IsReadCampaign shown.now) }
    ensures fault { OfCampaign shown.now (λ _. OnlyMemory result) }
{
    let reach = read_column(read_reach(alloc, shown.reach.as_str()))?;
    let name = shown.name.copy(alloc)?;
    let items = read_column(read_campaign_items(alloc, shown.items.as_str()))?;
    campaign_of(name, reach, items, shown.running)
}

/// The campaign of these parts; `Store` where they are past a campaign's limits, which takes no memory to tell.
fn campaign_of(
    name: Ident,
    reach: Reach,
    items: Listed<Item>,
    running: bool,
) -> Result<Campaign, StoreFault>
    ensures ok { IfOk result (λ campaign. campaign ≡ campaign_made name reach items running) }
    ensures fault { IfErr result (λ fault. (fault ≡ Store) ×
        (campaign_fits (campaign_made name reach items running) ≡ false)) }
{
    match Campaign::new(name, reach, items.into_vec()) {
        Ok(mut campaign) => {
            campaign.running = running;
            Ok(campaign)
        }
        Err(_) => Err(StoreFault::Store),
    }
}

/// The rows of running campaigns as they stand in the table, read; of rows that stand for campaigns, `Memory` is the one fault.
pub fn read_running(alloc: Global, shown: &[CampaignShown]) -> Result<Table<Campaign>, StoreFault>
    ensures same { IfOk result (λ read. (campaigns : Named CampaignData) → AreRunning shown.now campaigns
        → read ≡ values_where (λ c. c.running) campaigns) }
    ensures told { IfOk result (InTurn PutsCampaign shown.now table.empty) }
    ensures fault { (campaigns : Named CampaignData) → AreRunning shown.now campaigns → OnlyMemory result }
{
    let mut running = Table::new(alloc);
    for row in shown {
        add_running(&mut running, alloc, row)?;
    }
    Ok(running)
}

/// Reads a row as it stands in the table, and puts the campaign under its name.
fn add_running(
    running: &mut Table<Campaign>,
    alloc: Global,
    shown: &CampaignShown,
) -> Result<(), StoreFault>
    ensures same { OnOk result (OfCampaign shown.now
        (λ campaign. running.new ≡ table.insert running.old campaign.name campaign)) }
    ensures told { OnOk result (PutsCampaign shown.now running.old running.new) }
    ensures fault { OfCampaign shown.now (λ _. OnlyMemory result) }
{
    let campaign = read_campaign(alloc, shown)?;
    let name = name_of(alloc, campaign.name.text())?;
    running.insert(name, campaign)?;
    Ok(())
}

/// The row of a campaign, of the columns of its reach and its items.
pub fn row_of<'a>(campaign: &'a Campaign, reach: &'a str, items: &'a str) -> CampaignRow<'a>
    requires made { IsMadeOfCampaign campaign.now reach.now items.now }
    ensures is { campaign_row result ≡ line_of_campaign campaign.now }
    ensures typed { IsTypedCampaign campaign.now.name campaign.now }
{
    CampaignRow {
        name: campaign.name.text(),
        reach,
        items,
        running: campaign.running,
    }
}
