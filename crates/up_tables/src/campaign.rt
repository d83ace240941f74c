//! The rows of campaigns.

ghost use Rattle.std.specs.Prelude.{◌∷◌, ℕ, List, [], map};
ghost use Rattle.std.specs.List.{AllByRecursion};
ghost use Rattle.sqlite.specs.declared.types.Value.TheVariants.{Text};
ghost use Rattle.up_tables.specs.Texts.{insert_campaign_text, close_campaign_text, find_campaign_text, running_campaigns_text};
ghost use Rattle.up_tables.specs.Tables.{campaign_table};
ghost use Rattle.up_tables.specs.Rows.{columns_at, with_row};
ghost use Rattle.up_tables.specs.Forms.{campaign_places, campaign_row, running_shown};
ghost use Rattle.up_tables.specs.Statements.{AltersRows, ClosesCampaign, FindsAll, HoldsBy};
ghost use Rattle.up_tables.specs.Stored.{AreLines, EachSays, IsFound, IsLine, IsQueried, IsTold, IsWritten, Tells};

use crate::reading::RowReading;
use crate::statement::{find_value, list_values, write};
use crate::values::{StoreFault, flag, words};
use sqlite::{Alter, Transaction};
use std::alloc::Global;

/// A row of `campaign`: its reach and its items as canonical JSON, and whether it runs.
#[derive(Drop)]
pub struct CampaignRow<'a> {
    pub name: &'a str,
    pub reach: &'a str,
    pub items: &'a str,
    pub running: bool,
}

/// Puts in the row of a campaign; `Store` where one has its name.
pub fn insert_campaign<S: Alter>(
    tx: &mut Transaction<'_, S>,
    campaign: &CampaignRow<'_>,
) -> Result<(), StoreFault>
    ensures { IsWritten S.Store insert_campaign_text (campaign_row campaign.now) (AltersRows campaign_table 1
        (with_row campaign.now.name.now (campaign_row campaign.now))) tx.old.conn tx.new.conn result }
{
    write(
        tx,
        "INSERT INTO campaign (name, reach, items, running) VALUES (?1, ?2, ?3, ?4)",
        &[
            words(campaign.name),
            words(campaign.reach),
            words(campaign.items),
            flag(campaign.running),
        ],
    )
}

/// Says in its row that a campaign that is there doesn't run.
pub fn close_campaign<S: Alter>(tx: &mut Transaction<'_, S>, name: &str) -> Result<(), StoreFault>
    ensures { IsWritten S.Store close_campaign_text (Text name.now ∷ []) (ClosesCampaign name.now)
        tx.old.conn tx.new.conn result }
{
    write(
        tx,
        "UPDATE campaign SET running = 0 WHERE name = ?1",
        &[words(name)],
    )
}

/// The campaign of this name, none where there is none.
pub fn campaign<S: Alter, R: RowReading>(
    tx: &mut Transaction<'_, S>,
    alloc: Global,
    name: &str,
) -> Result<Option<R::Item>, StoreFault>
    ensures { IsFound S.Store find_campaign_text (Text name.now ∷ []) campaign_table 1
        (λ rows_of. map (columns_at campaign_places) (rows_of name.now)) (IsTold R.says R.fits R.line)
        (AreLines R.fits R.line) tx.old.conn tx.new.conn result }
{
    find_value::<S, R>(
        tx,
        alloc,
        "SELECT name, reach, items, running FROM campaign WHERE name = ?1",
        &[words(name)],
    )
}

/// The campaigns that run, in the order of the table.
pub fn running_campaigns<S: Alter, R: RowReading>(
    tx: &mut Transaction<'_, S>,
    alloc: Global,
) -> Result<Vec<R::Item>, StoreFault>
    ensures { IsQueried S.Store running_campaigns_text []
        (λ rows found. EachSays (Tells R.says R.fits R.line) rows found.items)
        (FindsAll campaign_table (λ all found. EachSays (Tells R.says R.fits R.line) (running_shown all) found.items))
        (HoldsBy campaign_table 1 (λ rows_of. (name : List ℕ) → AllByRecursion (IsLine R.fits R.line)
        (running_shown (rows_of name)))) tx.old.conn tx.new.conn result }
{
    list_values::<S, R>(
        tx,
        alloc,
        "SELECT name, reach, items, running FROM campaign WHERE running = 1 ORDER BY rowid",
        &[],
    )
}
