//! Campaigns.
ghost use Rattle.std.specs.Prelude.{◌≡◌, map};
ghost use Rattle.std.specs.FinMap as table;
ghost use Rattle.up_sign.specs.Schemes.{Rules};
ghost use Rattle.up_machine.specs.Inventory.{decide_open as decide_open_in, decide_close as decide_close_in};
ghost use Rattle.up_machine.specs.Decisions.{named_in};
ghost use Rattle.up_desk.specs.Carrying.{CarriesIn};
ghost use Rattle.up_desk.specs.Deciding.{DecidesClose, DecidesOpen};
ghost use Rattle.up_desk.specs.Gathered.{AreOpeningRows};
ghost use Rattle.up_records.specs.Sessions.{FindsIn};

use crate::carried::{Carried, put_of};
use crate::command_moment::CommandMoment;
use crate::images::images_of;
use sqlite::{Alter, Transaction};
use std::alloc::Global;
use up_canon::ident::Ident;
use up_canon::refusal::Refusal;
use up_canon::table::Table;
use up_machine::answer::Answer;
use up_machine::decide_campaign::{decide_close, decide_open};
use up_machine::decision::Decision;
use up_plan::campaign::{Campaign, Reach};
use up_plan::image::Image;
use up_records::catalog::{Catalog, forget};
use up_records::faults::refusal_of;
use up_records::session::is_known;
use up_rows::laws::campaigns_are_written;
use up_store::campaigns::{find_campaign, put_campaign, put_closed};
use up_store::roots::find_whether_founded;
use up_store::store::StoreFault;

/// The rows that the rule of opening a campaign reads.
#[derive(Drop)]
pub struct OpeningRows {
    pub founded: bool,
    pub old: Option<Campaign>,
    pub known: Vec<bool>,
    pub images: Table<Image>,
}

/// Opens a campaign.
pub fn open<D: Alter>(
    tx: &mut Transaction<'_, D>,
    catalog: &mut Option<Catalog>,
    alloc: Global,
    at: CommandMoment,
    campaign: &Campaign,
) -> Result<Carried, Refusal>
    ensures { (k : Rules) → CarriesIn D.Store k (λ s. decide_open_in s at campaign.now)
        tx.old.conn tx.new.conn catalog.old catalog.new result }
{
    campaigns_are_written();
    match decide_opening(tx, alloc, at, campaign) {
        Ok(Decision::Already) => Ok(Carried::Unchanged(Answer::Already)),
        Ok(Decision::New(row)) => {
            forget(catalog); // its campaigns lack the new one
            put_of(Answer::Done, put_campaign(tx, alloc, &row))
        }
        Err(refusal) => Err(refusal),
    }
}

/// Decides on opening a campaign, over the rows that are read.
fn decide_opening<D: Alter>(
    tx: &mut Transaction<'_, D>,
    alloc: Global,
    at: CommandMoment,
    campaign: &Campaign,
) -> Result<Decision<Campaign>, Refusal>
    ensures { (k : Rules) → DecidesOpen D.Store k at campaign.now tx.old.conn tx.new.conn result }
{
    match read_opening(tx, alloc, campaign) {
        Ok(rows) => decide_open(
            alloc,
            at.moment(),
            campaign,
            rows.founded,
            rows.old.as_ref(),
            rows.known.as_slice(),
            &rows.images,
        ),
        Err(fault) => Err(refusal_of(fault)),
    }
}

/// Reads the rows of the rule, in the order in which its refusals need them.
fn read_opening<D: Alter>(
    tx: &mut Transaction<'_, D>,
    alloc: Global,
    campaign: &Campaign,
) -> Result<OpeningRows, StoreFault>
    ensures { FindsIn D.Store (λ _ s rows. AreOpeningRows s campaign.now rows) tx.old.conn tx.new.conn result }
{
    let founded = find_whether_founded(tx, alloc)?;
    let old = find_campaign(tx, alloc, &campaign.name)?;
    let known = known_vehicles(tx, alloc, &campaign.reach)?;
    let images = images_of(tx, alloc, campaign.items.as_slice())?;
    Ok(OpeningRows {
        founded,
        old,
        known,
        images,
    })
}

/// Marks for each vehicle that a campaign names whether it is in the inventory.
fn known_vehicles<D: Alter>(
    tx: &mut Transaction<'_, D>,
    alloc: Global,
    reach: &Reach,
) -> Result<Vec<bool>, StoreFault>
    ensures { FindsIn D.Store (λ _ s known. known.items ≡ map (table.contains_key s.vehicles) (named_in reach.now))
        tx.old.conn tx.new.conn result }
{
    let names = names_in(reach);
    let mut known = Vec::with_capacity(alloc, names.len())?;
    for name in names {
        match is_known(tx, alloc, name) {
            Ok(is_known) => known.push(is_known)?,
            Err(fault) => return Err(fault),
        }
    }
    Ok(known)
}

fn names_in(reach: &Reach) -> &[Ident]
    ensures { result.now ≡ named_in reach.now }
{
    match reach {
        Reach::All => &[],
        Reach::Named(names) => names.as_slice(),
    }
}

/// Closes the campaign of this name.
pub fn close<D: Alter>(
    tx: &mut Transaction<'_, D>,
    catalog: &mut Option<Catalog>,
    alloc: Global,
    at: CommandMoment,
    name: &Ident,
) -> Result<Carried, Refusal>
    ensures { (k : Rules) → CarriesIn D.Store k (λ s. decide_close_in s at name.now)
        tx.old.conn tx.new.conn catalog.old catalog.new result }
{
    campaigns_are_written();
    match decide_closing(tx, alloc, at, name) {
        Ok(Decision::Already) => Ok(Carried::Unchanged(Answer::Already)),
        Ok(Decision::New(row)) => {
            forget(catalog); // its campaigns have the closed one
            put_of(Answer::Done, put_closed(tx, &row))
        }
        Err(refusal) => Err(refusal),
    }
}

/// Decides on closing a campaign, over the rows that are read.
fn decide_closing<D: Alter>(
    tx: &mut Transaction<'_, D>,
    alloc: Global,
    at: CommandMoment,
    name: &Ident,
) -> Result<Decision<Campaign>, Refusal>
    ensures { (k : Rules) → DecidesClose D.Store k at name.now tx.old.conn tx.new.conn result }
{
    let founded = match find_whether_founded(tx, alloc) {
        Ok(founded) => founded,
        Err(fault) => return Err(refusal_of(fault)),
    };
    let campaign = match find_campaign(tx, alloc, name) {
        Ok(campaign) => campaign,
        Err(fault) => return Err(refusal_of(fault)),
    };
    decide_close(alloc, at.moment(), name, founded, campaign.as_ref())
}
