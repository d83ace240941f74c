//! Campaigns, as rows spell them: `NAME REACH ITEMS STATE`. A reach is `*` or vehicles, an item `HARDWARE:FILE`, and the state `runs`
//! or `closed`.
use crate::store::fault::Fault;
use crate::store::words::{
    file_name, ident, idents, push_idents, push_item, push_list, push_part, push_word, word,
};
use std::alloc::{AllocError, Global};
use up_canon::listed::Listed;
use up_plan::campaign::{Campaign, Item, Reach};

pub(crate) fn campaign(alloc: Global, given: &str) -> Result<Campaign, Fault> {
    let made = Campaign::new(
        ident(alloc, word(given, 0))?,
        reach(alloc, word(given, 1))?,
        items(alloc, word(given, 2))?,
    );
    match made {
        Ok(campaign) => Ok(in_state(campaign, word(given, 3) == "runs")),
        Err(_) => Err(Fault::Misspelled),
    }
}

fn in_state(made: Campaign, running: bool) -> Campaign {
    let mut campaign = made;
    campaign.running = running;
    campaign
}

fn reach(alloc: Global, word: &str) -> Result<Reach, Fault> {
    match word {
        "*" => Ok(Reach::All),
        names => Ok(Reach::Named(Listed::new(idents(alloc, names)?))),
    }
}

fn items(alloc: Global, words: &str) -> Result<Vec<Item>, Fault> {
    let mut items = Vec::new(alloc);
    for word in words.split(',') {
        if let Some((hardware, file)) = word.split_once(':') {
            items.push(item(alloc, hardware, file)?)?;
        }
    }
    Ok(items)
}

fn item(alloc: Global, hardware: &str, file: &str) -> Result<Item, Fault> {
    Ok(Item {
        hardware: ident(alloc, hardware)?,
        file: file_name(alloc, file)?,
    })
}

/// Campaigns as they are told, with ` ; ` between.
pub(crate) fn campaigns_text(alloc: Global, campaigns: &[Campaign]) -> Result<String, AllocError> {
    let mut out = String::new(alloc);
    for campaign in campaigns {
        push_part(&mut out)?;
        push_campaign(alloc, &mut out, campaign)?;
    }
    Ok(out)
}

/// A campaign as it is told.
pub(crate) fn campaign_text(alloc: Global, campaign: &Campaign) -> Result<String, AllocError> {
    let mut out = String::new(alloc);
    push_campaign(alloc, &mut out, campaign)?;
    Ok(out)
}

fn push_campaign(alloc: Global, out: &mut String, campaign: &Campaign) -> Result<(), AllocError> {
    push_word(out, campaign.name.text())?;
    push_reach(alloc, out, &campaign.reach)?;
    push_items(alloc, out, campaign.items.as_slice())?;
    push_word(out, if campaign.running { "runs" } else { "closed" })
}

fn push_reach(alloc: Global, out: &mut String, reach: &Reach) -> Result<(), AllocError> {
    match reach {
        Reach::All => push_word(out, "*"),
        Reach::Named(vehicles) => push_idents(alloc, out, vehicles.as_slice()),
    }
}

fn push_items(alloc: Global, out: &mut String, items: &[Item]) -> Result<(), AllocError> {
    let mut list = String::new(alloc);
    for item in items {
        let (hardware, file) = (item.hardware.text(), item.file.text());
        let words = format!(in alloc; "{hardware}:{file}")?;
        push_item(&mut list, words.as_str())?;
    }
    push_list(out, list.as_str())
}
