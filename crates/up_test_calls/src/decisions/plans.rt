//! What is planned over, and the plan for the vehicle V2, from copies too.
use crate::decisions::fitted::fitted;
use crate::decisions::lines::in_full;
use crate::decisions::plan_texts::{campaign_text, image_text, plan_text};
use crate::decisions::refused::unread;
use std::alloc::{AllocError, Global};
use up_canon::ident::Ident;
use up_canon::listed::Duplicate;
use up_machine::command::Command;
use up_plan::assigned::Fitted;
use up_plan::campaign::Campaign;
use up_plan::image::Image;
use up_plan::plan::plan;
use up_script::asked::{What, asked_by};
use up_sign::scheme::Scheme;

/// Images and campaigns in the order in which they were given.
#[derive(Drop)]
pub(crate) struct Planned {
    images: Vec<Image>,
    campaigns: Vec<Campaign>,
}

impl Planned {
    /// Without images and campaigns.
    pub(crate) fn new(alloc: Global) -> Planned {
        Planned {
            images: Vec::new(alloc),
            campaigns: Vec::new(alloc),
        }
    }
}

/// The plan, or what was kept of a line.
pub(crate) fn planned_answer<K: Scheme>(
    alloc: Global,
    scheme: &K,
    planned: &mut Planned,
    given: &str,
) -> Result<String, AllocError> {
    match given.split_once(' ') {
        Some(("plan", ecus)) => planned_for(alloc, planned, ecus),
        Some(("without", "campaigns")) => without_campaigns(alloc, planned),
        _ => kept_line(alloc, scheme, planned, given),
    }
}

fn without_campaigns(alloc: Global, planned: &mut Planned) -> Result<String, AllocError> {
    planned.campaigns.clear();
    "none".to_string(alloc)
}

fn kept_line<K: Scheme>(
    alloc: Global,
    scheme: &K,
    planned: &mut Planned,
    line: &str,
) -> Result<String, AllocError> {
    let line = in_full(alloc, scheme, line)?;
    match asked_by(alloc, scheme, line.as_str().as_bytes()) {
        Ok(asked) => kept_what(alloc, planned, asked.what),
        Err(refusal) => unread(alloc, refusal),
    }
}

fn kept_what(alloc: Global, planned: &mut Planned, what: What) -> Result<String, AllocError> {
    match what {
        What::Call(Command::AddImage(image)) => kept_image(alloc, planned, image),
        What::Call(Command::OpenCampaign(campaign)) => kept_campaign(alloc, planned, campaign),
        What::Call(Command::CloseCampaign(name)) => closed(alloc, planned, &name),
        _ => "no part of a plan".to_string(alloc),
    }
}

fn kept_image(alloc: Global, planned: &mut Planned, image: Image) -> Result<String, AllocError> {
    let text = image_text(alloc, &image);
    planned.images.push(image)?;
    text
}

fn kept_campaign(
    alloc: Global,
    planned: &mut Planned,
    campaign: Campaign,
) -> Result<String, AllocError> {
    let text = campaign_text(alloc, &campaign);
    planned.campaigns.push(campaign)?;
    text
}

fn closed(alloc: Global, planned: &mut Planned, name: &Ident) -> Result<String, AllocError> {
    match planned.campaigns.last_mut() {
        Some(campaign) => closed_if_named(alloc, campaign, name),
        None => "no campaign".to_string(alloc),
    }
}

/// Closes the last campaign, where that is its name.
fn closed_if_named(
    alloc: Global,
    campaign: &mut Campaign,
    name: &Ident,
) -> Result<String, AllocError> {
    if campaign.name != *name {
        return "not the last campaign".to_string(alloc);
    }
    campaign.running = false;
    campaign_text(alloc, campaign)
}

fn planned_for(alloc: Global, planned: &Planned, ecus: &str) -> Result<String, AllocError> {
    match fitted(alloc, ecus)? {
        Some(ecus) => both_plans(alloc, planned, ecus.as_slice()),
        None => "no ECUs".to_string(alloc),
    }
}

/// The plan, and that of copies where it is another.
fn both_plans(alloc: Global, planned: &Planned, ecus: &[Fitted]) -> Result<String, AllocError> {
    let (images, campaigns) = (planned.images.as_slice(), planned.campaigns.as_slice());
    let own = told_plan(alloc, images, campaigns, ecus)?;
    let copied = plan_of_copies(alloc, images, campaigns, ecus)?;
    if own.as_str() == copied.as_str() {
        Ok(own)
    } else {
        format!(in alloc; "{own}, of copies {copied}")
    }
}

fn plan_of_copies(
    alloc: Global,
    images: &[Image],
    campaigns: &[Campaign],
    ecus: &[Fitted],
) -> Result<String, AllocError> {
    let images = copies(alloc, images)?;
    plan_of_other_copies(alloc, images.as_slice(), campaigns, ecus)
}

fn plan_of_other_copies(
    alloc: Global,
    images: &[Image],
    campaigns: &[Campaign],
    ecus: &[Fitted],
) -> Result<String, AllocError> {
    let campaigns = copies(alloc, campaigns)?;
    match copies(alloc, ecus) {
        Ok(ecus) => told_plan(alloc, images, campaigns.as_slice(), ecus.as_slice()),
        Err(refused) => Err(refused),
    }
}

fn copies<T: Duplicate + Drop>(alloc: Global, items: &[T]) -> Result<Vec<T>, AllocError> {
    let mut copied = Vec::new(alloc);
    for item in items {
        copied.push(item.copy(alloc)?)?;
    }
    Ok(copied)
}

/// A copy of the plan, as text.
fn told_plan(
    alloc: Global,
    images: &[Image],
    campaigns: &[Campaign],
    ecus: &[Fitted],
) -> Result<String, AllocError> {
    let Some(vehicle) = Ident::new("V2".to_string(alloc)?) else {
        return "no vehicle".to_string(alloc);
    };
    match plan(alloc, images, campaigns, &vehicle, ecus) {
        Ok(plan) => plan_text(alloc, &plan.copy(alloc)?),
        Err(refused) => Err(refused),
    }
}
