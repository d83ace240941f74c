//! Decisions on campaigns.
ghost use Rattle.std.specs.Prelude.{◌≡◌, ◌≤◌, true, None, Some, Ok, Err, is_some, option_copied};
ghost use Rattle.std.specs.List.{list_all};
ghost use Rattle.std.specs.FinMap as table;
ghost use Rattle.up_canon.specs.Moments.{last_command_moment};
ghost use Rattle.up_canon.specs.declared.refusal.Refusal.TheVariants.{Memory};
ghost use Rattle.up_plan.specs.Campaigns.{CampaignData};
ghost use Rattle.up_plan.specs.Planning.{is_for as is_for_hardware};
ghost use Rattle.up_machine.specs.State.{State};
ghost use Rattle.up_machine.specs.Rows.{founding_row};
ghost use Rattle.up_machine.specs.Inventory.{decide_new_campaign, decide_open as decide_open_in, decide_close as decide_close_in, with_campaign};
ghost use Rattle.up_machine.specs.Decisions.{GivesDecision, GivesClosed, Knows, finds_image, finds_hardware, check_campaign};

use crate::decision::Decision;
use crate::founded::check_founded;
use crate::same_campaign::same_campaign;
use std::alloc::Global;
use up_canon::ident::Ident;
use up_canon::listed::Duplicate;
use up_canon::moment::Moment;
use up_canon::refusal::Refusal;
use up_canon::table::Table;
use up_plan::campaign::{Campaign, Item};
use up_plan::image::Image;

/// Decides on opening a campaign, at a command's moment: `NotFounded`; `Already` where an equal one is running;
/// `CampaignTaken` where another one, or a closed one, has its name; `UnknownVehicle`, `UnknownImage`, `WrongHardware`;
/// `Memory`. For each vehicle that the campaign names, in order, it is told whether the inventory has it, and of the images
/// only those that the campaign names are read.
#[tactic(auto, unfolding(crate::specs::Inventory::decide_open, up_canon::specs::Steps::and_then))]
pub fn decide_open(
    alloc: Global,
    at: Moment,
    campaign: &Campaign,
    is_founded: bool,
    old: Option<&Campaign>,
    known: &[bool],
    images: &Table<Image>,
) -> Result<Decision<Campaign>, Refusal>
    requires { at ≤ last_command_moment }
    ensures memory { result ≡ Err Memory → (is_founded ≡ true) × (option_copied old.entry ≡ None)
        × (check_campaign known.now images.now campaign.now ≡ Ok tt) }
    ensures decided { (s : State) → is_founded ≡ is_some (founding_row s)
        → option_copied old.entry ≡ table.get s.campaigns campaign.now.name
        → Knows s campaign.now known.now images.now
        → GivesDecision
        (λ row. row ≡ campaign.now) s (with_campaign s campaign.now) result (decide_open_in s at campaign.now) }
{
    check_founded(is_founded)?;
    match old {
        Some(old) => {
            if same_campaign(campaign, old) {
                Ok(Decision::Already)
            } else {
                Err(Refusal::CampaignTaken)
            }
        }
        None => decide_new(alloc, campaign, known, images),
    }
}

/// Decides on opening a campaign of a name that none has.
fn decide_new(
    alloc: Global,
    campaign: &Campaign,
    known: &[bool],
    images: &Table<Image>,
) -> Result<Decision<Campaign>, Refusal>
    ensures memory { result ≡ Err Memory → check_campaign known.now images.now campaign.now ≡ Ok tt }
    ensures decided { (s : State) → Knows s campaign.now known.now images.now
        → GivesDecision
        (λ row. row ≡ campaign.now) s (with_campaign s campaign.now) result (decide_new_campaign s campaign.now) }
{
    check_new(campaign, known, images)?;
    Ok(Decision::New(campaign.copy(alloc)?))
}

/// Tests that the vehicles and images that the campaign names are there, and each image for its item's hardware.
#[tactic(auto, unfolding(crate::specs::Decisions::check_campaign, up_canon::specs::Steps::and_then))]
fn check_new(campaign: &Campaign, known: &[bool], images: &Table<Image>) -> Result<(), Refusal>
    ensures { result ≡ check_campaign known.now images.now campaign.now }
{
    if !are_known(known) {
        return Err(Refusal::UnknownVehicle);
    }
    let items = campaign.items.as_slice();
    if !has_images(images, items) {
        return Err(Refusal::UnknownImage);
    }
    if !has_hardwares(images, items) {
        return Err(Refusal::WrongHardware);
    }
    Ok(())
}

fn are_known(known: &[bool]) -> bool
    ensures { result ≡ list_all (λ is_known. is_known) known.now }
{
    known.iter().all(|is_known| *is_known)
}

fn has_images(images: &Table<Image>, items: &[Item]) -> bool
    ensures { result ≡ list_all (finds_image images.now) items.now }
{
    items.iter().all(|item| has_image(images, item))
}

/// Whether each item's image is for its hardware.
fn has_hardwares(images: &Table<Image>, items: &[Item]) -> bool
    ensures { result ≡ list_all (finds_hardware images.now) items.now }
{
    items.iter().all(|item| has_hardware(images, item))
}

fn has_image(images: &Table<Image>, item: &Item) -> bool
    ensures { result ≡ finds_image images.now item.now }
{
    images.contains(item.file.text())
}

fn has_hardware(images: &Table<Image>, item: &Item) -> bool
    ensures { result ≡ finds_hardware images.now item.now }
{
    match images.get(item.file.text()) {
        Some(image) => is_for(image, &item.hardware),
        None => false,
    }
}

fn is_for(image: &Image, hardware: &Ident) -> bool
    ensures { result ≡ is_for_hardware hardware.now image.now }
{
    image
        .hardware
        .as_slice()
        .iter()
        .any(|other| *hardware == *other)
}

/// Decides on closing a campaign, at a command's moment: `NotFounded`; `UnknownCampaign`; `Already` where it is closed;
/// `Memory`.
#[tactic(auto, unfolding(crate::specs::Inventory::decide_close, up_canon::specs::Steps::and_then))]
pub fn decide_close(
    alloc: Global,
    at: Moment,
    name: &Ident,
    is_founded: bool,
    campaign: Option<&Campaign>,
) -> Result<Decision<Campaign>, Refusal>
    requires { at ≤ last_command_moment }
    ensures memory { result ≡ Err Memory
        → (is_founded ≡ true) × ((c : CampaignData) × (option_copied campaign.entry ≡ Some c) × (c.running ≡ true)) }
    ensures decided { (s : State) → is_founded ≡ is_some (founding_row s)
        → option_copied campaign.entry ≡ table.get s.campaigns name.now
        → GivesClosed s name.now result (decide_close_in s at name.now) }
{
    check_founded(is_founded)?;
    let Some(campaign) = campaign else {
        return Err(Refusal::UnknownCampaign);
    };
    if !campaign.running {
        return Ok(Decision::Already);
    }
    let mut closed = campaign.copy(alloc)?;
    closed.running = false;
    Ok(Decision::New(closed))
}
