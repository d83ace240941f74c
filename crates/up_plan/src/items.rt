//! Items of campaigns for a vehicle.
ghost use Rattle.std.specs.Prelude.{◌≡◌, ◌++◌, [], map, IfOk, IsOk};
ghost use Rattle.up_plan.specs.Planning.{items_for as items_of};

use crate::campaign::{Campaign, Item};
use std::alloc::{AllocError, Global};
use up_canon::ident::Ident;

/// The items of running campaigns that reach the vehicle.
pub fn items_for<'a>(
    alloc: Global,
    campaigns: &'a [Campaign],
    vehicle: &Ident,
) -> Result<Vec<&'a Item>, AllocError>
    ensures value { IfOk result (λ items. map (λ i. i.now) items.items ≡ items_of campaigns.now vehicle.now) }
    ensures none { items_of campaigns.now vehicle.now ≡ [] → IsOk result }
{
    let mut items = Vec::new(alloc);
    for campaign in campaigns {
        if campaign.running && campaign.reach.reaches(vehicle) {
            push_items(&mut items, campaign.items.as_slice())?;
        }
    }
    Ok(items)
}

pub(crate) fn push_items<'a>(items: &mut Vec<&'a Item>, more: &'a [Item]) -> Result<(), AllocError>
    ensures value { IfOk result (λ _. map (λ i. i.now) items.new.items ≡ map (λ i. i.now) items.old.items ++ more.now) }
    ensures none { more.now ≡ [] → IsOk result }
{
    for item in more {
        items.push(item)?;
    }
    Ok(())
}
