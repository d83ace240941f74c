//! Which images a vehicle gets.
ghost use Rattle.std.specs.Prelude.{◌≡◌, [], map, IfOk, IsOk};
ghost use Rattle.std.specs.FinMap as table;
ghost use Rattle.up_plan.specs.ByFile.{AreByFile, resulting_at};
ghost use Rattle.up_plan.specs.Planning.{plan_from, plan_of, resulting, updates as updates_of};

use crate::assigned::{Assigned, Fitted, Plan};
use crate::campaign::{Campaign, Item};
use crate::image::Image;
use crate::items::items_for;
use crate::resulting::{Resulting, resulting_over, resulting_set};
use crate::unmet::first_unmet;
use std::alloc::{AllocError, Global};
use up_canon::ident::Ident;
use up_canon::listed::{Duplicate, Listed};
use up_canon::table::Table;

/// The plan for a vehicle's ECUs, which are given in inventory order with the images that they report: each ECU's wanted
/// image where all needs and conflicts of the resulting set are met, else none and the first that isn't. Nothing is
/// assigned or withheld where no ECU has a wanted image.
#[tactic(auto, unfolding(crate::specs::Planning::plan_of))]
pub fn plan(
    alloc: Global,
    images: &[Image],
    campaigns: &[Campaign],
    vehicle: &Ident,
    fitted: &[Fitted],
) -> Result<Plan, AllocError>
    ensures { IfOk result (λ p. p ≡ plan_of images.now campaigns.now vehicle.now fitted.now) }
{
    let items = items_for(alloc, campaigns, vehicle)?;
    let set = resulting_set(alloc, images, items.as_slice(), fitted)?;
    plan_for(alloc, set.as_slice())
}

/// The plan for a vehicle's ECUs, which are given as `plan` takes them, by the items for the vehicle. Images are looked up by
/// their filenames, so that it costs by the items and the ECUs alone. It is the rule's plan where each image stands under its
/// own filename.
pub fn plan_over(
    alloc: Global,
    images: &Table<Image>,
    items: &[&Item],
    fitted: &[Fitted],
) -> Result<Plan, AllocError>
    ensures looked_up { IfOk result
        (λ p. p ≡ plan_from (resulting_at images.now (map (λ i. i.now) items.now) fitted.now)) }
    ensures planned { AreByFile images.now → IfOk result
        (λ p. p ≡ plan_from (resulting (table.values images.now) (map (λ i. i.now) items.now) fitted.now)) }
{
    let set = resulting_over(alloc, images, items, fitted)?;
    plan_for(alloc, set.as_slice())
}

fn plan_for(alloc: Global, set: &[Resulting]) -> Result<Plan, AllocError>
    ensures value { IfOk result (λ p. p ≡ plan_from set.now) }
    ensures none { updates_of set.now ≡ [] → IsOk result }
{
    let assigned = updates(alloc, set)?;
    if assigned.is_empty() {
        return Ok(Plan {
            assigned: Listed::new(assigned),
            withheld: None,
        });
    }
    match first_unmet(alloc, set)? {
        None => Ok(Plan {
            assigned: Listed::new(assigned),
            withheld: None,
        }),
        Some(cause) => Ok(Plan {
            assigned: Listed::new(Vec::new(alloc)),
            withheld: Some(cause),
        }),
    }
}

fn updates(alloc: Global, set: &[Resulting]) -> Result<Vec<Assigned>, AllocError>
    ensures value { IfOk result (λ assigned. assigned.items ≡ updates_of set.now) }
    ensures none { updates_of set.now ≡ [] → IsOk result }
{
    let mut assigned = Vec::new(alloc);
    for r in set {
        if r.updated {
            assigned.push(Assigned {
                ecu: r.ecu.copy(alloc)?,
                file: r.file.copy(alloc)?,
            })?;
        }
    }
    Ok(assigned)
}
