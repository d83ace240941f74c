//! Whether a campaign that is opened is there already.
ghost use Rattle.std.specs.Prelude.{◌≡◌};
ghost use Rattle.std.specs.Cmp.Lexicographic.{pointwise};
ghost use Rattle.up_machine.specs.Inventory.{same_item as same_item_of, same_reach as same_reach_of, same_campaign as same_campaign_of};

use up_plan::campaign::{Campaign, Item, Reach};

/// Whether the campaign that stands is running and has the same name, vehicles and items, in the same order.
pub(crate) fn same_campaign(new: &Campaign, old: &Campaign) -> bool
    ensures { result ≡ same_campaign_of new.now old.now }
{
    old.running
        && new.name == old.name
        && same_reach(&new.reach, &old.reach)
        && same_items(new.items.as_slice(), old.items.as_slice())
}

fn same_reach(new: &Reach, old: &Reach) -> bool
    ensures { result ≡ same_reach_of new.now old.now }
{
    match (new, old) {
        (Reach::All, Reach::All) => true,
        (Reach::Named(vehicles), Reach::Named(others)) => vehicles.as_slice() == others.as_slice(),
        (Reach::All, Reach::Named(_)) => false,
        (Reach::Named(_), Reach::All) => false,
    }
}

fn same_items(new: &[Item], old: &[Item]) -> bool
    ensures { result ≡ pointwise same_item_of new.now old.now }
{
    match (new, old) {
        ([], []) => true,
        ([a, new @ ..], [b, old @ ..]) => same_item(a, b) && same_items(new, old),
        ([], [_, ..]) => false,
        ([_, ..], []) => false,
    }
}

fn same_item(new: &Item, old: &Item) -> bool
    ensures { result ≡ same_item_of new.now old.now }
{
    new.hardware == old.hardware && new.file == old.file
}
