//! Running campaigns, looked up by vehicle.
ghost use Rattle.std.specs.Prelude.{◌≡◌, ◌+◌, ◌^◌, ◌<◌, ◌≤◌, ◌++◌, ◌&&◌, ◌||◌, Bool, List, bytes_eq, count_by, filter, flat_map, length, map, slice_get, vec_capacity, vec_len, Some, SomeIff, IfOk, IsOk, []};
ghost use Rattle.std.specs.FinMap as table;
ghost use Rattle.std.specs.List.{list_any, sum_by};
ghost use Rattle.std.specs.Ordering.{is_lt, nat_cmp};
ghost use Rattle.std.specs.Cmp.Lexicographic.{slice_cmp};
ghost use Rattle.up_canon.specs.Names.{Name};
ghost use Rattle.up_plan.specs.Campaigns.{CampaignData};
ghost use Rattle.up_plan.specs.Named.{vehicles_named};
ghost use Rattle.up_plan.specs.Offers.{OffersSame};
ghost use Rattle.up_plan.specs.Planning.{items_for as items_of};
ghost use Rattle.up_plan.specs.Running.{AreForAll, AreInOrder, AreNamed, items_at, name_at as name_at_place, name_in as name_in_reach, passes_named, reaches_all as reaches_all_of, reaches_by_name};

use crate::campaign::{Campaign, Item, Reach};
use crate::items::push_items;
use std::alloc::{AllocError, Global};
use std::cmp::Ordering;
use std::marker::Model;
use up_canon::ident::Ident;
use up_canon::table::Table;

/// Campaigns by name. Those that run and reach a vehicle are found without a look at the others: a look-up costs by them, and
/// by the logarithm of the number of names of vehicles. Beside the campaigns this keeps 8 bytes for each that runs for all
/// vehicles, and 16 bytes for each name of a vehicle in the others that run. It copies no name, and has nothing of its own for
/// a vehicle.
#[derive(Drop)]
pub struct Running {
    campaigns: Table<Campaign>,
    for_all: Vec<usize>,
    names: Vec<NameAt>,
}

/// Where a vehicle's name stands: the place of its campaign among all, and its own place among the names of that campaign.
#[derive(Clone, Copy)]
pub(crate) struct NameAt {
    pub(crate) campaign: usize,
    pub(crate) name: usize,
}

impl Model for Running {
    ghost use Rattle.std.specs.Ordering.{nat_cmp};
    ghost use Rattle.std.specs.FinMap as table;
    ghost use Rattle.std.specs.Cmp.Lexicographic.{slice_cmp};
    ghost use Rattle.up_plan.specs.Campaigns.{CampaignData};

    ghost Value = { table.FinMap (slice_cmp nat_cmp) CampaignData };

    ghost use Rattle.std.specs.Coded.{codes};

    ghost coded = { Prim.hlevel (codes, table.code) };

    ghost use Rattle.up_plan.specs.Running.{AreFound};

    ghost view = { λ a. a.campaigns };

    ghost invariant = { λ a. AreFound (table.values a.campaigns) a.for_all.items a.names.items };
}

impl Running {
    /// The campaigns, made ready for look-ups: this costs by the number of campaigns and names, times the logarithm of the
    /// latter.
    pub fn new(alloc: Global, campaigns: Table<Campaign>) -> Result<Running, AllocError>
        ensures value { IfOk result (λ running. running ≡ campaigns) }
        ensures none { count_by reaches_all_of (table.values campaigns) ≡ 0
            → sum_by (λ c. length (vehicles_named c)) (table.values campaigns) ≡ 0
            → IsOk result }
    {
        let for_all = places_for_all(alloc, campaigns.values())?;
        let names = names_in_order(alloc, campaigns.values())?;
        Ok(Running {
            campaigns,
            for_all,
            names,
        })
    }

    /// Items that offer what those of the running campaigns that reach the vehicle offer. They may stand in another order, and
    /// some of them twice.
    pub fn items_for<'a>(
        &'a self,
        alloc: Global,
        vehicle: &Ident,
    ) -> Result<Vec<&'a Item>, AllocError>
        ensures value { IfOk result
            (λ items. OffersSame (map (λ i. i.now) items.items) (items_of (table.values self.now) vehicle.now)) }
        ensures none { items_of (table.values self.now) vehicle.now ≡ [] → IsOk result }
    {
        let campaigns = self.campaigns.values();
        let mut items = Vec::new(alloc);
        push_for_all(&mut items, campaigns, self.for_all.as_slice())?;
        let named = names_like(campaigns, self.names.as_slice(), vehicle);
        push_named(&mut items, campaigns, named)?;
        Ok(items)
    }
}

// ---- what is kept

/// The places of the running campaigns for all vehicles.
fn places_for_all(alloc: Global, campaigns: &[Campaign]) -> Result<Vec<usize>, AllocError>
    ensures value { IfOk result (λ places. AreForAll campaigns.now places.items) }
    ensures none { count_by reaches_all_of campaigns.now ≡ 0 → IsOk result }
{
    let count = campaigns
        .iter()
        .filter(|campaign| reaches_all(campaign))
        .count();
    let mut places = Vec::with_capacity(alloc, count)?;
    for (place, campaign) in campaigns.iter().enumerate() {
        if reaches_all(campaign) {
            places.push(place).unwrap();
        }
    }
    Ok(places)
}

fn reaches_all(campaign: &Campaign) -> bool
    ensures { result ≡ reaches_all_of campaign.now }
{
    match campaign.reach {
        Reach::All => campaign.running,
        Reach::Named(_) => false,
    }
}

/// The names in the other running campaigns, in byte order.
fn names_in_order(alloc: Global, campaigns: &[Campaign]) -> Result<Vec<NameAt>, AllocError>
    ensures value { IfOk result (λ names. AreNamed campaigns.now names.items × AreInOrder campaigns.now names.items) }
    ensures none { sum_by (λ c. length (vehicles_named c)) campaigns.now ≡ 0 → IsOk result }
{
    let mut names = names_of(alloc, campaigns)?;
    names.sort_unstable_by(
        |a: &NameAt, b: &NameAt| -> Ordering
            ensures { result ≡ slice_cmp nat_cmp (name_at_place campaigns.entry.now a.now)
                (name_at_place campaigns.entry.now b.now) }
        { name_at(campaigns, a).cmp(name_at(campaigns, b)) },
    );
    Ok(names)
}

fn names_of(alloc: Global, campaigns: &[Campaign]) -> Result<Vec<NameAt>, AllocError>
    ensures value { IfOk result (λ names. AreNamed campaigns.now names.items) }
    ensures none { sum_by (λ c. length (vehicles_named c)) campaigns.now ≡ 0 → IsOk result }
{
    let count = count_names(campaigns).ok_or(AllocError)?;
    let mut names = Vec::with_capacity(alloc, count)?;
    for (place, campaign) in campaigns.iter().enumerate() {
        push_names(&mut names, place, campaign);
    }
    Ok(names)
}

/// How many names that are, where a `usize` holds the number.
fn count_names(campaigns: &[Campaign]) -> Option<usize>
    ensures { let count = sum_by (λ c. length (vehicles_named c)) campaigns.now in
        SomeIff result (count < 2 ^ 64) count }
{
    let mut count: usize = 0;
    for campaign in campaigns {
        count = count.checked_add(vehicles_of(campaign).len())?;
    }
    Some(count)
}

/// Adds the names of the campaign at the place, for which there is room.
fn push_names(names: &mut Vec<NameAt>, place: usize, campaign: &Campaign)
    requires room { vec_len names.old + length (vehicles_named campaign.now) ≤ vec_capacity names.old }
    ensures found { (campaigns : List CampaignData) (vehicle : Name) (test : CampaignData → Bool)
        → slice_get campaigns place ≡ Some campaign.now
        → list_any (passes_named campaigns vehicle test) names.new.items
        ≡ (list_any (passes_named campaigns vehicle test) names.old.items
        || (reaches_by_name vehicle campaign.now && test campaign.now)) }
    ensures len { vec_len names.new ≡ vec_len names.old + length (vehicles_named campaign.now) }
    ensures capacity { vec_capacity names.old ≤ vec_capacity names.new }
{
    for name in 0..vehicles_of(campaign).len() {
        let at = NameAt {
            campaign: place,
            name,
        };
        names.push(at).unwrap();
    }
}

/// The vehicles that the campaign names, none where it doesn't run.
fn vehicles_of(campaign: &Campaign) -> &[Ident]
    ensures { result.now ≡ vehicles_named campaign.now }
{
    match &campaign.reach {
        Reach::Named(vehicles) if campaign.running => vehicles.as_slice(),
        _ => &[],
    }
}

/// The name of a vehicle, empty where there is none.
fn name_at<'a>(campaigns: &'a [Campaign], at: &NameAt) -> &'a str
    ensures { result.now ≡ name_at_place campaigns.now at.now }
{
    match campaigns.get(at.campaign) {
        Some(campaign) => name_in(&campaign.reach, at.name),
        None => "",
    }
}

fn name_in(reach: &Reach, place: usize) -> &str
    ensures { result.now ≡ name_in_reach reach.now place }
{
    match reach {
        Reach::Named(vehicles) => match vehicles.as_slice().get(place) {
            Some(vehicle) => vehicle.text(),
            None => "",
        },
        Reach::All => "",
    }
}

// ---- a look-up

/// The names that are the vehicle's, of names in byte order.
fn names_like<'a>(campaigns: &[Campaign], names: &'a [NameAt], vehicle: &Ident) -> &'a [NameAt]
    requires { AreInOrder campaigns.now names.now }
    ensures { result.now ≡ filter (λ at. bytes_eq vehicle.now (name_at_place campaigns.now at)) names.now }
{
    let text = vehicle.text();
    let first = names.partition_point(
        |at: &NameAt| -> bool
            ensures { result ≡ is_lt (slice_cmp nat_cmp (name_at_place campaigns.entry.now at.now) text.entry.now) }
        { name_at(campaigns, at) < text },
    );
    let rest = &names[first..];
    let count = rest.partition_point(
        |at: &NameAt| -> bool
            ensures { result ≡ bytes_eq text.entry.now (name_at_place campaigns.entry.now at.now) }
        { text == name_at(campaigns, at) },
    );
    &rest[..count]
}

fn push_for_all<'a>(
    items: &mut Vec<&'a Item>,
    campaigns: &'a [Campaign],
    places: &[usize],
) -> Result<(), AllocError>
    ensures value { IfOk result (λ _. map (λ i. i.now) items.new.items ≡ map (λ i. i.now) items.old.items
        ++ flat_map (items_at campaigns.now) places.now) }
    ensures none { flat_map (items_at campaigns.now) places.now ≡ [] → IsOk result }
{
    for place in places {
        push_at(items, campaigns, *place)?;
    }
    Ok(())
}

fn push_named<'a>(
    items: &mut Vec<&'a Item>,
    campaigns: &'a [Campaign],
    names: &[NameAt],
) -> Result<(), AllocError>
    ensures value { IfOk result (λ _. map (λ i. i.now) items.new.items ≡ map (λ i. i.now) items.old.items ++ flat_map
        (λ at. items_at campaigns.now at.campaign) names.now) }
    ensures none { flat_map (λ at. items_at campaigns.now at.campaign) names.now ≡ [] → IsOk result }
{
    for at in names {
        push_at(items, campaigns, at.campaign)?;
    }
    Ok(())
}

fn push_at<'a>(
    items: &mut Vec<&'a Item>,
    campaigns: &'a [Campaign],
    place: usize,
) -> Result<(), AllocError>
    ensures value { IfOk result
        (λ _. map (λ i. i.now) items.new.items ≡ map (λ i. i.now) items.old.items ++ items_at campaigns.now place) }
    ensures none { items_at campaigns.now place ≡ [] → IsOk result }
{
    match campaigns.get(place) {
        Some(campaign) => push_items(items, campaign.items.as_slice()),
        None => Ok(()),
    }
}
