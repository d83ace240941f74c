//! The decision on a manifest that a vehicle delivers.
ghost use Rattle.std.specs.Prelude.{◌≡◌, ◌≤◌, ◌<◌, ℕ, true, map, Err, IfSome, IsTrue, is_some, option_copied};
ghost use Rattle.up_canon.specs.Moments.{last_command_moment};
ghost use Rattle.up_canon.specs.declared.refusal.Refusal.TheVariants.{Memory};
ghost use Rattle.up_sign.specs.Schemes.{Rules};
ghost use Rattle.up_metadata.specs.Keys.{hashed_roles as hashed_roles_of};
ghost use Rattle.up_machine.specs.RowsFit.{founding_fits, rows_fit};
ghost use Rattle.up_machine.specs.ManifestRows.{repeated as repeated_in};
ghost use Rattle.up_machine.specs.Rows.{kept_at};
ghost use Rattle.up_machine.specs.State.{State};
ghost use Rattle.up_machine.specs.Sound.{IsSound};
ghost use Rattle.up_machine.specs.Senders.{ArePlanned, CanAnswer, IsSenderOf, TakesMemory};
ghost use Rattle.up_machine.specs.Decisions.{IsRead, AreRowsFor, decide_incoming, GivesDelivered};

use crate::acceptance::accepted_rows;
use crate::decision::Delivered;
use crate::kept_reply::reply_of;
use crate::manifest_checks::check_reports;
use crate::rows::{Founding, Kept, VehicleRows};
use crate::sender::{Sender, decide_sender, is_later};
use std::alloc::Global;
use std::marker::Model;
use up_canon::moment::Moment;
use up_canon::refusal::Refusal;
use up_canon::table::Table;
use up_manifest::body_laws;
use up_manifest::manifest::Incoming;
use up_metadata::hashed_keys::{HashedRoleKeys, hashed_roles};
use up_plan::campaign::{Campaign, Item};
use up_plan::image::Image;
use up_plan::items::items_for;
use up_plan::laws::{offers_alone_count, other_images_change_nothing};
use up_sign::key_cache::KeyCache;
use up_sign::scheme::Scheme;

/// The rows that the decision on a manifest reads: the founding's, those of its vehicle, the one kept with its counter,
/// campaigns whose items for the vehicle are those of all campaigns (the ones that run and reach it, in the order of their
/// names, are enough), and of the images, each under its filename, those of the files that these items and the manifest's
/// reports name.
#[derive(Drop)]
pub struct DeliveryRows<'a> {
    pub founding: Option<&'a Founding>,
    pub vehicle: Option<&'a VehicleRows>,
    pub kept: Option<&'a Kept>,
    pub images: &'a Table<Image>,
    pub campaigns: &'a [Campaign],
}

impl<'a> Model for DeliveryRows<'a> {
    ghost use Rattle.std.specs.Prelude.{option_copied};
    ghost use Rattle.up_machine.specs.Decisions.{DeliveryData};

    ghost Value = { DeliveryData };

    ghost use Rattle.std.specs.Coded.{codes};
    ghost use Rattle.std.specs.FinMap as table;

    ghost coded = { Prim.hlevel (codes, table.code) };

    ghost view = { λ a. record {
      founding = option_copied a.founding;
      vehicle = option_copied a.vehicle;
      kept = option_copied a.kept;
      images = a.images.now;
      campaigns = a.campaigns.now;
    } };
}

/// Decides on a manifest, as it was read, at a command's moment: `NotFounded`; `UnknownVehicle`; `WrongPrimary`;
/// `BadManifestSignature`; then the kept reply where the vehicle has accepted the same canonical signed text, and else
/// `Stale` with the last counter, `UnknownEcu`, `DuplicateEcu`, `MissingEcu`, `BadReportSignature`, `ReportReplayed`;
/// `Memory`.
pub fn decide_manifest<K: Scheme>(
    alloc: Global,
    scheme: &K,
    at: Moment,
    incoming: &Incoming,
    rows: &DeliveryRows,
) -> Result<Delivered, Refusal>
    requires moment { at ≤ last_command_moment }
    requires read { IsRead incoming.now }
    requires keys { IfSome rows.now.founding (λ f. IsTrue (founding_fits (K.rules scheme.now) f)) }
    requires rows { IfSome rows.now.vehicle (λ v. IsTrue (rows_fit v)) }
    ensures memory { result ≡ Err Memory → TakesMemory (K.rules scheme.now) incoming.now rows.now }
    ensures decided { (s : State) → IsSound (K.rules scheme.now) s
        → AreRowsFor s incoming.now.manifest rows.now
        → GivesDelivered s incoming.now.manifest.vehicle result
        (decide_incoming (K.rules scheme.now) s at incoming.now) }
{
    let keys = KeyCache::new();
    let sender = decide_sender(scheme, incoming, rows.founding, rows.vehicle, &keys)?;
    if !is_later(incoming, &sender) {
        return decide_again(alloc, incoming, &sender, rows.kept);
    }
    let hashed = hashed_roles(alloc, scheme, &sender.founding.keys.director)?;
    let items = items_for(alloc, rows.campaigns, &incoming.manifest.vehicle)?;
    decide_new(
        alloc,
        scheme,
        at,
        incoming,
        &sender,
        &hashed,
        &keys,
        rows.images,
        items.as_slice(),
    )
}

/// Answers a manifest whose counter isn't above the last one, over the row that is kept with its counter: the kept reply where
/// the vehicle has accepted the same canonical signed text, and else `Stale` with the last counter; `Memory`.
pub fn decide_again(
    alloc: Global,
    incoming: &Incoming,
    sender: &Sender,
    kept: Option<&Kept>,
) -> Result<Delivered, Refusal>
    requires read { IsRead incoming.now }
    requires older { incoming.now.manifest.counter ≤ sender.now.vehicle.vehicle.last }
    ensures memory { result ≡ Err Memory → is_some (repeated_in incoming.now (option_copied kept.entry)) ≡ true }
    ensures decided { (k : Rules) (s : State) (at : ℕ) → at ≤ last_command_moment → IsSound k s
        → IsSenderOf k s incoming.now sender.now
        → option_copied kept.entry ≡ kept_at s incoming.now.manifest.vehicle incoming.now.manifest.counter
        → GivesDelivered s incoming.now.manifest.vehicle result (decide_incoming k s at incoming.now) }
{
    body_laws();
    match repeated(incoming, kept) {
        Some(row) => Ok(Delivered::Repeat(reply_of(alloc, row)?)),
        None => Err(Refusal::Stale(sender.vehicle.vehicle.last)),
    }
}

/// Decides on a manifest whose counter is above the last one, so that no row is kept with it: `UnknownEcu`, `DuplicateEcu`,
/// `MissingEcu`, `BadReportSignature`, `ReportReplayed`, and then what it changes, by the plan of this moment; `Memory`.
/// `hashed` has the keys of the Director's roles, and an ECU's key that isn't among `keys` is hashed. Images are looked up by the
/// files that the items and the reports name; the items may come in any order.
pub fn decide_new<K: Scheme>(
    alloc: Global,
    scheme: &K,
    at: Moment,
    incoming: &Incoming,
    sender: &Sender,
    hashed: &HashedRoleKeys,
    keys: &KeyCache,
    images: &Table<Image>,
    items: &[&Item],
) -> Result<Delivered, Refusal>
    requires moment { at ≤ last_command_moment }
    requires read { IsRead incoming.now }
    requires later { sender.now.vehicle.vehicle.last < incoming.now.manifest.counter }
    requires can { CanAnswer (K.rules scheme.now) sender.now }
    requires hashed { hashed.now ≡ hashed_roles_of (K.rules scheme.now) sender.now.founding.keys.director }
    ensures { (s : State) → IsSound (K.rules scheme.now) s → IsSenderOf (K.rules scheme.now) s incoming.now sender.now
        → ArePlanned s incoming.now.manifest images.now (map (λ i. i.now) items.now)
        → GivesDelivered s incoming.now.manifest.vehicle result
        (decide_incoming (K.rules scheme.now) s at incoming.now) }
{
    body_laws();
    other_images_change_nothing();
    offers_alone_count();
    let (founding, vehicle) = (sender.founding, sender.vehicle);
    check_reports(
        alloc,
        scheme,
        vehicle.ecus.as_slice(),
        keys,
        incoming.manifest.reports.as_slice(),
    )?;
    let accepted = accepted_rows(
        alloc, scheme, at, incoming, founding, hashed, vehicle, images, items,
    )?;
    Ok(Delivered::Accepted(accepted))
}

/// The kept row with the manifest's counter, where it has the manifest's signed text.
fn repeated<'a>(incoming: &Incoming, kept: Option<&'a Kept>) -> Option<&'a Kept>
    ensures { option_copied result ≡ repeated_in incoming.now (option_copied kept.entry) }
{
    match kept {
        Some(row) if row.signed == incoming.envelope.signed => Some(row),
        _ => None,
    }
}
