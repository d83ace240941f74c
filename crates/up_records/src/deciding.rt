//! What is decided on a manifest.
ghost use Rattle.std.specs.Prelude.{◌≡◌, ◌≤◌, ◌<◌, IfSome};
ghost use Rattle.up_canon.specs.Moments.{last_command_moment};
ghost use Rattle.up_metadata.specs.Keys.{hashed_roles};
ghost use Rattle.up_machine.specs.Decisions.{GivesDelivered, IsRead, decide_incoming};
ghost use Rattle.up_machine.specs.Senders.{CanAnswer};
ghost use Rattle.up_machine.specs.Sound.{IsSound};
ghost use Rattle.up_machine.specs.State.{State};
ghost use Rattle.up_records.specs.Catalogs.{CanDecide, Fits, IsLoaded, IsOf};
ghost use Rattle.up_records.specs.Senders.{IsSent, KeepsOver, Leaves, LeavesIn};
ghost use Rattle.up_records.specs.Sessions.{DecidesIn};

use crate::catalog::{Catalog, load};
use crate::ecu_keys::keep_ecus;
use crate::faults::refusal_of;
use crate::senders::read_sender;
use sqlite::{Alter, Transaction};
use std::alloc::Global;
use up_canon::moment::Moment;
use up_canon::refusal::Refusal;
use up_machine::decide_manifest::{decide_again, decide_new};
use up_machine::decision::Delivered;
use up_machine::sender::{Sender, is_later};
use up_manifest::manifest::Incoming;
use up_rows::laws::rows_are_found;
use up_sign::key_cache::KeyCache;
use up_sign::scheme::Scheme;
use up_store::manifests::find_kept;

/// Decides on a manifest: who sent it, whether it was there before, and what is new. What every delivery needs is loaded where it
/// isn't kept, and kept whatever is answered. Of a manifest that the kept Primary of its vehicle didn't send nothing is read.
pub fn decide<K: Scheme, D: Alter>(
    tx: &mut Transaction<'_, D>,
    catalog: &mut Option<Catalog>,
    keys: &mut KeyCache,
    alloc: Global,
    scheme: &K,
    at: Moment,
    incoming: &Incoming,
) -> Result<Delivered, Refusal>
    requires given { (at ≤ last_command_moment) × IsRead incoming.now }
    requires can { IfSome catalog.old (CanDecide (K.rules scheme.now)) }
    ensures decided { DecidesIn D.Store (K.rules scheme.now) (λ s. Fits s catalog.old)
        (λ s. GivesDelivered s incoming.now.manifest.vehicle)
        (λ s. decide_incoming (K.rules scheme.now) s at incoming.now) tx.old.conn tx.new.conn result }
    ensures kept { KeepsOver D.Store (K.rules scheme.now) incoming.now
        catalog.old catalog.new tx.old.conn tx.new.conn result }
{
    match load(tx, catalog, alloc, scheme) {
        Ok(()) => decide_loaded(tx, catalog, keys, alloc, scheme, at, incoming),
        Err(fault) => Err(refusal_of(fault)),
    }
}

/// Decides on it once the catalog is loaded; there is none before founding.
fn decide_loaded<K: Scheme, D: Alter>(
    tx: &mut Transaction<'_, D>,
    catalog: &mut Option<Catalog>,
    keys: &mut KeyCache,
    alloc: Global,
    scheme: &K,
    at: Moment,
    incoming: &Incoming,
) -> Result<Delivered, Refusal>
    requires given { (at ≤ last_command_moment) × IsRead incoming.now }
    requires can { IfSome catalog.old (CanDecide (K.rules scheme.now)) }
    ensures decided { DecidesIn D.Store (K.rules scheme.now) (λ s. IsLoaded s catalog.old)
        (λ s. GivesDelivered s incoming.now.manifest.vehicle)
        (λ s. decide_incoming (K.rules scheme.now) s at incoming.now) tx.old.conn tx.new.conn result }
    ensures leaves { LeavesIn D.Store (K.rules scheme.now) incoming.now
        catalog.old catalog.new tx.old.conn tx.new.conn result }
{
    match catalog {
        Some(catalog) => decide_founded(tx, catalog, keys, alloc, scheme, at, incoming),
        None => Err(Refusal::NotFounded),
    }
}

/// Decides on it by the catalog. A manifest that its vehicle's Primary didn't sign costs no more than the test of who sent it.
fn decide_founded<K: Scheme, D: Alter>(
    tx: &mut Transaction<'_, D>,
    catalog: &mut Catalog,
    keys: &mut KeyCache,
    alloc: Global,
    scheme: &K,
    at: Moment,
    incoming: &Incoming,
) -> Result<Delivered, Refusal>
    requires given { (at ≤ last_command_moment) × IsRead incoming.now }
    requires can { CanDecide (K.rules scheme.now) catalog.old }
    ensures decided { DecidesIn D.Store (K.rules scheme.now) (λ s. IsOf s catalog.old)
        (λ s. GivesDelivered s incoming.now.manifest.vehicle)
        (λ s. decide_incoming (K.rules scheme.now) s at incoming.now) tx.old.conn tx.new.conn result }
    ensures leaves { Leaves D.Store (K.rules scheme.now) incoming.now
        catalog.old catalog.new tx.old.conn tx.new.conn result }
{
    match read_sender(tx, catalog, keys, alloc, scheme, incoming) {
        Ok(rows) => {
            let sender = Sender {
                founding: &catalog.founding,
                vehicle: &rows,
            };
            decide_sent(tx, catalog, keys, alloc, scheme, at, incoming, &sender)
        }
        Err(refusal) => Err(refusal),
    }
}

/// Decides on it once it is known who sent it: its counter tells whether it may have been there before, and then the row that was kept
/// with it whether it is a repeat.
fn decide_sent<K: Scheme, D: Alter>(
    tx: &mut Transaction<'_, D>,
    catalog: &Catalog,
    keys: &mut KeyCache,
    alloc: Global,
    scheme: &K,
    at: Moment,
    incoming: &Incoming,
    sender: &Sender,
) -> Result<Delivered, Refusal>
    requires given { (at ≤ last_command_moment) × IsRead incoming.now }
    requires can { CanAnswer (K.rules scheme.now) sender.now }
    requires hashed { catalog.now.hashed ≡ hashed_roles (K.rules scheme.now) sender.now.founding.keys.director }
    ensures { DecidesIn D.Store (K.rules scheme.now)
        (λ s. IsSent (K.rules scheme.now) s incoming.now catalog.now sender.now)
        (λ s. GivesDelivered s incoming.now.manifest.vehicle)
        (λ s. decide_incoming (K.rules scheme.now) s at incoming.now) tx.old.conn tx.new.conn result }
{
    rows_are_found();
    if is_later(incoming, sender) {
        return decide_later(catalog, keys, alloc, scheme, at, incoming, sender);
    }
    let manifest = &incoming.manifest;
    match find_kept(tx, alloc, &manifest.vehicle, manifest.counter) {
        Ok(kept) => decide_again(alloc, incoming, sender, kept.as_ref()),
        Err(fault) => Err(refusal_of(fault)),
    }
}

/// Of a manifest whose counter is above the last: what is new, by the running campaigns that reach its vehicle, and the images.
fn decide_later<K: Scheme>(
    catalog: &Catalog,
    keys: &mut KeyCache,
    alloc: Global,
    scheme: &K,
    at: Moment,
    incoming: &Incoming,
    sender: &Sender,
) -> Result<Delivered, Refusal>
    requires given { (at ≤ last_command_moment) × IsRead incoming.now }
    requires later { sender.now.vehicle.vehicle.last < incoming.now.manifest.counter }
    requires can { CanAnswer (K.rules scheme.now) sender.now }
    requires hashed { catalog.now.hashed ≡ hashed_roles (K.rules scheme.now) sender.now.founding.keys.director }
    ensures { (s : State) → IsSound (K.rules scheme.now) s
        → IsSent (K.rules scheme.now) s incoming.now catalog.now sender.now
        → GivesDelivered s incoming.now.manifest.vehicle result
        (decide_incoming (K.rules scheme.now) s at incoming.now) }
{
    keep_ecus(keys, alloc, sender);
    let items = catalog
        .campaigns
        .items_for(alloc, &incoming.manifest.vehicle)?;
    decide_new(
        alloc,
        scheme,
        at,
        incoming,
        sender,
        &catalog.hashed,
        keys,
        &catalog.images,
        items.as_slice(),
    )
}
