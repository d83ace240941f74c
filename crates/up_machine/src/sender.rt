//! Who sent a manifest: the first step of the decision on it.
ghost use Rattle.std.specs.Prelude.{◌≡◌, IfSome, IsTrue, nat_lt, option_copied};
ghost use Rattle.up_machine.specs.RowsFit.{founding_fits, rows_fit};
ghost use Rattle.up_machine.specs.Senders.{DecidesSender};

use crate::manifest_checks::check_primary;
use crate::rows::{Founding, VehicleRows};
use std::marker::Model;
use up_canon::refusal::Refusal;
use up_manifest::manifest::Incoming;
use up_sign::key_cache::KeyCache;
use up_sign::scheme::Scheme;

/// A founding, and the rows of a vehicle whose Primary signed a manifest. The type doesn't say whose they are; the contract of
/// `decide_sender` does.
#[derive(Drop)]
pub struct Sender<'a> {
    pub founding: &'a Founding,
    pub vehicle: &'a VehicleRows,
}

impl<'a> Model for Sender<'a> {
    ghost use Rattle.up_machine.specs.Senders.{SenderData};

    ghost Value = { SenderData };

    ghost use Rattle.std.specs.Coded.{codes};

    ghost coded = { Prim.hlevel codes };

    ghost view = { λ a. record { founding = a.founding.now; vehicle = a.vehicle.now } };
}

/// Tests who sent a manifest, over the founding's row and those of its vehicle: `NotFounded`; `UnknownVehicle`;
/// `WrongPrimary`; `BadManifestSignature`. It needs nothing else, and takes no memory. Where the Primary's key isn't among
/// `keys`, it is hashed.
pub fn decide_sender<'a, K: Scheme>(
    scheme: &K,
    incoming: &Incoming,
    founding: Option<&'a Founding>,
    vehicle: Option<&'a VehicleRows>,
    keys: &KeyCache,
) -> Result<Sender<'a>, Refusal>
    requires keys { IfSome (option_copied founding) (λ f. IsTrue (founding_fits (K.rules scheme.now) f)) }
    requires rows { IfSome (option_copied vehicle) (λ v. IsTrue (rows_fit v)) }
    ensures { DecidesSender (K.rules scheme.now) incoming.now (option_copied founding.entry)
        (option_copied vehicle.entry) result }
{
    let Some(founding) = founding else {
        return Err(Refusal::NotFounded);
    };
    let Some(vehicle) = vehicle else {
        return Err(Refusal::UnknownVehicle);
    };
    check_primary(scheme, vehicle, keys, incoming)?;
    Ok(Sender { founding, vehicle })
}

/// Whether the manifest's counter is above the last one that was accepted of its vehicle.
pub fn is_later(incoming: &Incoming, sender: &Sender) -> bool
    ensures { result ≡ nat_lt sender.now.vehicle.vehicle.last incoming.now.manifest.counter }
{
    sender.vehicle.vehicle.last.get() < incoming.manifest.counter.get()
}
