//! Who sent a manifest. The Primary of a vehicle is kept in memory from the first manifest on that it sent, so that one that is
//! forged later is refused before a row is read.
ghost use Rattle.std.specs.Prelude.{◌≡◌, ◌≤◌, ◌+◌, None, Some, Err, IfOk, IfSome, IsTrue, MatchBool, ⊤};
ghost use Rattle.std.specs.FinMap as table;
ghost use Rattle.up_machine.specs.Deliveries.{receive_manifest};
ghost use Rattle.up_machine.specs.Primaries.{GivesSent};
ghost use Rattle.up_machine.specs.Rows.{founding_row, vehicle_rows};
ghost use Rattle.up_machine.specs.RowsFit.{founding_fits, rows_fit};
ghost use Rattle.up_machine.specs.State.{State};
ghost use Rattle.up_records.specs.Catalogs.{AreFew, ArePrimaries, Come, IsOf, KeepsMore, StayKept};
ghost use Rattle.up_records.specs.Senders.{GivesKept, GivesSenderRows, IsSentBy, Leaves, refused_by};
ghost use Rattle.up_records.specs.Sessions.{DecidesIn};

use crate::catalog::Catalog;
use crate::ecu_keys::{keep_key, keep_primary};
use crate::faults::refusal_of;
use crate::session::read_fitting_vehicle;
use sqlite::{Alter, Transaction};
use std::alloc::{AllocError, Global};
use up_canon::ident::Ident;
use up_canon::refusal::Refusal;
use up_canon::table::Table;
use up_canon::text::Text;
use up_machine::primary::{Primary, decide_sent_by, primary_in};
use up_machine::rows::VehicleRows;
use up_machine::sender::decide_sender;
use up_manifest::manifest::Incoming;
use up_sign::key_cache::KeyCache;
use up_sign::scheme::Scheme;

/// Of how many vehicles the Primaries are kept. Each takes some 200 bytes, and 500 where names and key are of the longest: so all of
/// them take 13 to 33 MB. Of a vehicle beyond them, each manifest costs its rows.
const MOST_PRIMARIES: usize = 65_536;

/// Tests who sent the manifest, by the Primary of its vehicle where that is kept, and else by the vehicle's rows, and reads these
/// rows: `WrongPrimary`; `BadManifestSignature`; `UnknownVehicle`. No row is read where the kept Primary didn't send it.
pub(crate) fn read_sender<K: Scheme, D: Alter>(
    tx: &mut Transaction<'_, D>,
    catalog: &mut Catalog,
    keys: &mut KeyCache,
    alloc: Global,
    scheme: &K,
    incoming: &Incoming,
) -> Result<VehicleRows, Refusal>
    requires { IsTrue (founding_fits (K.rules scheme.now) catalog.old.founding) }
    ensures sent { DecidesIn D.Store (K.rules scheme.now) (λ s. IsOf s catalog.old)
        (λ s. GivesSenderRows (K.rules scheme.now) s incoming.now catalog.new.founding)
        (λ s. receive_manifest (K.rules scheme.now) s incoming.now) tx.old.conn tx.new.conn result }
    ensures fits { IfOk result (λ rows. IsTrue (rows_fit rows)) }
    ensures leaves { Leaves D.Store (K.rules scheme.now) incoming.now
        catalog.old catalog.new tx.old.conn tx.new.conn result }
{
    let is_kept = match test_by_kept(catalog, keys, alloc, scheme, incoming) {
        Ok(is_kept) => is_kept,
        Err(refusal) => return Err(refusal),
    };
    match read_fitting_vehicle(tx, alloc, &incoming.manifest.vehicle) {
        Ok(Some(rows)) => {
            if is_kept {
                return Ok(rows);
            }
            match test_by_rows(catalog, keys, alloc, scheme, incoming, &rows) {
                Ok(()) => Ok(rows),
                Err(refusal) => Err(refusal),
            }
        }
        Ok(None) => Err(Refusal::UnknownVehicle),
        Err(fault) => Err(refusal_of(fault)),
    }
}

/// Tests who sent the manifest by the Primary of its vehicle, where it is kept: whether it is.
fn test_by_kept<K: Scheme>(
    catalog: &Catalog,
    keys: &mut KeyCache,
    alloc: Global,
    scheme: &K,
    incoming: &Incoming,
) -> Result<bool, Refusal>
    ensures sent { (s : State) → IsOf s catalog.now → GivesKept (K.rules scheme.now) s incoming.now result }
    ensures forged { IfSome (refused_by (K.rules scheme.now) catalog.now.primaries incoming.now) (λ r. result ≡ Err r) }
    ensures kept { IfOk result
        (λ is_kept. MatchBool is_kept ⊤ (table.get catalog.now.primaries incoming.now.manifest.vehicle ≡ None)) }
{
    let vehicle = incoming.manifest.vehicle.text();
    let Some(primary) = catalog.primaries.get(vehicle) else {
        return Ok(false);
    };
    keep_key(keys, alloc, primary);
    match decide_sent_by(scheme, incoming, primary, keys) {
        Ok(()) => Ok(true),
        Err(refusal) => Err(refusal),
    }
}

/// Tests who sent the manifest by the rows of its vehicle. The Primary that did is kept.
fn test_by_rows<K: Scheme>(
    catalog: &mut Catalog,
    keys: &mut KeyCache,
    alloc: Global,
    scheme: &K,
    incoming: &Incoming,
    rows: &VehicleRows,
) -> Result<(), Refusal>
    requires keys { IsTrue (founding_fits (K.rules scheme.now) catalog.old.founding) }
    requires rows { IsTrue (rows_fit rows.now) }
    requires first { table.get catalog.old.primaries incoming.now.manifest.vehicle ≡ None }
    ensures sent { (s : State) → founding_row s ≡ Some catalog.old.founding
        → vehicle_rows s incoming.now.manifest.vehicle ≡ Some rows.now
        → GivesSent (K.rules scheme.now) s incoming.now result }
    ensures of { (s : State) → vehicle_rows s incoming.now.manifest.vehicle ≡ Some rows.now
        → ArePrimaries s catalog.old.primaries → ArePrimaries s catalog.new.primaries }
    ensures more { KeepsMore catalog.old catalog.new }
    ensures came { (s : State) → founding_row s ≡ Some catalog.old.founding
        → vehicle_rows s incoming.now.manifest.vehicle ≡ Some rows.now → ArePrimaries s catalog.old.primaries
        → Come (IsSentBy (K.rules scheme.now) incoming.now) catalog.old.primaries catalog.new.primaries }
{
    keep_primary(keys, alloc, rows);
    match decide_sender(scheme, incoming, Some(&catalog.founding), Some(rows), keys) {
        Ok(_) => {
            keep_sender(
                &mut catalog.primaries,
                alloc,
                &incoming.manifest.vehicle,
                rows,
            );
            Ok(())
        }
        Err(refusal) => Err(refusal),
    }
}

/// Keeps the Primary of a vehicle, unless there are as many as are kept at most. Where memory is refused it isn't kept, and the
/// vehicle's next manifest costs its rows again.
fn keep_sender(kept: &mut Table<Primary>, alloc: Global, vehicle: &Ident, rows: &VehicleRows)
    requires { table.get kept.old vehicle.now ≡ None }
    ensures of { (s : State) → vehicle_rows s vehicle.now ≡ Some rows.now → ArePrimaries s kept.old
        → ArePrimaries s kept.new }
    ensures stay { StayKept kept.old kept.new }
    ensures came { Come (λ name primary. name ≡ vehicle.now) kept.old kept.new }
    ensures few { AreFew kept.old → AreFew kept.new }
{
    if kept.len() < MOST_PRIMARIES {
        let _kept = put_sender(kept, alloc, vehicle, rows);
    }
}

/// Keeps the Primary of a vehicle while there is room. On an error all is as it was.
fn put_sender(
    kept: &mut Table<Primary>,
    alloc: Global,
    vehicle: &Ident,
    rows: &VehicleRows,
) -> Result<(), AllocError>
    requires { table.get kept.old vehicle.now ≡ None }
    ensures of { (s : State) → vehicle_rows s vehicle.now ≡ Some rows.now → ArePrimaries s kept.old
        → ArePrimaries s kept.new }
    ensures stay { StayKept kept.old kept.new }
    ensures came { Come (λ name primary. name ≡ vehicle.now) kept.old kept.new }
    ensures one { table.len kept.new ≤ table.len kept.old + 1 }
{
    let Some(primary) = primary_in(alloc, rows)? else {
        return Ok(());
    };
    kept.insert(text_of(alloc, vehicle.text())?, primary)
}

/// A text, copied.
fn text_of(alloc: Global, text: &str) -> Result<Text, AllocError>
    ensures { IfOk result (λ made. made ≡ text.now) }
{
    Ok(Text::new(text.to_string(alloc)?))
}
