//! What commands read within a session, which is a transaction that is under way.
ghost use Rattle.std.specs.Prelude.{◌≡◌, IfErr, IfOk, IfSome, IsSomeAnd, IsTrue, false};
ghost use Rattle.std.specs.FinMap as table;
ghost use Rattle.up_machine.specs.Rows.{founding_row, vehicle_rows as vehicle_rows_in};
ghost use Rattle.up_machine.specs.RowsFit.{founding_fits as founding_fits_in, rows_fit as rows_fit_in};
ghost use Rattle.up_machine.specs.State.{is_taken as is_taken_in};
ghost use Rattle.up_tables.specs.declared.values.StoreFault.TheVariants as faults;
ghost use Rattle.up_records.specs.Sessions.{FindsIn, FindsUnder};

use sqlite::{Alter, Transaction};
use std::alloc::Global;
use up_canon::ident::Ident;
use up_machine::laws::rows_are_sound;
use up_machine::rows::{Founding, VehicleRows};
use up_machine::rows_fit::{founding_fits, rows_fit};
use up_rows::laws::rows_are_found;
use up_sign::scheme::Scheme;
use up_store::roots::find_founding;
use up_store::store::StoreFault;
use up_store::vehicles::{find_ecus, find_owner, find_vehicle};

/// The founding's row, none before founding. `Store` where its keys can't sign, which no call of this product leaves.
pub fn read_founding<K: Scheme, D: Alter>(
    tx: &mut Transaction<'_, D>,
    alloc: Global,
    scheme: &K,
) -> Result<Option<Founding>, StoreFault>
    ensures found { FindsUnder D.Store (K.rules scheme.now) (λ s found. found ≡ founding_row s) tx.old.conn tx.new.conn result }
    ensures fits { IfOk result (λ found. IfSome found (λ f. IsTrue (founding_fits_in (K.rules scheme.now) f))) }
{
    rows_are_sound();
    match find_founding(tx, alloc) {
        Ok(found) => fitting_founding(scheme, found),
        Err(fault) => Err(fault),
    }
}

/// The founding that was read, if its keys can sign. It takes no memory.
fn fitting_founding<K: Scheme>(
    scheme: &K,
    found: Option<Founding>,
) -> Result<Option<Founding>, StoreFault>
    ensures went { IfOk result (λ same. same ≡ found) }
    ensures fits { IfOk result (λ same. IfSome same (λ f. IsTrue (founding_fits_in (K.rules scheme.now) f))) }
    ensures fault { IfErr result
        (λ e. (e ≡ faults.Store) × IsSomeAnd found (λ f. founding_fits_in (K.rules scheme.now) f ≡ false)) }
{
    match found {
        Some(founding) => {
            if founding_fits(scheme, &founding) {
                Ok(Some(founding))
            } else {
                Err(StoreFault::Store)
            }
        }
        None => Ok(None),
    }
}

/// The rows of a vehicle, none of an unknown one.
pub fn read_vehicle<D: Alter>(
    tx: &mut Transaction<'_, D>,
    alloc: Global,
    name: &Ident,
) -> Result<Option<VehicleRows>, StoreFault>
    ensures { FindsIn D.Store (λ _ s found. found ≡ vehicle_rows_in s name.now) tx.old.conn tx.new.conn result }
{
    rows_are_found();
    let vehicle = match find_vehicle(tx, alloc, name) {
        Ok(Some(vehicle)) => vehicle,
        Ok(None) => return Ok(None),
        Err(fault) => return Err(fault),
    };
    match find_ecus(tx, alloc, name) {
        Ok(ecus) => Ok(Some(VehicleRows { vehicle, ecus })),
        Err(fault) => Err(fault),
    }
}

/// The rows of a vehicle, none of an unknown one: `Store` where the version is past the last counter or an ECU stands twice, which no
/// call of this product leaves.
pub fn read_fitting_vehicle<D: Alter>(
    tx: &mut Transaction<'_, D>,
    alloc: Global,
    name: &Ident,
) -> Result<Option<VehicleRows>, StoreFault>
    ensures found { FindsIn D.Store (λ _ s found. found ≡ vehicle_rows_in s name.now) tx.old.conn tx.new.conn result }
    ensures fits { IfOk result (λ found. IfSome found (λ v. IsTrue (rows_fit_in v))) }
{
    rows_are_sound();
    match read_vehicle(tx, alloc, name) {
        Ok(found) => fitting_vehicle(found),
        Err(fault) => Err(fault),
    }
}

/// The rows that were read, if they fit. It takes no memory.
fn fitting_vehicle(found: Option<VehicleRows>) -> Result<Option<VehicleRows>, StoreFault>
    ensures went { IfOk result (λ same. same ≡ found) }
    ensures fits { IfOk result (λ same. IfSome same (λ v. IsTrue (rows_fit_in v))) }
    ensures fault { IfErr result (λ e. (e ≡ faults.Store) × IsSomeAnd found (λ v. rows_fit_in v ≡ false)) }
{
    match found {
        Some(rows) => {
            if rows_fit(&rows) {
                Ok(Some(rows))
            } else {
                Err(StoreFault::Store)
            }
        }
        None => Ok(None),
    }
}

/// Whether the vehicle is in the inventory.
pub fn is_known<D: Alter>(
    tx: &mut Transaction<'_, D>,
    alloc: Global,
    name: &Ident,
) -> Result<bool, StoreFault>
    ensures { FindsIn D.Store (λ _ s known. known ≡ table.contains_key s.vehicles name.now) tx.old.conn tx.new.conn result }
{
    rows_are_found();
    match find_vehicle(tx, alloc, name) {
        Ok(vehicle) => Ok(vehicle.is_some()),
        Err(fault) => Err(fault),
    }
}

/// Whether the name is that of an ECU of any vehicle, or of one that was replaced.
pub fn is_taken<D: Alter>(tx: &mut Transaction<'_, D>, ecu: &Ident) -> Result<bool, StoreFault>
    ensures { FindsIn D.Store (λ _ s taken. taken ≡ is_taken_in s ecu.now) tx.old.conn tx.new.conn result }
{
    rows_are_found();
    match find_owner(tx, ecu) {
        Ok(owner) => Ok(owner.is_some()),
        Err(fault) => Err(fault),
    }
}
