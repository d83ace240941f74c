//! The records of the two repositories.
ghost use Rattle.std.specs.Prelude.{◌≡◌};
ghost use Rattle.std.specs.FinMap as table;
ghost use Rattle.up_machine.specs.Reads.{assigned_to, ecus_of as ecus_in, version_of as version_in};
ghost use Rattle.up_machine.specs.Reads.{installed as installed_in};
ghost use Rattle.up_machine.specs.Rows.{vehicle_rows};
ghost use Rattle.up_records.specs.Reads.{Finds};
ghost use Rattle.up_records.specs.Standing.{bare, state};

use crate::catalog::Catalog;
use crate::views::{assigned_of, ecus_of, installed_on, rows_of, version_of};
use sqlite::Alter;
use std::alloc::Global;
use std::marker::Model;
use up_canon::ident::Ident;
use up_canon::listed::Listed;
use up_machine::rows::VehicleRows;
use up_manifest::report::Installed;
use up_plan::assigned::Plan;
use up_sign::key_cache::KeyCache;
use up_store::store::{Store, StoreFault};

/// The store, and what is kept of it in memory. A read answers what the state tells that is shown, a write takes it to the next one,
/// and whatever is kept is of that state. What deliveries need is loaded by the first one, kept over deliveries, and dropped before
/// every other write.
#[derive(Drop)]
pub struct Records<D: Alter> {
    pub store: Store<D>,
    pub catalog: Option<Catalog>,
    pub keys: KeyCache,
}

impl<D: Alter> Model for Records<D> {
    ghost use Rattle.up_records.specs.Standing.{Stored};

    ghost Value = { Stored D };

    ghost use Rattle.std.specs.Coded.{codes};
    ghost use Rattle.std.specs.FinMap as table;
    ghost use Rattle.sqlite.specs.Held.{held_code};

    ghost coded = { Prim.hlevel (codes, held_code D.code, table.code) };

    ghost view = { λ a. record { held = a.store; catalog = a.catalog } };
}

impl<D: Alter> Records<D> {
    /// Over this store, with nothing in memory yet.
    pub fn new(store: Store<D>) -> Records<D>
        ensures { result ≡ bare store }
    {
        Records {
            store,
            catalog: None,
            keys: KeyCache::new(),
        }
    }

    /// The store.
    pub fn release(self) -> Store<D>
        ensures { result ≡ self.held }
    {
        drop(self.catalog);
        self.store
    }

    /// The rows of a vehicle, none of an unknown one.
    pub fn vehicle(
        &mut self,
        alloc: Global,
        vehicle: &Ident,
    ) -> Result<Option<VehicleRows>, StoreFault>
        ensures { Finds D.Store (λ k s. vehicle_rows s vehicle.now) self.old self.new result }
    {
        rows_of(&mut self.store, alloc, vehicle)
    }

    /// The ECUs of a vehicle in inventory order, none of an unknown vehicle.
    pub fn ecus(
        &mut self,
        alloc: Global,
        vehicle: &Ident,
    ) -> Result<Option<Listed<Ident>>, StoreFault>
        ensures { Finds D.Store (λ k s. ecus_in s vehicle.now) self.old self.new result }
    {
        ecus_of(&mut self.store, alloc, vehicle)
    }

    /// How many manifests of a vehicle were accepted, none of an unknown vehicle.
    pub fn version(&mut self, alloc: Global, vehicle: &Ident) -> Result<Option<u64>, StoreFault>
        ensures { Finds D.Store (λ k s. version_in s vehicle.now) self.old self.new result }
    {
        version_of(&mut self.store, alloc, vehicle)
    }

    /// The image that an ECU reported last, none of an unknown ECU and before its first report.
    pub fn installed(&mut self, alloc: Global, ecu: &Ident) -> Result<Option<Installed>, StoreFault>
        ensures { Finds D.Store (λ k s. installed_in s ecu.now) self.old self.new result }
    {
        installed_on(&mut self.store, alloc, ecu)
    }

    /// What is assigned to a vehicle, none of an unknown vehicle and before its first manifest.
    pub fn assigned(&mut self, alloc: Global, vehicle: &Ident) -> Result<Option<Plan>, StoreFault>
        ensures { Finds D.Store (λ k s. assigned_to s vehicle.now) self.old self.new result }
    {
        assigned_of(&mut self.store, alloc, vehicle)
    }
}
