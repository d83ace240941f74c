//! What is kept in memory of the tables, so that deliveries needn't read it again.
ghost use Rattle.std.specs.Prelude.{◌≡◌, None, Some, IfOk, IsTrue};
ghost use Rattle.up_plan.specs.Campaigns.{CampaignData};
ghost use Rattle.up_machine.specs.Rows.{founding_row};
ghost use Rattle.up_machine.specs.RowsFit.{founding_fits};
ghost use Rattle.up_store.specs.Found.{values_where};
ghost use Rattle.up_records.specs.Catalogs.{Fits, IsFresh, IsLoaded, Loads};
ghost use Rattle.up_records.specs.Sessions.{FindsIn, FindsUnder};

use crate::session::read_founding;
use sqlite::{Alter, Transaction};
use std::alloc::Global;
use std::mem::replace;
use up_canon::table::Table;
use up_machine::primary::Primary;
use up_machine::rows::Founding;
use up_metadata::hashed_keys::{HashedRoleKeys, hashed_roles};
use up_plan::image::Image;
use up_plan::running::Running;
use up_sign::scheme::Scheme;
use up_store::campaigns::find_running;
use up_store::images::find_images;
use up_store::store::StoreFault;

/// What every delivery needs: the founding, the keys of the Director's roles, hashed, the running campaigns, ready for look-ups
/// by vehicle, the images by their names, and the Primaries of vehicles that delivered since, by the vehicles' names. Deliveries
/// only add Primaries. The type doesn't say of which state it is.
#[derive(Drop)]
pub struct Catalog {
    pub founding: Founding,
    pub hashed: HashedRoleKeys,
    pub campaigns: Running,
    pub images: Table<Image>,
    pub primaries: Table<Primary>,
}

/// Leaves nothing of the tables in memory.
pub fn forget(catalog: &mut Option<Catalog>)
    ensures { catalog.new ≡ None }
{
    drop(catalog.take());
}

/// Reads the catalog where there is none. There is none before founding, and after a fault.
pub(crate) fn load<K: Scheme, D: Alter>(
    tx: &mut Transaction<'_, D>,
    catalog: &mut Option<Catalog>,
    alloc: Global,
    scheme: &K,
) -> Result<(), StoreFault>
    ensures loaded { FindsUnder D.Store (K.rules scheme.now) (λ s _. Fits s catalog.old → IsLoaded s catalog.new)
        tx.old.conn tx.new.conn result }
    ensures kept { Loads (K.rules scheme.now) catalog.old catalog.new tx.old.conn tx.new.conn result }
{
    if catalog.is_some() {
        return Ok(());
    }
    match read_catalog(tx, alloc, scheme) {
        Ok(read) => {
            drop(replace(catalog, read));
            Ok(())
        }
        Err(fault) => Err(fault),
    }
}

/// Reads the catalog, none before founding.
fn read_catalog<K: Scheme, D: Alter>(
    tx: &mut Transaction<'_, D>,
    alloc: Global,
    scheme: &K,
) -> Result<Option<Catalog>, StoreFault>
    ensures found { FindsUnder D.Store (K.rules scheme.now) (λ s read. IsLoaded s read) tx.old.conn tx.new.conn result }
    ensures fresh { IfOk result (λ read. IsFresh (K.rules scheme.now) read) }
{
    match read_founding(tx, alloc, scheme) {
        Ok(Some(founding)) => read_registers(tx, alloc, scheme, founding),
        Ok(None) => Ok(None),
        Err(fault) => Err(fault),
    }
}

/// Reads what is there once the repositories are founded.
fn read_registers<K: Scheme, D: Alter>(
    tx: &mut Transaction<'_, D>,
    alloc: Global,
    scheme: &K,
    founding: Founding,
) -> Result<Option<Catalog>, StoreFault>
    requires { IsTrue (founding_fits (K.rules scheme.now) founding) }
    ensures found { FindsUnder D.Store (K.rules scheme.now) (λ s read. founding_row s ≡ Some founding → IsLoaded s read)
        tx.old.conn tx.new.conn result }
    ensures fresh { IfOk result (λ read. IsFresh (K.rules scheme.now) read) }
{
    let hashed = match hashed_roles(alloc, scheme, &founding.keys.director) {
        Ok(hashed) => hashed,
        Err(_) => {
            drop(founding);
            return Err(StoreFault::Memory);
        }
    };
    let campaigns = match read_running(tx, alloc) {
        Ok(campaigns) => campaigns,
        Err(fault) => {
            drop((founding, hashed));
            return Err(fault);
        }
    };
    match find_images(tx, alloc) {
        Ok(images) => Ok(Some(Catalog {
            founding,
            hashed,
            campaigns,
            images,
            primaries: Table::new(alloc),
        })),
        Err(fault) => {
            drop((founding, hashed, campaigns));
            Err(fault)
        }
    }
}

/// Reads the running campaigns, and makes them ready for look-ups.
fn read_running<D: Alter>(tx: &mut Transaction<'_, D>, alloc: Global) -> Result<Running, StoreFault>
    ensures { FindsIn D.Store (λ _ s running. running ≡ values_where (λ (c : CampaignData). c.running) s.campaigns)
        tx.old.conn tx.new.conn result }
{
    match find_running(tx, alloc) {
        Ok(campaigns) => match Running::new(alloc, campaigns) {
            Ok(running) => Ok(running),
            Err(_) => Err(StoreFault::Memory),
        },
        Err(fault) => Err(fault),
    }
}
