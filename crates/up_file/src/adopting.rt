//! Adopting a database, or making its tables.

ghost use Rattle.std.specs.Prelude.{◌≡◌, false, Err, IfOk, IfErr};
ghost use Rattle.sqlite.specs.Held.{state};
ghost use Rattle.up_tables.specs.declared.open.OpenFault.TheVariants.{NotOurs};
ghost use Rattle.up_file.specs.Adopting.{RefusesDatabase, TakesDatabase, TakesOrMakes};
ghost use Rattle.up_file.specs.Schemes.{IsTakenFor, IsRefused, IsOther};

use crate::schemes::has_keys_of;
use sqlite::{Alter, Connection};
use std::alloc::Global;
use up_store::store::{OpenFault, Store, StoreFault};

/// Adopts a database of this product, which raises one of an older schema, and makes the tables in one without any: `OpenFault::Store` where it
/// has those of another. `Memory` for want of memory; else `Store` only for a cause that the database gave: the connection was shut, the disk
/// failed, a limit on steps was met, the database stopped at a statement that raises tables or refused one that makes them, or there are tables of
/// another product. A fault hands the connection back as it was committed, with no transaction under way, and is never `OpenFault::NotOurs`.
pub fn adopt_or_create<D: Alter>(
    conn: Connection<D>,
) -> Result<Store<D>, (Connection<D>, OpenFault)>
    requires { (state D.Store conn).in_transaction ≡ false }
    ensures taken { IfOk result (λ s. TakesDatabase (state D.Store conn) (state D.Store s)) }
    ensures refused { IfErr result (λ e. RefusesDatabase (state D.Store conn) (state D.Store e.0) e.1) }
{
    or_made(conn, Store::adopt, Store::create)
}

/// What `adopt_or_create` does, of a database whose keys are of this method, or that has none. `OpenFault::NotOurs` where one is of
/// another: it comes back as it was. So does one whose Root can't be read, unless it has no tables: those are made then. `Store` only for a
/// cause that the database gave.
pub fn take_for<D: Alter>(
    alloc: Global,
    method: &str,
    mut conn: Connection<D>,
) -> Result<Store<D>, (Connection<D>, OpenFault)>
    requires { (state D.Store conn).in_transaction ≡ false }
    ensures taken { IfOk result (λ s. IsTakenFor (state D.Store) method.now (state D.Store conn) (state D.Store s)) }
    ensures refused { IfErr result (λ e. IsRefused (state D.Store) (state D.Store conn) (state D.Store e.0) e.1) }
    ensures other { IfErr result (λ e. e.1 ≡ NotOurs → IsOther method.now (state D.Store conn) (state D.Store e.0)) }
{
    match has_keys_of(alloc, method, &mut conn) {
        Ok(true) => adopt_or_create(conn),
        Ok(false) => Err((conn, OpenFault::NotOurs)),
        Err(StoreFault::Store) => Store::create(conn),
        Err(StoreFault::Memory) => Err((conn, OpenFault::Memory)),
    }
}

/// What `adopter` takes, or tells; where that is `NotOurs`, what `maker` makes of what was handed back, or tells. Each is asked once at most.
fn or_made<
    C,
    S,
    A: FnOnce(C) -> Result<S, (C, OpenFault)>,
    M: FnOnce(C) -> Result<S, (C, OpenFault)> + Drop,
>(conn: C, adopter: A, maker: M) -> Result<S, (C, OpenFault)>
    requires adopter { A.pre adopter conn }
    requires maker { (mid : C) → A.post adopter conn (Err (mid, NotOurs)) → M.pre maker mid }
    ensures told { TakesOrMakes (A.post adopter conn) (M.post maker) result }
{
    match adopter(conn) {
        Err((conn, OpenFault::NotOurs)) => maker(conn),
        told => told,
    }
}
