//! The store: the tables of the two repositories over a connection to a database.
ghost use Rattle.std.specs.Prelude.{◌≡◌, ◌⊎◌, true, false, Ok, Err, IfOk, IfErr, OnOk};
ghost use Rattle.std.specs.Result.{IsOk};
ghost use Rattle.sqlite.specs.Held.{state};
ghost use Rattle.up_tables.specs.declared.open.OpenFault.TheVariants.{NotOurs};
ghost use Rattle.up_tables.specs.Faults.{store_fault};
ghost use Rattle.up_store.specs.Opening.{Adopts, Creates, FailsToAdopt, FailsToCreate};
ghost use Rattle.up_store.specs.Within.{EndsWrite};

use sqlite::{Alter, Connection, Error, Transaction};
use std::marker::Model;
pub use up_tables::open::OpenFault;
use up_tables::open::{create_tables, take_tables};
pub use up_tables::values::StoreFault;
use up_tables::values::fault_of;

/// The greatest number that a column holds, 2^63-1.
pub(crate) const MOST_NUMBER: u64 = 9_223_372_036_854_775_807;

/// The greatest number of rows of a vehicle, whose places stand in a column.
pub(crate) const MOST_ROWS: usize = 9_223_372_036_854_775_807;

/// The tables of the two repositories over a connection, on which no transaction is under way between its calls.
///
/// A call answers `StoreFault::Memory` where memory was refused, and `StoreFault::Store` where the database refused it for
/// another cause, where a row can't be read as what its columns say, and where a version is 2^63 or more, which no column
/// holds. A fault leaves the tables as they were. A fault of the disk shuts the connection, and each later call answers a
/// fault.
#[derive(Drop)]
pub struct Store<D: Alter> {
    pub conn: Connection<D>,
}

impl<D: Alter> Model for Store<D> {
    ghost use Rattle.std.specs.Prelude.{◌≡◌, false};
    ghost use Rattle.sqlite.specs.Held.{Held, held_code};

    ghost Value = { Held D };

    ghost coded = { held_code D.code };

    ghost view = { λ s. s.conn };

    ghost invariant = { λ s. s.conn.in_transaction ≡ false };
}

impl<D: Alter> Store<D> {
    /// Makes the tables in one transaction, in a database that has none: `OpenFault::Store` where it has. They show a state in
    /// which nothing is founded. A fault hands the connection back as it was committed, with no transaction under way.
    pub fn create(mut conn: Connection<D>) -> Result<Store<D>, (Connection<D>, OpenFault)>
        requires { (state D.Store conn).in_transaction ≡ false }
        ensures made { IfOk result (λ s. Creates (state D.Store conn) (state D.Store s)) }
        ensures fault { IfErr result (λ e. FailsToCreate (state D.Store conn) (state D.Store e.0) e.1) }
    {
        match create_tables(&mut conn) {
            Ok(()) => Ok(Store { conn }),
            Err(fault) => Err((conn, fault)),
        }
    }

    /// Takes a database that this product left, and raises one of an older schema, in one transaction: no ECU of a database of schema 1 was replaced,
    /// and no image of one of schema 1 or 2 has a second hash. `NotOurs` where the database refuses the query on `meta`, as one without such a
    /// table does, or `meta` names another product or a schema but 1, 2 and 3, and never of tables that list rows of this product. `Memory` for
    /// want of memory, and `Store` only where the connection was shut, the disk failed, a limit on steps was met, or `meta` names an older schema,
    /// and the database stops at one of the statements that raise its tables. What the tables show stays, and a fault hands the connection back as
    /// it was committed, with no transaction under way.
    pub fn adopt(mut conn: Connection<D>) -> Result<Store<D>, (Connection<D>, OpenFault)>
        requires { (state D.Store conn).in_transaction ≡ false }
        ensures taken { IfOk result (λ s. Adopts (state D.Store conn) (state D.Store s)) }
        ensures fault { IfErr result (λ e. FailsToAdopt (state D.Store conn) (state D.Store e.0) e.1) }
    {
        match taken(take_tables(&mut conn)) {
            Ok(()) => Ok(Store { conn }),
            Err(fault) => Err((conn, fault)),
        }
    }

    /// The connection, on which no transaction is under way.
    pub fn release(self) -> Connection<D>
        ensures same { result ≡ self }
        ensures mode { (state D.Store result).in_transaction ≡ false }
    {
        self.conn
    }
}

/// Whether tables were taken, and else what is told: `NotOurs` where they are another's, and each fault as it is.
fn taken(took: Result<bool, OpenFault>) -> Result<(), OpenFault>
    ensures ours { OnOk result (took ≡ Ok true) }
    ensures fault { IfErr result (λ e. ((took ≡ Ok false) × (e ≡ NotOurs)) ⊎ (took ≡ Err e)) }
{
    match took {
        Ok(true) => Ok(()),
        Ok(false) => Err(OpenFault::NotOurs),
        Err(fault) => Err(fault),
    }
}

/// Ends a write after its step: what was put is committed. A fault, of the step or of the commit, undoes it.
pub fn end<D: Alter>(tx: Transaction<'_, D>, put: Result<(), StoreFault>) -> Result<(), StoreFault>
    ensures mode { tx.exit.0.now.in_transaction ≡ false }
    ensures ends { EndsWrite put (state D.Store tx.entry.conn.now) (state D.Store tx.exit.0.now) result }
{
    match put {
        Ok(()) => committed(tx.commit()),
        Err(fault) => Err(fault),
    }
}

/// Whether a commit went through, and else what is told of its error.
fn committed(commit: Result<(), Error>) -> Result<(), StoreFault>
    ensures ok { OnOk result (IsOk commit) }
    ensures went { OnOk commit (IsOk result) }
    ensures fault { IfErr commit (λ e. result ≡ Err (store_fault e)) }
{
    match commit {
        Ok(()) => Ok(()),
        Err(error) => Err(fault_of(error)),
    }
}
