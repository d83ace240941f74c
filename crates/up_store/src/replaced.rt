//! An ECU that another one replaces.
ghost use Rattle.std.specs.Prelude.{⊤};
ghost use Rattle.up_rows.specs.Changes.{with_replaced_rows};
ghost use Rattle.up_store.specs.Connections.{PutsRows};
ghost use Rattle.up_store.specs.Fitting.{IsReplacement};
ghost use Rattle.up_store.specs.Within.{PutsWithin};
ghost use Rattle.up_store.specs.Writes.{replace_writes};

use crate::store::StoreFault;
use sqlite::{Alter, Transaction};
use up_machine::vehicle::Replacement;
use up_tables::replace::replace_ecu;
use up_tables::retired::insert_retired;

/// Puts the new ECU in the place of the old one, and retires the old one's identifier.
pub fn put_replaced<D: Alter>(
    tx: &mut Transaction<'_, D>,
    new: &Replacement,
) -> Result<(), StoreFault>
    ensures { PutsWithin D.Store (PutsRows (IsReplacement new.now) (λ rows. with_replaced_rows rows new.now))
        (replace_writes new.now) (λ _. ⊤) tx.old.conn tx.new.conn result }
{
    replace_ecu(
        tx,
        new.old.text(),
        new.ecu.ecu.text(),
        new.ecu.hardware.text(),
        new.ecu.public.as_slice(),
    )?;
    insert_retired(tx, new.old.text(), new.vehicle.text())
}
