//! The rows of vehicles that were shut out.

ghost use Rattle.std.specs.Prelude.{◌∷◌, [], map};
ghost use Rattle.sqlite.specs.declared.types.Value.TheVariants.{Text};
ghost use Rattle.up_tables.specs.Texts.{insert_retired_vehicle_text, find_retired_vehicle_text};
ghost use Rattle.up_tables.specs.Tables.{retired_vehicle_table};
ghost use Rattle.up_tables.specs.Rows.{columns_at, with_row};
ghost use Rattle.up_tables.specs.Lines.{retired_vehicle_line};
ghost use Rattle.up_tables.specs.Statements.{AltersRows};
ghost use Rattle.up_tables.specs.Stored.{AreLines, IsFound, IsTold, IsWritten};

use crate::reading::RowReading;
use crate::statement::{find_value, write};
use crate::values::{StoreFault, words};
use sqlite::{Alter, Transaction};
use std::alloc::Global;

/// Puts in the row of a vehicle that is shut out; `Store` where it is there already, or the vehicle isn't.
pub fn insert_retired_vehicle<S: Alter>(
    tx: &mut Transaction<'_, S>,
    vehicle: &str,
) -> Result<(), StoreFault>
    ensures { IsWritten S.Store insert_retired_vehicle_text (retired_vehicle_line vehicle.now)
        (AltersRows retired_vehicle_table 1 (with_row vehicle.now (retired_vehicle_line vehicle.now)))
        tx.old.conn tx.new.conn result }
{
    write(
        tx,
        "INSERT INTO retired_vehicle (vehicle) VALUES (?1)",
        &[words(vehicle)],
    )
}

/// The row of the vehicle of this name, if it was shut out.
pub fn retired_vehicle<S: Alter, R: RowReading>(
    tx: &mut Transaction<'_, S>,
    alloc: Global,
    vehicle: &str,
) -> Result<Option<R::Item>, StoreFault>
    ensures { IsFound S.Store find_retired_vehicle_text (Text vehicle.now ∷ []) retired_vehicle_table 1
        (λ rows_of. map (columns_at (0 ∷ [])) (rows_of vehicle.now)) (IsTold R.says R.fits R.line)
        (AreLines R.fits R.line) tx.old.conn tx.new.conn result }
{
    find_value::<S, R>(
        tx,
        alloc,
        "SELECT vehicle FROM retired_vehicle WHERE vehicle = ?1",
        &[words(vehicle)],
    )
}
