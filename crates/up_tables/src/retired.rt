//! The rows of ECUs that were replaced.

ghost use Rattle.std.specs.Prelude.{◌≡◌, ◌∷◌, ℕ, List, [], option_map, string_bytes, map};
ghost use Rattle.std.specs.List.{list_any};
ghost use Rattle.sqlite.specs.declared.types.Value.TheVariants.{Text};
ghost use Rattle.std.specs.Option.{option_to_list};
ghost use Rattle.up_tables.specs.Texts.{insert_retired_text, find_retired_text};
ghost use Rattle.up_tables.specs.Kinds.{HasOwner};
ghost use Rattle.up_tables.specs.Tables.{retired_table};
ghost use Rattle.up_tables.specs.Rows.{has_text, columns_at, with_row};
ghost use Rattle.up_tables.specs.Lines.{retired_line};
ghost use Rattle.up_tables.specs.Ecus.{owns};
ghost use Rattle.up_tables.specs.Statements.{AltersRows, Finds, HoldsBy};
ghost use Rattle.up_tables.specs.Stored.{IsQueried, IsWritten};

use crate::reading::one_text;
use crate::statement::write;
use crate::values::{StoreFault, words};
use sqlite::{Alter, Transaction};

/// Puts in the row of an ECU of the vehicle that was replaced; `Store` where it is there already, or the vehicle isn't.
pub fn insert_retired<S: Alter>(
    tx: &mut Transaction<'_, S>,
    ecu: &str,
    vehicle: &str,
) -> Result<(), StoreFault>
    ensures { IsWritten S.Store insert_retired_text (retired_line ecu.now vehicle.now) (AltersRows retired_table 2
        (with_row vehicle.now (retired_line ecu.now vehicle.now))) tx.old.conn tx.new.conn result }
{
    write(
        tx,
        "INSERT INTO retired (ecu, vehicle) VALUES (?1, ?2)",
        &[words(ecu), words(vehicle)],
    )
}

/// The vehicle of which this ECU was replaced, none where it wasn't.
pub fn retired_owner<S: Alter>(
    tx: &mut Transaction<'_, S>,
    ecu: &str,
) -> Result<Option<String>, StoreFault>
    ensures { IsQueried S.Store find_retired_text (Text ecu.now ∷ [])
        (λ rows found. map (columns_at (0 ∷ [])) rows ≡ map (λ s. Text (string_bytes s) ∷ []) (option_to_list found))
        (Finds retired_table 2 (λ rows_of found. (vehicle : List ℕ) → list_any (has_text 0 ecu.now)
        (rows_of vehicle) ≡ owns (option_map (λ s. string_bytes s) found) vehicle))
        (HoldsBy retired_table 2 (HasOwner ecu.now)) tx.old.conn tx.new.conn result }
{
    one_text(tx.query_all("SELECT vehicle FROM retired WHERE ecu = ?1", &[words(ecu)]))
}
