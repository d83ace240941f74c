//! The row of an ECU that replaces another one.

ghost use Rattle.std.specs.Prelude.{◌∷◌, []};
ghost use Rattle.sqlite.specs.declared.types.Value.TheVariants.{Text, Blob};
ghost use Rattle.up_tables.specs.Texts.{replace_ecu_text};
ghost use Rattle.up_tables.specs.Stored.{IsWritten};
ghost use Rattle.up_tables.specs.Statements.{ReplacesEcu};

use crate::statement::write;
use crate::values::{StoreFault, bytes, words};
use sqlite::{Alter, Transaction};

/// Puts an ECU, before its first report, in the place of the one named `old`, which is there: the row keeps its vehicle and its place in it. `Store`
/// where another ECU has the new name.
pub fn replace_ecu<S: Alter>(
    tx: &mut Transaction<'_, S>,
    old: &str,
    ecu: &str,
    hardware: &str,
    public_key: &[u8],
) -> Result<(), StoreFault>
    ensures { IsWritten S.Store replace_ecu_text
        (Text ecu.now ∷ Text hardware.now ∷ Blob public_key.now ∷ Text old.now ∷ [])
        (ReplacesEcu old.now ecu.now hardware.now public_key.now) tx.old.conn tx.new.conn result }
{
    write(
        tx,
        "UPDATE ecu SET ecu = ?1, hardware = ?2, public_key = ?3, file = NULL, length = NULL, sha256 = NULL, counter = 0, report = NULL WHERE ecu = ?4",
        &[words(ecu), words(hardware), bytes(public_key), words(old)],
    )
}
