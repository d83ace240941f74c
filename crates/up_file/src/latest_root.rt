//! The latest Root of the Director, in tables of any schema.
ghost use Rattle.std.specs.Prelude.{◌≡◌, false, codes};
ghost use Rattle.sqlite.specs.Held.{state};
ghost use Rattle.up_roles.specs.declared.repository.Repository.TheVariants.{Director};
ghost use Rattle.up_rows.specs.Lookups.{text_held};
ghost use Rattle.up_file.specs.Schemes.{Answers, IsRead};

use sqlite::{Alter, Connection, Row};
use std::alloc::Global;
use up_canon::text::Text;
use up_store::store::StoreFault;
use up_tables::reading::RowReading;
use up_tables::repo_file::file;
use up_tables::values::text_at;

/// How the text of a file's row is read.
struct BodyReading;

impl RowReading for BodyReading {
    ghost use Rattle.up_file.specs.LatestRoot.{FitsNone, SaysBody, no_row};

    type Item = Text;

    ghost says = { SaysBody };

    ghost fits = { FitsNone };

    ghost line = { no_row };

    fn read(_: Global, row: &Row) -> Result<Text, StoreFault> {
        match text_at(row, 2) {
            Ok(text) => Ok(Text::new(text)),
            Err(fault) => Err(fault),
        }
    }
}

/// The text of the latest Root of the Director, none where nothing is founded, in tables of any version of the schema. The database
/// stays as it is, and so does one of an older schema. `Store` where it has no table of files, or no such.
pub(crate) fn latest_root<D: Alter>(
    alloc: Global,
    conn: &mut Connection<D>,
) -> Result<Option<Text>, StoreFault>
    requires { (state D.Store conn.old).in_transaction ≡ false }
    ensures told { Answers (λ rows. text_held rows Director (codes "root.json"))
        (state D.Store conn.old) (state D.Store conn.new) result }
    ensures read { IsRead (state D.Store conn.old) (state D.Store conn.new) }
{
    let mut tx = conn.transaction();
    file::<D, BodyReading>(&mut tx, alloc, "director", "root.json")
}
