//! The law of the row that tells whose tables they are.

ghost use Rattle.sqlite.specs.Held.{state};
ghost use Rattle.up_tables.specs.Whose.{VersionsAreInTheRow, TheRowNamesVersions, OthersHaveNoSuchRow, NoSuchRowIsOfOthers};

use sqlite::{Alter, Connection};

/// Over the tables of any version of this product's schema, `meta` names a version just where its one row with the id 1 has the name of this
/// product and that version's number, and it names another product just where that row names no version.
pub fn meta_tells_whose<S: Alter>(conn: &Connection<S>)
    ensures named { VersionsAreInTheRow (state S.Store conn.now) }
    ensures names { TheRowNamesVersions (state S.Store conn.now) }
    ensures others { OthersHaveNoSuchRow (state S.Store conn.now) }
    ensures none { NoSuchRowIsOfOthers (state S.Store conn.now) }
{
    let _ = conn;
}
