//! Tables of an older version of the schema become those of the latest, in one transaction.

ghost use Rattle.std.specs.Prelude.{◌≡◌, false, OnOk, IfErr};
ghost use Rattle.sqlite.specs.Held.{state};
ghost use Rattle.up_tables.specs.Making.{alone, drop_keys_text, raising, same_numbers_text, set_schema_text, RaisesBy};
ghost use Rattle.up_tables.specs.Opened.{Ends, IsRaised, IsUnraised, RaisedBy, RaisesWithin};
ghost use Rattle.up_tables.specs.Ours.{IsOlder, RaisedFrom};
ghost use Rattle.up_tables.specs.Stands.{IfClean, IsInside};
ghost use Rattle.up_tables.specs.declared.open.SchemaVersion.TheVariants.{One, Two, Three};
ghost use Rattle.up_tables.specs.Statements.{DropsKeys, NamesLatest, RaisesAny, RaisesFrom, TakesNumbers};
ghost use Rattle.up_tables.specs.Tables.{second_schema, third_schema};
ghost use Rattle.up_tables.specs.Versions.{ListsNine, ListsTen};

use crate::create::{make_image_repository, make_image_sha512, make_retired, make_retired_vehicle};
use crate::open::{OpenFault, SchemaVersion, opened};
use sqlite::{Alter, Connection, Error, Transaction};

/// Says that the tables are of the latest version.
fn set_schema<S: Alter>(tx: &mut Transaction<'_, S>) -> Result<usize, Error>
    ensures { RaisesWithin S.Store (alone set_schema_text) NamesLatest tx.old.conn tx.new.conn result }
{
    tx.execute("UPDATE meta SET schema = 4 WHERE id = 1", &[])
}

/// The image repository has as many root versions as the Director, and its Targets the version of its other files.
fn same_numbers<S: Alter>(tx: &mut Transaction<'_, S>) -> Result<usize, Error>
    ensures { RaisesWithin S.Store (alone same_numbers_text) TakesNumbers tx.old.conn tx.new.conn result }
{
    tx.execute(
        "INSERT INTO image_repository (id, root, targets) SELECT id, root, image_version FROM meta",
        &[],
    )
}

/// Secrets of earlier root versions go.
fn drop_keys<S: Alter>(tx: &mut Transaction<'_, S>) -> Result<usize, Error>
    ensures { RaisesWithin S.Store (alone drop_keys_text) DropsKeys tx.old.conn tx.new.conn result }
{
    tx.execute(
        "DELETE FROM role_key WHERE root < (SELECT root FROM meta)",
        &[],
    )
}

/// Tables of version 3 become those of version 4: both repositories have one number, no vehicle was shut out, and the last secrets alone stay.
fn raise_third<S: Alter>(tx: &mut Transaction<'_, S>) -> Result<usize, Error>
    ensures { RaisesWithin S.Store (raising Three) (RaisesAny third_schema ListsTen) tx.old.conn tx.new.conn result }
{
    make_image_repository(tx)?;
    make_retired_vehicle(tx)?;
    same_numbers(tx)?;
    drop_keys(tx)?;
    set_schema(tx)
}

/// Tables of version 2 become those of version 4: no image has a second hash, either.
fn raise_second<S: Alter>(tx: &mut Transaction<'_, S>) -> Result<usize, Error>
    ensures { RaisesWithin S.Store (raising Two) (RaisesAny second_schema ListsNine) tx.old.conn tx.new.conn result }
{
    make_image_sha512(tx)?;
    raise_third(tx)
}

/// Tables of version 1 become those of version 4: no ECU was retired, either.
fn raise_first<S: Alter>(tx: &mut Transaction<'_, S>) -> Result<usize, Error>
    ensures { RaisesWithin S.Store (raising One) (RaisesFrom One) tx.old.conn tx.new.conn result }
{
    make_retired(tx)?;
    raise_second(tx)
}

/// Tables of an older version become those of version 4.
fn raise_tables<S: Alter>(
    tx: &mut Transaction<'_, S>,
    version: SchemaVersion,
) -> Result<usize, Error>
    requires older { IsOlder version }
    requires mode { IfClean IsInside (state S.Store tx.old.conn.now) }
    ensures { RaisedBy S.Store (raising version) (RaisesFrom version) tx.old.conn tx.new.conn result }
{
    match version {
        SchemaVersion::One => raise_first(tx),
        SchemaVersion::Two => raise_second(tx),
        SchemaVersion::Three => raise_third(tx),
        SchemaVersion::Four => Ok(0),
    }
}

/// Raises the tables of an older version in one transaction. A fault leaves the database as it was committed.
pub(crate) fn raise<S: Alter>(
    conn: &mut Connection<S>,
    version: SchemaVersion,
) -> Result<(), OpenFault>
    requires older { IsOlder version }
    requires mode { (state S.Store conn.old).in_transaction ≡ false }
    ensures raised { OnOk result (IsRaised version (state S.Store conn.old) (state S.Store conn.new)) }
    ensures ends { Ends (state S.Store conn.old) (state S.Store conn.new)
        (λ trees. RaisedFrom version (state S.Store conn.old) trees × RaisesBy version (state S.Store conn.old) trees) }
    ensures fault { IfErr result (IsUnraised version (state S.Store conn.old) (state S.Store conn.new)) }
{
    let mut tx = conn.transaction();
    if let Err(fault) = opened(raise_tables(&mut tx, version)) {
        return Err(fault);
    }
    opened(tx.commit())
}
