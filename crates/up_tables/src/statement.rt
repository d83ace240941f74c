//! One statement within a transaction: a write, or a query whose rows are read.

ghost use Rattle.std.specs.List.{AllByRecursion};
ghost use Rattle.sqlite.specs.Values.{bound};
ghost use Rattle.up_tables.specs.Stored.{AreLines, EachSays, IsAsked, IsCarriedOut, IsLine, IsTold, Tells};

use crate::reading::{RowReading, each_value, one_value};
use crate::values::{StoreFault, done};
use sqlite::{Alter, Transaction};
use sqlite_value::value::ValueRef;
use std::alloc::Global;

/// Carries out a statement that writes.
pub(crate) fn write<S: Alter>(
    tx: &mut Transaction<'_, S>,
    sql: &str,
    values: &[ValueRef<'_>],
) -> Result<(), StoreFault>
    ensures { IsCarriedOut S.Store sql.now (bound values.now) tx.old.conn tx.new.conn result }
{
    done(tx.execute(sql, values))
}

/// Asks for the value of one row at most.
pub(crate) fn find_value<S: Alter, R: RowReading>(
    tx: &mut Transaction<'_, S>,
    alloc: Global,
    sql: &str,
    values: &[ValueRef<'_>],
) -> Result<Option<R::Item>, StoreFault>
    ensures { IsAsked S.Store sql.now (bound values.now) (IsTold R.says R.fits R.line) (AreLines R.fits R.line)
        tx.old.conn tx.new.conn result }
{
    one_value::<R>(alloc, tx.query_all(sql, values))
}

/// Asks for the values of rows.
pub(crate) fn list_values<S: Alter, R: RowReading>(
    tx: &mut Transaction<'_, S>,
    alloc: Global,
    sql: &str,
    values: &[ValueRef<'_>],
) -> Result<Vec<R::Item>, StoreFault>
    ensures { IsAsked S.Store sql.now (bound values.now)
        (λ rows found. EachSays (Tells R.says R.fits R.line) rows found.items) (AllByRecursion (IsLine R.fits R.line))
        tx.old.conn tx.new.conn result }
{
    each_value::<R>(alloc, tx.query_all(sql, values))
}
