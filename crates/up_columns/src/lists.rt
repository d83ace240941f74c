//! Columns that are lists of values of one kind.
ghost use Rattle.std.specs.Prelude.{◌≡◌, IfOk, OnOk, map, true};
ghost use Rattle.std.specs.List.{list_all};
ghost use Rattle.serde_json.specs.View.{view};
ghost use Rattle.up_canon.specs.Build.{list_with};
ghost use Rattle.up_canon.specs.Refusals.{Gives};
ghost use Rattle.up_columns.specs.Columns.{items_in};

use crate::values::column_value;
use serde_json::Value;
use std::alloc::{AllocError, Global};
use up_canon::each::{Reading, each_of};
use up_canon::kinds::list_of;
use up_canon::listed::Listed;
use up_canon::refusal::Refusal;

/// What is written as a JSON value.
pub(crate) trait ToValue {
    ghost use Rattle.std.specs.Prelude.{◌≡◌, Bool, true, IfOk, OnOk};
    ghost use Rattle.serde_json.specs.Data.{Data};
    ghost use Rattle.serde_json.specs.View.{view};

    // The value that it is written as, and what the types of its parts keep.
    ghost data_of: { Self → Data };

    ghost is_typed: { Self → Bool };

    /// The value.
    fn value(&self, alloc: Global) -> Result<Value, AllocError>
        ensures value { IfOk result (λ v. view v ≡ data_of self.now) }
        ensures typed { OnOk result (is_typed self.now ≡ true) };
}

/// The list of the values.
pub(crate) fn list_value<T: ToValue>(alloc: Global, items: &[T]) -> Result<Value, AllocError>
    ensures value { IfOk result (λ v. view v ≡ list_with (map T.data_of items.now)) }
    ensures typed { OnOk result (list_all T.is_typed items.now ≡ true) }
{
    let mut values = Vec::with_capacity(alloc, items.len())?;
    for item in items {
        values.push(item.value(alloc)?)?;
    }
    Ok(Value::Array(values))
}

/// The items of a column that is a list, or its first fault.
#[tactic(auto, unfolding(crate::specs::Columns::items_in, up_canon::specs::Steps::and_then))]
pub(crate) fn read_items<R: Reading>(
    alloc: Global,
    column: &str,
    name: &'static str,
) -> Result<Listed<R::Item>, Refusal>
    ensures { Gives result (items_in R.meaning name.now column.now) }
{
    let value = column_value(alloc, column)?;
    each_of::<R>(alloc, list_of(&value, name)?.as_slice(), name)
}
