//! What is read of each value of a list.
ghost use Rattle.up_canon.specs.Members.{values_of};
ghost use Rattle.up_canon.specs.Refusals.{Gives};
ghost use Rattle.up_canon.specs.Steps.{each};

use crate::listed::Listed;
use crate::refusal::Refusal;
use serde_json::Value;
use std::alloc::Global;

/// A way to read a value of a list: what it means, where the list has this name.
pub trait Reading {
    ghost use Rattle.std.specs.Prelude.{ℕ, List, Result};
    ghost use Rattle.serde_json.specs.Data.{Data};
    ghost use Rattle.serde_json.specs.View.{view};
    ghost use Rattle.up_canon.specs.Refusals.{Gives};
    ghost use Rattle.up_canon.specs.declared.refusal.Refusal.{Refusal};

    /// What is read.
    type Item: Drop;

    /// What a value means in a list of that name, or its first fault.
    ghost meaning: { List ℕ → Data → Result Self.Item Refusal };

    /// Reads it.
    fn read(alloc: Global, value: &Value, place: &'static str) -> Result<Self::Item, Refusal>
        ensures { Gives result (meaning place.now (view value.now)) };
}

/// What each of the values means, in order, or the first fault of the first that has one. Memory is taken as they are
/// read, so that a long list whose first item has a fault takes none for the others.
#[tactic(auto, unfolding(crate::specs::Steps::each, crate::specs::Steps::and_then))]
pub fn each_of<R: Reading>(
    alloc: Global,
    values: &[Value],
    place: &'static str,
) -> Result<Listed<R::Item>, Refusal>
    ensures { Gives result (each (R.meaning place.now) (values_of values.now)) }
{
    let mut read = Vec::new(alloc);
    for value in values {
        read.push(R::read(alloc, value, place)?)?;
    }
    Ok(Listed::new(read))
}
