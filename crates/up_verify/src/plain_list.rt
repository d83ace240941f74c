//! Lists in canonical text, read item by item without a tree of their values.
ghost use Rattle.std.specs.Prelude.{◌≡◌, ◌++◌, IsTrue, IfOk, map};
ghost use Rattle.std.specs.List.{list_all};
ghost use Rattle.up_canon.specs.Build.{list_with};
ghost use Rattle.up_canon.specs.Canon.{text};

use std::alloc::Global;
use up_canon::listed::Listed;
use up_manifest::cursor::{Cursor, Unread};

/// What stands in a list.
pub(crate) trait Item: Drop {
    ghost use Rattle.std.specs.Prelude.{◌≡◌, ◌++◌, Bool, IsTrue, IfOk};
    ghost use Rattle.serde_json.specs.Data.{Data};
    ghost use Rattle.up_canon.specs.Canon.{text};

    /// Its JSON value.
    ghost value_of: { Self → Data };

    /// Whether it is within its limits.
    ghost is_fit: { Self → Bool };

    /// Takes one.
    fn take(alloc: Global, cursor: &mut Cursor<'_>) -> Result<Self, Unread>
        ensures text { IfOk result (λ x. cursor.old.rest.now ≡ text (value_of x) ++ cursor.new.rest.now) }
        ensures fits { IfOk result (λ x. IsTrue (is_fit x)) };
}

/// Takes a list of them.
pub(crate) fn listed<T: Item>(alloc: Global, cursor: &mut Cursor<'_>) -> Result<Listed<T>, Unread>
    ensures text { IfOk result
        (λ xs. cursor.old.rest.now ≡ text (list_with (map T.value_of xs)) ++ cursor.new.rest.now) }
    ensures fits { IfOk result (λ xs. IsTrue (list_all T.is_fit xs)) }
{
    cursor.pass("[")?;
    let mut items = Vec::new(alloc);
    let mut separator = "";
    for turn in 0..u64::MAX {
        if cursor.takes("]") {
            return Ok(Listed::new(items));
        }
        cursor.pass(separator)?;
        items.push(T::take(alloc, cursor)?)?;
        separator = ",";
    }
    Err(Unread)
}
