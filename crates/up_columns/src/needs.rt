//! The needs of an image.
ghost use Rattle.std.specs.Prelude.{◌≡◌, List, Ok, IfOk, OnOk, string_bytes, true};
ghost use Rattle.std.specs.List.{list_all};
ghost use Rattle.up_canon.specs.Refusals.{Gives};
ghost use Rattle.up_columns.specs.Columns.{needs_column, needs_in};
ghost use Rattle.up_columns.specs.Typed.{is_typed_need};
ghost use Rattle.up_plan.specs.declared.image.Need.{Need as NeedData};

use crate::lists::{ToValue, list_value, read_items};
use serde_json::{Value, json};
use std::alloc::{AllocError, Global};
use up_canon::canonical::canonical_text;
use up_canon::canonical_laws;
use up_canon::each::Reading;
use up_canon::fields::count_at;
use up_canon::kinds::object_of;
use up_canon::listed::Listed;
use up_canon::readers::ident_at;
use up_canon::refusal::Refusal;
use up_plan::image::Need;

/// Needs, `{"hardware","release"}`; the list's name is the fault of what is no object.
pub struct NeedReading;

impl Reading for NeedReading {
    ghost use Rattle.up_columns.specs.Columns.{need_of};

    type Item = Need;

    ghost meaning = { need_of };

    #[tactic(auto, unfolding(crate::specs::Columns::need_of, up_canon::specs::Steps::and_then))]
    fn read(alloc: Global, value: &Value, place: &'static str) -> Result<Need, Refusal> {
        let need = object_of(value, place)?;
        let hardware = ident_at(alloc, need, "hardware")?;
        let release = count_at(need, "release")?;
        Ok(Need { hardware, release })
    }
}

impl ToValue for Need {
    ghost use Rattle.up_columns.specs.Columns.{need_data};
    ghost use Rattle.up_columns.specs.Typed.{is_typed_need};

    ghost data_of = { need_data };

    ghost is_typed = { is_typed_need };

    fn value(&self, alloc: Global) -> Result<Value, AllocError> {
        json!(in alloc; {"hardware": self.hardware.text(), "release": self.release.get()})
    }
}

/// The column of a list of needs.
#[tactic(auto, unfolding(crate::specs::Columns::needs_column))]
pub fn needs_text(alloc: Global, needs: &[Need]) -> Result<String, AllocError>
    ensures column { IfOk result (λ t. string_bytes t ≡ needs_column needs.now) }
    ensures typed { OnOk result (list_all is_typed_need needs.now ≡ true) }
{
    let value = list_value(alloc, needs)?;
    canonical_text(alloc, &value)
}

/// The needs of a column: `Memory`, or the first fault of a text that can't be read as a list of needs.
pub fn read_needs(alloc: Global, column: &str) -> Result<Listed<Need>, Refusal>
    ensures read { Gives result (needs_in column.now) }
    ensures again { (needs : List NeedData) → list_all is_typed_need needs ≡ true → column.now ≡ needs_column needs
        → Gives result (Ok needs) }
{
    canonical_laws();
    read_items::<NeedReading>(alloc, column, "needs")
}
