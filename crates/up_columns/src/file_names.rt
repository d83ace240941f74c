//! Lists of filenames.
ghost use Rattle.std.specs.Prelude.{◌≡◌, List, Ok, IfOk, OnOk, string_bytes, true};
ghost use Rattle.std.specs.List.{list_all};
ghost use Rattle.up_canon.specs.Names.{Name, is_file_name};
ghost use Rattle.up_canon.specs.Refusals.{Gives};
ghost use Rattle.up_columns.specs.Columns.{names_column, file_names_in};

use crate::lists::{ToValue, list_value, read_items};
use serde_json::Value;
use std::alloc::{AllocError, Global};
use up_canon::canonical::canonical_text;
use up_canon::canonical_laws;
use up_canon::file_name::FileName;
use up_canon::listed::Listed;
use up_canon::name_readings::FileNameReading;
use up_canon::refusal::Refusal;

impl ToValue for FileName {
    ghost use Rattle.serde_json.specs.Data.{string};
    ghost use Rattle.up_canon.specs.Names.{is_file_name};

    ghost data_of = { λ name. string name };

    ghost is_typed = { λ name. is_file_name name };

    fn value(&self, alloc: Global) -> Result<Value, AllocError> {
        Value::try_from_str(alloc, self.text())
    }
}

/// The column of a list of filenames.
#[tactic(auto, unfolding(crate::specs::Columns::names_column))]
pub fn file_names_text(alloc: Global, names: &[FileName]) -> Result<String, AllocError>
    ensures column { IfOk result (λ t. string_bytes t ≡ names_column names.now) }
    ensures typed { OnOk result (list_all is_file_name names.now ≡ true) }
{
    let value = list_value(alloc, names)?;
    canonical_text(alloc, &value)
}

/// The filenames of a column: `Memory`, or the first fault of a text that can't be read as a list of filenames.
pub fn read_file_names(alloc: Global, column: &str) -> Result<Listed<FileName>, Refusal>
    ensures read { Gives result (file_names_in column.now) }
    ensures again { (names : List Name) → list_all is_file_name names ≡ true → column.now ≡ names_column names
        → Gives result (Ok names) }
{
    canonical_laws();
    read_items::<FileNameReading>(alloc, column, "names")
}
