//! Names in lists.
use crate::each::Reading;
use crate::file_name::FileName;
use crate::ident::Ident;
use crate::readers::{file_name_of, ident_of};
use crate::refusal::Refusal;
use serde_json::Value;
use std::alloc::Global;

/// Identifiers; the list's name is the fault of a value that is none.
pub struct IdentReading;

impl Reading for IdentReading {
    ghost use Rattle.up_canon.specs.Readers.{ident_of as ident_of_value};

    type Item = Ident;

    ghost meaning = { ident_of_value };

    fn read(alloc: Global, value: &Value, place: &'static str) -> Result<Ident, Refusal> {
        ident_of(alloc, value, place)
    }
}

/// Filenames; the list's name is the fault of a value that is none.
pub struct FileNameReading;

impl Reading for FileNameReading {
    ghost use Rattle.up_canon.specs.Readers.{file_name_of as file_name_of_value};

    type Item = FileName;

    ghost meaning = { file_name_of_value };

    fn read(alloc: Global, value: &Value, place: &'static str) -> Result<FileName, Refusal> {
        file_name_of(alloc, value, place)
    }
}
