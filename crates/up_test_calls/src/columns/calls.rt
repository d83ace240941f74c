//! Columns by their kinds: what is read of each, and whether it is written so again.
use crate::columns::plans::plan;
use crate::columns::shown::{again, fields_of};
use std::alloc::{AllocError, Global};
use up_canon::file_name::FileName;
use up_canon::ident::Ident;
use up_columns::campaigns::{items_text, reach_text, read_campaign_items, read_reach};
use up_columns::file_names::{file_names_text, read_file_names};
use up_columns::names::{names_text, read_names};
use up_columns::needs::{needs_text, read_needs};
use up_plan::campaign::{Item, Reach};
use up_plan::image::Need;
use up_test_common::calls::Calls;

/// The readers of columns, of which none keeps anything.
#[derive(Clone, Copy, Debug)]
pub(crate) struct Columns;

impl Calls for Columns {
    fn answer(&mut self, alloc: Global, call: &str, given: &str) -> Result<String, AllocError> {
        match call {
            "names in columns" => names(alloc, given),
            "filenames in columns" => file_names(alloc, given),
            "needs in columns" => needs(alloc, given),
            "items in columns" => items(alloc, given),
            "reaches in columns" => reach(alloc, given),
            "plans in columns" => plan(alloc, given),
            _ => "no such column".to_string(alloc),
        }
    }

    fn is_wanted(&self, had: &str, wanted: &str) -> bool {
        had == wanted
    }
}

fn names(alloc: Global, column: &str) -> Result<String, AllocError> {
    match read_names(alloc, column) {
        Ok(names) => names_again(alloc, names.as_slice(), column),
        Err(refusal) => refusal.text(alloc),
    }
}

fn names_again(alloc: Global, names: &[Ident], column: &str) -> Result<String, AllocError> {
    let fields = fields_of(alloc, names)?;
    again(alloc, fields, names_text(alloc, names), column)
}

fn file_names(alloc: Global, column: &str) -> Result<String, AllocError> {
    match read_file_names(alloc, column) {
        Ok(names) => file_names_again(alloc, names.as_slice(), column),
        Err(refusal) => refusal.text(alloc),
    }
}

fn file_names_again(alloc: Global, names: &[FileName], column: &str) -> Result<String, AllocError> {
    let fields = fields_of(alloc, names)?;
    again(alloc, fields, file_names_text(alloc, names), column)
}

fn needs(alloc: Global, column: &str) -> Result<String, AllocError> {
    match read_needs(alloc, column) {
        Ok(needs) => needs_again(alloc, needs.as_slice(), column),
        Err(refusal) => refusal.text(alloc),
    }
}

fn needs_again(alloc: Global, needs: &[Need], column: &str) -> Result<String, AllocError> {
    let fields = fields_of(alloc, needs)?;
    again(alloc, fields, needs_text(alloc, needs), column)
}

fn items(alloc: Global, column: &str) -> Result<String, AllocError> {
    match read_campaign_items(alloc, column) {
        Ok(items) => items_again(alloc, items.as_slice(), column),
        Err(refusal) => refusal.text(alloc),
    }
}

fn items_again(alloc: Global, items: &[Item], column: &str) -> Result<String, AllocError> {
    let fields = fields_of(alloc, items)?;
    again(alloc, fields, items_text(alloc, items), column)
}

fn reach(alloc: Global, column: &str) -> Result<String, AllocError> {
    match read_reach(alloc, column) {
        Ok(reach) => reach_again(alloc, &reach, column),
        Err(refusal) => refusal.text(alloc),
    }
}

fn reach_again(alloc: Global, reach: &Reach, column: &str) -> Result<String, AllocError> {
    let fields = match reach {
        Reach::All => "all vehicles".to_string(alloc)?,
        Reach::Named(vehicles) => fields_of(alloc, vehicles.as_slice())?,
    };
    again(alloc, fields, reach_text(alloc, reach), column)
}
