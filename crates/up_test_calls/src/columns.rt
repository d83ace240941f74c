//! Columns that hold lists and plans, by cases: each is a column, and what is read of it and written again, or its first fault.
mod calls;
mod plans;
mod shown;

use crate::columns::calls::Columns;
use std::alloc::{AllocError, Global};
use up_test_common::sections::told;

/// What is told of a section.
pub(crate) fn told_in(alloc: Global, section: &str) -> Result<String, AllocError> {
    told(alloc, &mut Columns, section)
}
