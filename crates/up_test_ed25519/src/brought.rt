//! Files signed elsewhere, by cases: each is what a call is given, and what it has to answer. `brought_cases` makes them.
mod calls;
mod words;

use crate::brought::calls::Brought;
use std::alloc::{AllocError, Global};
use up_test_common::sections::told;

/// What is told of a section.
pub(crate) fn told_in(alloc: Global, section: &str) -> Result<String, AllocError> {
    told(alloc, &mut Brought, section)
}
