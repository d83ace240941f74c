//! Calls of the lower crates, by cases: each is what a call is given, and what it has to answer.
mod calls;
mod envelopes;
mod file_fields;
mod fits;
mod key_caches;
mod manifests;
mod members;
mod moments;
mod refusals;
mod role_files;
mod schemes;
mod secrets;
mod tables;
mod values;
mod written;

use crate::texts::calls::Texts;
use std::alloc::{AllocError, Global};
use up_test_common::sections::told;

/// What is told of a section.
pub(crate) fn told_in(alloc: Global, section: &str) -> Result<String, AllocError> {
    told(alloc, &mut Texts, section)
}
