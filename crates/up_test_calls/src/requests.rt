//! Streams of requests, by cases: each is an input, and what its requests ask, or what they are answered.
//!
//! In an input `|` stands for the end of a line. `asked` and `answered` say what is told of a case in each section.
mod answered;
mod asked;
mod calls;
mod fed;
mod responder;

use crate::requests::calls::Streams;
use std::alloc::{AllocError, Global};
use up_test_common::sections::told;

/// What is told of a section.
pub(crate) fn told_in(alloc: Global, section: &str) -> Result<String, AllocError> {
    told(alloc, &mut Streams, section)
}
