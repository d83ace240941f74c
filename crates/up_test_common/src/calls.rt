//! What answers rows.
use std::alloc::{AllocError, Global};

/// The calls that are tested, with what is kept between rows of one section.
pub trait Calls {
    /// What the call of these words answers to what is given.
    fn answer(&mut self, alloc: Global, call: &str, given: &str) -> Result<String, AllocError>;

    /// Whether an answer is what a row wants.
    fn is_wanted(&self, had: &str, wanted: &str) -> bool;
}
