//! Sections by their words.
use crate::requests::answered::{answered_anyhow, answered_with_faults};
use crate::requests::asked::{asked_cut_anywhere, asked_in_pieces};
use std::alloc::{AllocError, Global};
use up_test_common::calls::Calls;

/// Streams of requests, of which none keeps anything.
#[derive(Clone, Copy, Debug)]
pub(crate) struct Streams;

impl Calls for Streams {
    fn answer(&mut self, alloc: Global, call: &str, given: &str) -> Result<String, AllocError> {
        match call {
            "requests cut at every byte" => asked_cut_anywhere(alloc, given),
            "requests in pieces" => asked_in_pieces(alloc, given),
            "bytes of answers" => answered_anyhow(alloc, given),
            "readers and writers that fail" => answered_with_faults(alloc, given),
            _ => "no such section".to_string(alloc),
        }
    }

    fn is_wanted(&self, had: &str, wanted: &str) -> bool {
        had == wanted
    }
}
