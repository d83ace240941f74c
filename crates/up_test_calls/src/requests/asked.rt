//! What the requests of an input ask, however it is cut, and how many they are.
//!
//! `NUMBER: WHAT; WHAT; ..` tells the number of `requests_of` and what the requests of a feeder ask. In the section of pieces the
//! number of bytes stands before it.
use crate::requests::fed::fed;
use std::alloc::{AllocError, Global};
use up_http::stream::requests_of;
use up_test_common::devices::bytes_of;

/// More than an input has.
const WHOLE: usize = 1_000_000;

/// What is asked by an input whole, a byte at a time, and in two pieces cut at every byte, which has to be the same.
pub(crate) fn asked_cut_anywhere(alloc: Global, given: &str) -> Result<String, AllocError> {
    let bytes = bytes_of(alloc, given)?;
    let whole = fed(alloc, bytes.as_slice(), 0, WHOLE)?;
    let differing = differing_cut(alloc, bytes.as_slice(), whole.as_str())?;
    told(alloc, bytes.as_slice(), whole.as_str(), differing)
}

/// The cut at which something else is asked; that behind the last byte stands for pieces of one byte.
fn differing_cut(alloc: Global, bytes: &[u8], whole: &str) -> Result<Option<usize>, AllocError> {
    for cut in 0..bytes.len() {
        if differs(alloc, bytes, cut, WHOLE, whole)? {
            return Ok(Some(cut));
        }
    }
    piece_that_differs(alloc, bytes, 1, whole)
}

fn differs(
    alloc: Global,
    bytes: &[u8],
    cut: usize,
    step: usize,
    whole: &str,
) -> Result<bool, AllocError> {
    let asked = fed(alloc, bytes, cut, step)?;
    Ok(asked.as_str() != whole)
}

fn piece_that_differs(
    alloc: Global,
    bytes: &[u8],
    step: usize,
    whole: &str,
) -> Result<Option<usize>, AllocError> {
    if differs(alloc, bytes, 0, step, whole)? {
        Ok(Some(bytes.len()))
    } else {
        Ok(None)
    }
}

/// What is asked by an input whole, in pieces of 8,192 bytes and a byte at a time, which has to be the same.
pub(crate) fn asked_in_pieces(alloc: Global, given: &str) -> Result<String, AllocError> {
    let bytes = bytes_of(alloc, given)?;
    let whole = fed(alloc, bytes.as_slice(), 0, WHOLE)?;
    let differing = differing_piece(alloc, bytes.as_slice(), whole.as_str())?;
    let line = told(alloc, bytes.as_slice(), whole.as_str(), differing)?;
    format!(in alloc; "{} bytes, {line}", bytes.len())
}

fn differing_piece(alloc: Global, bytes: &[u8], whole: &str) -> Result<Option<usize>, AllocError> {
    match piece_that_differs(alloc, bytes, 8_192, whole)? {
        Some(cut) => Ok(Some(cut)),
        None => piece_that_differs(alloc, bytes, 1, whole),
    }
}

fn told(
    alloc: Global,
    bytes: &[u8],
    whole: &str,
    differing: Option<usize>,
) -> Result<String, AllocError> {
    let number = number_of_requests(alloc, bytes)?;
    match differing {
        Some(cut) => format!(in alloc; "something else at {cut} than {whole}"),
        None => format!(in alloc; "{number}: {whole}"),
    }
}

fn number_of_requests(alloc: Global, bytes: &[u8]) -> Result<usize, AllocError> {
    let nexts = requests_of(alloc, bytes)?;
    Ok(nexts.len())
}
