//! The store through its public calls, by cases: each is a call and what it has to answer, and each section a run of calls over
//! a database of its own.
//!
//! Each section is carried out over a database in memory and over files on disks that are memory, each time also in turns: before
//! each call the store gives its connection back, the files are closed and opened again, and the store takes them again. A section
//! whose words begin with `each disk call refused` is then carried out over disks of which one fails from its first call on, from its
//! second, and so on, until none fails: what is told has to be the same. A section whose words end with `in files` is carried out
//! over files alone.
//!
//! Where a call that makes or takes the tables is refused, they either answer all that was asked just before as they did, or the call
//! stands whole, which the cases behind it tell.
//!
//! An argument has the sections carried out over one place, `memory` or `files`, so that its requests for memory can be refused in
//! turn.
mod campaigns;
mod disks;
mod fault;
mod held;
mod images;
mod in_files;
mod in_memory;
mod manifests;
mod reads;
mod roots;
mod seen;
mod sweeps;
mod vehicles;
mod ways;
mod words;
mod writes;

use crate::store::sweeps::swept;
use crate::store::ways::{all_ways, one_way};
use std::alloc::{AllocError, Global};

/// What is told of a section over the place that the program's words name, or over both.
pub(crate) fn told_in(
    alloc: Global,
    words: &[String],
    section: &str,
) -> Result<String, AllocError> {
    match words {
        [place, ..] => one_way(alloc, place.as_str(), section),
        [] => told_all(alloc, section),
    }
}

fn told_all(alloc: Global, section: &str) -> Result<String, AllocError> {
    let ways = all_ways(alloc, section)?;
    if !section.starts_with("each disk call refused") {
        return Ok(ways);
    }
    let sweeps = swept(alloc, section)?;
    format!(in alloc; "{ways}\n{sweeps}")
}
