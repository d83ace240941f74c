//! Sections over databases in memory and in files.
use crate::store::disks::new_files;
use crate::store::in_files::InFiles;
use crate::store::in_memory::InMemory;
use std::alloc::{AllocError, Global};
use up_test_common::sections::told;

/// What is told of a section over each, also in turns, a line each. One whose words end with `in files` looks at bytes, and is
/// carried out over files alone.
pub(crate) fn all_ways(alloc: Global, section: &str) -> Result<String, AllocError> {
    if words_of(section).ends_with("in files") {
        return over(alloc, "files", section);
    }
    let memory = over(alloc, "memory", section)?;
    let files = over(alloc, "files", section)?;
    let turns = in_turns(alloc, section)?;
    format!(in alloc; "{memory}\n{files}\n{turns}")
}

fn in_turns(alloc: Global, section: &str) -> Result<String, AllocError> {
    let memory = over(alloc, "memory in turns", section)?;
    let files = over(alloc, "files in turns", section)?;
    format!(in alloc; "{memory}\n{files}")
}

/// The words of a section, which stand in its first line.
pub(crate) fn words_of(section: &str) -> &str {
    section.split_once('\n').unwrap_or((section, "")).0
}

fn over(alloc: Global, place: &str, section: &str) -> Result<String, AllocError> {
    let told = one_way(alloc, place, section)?;
    format!(in alloc; "over {place}, {told}")
}

/// What is told of a section over `memory`, `memory in turns`, `files` or `files in turns`.
pub(crate) fn one_way(alloc: Global, place: &str, section: &str) -> Result<String, AllocError> {
    match place {
        "memory" => told(alloc, &mut InMemory::new(alloc, false), section),
        "memory in turns" => told(alloc, &mut InMemory::new(alloc, true), section),
        "files" => in_files(alloc, section, false),
        "files in turns" => in_files(alloc, section, true),
        _ => "no such place".to_string(alloc),
    }
}

fn in_files(alloc: Global, section: &str, turns: bool) -> Result<String, AllocError> {
    let mut files = InFiles::new(alloc, new_files(alloc), turns);
    let told = told(alloc, &mut files, section);
    drop(files);
    told
}
