//! Sections over disks that fail.
//!
//! The statements at the beginning of a section, before it first asks anything, make the database. They are carried out on disks that
//! never fail.
use crate::store::disks::{failing_files, new_files};
use crate::store::in_files::InFiles;
use crate::store::ways::words_of;
use sqlite::Files;
use sqlite_disk::{Disk, Fuse, Memory};
use std::alloc::{AllocError, Global};
use up_test_common::sections::told;

/// No disk fails within so many calls.
const NEVER: u64 = 1 << 40;

/// A sweep of fewer calls is told: it would say too little.
const FEW: u64 = 8;

/// Which of the two disks fails.
#[derive(Clone, Copy, Debug)]
enum Failing {
    Log,
    Database,
}

/// What is told of a section where the log fails from each of its calls on in turn, and then the database file.
pub(crate) fn swept(alloc: Global, section: &str) -> Result<String, AllocError> {
    let (whole, _) = carried_out(alloc, section, NEVER, NEVER)?;
    let logs = swept_over(alloc, section, Failing::Log, whole.as_str())?;
    let files = swept_over(alloc, section, Failing::Database, whole.as_str())?;
    format!(in alloc;
        "over a log that fails from any call on, {logs}\nover a database file that fails from any call on, {files}"
    )
}

/// What is told of the section each time, or what is told else where a disk fails.
fn swept_over(
    alloc: Global,
    section: &str,
    failing: Failing,
    whole: &str,
) -> Result<String, AllocError> {
    for calls in 0..NEVER {
        let (text, is_last) = failing_at(alloc, section, failing, calls)?;
        if text.as_str() != whole {
            return format!(in alloc; "after {calls} calls {text}");
        }
        if is_last {
            return last_told(alloc, whole, calls);
        }
    }
    "no end".to_string(alloc)
}

fn last_told(alloc: Global, whole: &str, calls: u64) -> Result<String, AllocError> {
    if calls < FEW {
        return format!(in alloc; "{whole} within only {calls} calls");
    }
    whole.to_string(alloc)
}

/// What is told where one disk takes so many calls, and whether it had no more of them.
fn failing_at(
    alloc: Global,
    section: &str,
    failing: Failing,
    calls: u64,
) -> Result<(String, bool), AllocError> {
    match failing {
        Failing::Log => log_failing(alloc, section, calls),
        Failing::Database => database_failing(alloc, section, calls),
    }
}

fn log_failing(alloc: Global, section: &str, calls: u64) -> Result<(String, bool), AllocError> {
    match carried_out(alloc, section, calls, NEVER) {
        Ok((text, files)) => Ok((text, log_is_whole(files, calls))),
        Err(refused) => Err(refused),
    }
}

fn database_failing(
    alloc: Global,
    section: &str,
    calls: u64,
) -> Result<(String, bool), AllocError> {
    match carried_out(alloc, section, NEVER, calls) {
        Ok((text, files)) => Ok((text, database_is_whole(files, calls))),
        Err(refused) => Err(refused),
    }
}

fn log_is_whole(files: Option<Files<Fuse<Memory>>>, calls: u64) -> bool {
    match files {
        Some(files) => fails_within(files.log, calls),
        None => false,
    }
}

fn database_is_whole(files: Option<Files<Fuse<Memory>>>, calls: u64) -> bool {
    match files {
        Some(files) => fails_within(files.db, calls),
        None => false,
    }
}

/// What is told of the section behind its first statements, and the files at its end.
fn carried_out(
    alloc: Global,
    section: &str,
    log: u64,
    db: u64,
) -> Result<(String, Option<Files<Fuse<Memory>>>), AllocError> {
    let (made, asked) = parted(section);
    let Some(files) = files_made(alloc, made)? else {
        return Ok(("no files".to_string(alloc)?, None));
    };
    let rows = format!(in alloc; "{}\nask {asked}", words_of(section))?;
    told_over(alloc, failing_files(files, log, db), rows.as_str())
}

/// The words of a section and the statements that make its database, and what stands behind its first question's `ask`.
fn parted(section: &str) -> (&str, &str) {
    section.split_once("\nask ").unwrap_or((section, ""))
}

/// The files of the database that the statements make.
fn files_made(alloc: Global, statements: &str) -> Result<Option<Files<Memory>>, AllocError> {
    let mut files = InFiles::new(alloc, new_files(alloc), false);
    match told(alloc, &mut files, statements) {
        Ok(_) => Ok(files.into_files()),
        Err(refused) => {
            drop(files);
            Err(refused)
        }
    }
}

fn told_over(
    alloc: Global,
    files: Files<Fuse<Memory>>,
    rows: &str,
) -> Result<(String, Option<Files<Fuse<Memory>>>), AllocError> {
    let mut files = InFiles::new(alloc, files, false);
    match told(alloc, &mut files, rows) {
        Ok(text) => Ok((text, files.into_files())),
        Err(refused) => {
            drop(files);
            Err(refused)
        }
    }
}

/// Whether a disk fails within so many more calls: one that failed before was started again, and takes any number.
fn fails_within(disk: Fuse<Memory>, calls: u64) -> bool {
    let mut disk = disk;
    for _ in 0..=calls {
        if !disk.may_be_used() || disk.len().is_err() {
            return true;
        }
    }
    false
}
