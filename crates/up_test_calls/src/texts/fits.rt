//! Whether role files are within the limits that their writers require, with other numbers in them than were read.
//!
//! What is given is two numbers and a body. The first stands in place of the file's version.
use std::alloc::{AllocError, Global};
use up_canon::listed::{Duplicate, Listed};
use up_roles::root::{RootFile, read_root};
use up_roles::snapshot::{SnapshotFile, read_snapshot};
use up_roles::targets::{Target, TargetsFile, read_targets};
use up_roles::timestamp::{TimestampFile, read_timestamp};

/// Two numbers and the body behind them.
fn parted(given: &str) -> Option<(u64, u64, &str)> {
    let (first, rest) = given.split_once(' ')?;
    let (second, body) = rest.split_once(' ')?;
    match (first.parse::<u64>(), second.parse::<u64>()) {
        (Ok(first), Ok(second)) => Some((first, second, body)),
        _ => None,
    }
}

/// The second number is the threshold of the role root.
pub(crate) fn root_fits(alloc: Global, given: &str) -> Result<String, AllocError> {
    let Some((version, threshold, body)) = parted(given) else {
        return "no numbers".to_string(alloc);
    };
    match read_root(alloc, body.as_bytes()) {
        Ok((file, _)) => told(alloc, changed_root_fits(file, version, threshold)),
        Err(refusal) => refusal.text(alloc),
    }
}

fn told(alloc: Global, fits: bool) -> Result<String, AllocError> {
    format!(in alloc; "{fits}")
}

fn changed_root_fits(file: RootFile, version: u64, threshold: u64) -> bool {
    let mut file = file;
    file.version = version;
    file.root.threshold = u32::try_from(threshold).unwrap_or(u32::MAX);
    file.fits()
}

/// The second number is how often the list of targets stands, one behind another.
pub(crate) fn targets_fit(alloc: Global, given: &str) -> Result<String, AllocError> {
    let Some((version, times, body)) = parted(given) else {
        return "no numbers".to_string(alloc);
    };
    match read_targets(alloc, body.as_bytes()) {
        Ok((file, _)) => changed_targets_fit(alloc, file, version, times),
        Err(refusal) => refusal.text(alloc),
    }
}

fn changed_targets_fit(
    alloc: Global,
    file: TargetsFile,
    version: u64,
    times: u64,
) -> Result<String, AllocError> {
    let mut file = file;
    file.version = version;
    file.targets = repeated(alloc, file.targets.as_slice(), times)?;
    let fits = file.fits(alloc)?;
    told(alloc, fits)
}

fn repeated(alloc: Global, targets: &[Target], times: u64) -> Result<Listed<Target>, AllocError> {
    let mut all = Vec::new(alloc);
    for _ in 0..times {
        push_copies(alloc, &mut all, targets)?;
    }
    Ok(Listed::new(all))
}

fn push_copies(alloc: Global, all: &mut Vec<Target>, targets: &[Target]) -> Result<(), AllocError> {
    for target in targets {
        all.push(target.copy(alloc)?)?;
    }
    Ok(())
}

/// The second number is the version of the Targets file.
pub(crate) fn snapshot_fits(alloc: Global, given: &str) -> Result<String, AllocError> {
    let Some((version, below, body)) = parted(given) else {
        return "no numbers".to_string(alloc);
    };
    match read_snapshot(alloc, body.as_bytes()) {
        Ok((file, _)) => told(alloc, changed_snapshot_fits(file, version, below)),
        Err(refusal) => refusal.text(alloc),
    }
}

fn changed_snapshot_fits(file: SnapshotFile, version: u64, below: u64) -> bool {
    let mut file = file;
    file.version = version;
    file.targets_version = below;
    file.fits()
}

/// The second number is the version of the Snapshot.
pub(crate) fn timestamp_fits(alloc: Global, given: &str) -> Result<String, AllocError> {
    let Some((version, below, body)) = parted(given) else {
        return "no numbers".to_string(alloc);
    };
    match read_timestamp(alloc, body.as_bytes()) {
        Ok((file, _)) => told(alloc, changed_timestamp_fits(file, version, below)),
        Err(refusal) => refusal.text(alloc),
    }
}

fn changed_timestamp_fits(file: TimestampFile, version: u64, below: u64) -> bool {
    let mut file = file;
    file.version = version;
    file.snapshot_version = below;
    file.fits()
}
