//! Role files, read, copied and written again.
ghost use Rattle.std.specs.Prelude.{◌≤◌, IsTrue, length};
ghost use Rattle.std.specs.List.{list_all};

use crate::texts::file_fields::{root_fields, snapshot_fields, targets_fields, timestamp_fields};
use crate::texts::written::written;
use std::alloc::{AllocError, Global};
use up_canon::bytes::Bytes;
use up_canon::listed::Duplicate;
use up_roles::lifetimes::{Lifetimes, lifetimes_of};
use up_roles::repository::Repository;
use up_roles::root::{RootFile, read_root};
use up_roles::root_text::root_text;
use up_roles::snapshot::{SnapshotFile, read_snapshot, snapshot_text};
use up_roles::targets::{TargetsFile, read_targets};
use up_roles::targets_text::targets_text;
use up_roles::timestamp::{TimestampFile, read_timestamp, timestamp_text};
use up_sign::scheme::Scheme;

/// In seconds, how long the files of a repository are valid.
pub(crate) fn lifetimes(alloc: Global, repository: &str) -> Result<String, AllocError> {
    match repository {
        "director" => lifetimes_text(alloc, lifetimes_of(Repository::Director)),
        "image" => lifetimes_text(alloc, lifetimes_of(Repository::Image)),
        _ => "no repository".to_string(alloc),
    }
}

fn lifetimes_text(alloc: Global, spans: Lifetimes) -> Result<String, AllocError> {
    format!(in alloc;
        "root {} targets {} snapshot {} timestamp {}",
        spans.root, spans.targets, spans.snapshot, spans.timestamp
    )
}

/// A Root file.
pub(crate) fn root<K: Scheme>(
    alloc: Global,
    scheme: &K,
    secrets: &[Bytes],
    body: &str,
) -> Result<String, AllocError>
    requires fit { IsTrue (list_all (K.rules scheme.now).secret_fits secrets.now) }
    requires number { (1 ≤ length secrets.now) × (length secrets.now ≤ 8) }
{
    match read_root(alloc, body.as_bytes()) {
        Ok((file, envelope)) => {
            let signed = envelope.signed.as_str();
            root_again(alloc, scheme, secrets, body, signed, &file)
        }
        Err(refusal) => refusal.text(alloc),
    }
}

fn root_again<K: Scheme>(
    alloc: Global,
    scheme: &K,
    secrets: &[Bytes],
    body: &str,
    signed: &str,
    file: &RootFile,
) -> Result<String, AllocError>
    requires fit { IsTrue (list_all (K.rules scheme.now).secret_fits secrets.now) }
    requires number { (1 ≤ length secrets.now) × (length secrets.now ≤ 8) }
{
    let fields = root_fields(alloc, file)?;
    let text = root_written(alloc, scheme, secrets, &file.copy(alloc)?)?;
    written(alloc, fields.as_str(), body, signed, text.as_str())
}

fn root_written<K: Scheme>(
    alloc: Global,
    scheme: &K,
    secrets: &[Bytes],
    file: &RootFile,
) -> Result<String, AllocError>
    requires fit { IsTrue (list_all (K.rules scheme.now).secret_fits secrets.now) }
    requires number { (1 ≤ length secrets.now) × (length secrets.now ≤ 8) }
{
    if file.fits() {
        root_text(alloc, scheme, secrets, file)
    } else {
        "beyond the limits".to_string(alloc)
    }
}

/// A Targets file.
pub(crate) fn targets<K: Scheme>(
    alloc: Global,
    scheme: &K,
    secrets: &[Bytes],
    body: &str,
) -> Result<String, AllocError>
    requires fit { IsTrue (list_all (K.rules scheme.now).secret_fits secrets.now) }
    requires number { (1 ≤ length secrets.now) × (length secrets.now ≤ 8) }
{
    match read_targets(alloc, body.as_bytes()) {
        Ok((file, envelope)) => {
            let signed = envelope.signed.as_str();
            targets_again(alloc, scheme, secrets, body, signed, &file)
        }
        Err(refusal) => refusal.text(alloc),
    }
}

fn targets_again<K: Scheme>(
    alloc: Global,
    scheme: &K,
    secrets: &[Bytes],
    body: &str,
    signed: &str,
    file: &TargetsFile,
) -> Result<String, AllocError>
    requires fit { IsTrue (list_all (K.rules scheme.now).secret_fits secrets.now) }
    requires number { (1 ≤ length secrets.now) × (length secrets.now ≤ 8) }
{
    let fields = targets_fields(alloc, file)?;
    let text = targets_written(alloc, scheme, secrets, &file.copy(alloc)?)?;
    written(alloc, fields.as_str(), body, signed, text.as_str())
}

fn targets_written<K: Scheme>(
    alloc: Global,
    scheme: &K,
    secrets: &[Bytes],
    file: &TargetsFile,
) -> Result<String, AllocError>
    requires fit { IsTrue (list_all (K.rules scheme.now).secret_fits secrets.now) }
    requires number { (1 ≤ length secrets.now) × (length secrets.now ≤ 8) }
{
    if file.fits(alloc)? {
        targets_text(alloc, scheme, secrets, file)
    } else {
        "beyond the limits".to_string(alloc)
    }
}

/// A Snapshot file.
pub(crate) fn snapshot<K: Scheme>(
    alloc: Global,
    scheme: &K,
    secrets: &[Bytes],
    body: &str,
) -> Result<String, AllocError>
    requires fit { IsTrue (list_all (K.rules scheme.now).secret_fits secrets.now) }
    requires number { (1 ≤ length secrets.now) × (length secrets.now ≤ 8) }
{
    match read_snapshot(alloc, body.as_bytes()) {
        Ok((file, envelope)) => {
            let signed = envelope.signed.as_str();
            snapshot_again(alloc, scheme, secrets, body, signed, &file)
        }
        Err(refusal) => refusal.text(alloc),
    }
}

fn snapshot_again<K: Scheme>(
    alloc: Global,
    scheme: &K,
    secrets: &[Bytes],
    body: &str,
    signed: &str,
    file: &SnapshotFile,
) -> Result<String, AllocError>
    requires fit { IsTrue (list_all (K.rules scheme.now).secret_fits secrets.now) }
    requires number { (1 ≤ length secrets.now) × (length secrets.now ≤ 8) }
{
    let fields = snapshot_fields(alloc, file)?;
    let text = snapshot_written(alloc, scheme, secrets, &file.copy(alloc)?)?;
    written(alloc, fields.as_str(), body, signed, text.as_str())
}

fn snapshot_written<K: Scheme>(
    alloc: Global,
    scheme: &K,
    secrets: &[Bytes],
    file: &SnapshotFile,
) -> Result<String, AllocError>
    requires fit { IsTrue (list_all (K.rules scheme.now).secret_fits secrets.now) }
    requires number { (1 ≤ length secrets.now) × (length secrets.now ≤ 8) }
{
    if file.fits() {
        snapshot_text(alloc, scheme, secrets, file)
    } else {
        "beyond the limits".to_string(alloc)
    }
}

/// A Timestamp file.
pub(crate) fn timestamp<K: Scheme>(
    alloc: Global,
    scheme: &K,
    secrets: &[Bytes],
    body: &str,
) -> Result<String, AllocError>
    requires fit { IsTrue (list_all (K.rules scheme.now).secret_fits secrets.now) }
    requires number { (1 ≤ length secrets.now) × (length secrets.now ≤ 8) }
{
    match read_timestamp(alloc, body.as_bytes()) {
        Ok((file, envelope)) => {
            let signed = envelope.signed.as_str();
            timestamp_again(alloc, scheme, secrets, body, signed, &file)
        }
        Err(refusal) => refusal.text(alloc),
    }
}

fn timestamp_again<K: Scheme>(
    alloc: Global,
    scheme: &K,
    secrets: &[Bytes],
    body: &str,
    signed: &str,
    file: &TimestampFile,
) -> Result<String, AllocError>
    requires fit { IsTrue (list_all (K.rules scheme.now).secret_fits secrets.now) }
    requires number { (1 ≤ length secrets.now) × (length secrets.now ≤ 8) }
{
    let fields = timestamp_fields(alloc, file)?;
    let text = timestamp_written(alloc, scheme, secrets, &file.copy(alloc)?)?;
    written(alloc, fields.as_str(), body, signed, text.as_str())
}

fn timestamp_written<K: Scheme>(
    alloc: Global,
    scheme: &K,
    secrets: &[Bytes],
    file: &TimestampFile,
) -> Result<String, AllocError>
    requires fit { IsTrue (list_all (K.rules scheme.now).secret_fits secrets.now) }
    requires number { (1 ≤ length secrets.now) × (length secrets.now ≤ 8) }
{
    if file.fits() {
        timestamp_text(alloc, scheme, secrets, file)
    } else {
        "beyond the limits".to_string(alloc)
    }
}
