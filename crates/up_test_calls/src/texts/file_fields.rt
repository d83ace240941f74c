//! The fields of role files, as texts.
use crate::texts::values::{hashes_digits, hex_digits};
use std::alloc::{AllocError, Global};
use up_canon::ident::Ident;
use up_canon::moment::Moment;
use up_roles::repository::Repository;
use up_roles::root::{RoleKeys, RootFile, RootKey};
use up_roles::snapshot::SnapshotFile;
use up_roles::targets::{Target, TargetsFile};
use up_roles::timestamp::TimestampFile;

/// Repository, version, moment of expiry in seconds and vehicle.
fn head(
    alloc: Global,
    repository: Repository,
    version: u64,
    expires: Moment,
    vehicle: &str,
) -> Result<String, AllocError> {
    let repository = match repository {
        Repository::Director => "director",
        Repository::Image => "image",
    };
    format!(in alloc; "{repository} {version} {} {vehicle}", expires.get())
}

fn name_or_none(name: &Option<Ident>) -> &str {
    match name {
        Some(name) => name.text(),
        None => "none",
    }
}

/// The head of a Root, and the keys of root, targets, snapshot and timestamp.
pub(crate) fn root_fields(alloc: Global, file: &RootFile) -> Result<String, AllocError> {
    let mut out = head(alloc, file.repository, file.version, file.expires, "none")?;
    push_role(alloc, &mut out, &file.root)?;
    push_role(alloc, &mut out, &file.targets)?;
    push_role(alloc, &mut out, &file.snapshot)?;
    push_role(alloc, &mut out, &file.timestamp)?;
    Ok(out)
}

fn push_role(alloc: Global, out: &mut String, role: &RoleKeys) -> Result<(), AllocError> {
    let threshold = format!(in alloc; "; {} of", role.threshold)?;
    out.push_str(threshold.as_str())?;
    for key in role.keys.as_slice() {
        push_key(alloc, out, key)?;
    }
    Ok(())
}

fn push_key(alloc: Global, out: &mut String, key: &RootKey) -> Result<(), AllocError> {
    let (keyid, method, shown) = (key.keyid.as_str(), key.method.as_str(), key.shown.as_str());
    let text = format!(in alloc; " {keyid} by {method} [{shown}]")?;
    out.push_str(text.as_str())
}

/// The head of a Targets file, and each target.
pub(crate) fn targets_fields(alloc: Global, file: &TargetsFile) -> Result<String, AllocError> {
    let vehicle = name_or_none(&file.vehicle);
    let mut out = head(alloc, file.repository, file.version, file.expires, vehicle)?;
    for target in file.targets.as_slice() {
        push_target(alloc, &mut out, target)?;
    }
    Ok(out)
}

fn push_target(alloc: Global, out: &mut String, target: &Target) -> Result<(), AllocError> {
    let (ecu, file) = (name_or_none(&target.ecu), target.file.text());
    let (length, release) = (target.length.get(), target.release.get());
    let hashes = hashes_digits(alloc, &target.sha256, &target.sha512)?;
    let text = format!(in alloc; "; {ecu} {file} {length} {hashes} {release}")?;
    out.push_str(text.as_str())?;
    push_names(out, target.hardware.as_slice())
}

fn push_names(out: &mut String, names: &[Ident]) -> Result<(), AllocError> {
    for name in names {
        out.push(' ')?;
        out.push_str(name.text())?;
    }
    Ok(())
}

/// The head of a Snapshot, and the version of the Targets file.
pub(crate) fn snapshot_fields(alloc: Global, file: &SnapshotFile) -> Result<String, AllocError> {
    let vehicle = name_or_none(&file.vehicle);
    let head = head(alloc, file.repository, file.version, file.expires, vehicle)?;
    format!(in alloc; "{head}; {}", file.targets_version)
}

/// The head of a Timestamp, and the version and the hash of the Snapshot.
pub(crate) fn timestamp_fields(alloc: Global, file: &TimestampFile) -> Result<String, AllocError> {
    let vehicle = name_or_none(&file.vehicle);
    let head = head(alloc, file.repository, file.version, file.expires, vehicle)?;
    let sha256 = hex_digits(alloc, &file.snapshot_sha256[..])?;
    format!(in alloc; "{head}; {} {sha256}", file.snapshot_version)
}
