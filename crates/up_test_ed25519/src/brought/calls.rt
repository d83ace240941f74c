//! The calls by their words, under Ed25519.
use crate::brought::words::{
    moment, number, repository, secrets, secrets_or_none, text, text_or_none, word,
};
use std::alloc::{AllocError, Global};
use up_brought::brought::BroughtRoot;
use up_brought::fault::Fault;
use up_brought::held_keys::next_keys;
use up_brought::next_root::Roots;
use up_brought::next_targets::{Followed, check_kept, check_targets};
use up_canon::listed::Listed;
use up_ed25519::scheme::Ed25519;
use up_metadata::keys::{RepoKeys, RoleSecrets};
use up_roles::targets::{Target, read_targets};
use up_shown::shows::Shows;
use up_test_common::calls::Calls;

/// The calls, of which none keeps anything.
#[derive(Clone, Copy, Debug)]
pub(crate) struct Brought;

impl Calls for Brought {
    fn answer(&mut self, alloc: Global, call: &str, given: &str) -> Result<String, AllocError> {
        match call {
            "shown" => shown(alloc, given),
            "root" => root(alloc, given),
            "targets" => targets(alloc, given),
            "kept" => kept(alloc, given),
            _ => "no such call".to_string(alloc),
        }
    }

    fn is_wanted(&self, had: &str, wanted: &str) -> bool {
        had == wanted
    }
}

/// The key that a text shows.
fn shown(alloc: Global, given: &str) -> Result<String, AllocError> {
    match Ed25519.read_shown(alloc, given)? {
        Some(key) => hex::encode(alloc, key.as_slice()),
        None => "none".to_string(alloc),
    }
}

/// A Root of a repository behind so many, of which the last is the next word, at a moment; then the secrets of the three other
/// roles that are held, and those that are given. How many secrets of each role are held then.
fn root(alloc: Global, given: &str) -> Result<String, AllocError> {
    let roots = Roots {
        number: number(word(given, 1)),
        last: text_or_none(alloc, word(given, 2))?,
    };
    let present = RepoKeys {
        root: role(alloc, "none")?,
        targets: role(alloc, word(given, 5))?,
        snapshot: role(alloc, word(given, 6))?,
        timestamp: role(alloc, word(given, 7))?,
    };
    let brought = BroughtRoot {
        text: text(alloc, word(given, 4))?,
        targets: secrets_or_none(alloc, word(given, 8))?,
        snapshot: secrets_or_none(alloc, word(given, 9))?,
        timestamp: secrets_or_none(alloc, word(given, 10))?,
    };
    let Some(at) = moment(word(given, 3)) else {
        return "no moment".to_string(alloc);
    };
    let repository = repository(word(given, 0));
    match next_keys(alloc, &Ed25519, repository, &roots, at, &present, &brought) {
        Ok(keys) => held(alloc, &keys),
        Err(fault) => fault_text(alloc, fault),
    }
}

fn role(alloc: Global, word: &str) -> Result<RoleSecrets, AllocError> {
    Ok(RoleSecrets {
        keys: secrets(alloc, word)?,
        threshold: 1,
    })
}

fn held(alloc: Global, keys: &RepoKeys) -> Result<String, AllocError> {
    format!(in alloc;
        "root {}, targets {} of {}, snapshot {} of {}, timestamp {} of {}",
        keys.root.keys.as_slice().len(),
        keys.targets.threshold,
        keys.targets.keys.as_slice().len(),
        keys.snapshot.threshold,
        keys.snapshot.keys.as_slice().len(),
        keys.timestamp.threshold,
        keys.timestamp.keys.as_slice().len()
    )
}

/// Targets above a version, up to another, at a moment, under a Root; the last word is Targets with the images that are registered.
fn targets(alloc: Global, given: &str) -> Result<String, AllocError> {
    let last = text_or_none(alloc, word(given, 3))?;
    let listed = listed(alloc, word(given, 5))?;
    let followed = Followed {
        root: &last,
        listed: listed.as_slice(),
        above: number(word(given, 0)),
        most: number(word(given, 1)),
    };
    let Some(at) = moment(word(given, 2)) else {
        return "no moment".to_string(alloc);
    };
    match check_targets(alloc, &Ed25519, &followed, at, word(given, 4).as_bytes()) {
        Ok(file) => format!(in alloc; "version {}", file.version),
        Err(fault) => fault_text(alloc, fault),
    }
}

/// Targets that stay, under a Root; the last word is Targets with the images that are registered.
fn kept(alloc: Global, given: &str) -> Result<String, AllocError> {
    let last = text_or_none(alloc, word(given, 0))?;
    let listed = listed(alloc, word(given, 2))?;
    match check_kept(
        alloc,
        &Ed25519,
        &last,
        listed.as_slice(),
        word(given, 1).as_bytes(),
    ) {
        Ok(()) => "stay".to_string(alloc),
        Err(fault) => fault_text(alloc, fault),
    }
}

fn listed(alloc: Global, text: &str) -> Result<Listed<Target>, AllocError> {
    match read_targets(alloc, text.as_bytes()) {
        Ok((file, _)) => Ok(file.targets),
        Err(_) => Ok(Listed::new(Vec::new(alloc))),
    }
}

fn fault_text(alloc: Global, fault: Fault) -> Result<String, AllocError> {
    match fault {
        Fault::Known(refusal) => refusal.text(alloc),
        Fault::OfflineRole(role) => format!(in alloc; "offline {}", role.name()),
        Fault::WrongVersion(version) => format!(in alloc; "wrong version {version}"),
        Fault::Expired(role) => format!(in alloc; "expired {}", role.name()),
        Fault::BadSignature(role) => format!(in alloc; "bad signature {}", role.name()),
        Fault::OtherKeys(role) => format!(in alloc; "other keys {}", role.name()),
        Fault::OtherImages => "other images".to_string(alloc),
    }
}
