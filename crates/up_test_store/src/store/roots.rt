//! Root versions, as rows spell them.
//!
//! A founding is `ROOT IMAGE_VERSION STAMP DIRECTOR_KEYS IMAGE_KEYS`. The keys of a repository are those of its four roles, with
//! semicolons between, each `SECRET,../THRESHOLD`.
use crate::store::fault::Fault;
use crate::store::words::{
    bytes, first_of, moment, number, parts_of, push_item, push_number, text, word,
};
use std::alloc::{AllocError, Global};
use up_canon::bytes::Bytes;
use up_canon::listed::Listed;
use up_canon::text::Text;
use up_machine::decision::{RegisterRows, RootRows};
use up_machine::rows::Founding;
use up_metadata::keys::{KeySet, RepoKeys, RoleSecrets};
use up_metadata::role_files::RoleTexts;

/// The texts of a new root version.
#[derive(Drop)]
struct RootTexts {
    director: Text,
    image: Text,
    files: RoleTexts,
}

/// `FOUNDING ; DIRECTOR_ROOT IMAGE_ROOT ; TEXTS`
pub(crate) fn root_rows(alloc: Global, given: &str) -> Result<RootRows, Fault> {
    let (numbers, rest) = parts_of(given);
    match root_texts(alloc, rest) {
        Ok(texts) => rooted(alloc, numbers, texts),
        Err(_) => Err(Fault::Memory),
    }
}

fn root_texts(alloc: Global, given: &str) -> Result<RootTexts, AllocError> {
    let (roots, texts) = parts_of(given);
    let (director, image) = first_of(roots);
    Ok(RootTexts {
        director: text(alloc, director)?,
        image: text(alloc, image)?,
        files: role_texts(alloc, texts)?,
    })
}

fn rooted(alloc: Global, numbers: &str, texts: RootTexts) -> Result<RootRows, Fault> {
    let RootTexts {
        director,
        image,
        files,
    } = texts;
    match founding(alloc, numbers) {
        Ok(founding) => Ok(RootRows {
            founding,
            director,
            image,
            files,
        }),
        Err(fault) => Err(fault),
    }
}

/// `FOUNDING ; TEXTS`
pub(crate) fn register_rows(alloc: Global, given: &str) -> Result<RegisterRows, Fault> {
    let (numbers, texts) = parts_of(given);
    match role_texts(alloc, texts) {
        Ok(files) => registered(alloc, numbers, files),
        Err(_) => Err(Fault::Memory),
    }
}

fn registered(alloc: Global, numbers: &str, files: RoleTexts) -> Result<RegisterRows, Fault> {
    match founding(alloc, numbers) {
        Ok(founding) => Ok(RegisterRows { founding, files }),
        Err(fault) => Err(fault),
    }
}

/// `TARGETS SNAPSHOT TIMESTAMP`
fn role_texts(alloc: Global, given: &str) -> Result<RoleTexts, AllocError> {
    Ok(RoleTexts {
        targets: text(alloc, word(given, 0))?,
        snapshot: text(alloc, word(given, 1))?,
        timestamp: text(alloc, word(given, 2))?,
    })
}

fn founding(alloc: Global, given: &str) -> Result<Founding, Fault> {
    Ok(Founding {
        root: number(word(given, 0))?,
        image_root: number(word(given, 0))?,
        image_version: number(word(given, 1))?,
        targets_version: number(word(given, 1))?,
        stamp: moment(word(given, 2))?,
        keys: key_set(alloc, given)?,
    })
}

fn key_set(alloc: Global, given: &str) -> Result<KeySet, Fault> {
    Ok(KeySet {
        director: repository_keys(alloc, word(given, 3))?,
        image: repository_keys(alloc, word(given, 4))?,
    })
}

fn repository_keys(alloc: Global, roles: &str) -> Result<RepoKeys, Fault> {
    Ok(RepoKeys {
        root: role(alloc, roles, 0)?,
        targets: role(alloc, roles, 1)?,
        snapshot: role(alloc, roles, 2)?,
        timestamp: role(alloc, roles, 3)?,
    })
}

fn role(alloc: Global, roles: &str, at: usize) -> Result<RoleSecrets, Fault> {
    let given = roles.split(';').nth(at).unwrap_or("");
    match given.split_once('/') {
        Some((keys, threshold)) => role_secrets(alloc, keys, threshold),
        None => Err(Fault::Misspelled),
    }
}

fn role_secrets(alloc: Global, keys: &str, threshold: &str) -> Result<RoleSecrets, Fault> {
    match threshold.parse::<u32>() {
        Ok(threshold) => Ok(RoleSecrets {
            keys: Listed::new(secrets(alloc, keys)?),
            threshold,
        }),
        Err(_) => Err(Fault::Misspelled),
    }
}

fn secrets(alloc: Global, keys: &str) -> Result<Vec<Bytes>, Fault> {
    let mut secrets = Vec::new(alloc);
    for digits in keys.split(',') {
        secrets.push(bytes(alloc, digits)?)?;
    }
    Ok(secrets)
}

/// A founding as it is told.
pub(crate) fn founding_text(alloc: Global, row: &Founding) -> Result<String, AllocError> {
    let mut out = String::new(alloc);
    push_number(alloc, &mut out, row.root)?;
    push_number(alloc, &mut out, row.image_version)?;
    push_number(alloc, &mut out, row.stamp.get())?;
    push_repository(alloc, &mut out, &row.keys.director)?;
    push_repository(alloc, &mut out, &row.keys.image)?;
    Ok(out)
}

fn push_repository(alloc: Global, out: &mut String, keys: &RepoKeys) -> Result<(), AllocError> {
    push_role(alloc, out, " ", &keys.root)?;
    push_role(alloc, out, ";", &keys.targets)?;
    push_role(alloc, out, ";", &keys.snapshot)?;
    push_role(alloc, out, ";", &keys.timestamp)
}

fn push_role(
    alloc: Global,
    out: &mut String,
    before: &str,
    role: &RoleSecrets,
) -> Result<(), AllocError> {
    let keys = secrets_text(alloc, role.keys.as_slice())?;
    let threshold = role.threshold;
    let words = format!(in alloc; "{before}{keys}/{threshold}")?;
    out.push_str(words.as_str())
}

fn secrets_text(alloc: Global, secrets: &[Bytes]) -> Result<String, AllocError> {
    let mut list = String::new(alloc);
    for secret in secrets {
        let digits = hex::encode(alloc, secret.as_slice())?;
        push_item(&mut list, digits.as_str())?;
    }
    Ok(list)
}
