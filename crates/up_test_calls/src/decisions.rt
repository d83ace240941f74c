//! Decisions and plans by cases: each is a line of a script, and what it has to be answered.
//!
//! A decision is made on each line over the rows of a register, and what it answers is told as a text and kept in the register;
//! in a section of plans a line's image or campaign is kept without a decision, and a case `plan ECUS` plans over what is kept.
//! Each section is carried out under two schemes. Digests are an outside program's: `expected_decisions` prints them, by
//! Python's `hmac`, `hashlib` and `json` alone.
mod answers;
mod calls;
mod campaigns;
mod conditions;
mod digests;
mod files;
mod fitted;
mod images;
mod lines;
mod manifests;
mod plan_texts;
mod plans;
mod refused;
mod register;
mod replacements;
mod roots;
mod vehicles;

use crate::decisions::calls::told_under;
use std::alloc::{AllocError, Global};
use up_sign::hmac_sha256::HmacSha256;
use up_test_common::hashed::Hashed;

/// What is told of a section, a line for each scheme.
pub(crate) fn told_in(alloc: Global, section: &str) -> Result<String, AllocError> {
    let first = told_under(alloc, HmacSha256, section)?;
    let second = told_under(alloc, Hashed, section)?;
    format!(in alloc; "{first}\n{second}")
}
