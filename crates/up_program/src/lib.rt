//! What the program decides: how it ends, what it tells, and what may be opened.
#![tactic(auto)]

pub mod closing;
pub mod digests;
pub mod failure;
pub mod files;
pub mod line;
pub mod messages;
pub mod status;
pub mod times;
pub mod unopened;
pub mod version;
pub mod words;
