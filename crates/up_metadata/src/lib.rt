//! The keys of the roles of both repositories, and the files that are made with them.
#![tactic(auto)]

pub mod hashed_keys;
pub mod key_checks;
pub mod keys;
pub mod laws;
pub mod role_files;
pub mod root_files;
