//! Role metadata of both repositories: Root, Targets, Snapshot and Timestamp files.
#![tactic(auto)]

mod file;
pub mod laws;
pub mod lifetimes;
mod limits;
mod parts;
pub mod payload;
mod pieces;
pub mod repository;
pub mod root;
mod root_keys;
mod root_roles;
pub mod root_text;
mod sealing;
pub mod snapshot;
pub mod targets;
pub mod targets_text;
pub mod timestamp;
