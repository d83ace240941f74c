//! Root and Targets files that are signed elsewhere: read, and tested against the last Root.
#![tactic(auto)]

pub mod apart;
pub mod brought;
pub mod fault;
pub mod held_keys;
pub mod next_root;
pub mod next_targets;
mod same_target;
pub mod shown;
mod spelled;
