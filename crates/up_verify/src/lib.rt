//! Full verification by a Primary, as the Uptane Standard 2.1.0 asks: what it trusts, and what it takes of what is served.
#![tactic(auto)]

pub mod asked;
mod files;
mod installs;
pub mod known_key;
mod plain_envelope;
mod plain_list;
mod plain_members;
mod plain_targets;
pub mod refused;
pub mod roots;
pub mod served;
mod signers;
pub mod trust;
pub mod verify;
