//! Records of the two repositories: the store, and what is kept of it in memory, so that deliveries needn't read it again.
#![tactic(auto)]

pub mod catalog;
pub mod deciding;
mod ecu_keys;
pub mod faults;
pub mod records;
mod senders;
pub mod session;
mod views;
