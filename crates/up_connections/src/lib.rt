//! Many connections at once, as values: what was said on each, and how long it is waited for.
#![tactic(auto)]

pub mod connection;
pub mod hub;
pub mod patience;
