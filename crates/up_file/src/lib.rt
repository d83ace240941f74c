//! A database file: opened for one program alone, and closed.
#![tactic(auto)]

pub mod adopting;
pub mod causes;
pub mod closing;
mod latest_root;
pub mod opening;
pub mod schemes;
