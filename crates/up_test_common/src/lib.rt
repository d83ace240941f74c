//! What the crates of tests share: tables of cases and what carries them out, readers and writers that fail, and a second signature
//! scheme.
//!
//! What a proof promises over any scheme is run in the crates of tests under two. Nothing that a vehicle or an operator
//! runs names this crate.
#![tactic(auto)]

pub mod calls;
mod changes;
pub mod devices;
pub mod hashed;
mod repeated;
pub mod sections;
