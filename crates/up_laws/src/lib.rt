//! Laws of whole replies and deliveries, above those of the plain machine.
#![tactic(auto)]

pub mod laws;
