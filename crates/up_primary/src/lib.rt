//! Laws that join full verification by a Primary to the plain machine.
#![tactic(auto)]

pub mod laws;
