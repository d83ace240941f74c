//! Root and Targets files whose keys are kept offline: the laws of what may be published.
#![tactic(auto)]

pub mod laws;
