//! Laws of the plain machine in the words of the Uptane Standard, over every run from nothing.
#![tactic(auto)]

pub mod laws;
