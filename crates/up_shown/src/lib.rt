//! Public parts that are read back from what a Root shows of them.
#![tactic(auto)]

pub mod shows;
