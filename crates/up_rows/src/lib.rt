//! The rows that are kept of a state: which they are, what is looked up among them, and what each command changes of them.
#![tactic(auto)]

pub mod laws;
