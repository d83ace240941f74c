//! Whole scripts, streams and connections: from the bytes that come to the bytes that are written.
#![tactic(auto)]

pub mod answering;
pub mod fresh;
pub mod laws;
pub mod machine;
pub mod taken;
