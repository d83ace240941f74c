//! The requests of a stream of bytes, taken in pieces, and their answers written to a writer.
#![tactic(auto)]

pub mod asked;
pub mod conversation;
pub mod fault;
pub mod feeder;
mod head_bytes;
pub mod laws;
mod progress;
pub mod respond;
pub mod served;
pub mod serving;
pub mod stream;
