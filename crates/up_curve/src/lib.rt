//! The curve and the signatures of Ed25519 (RFC 8032): definitions over numbers, and their laws.
//!
//! `specs/` has the definitions, in the words of the RFC. The functions of `laws` say what is proved of them. Nothing here
//! computes: the crates above do, and answer what the definitions say.
#![tactic(auto)]

pub mod laws;
pub mod sums;
