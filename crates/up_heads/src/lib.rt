//! Heads of HTTP requests, what they ask, and the bytes of responses.
#![tactic(auto)]

pub mod check;
mod closing;
mod fields;
mod framing;
pub mod heads;
pub mod methods;
pub mod responses;
pub mod routed;
pub mod routes;
