//! Many clients and operators on one thread, each over a socket that never waits.
#![tactic(auto)]

mod client;
mod clients;
mod clock;
mod flow;
mod groups;
mod late;
pub mod laws;
mod operator;
mod operators;
mod script;
mod server;
pub mod service;
pub mod serving;
pub mod socket_file;
