//! The program under any scheme of signatures: it runs a script over the repositories, serves them over HTTP, or prints the
//! length and the digests of a file. Each program names its scheme, and does nothing else.
#![tactic(auto)]

mod at_desk;
mod connections;
mod databases;
mod files;
pub mod laws;
mod log;
pub mod program;
mod scripts;
