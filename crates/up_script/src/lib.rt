//! The lines of a script: what each asks, and how an answer is printed.
#![tactic(auto)]

pub mod asked;
pub mod bench_line;
pub mod campaign_line;
pub mod image_line;
pub mod key_line;
pub mod optional;
mod plain_line;
pub mod printed;
pub mod vehicle_line;
mod what;
pub mod word;
