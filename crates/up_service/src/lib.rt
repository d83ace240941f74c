//! The service: scripts, streams of HTTP requests, digests of files, and what the words of the command line ask.
#![tactic(auto)]

mod desk;
pub mod digest;
pub mod job;
pub mod laws;
pub mod line_answer;
mod numbers;
pub mod refusals;
pub mod response;
pub mod script;
mod show;
pub mod stream;
pub mod tally;
pub mod words;

pub use up_heads::check::Check;
pub use up_http::asked::{Next, Step, What};
pub use up_http::fault::{Fault, ServeFault};
pub use up_http::feeder::Feeder;
pub use up_http::served::Served;
pub use up_lines::fault::{ScriptCause, ScriptFault};
