//! A Primary's state, what it was served and its manifests, as JSON files, and the verdict as text.
#![tactic(auto)]

mod form;
pub mod judged;
pub mod manifest;
pub mod method;
mod reply;
mod report;
pub mod round;
mod served;
mod signing;
pub mod state;
mod state_text;
mod verdict;
