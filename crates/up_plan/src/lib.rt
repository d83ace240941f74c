//! Images, campaigns, and which images a vehicle gets.
#![tactic(auto)]

pub mod assigned;
pub mod campaign;
pub mod image;
pub mod items;
pub mod laws;
mod offers;
pub mod plan;
mod resulting;
pub mod running;
mod unmet;
mod wanted;
