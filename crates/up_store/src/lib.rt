//! The state of the two repositories in the tables of a database.
#![tactic(auto)]

mod campaign_rows;
pub mod campaigns;
mod column_values;
mod ecus;
mod files;
mod image_rows;
pub mod images;
mod kept_rows;
mod keys;
pub mod laws;
pub mod manifests;
mod numbers;
pub mod replaced;
pub mod roots;
mod second_hashes;
pub mod stopping;
pub mod store;
pub mod vehicles;
