//! The tables of the two repositories.
#![tactic(auto)]

pub mod campaign;
pub mod crash;
pub mod create;
pub mod ecu;
pub mod image;
pub mod image_repository;
pub mod image_sha512;
pub mod kept;
pub mod laws;
pub mod meta;
pub mod open;
mod raise;
pub mod reading;
pub mod replace;
pub mod repo_file;
pub mod retired;
pub mod retired_vehicle;
pub mod role_key;
mod statement;
pub mod values;
pub mod vehicle;
