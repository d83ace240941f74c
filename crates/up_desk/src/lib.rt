//! The desk: commands and views of the two repositories over their records.
#![tactic(auto)]

mod campaigns;
pub mod carried;
mod command_moment;
mod deliveries;
pub mod desk;
mod dispatch;
pub mod faults;
mod files;
mod grouped;
mod images;
mod inventory;
pub mod laws;
mod register;
mod replacements;
mod roots;
