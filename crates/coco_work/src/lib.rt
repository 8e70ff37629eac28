//! An epoch, run on the tables of a store and shipped to its copies.
#![tactic(auto)]

mod running;
mod shipping;

pub use running::{EpochRoom, Ran, run};
pub use shipping::ship;
