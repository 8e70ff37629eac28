//! An epoch whose workers run side by side, and what it comes to.
#![tactic(auto)]

mod ends;
pub mod epoch;
pub mod laws;
mod pieces;
pub mod rooms;
pub mod side_by_side;
pub mod stations;
mod tail;
pub mod trace;
pub mod workers;
