//! A workload that is made from a number, worked off on a store in hand, batch by batch, and then told of in three lines.
#![tactic(auto)]

mod all_parts;
mod one_part;
mod report;

pub use all_parts::{Workload, try_calls};
pub use one_part::Tally;
