//! An epoch is tried: it is run, shipped to the copies and voted on, up to the decision.
#![tactic(auto)]

mod running;
mod shipping;
mod voting;

pub use running::run;
pub use shipping::ship;
pub use voting::vote;
