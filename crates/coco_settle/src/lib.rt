//! Nodes and coordinator from one epoch to the next: what was committed before is finished first, and an epoch that all
//! nodes voted for is committed and finished.
#![tactic(auto)]

pub mod laws;
mod reminding;
mod settling;

pub use laws::finished_nodes_are_not_behind;
pub use reminding::remind;
pub use settling::settle;
