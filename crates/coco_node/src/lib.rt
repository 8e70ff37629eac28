//! The core of a node: a pure machine of one epoch's commit, by its table.
#![tactic(auto)]

pub mod machine;

pub use coco_msg::Action;
pub use machine::{COORDINATOR, Decision, NodeCore};
