//! The coordinator's core: a pure machine of the epochs' commits, by its table.
#![tactic(auto)]

mod flags;
pub mod machine;
mod ranges;
mod telling;

pub use coco_msg::Action;
pub use machine::{ChiefCore, Phase};
