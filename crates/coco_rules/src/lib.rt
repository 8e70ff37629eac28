//! Whether each entry of a store's files keeps its rules behind those before it.
#![tactic(auto)]

pub mod base;
pub mod commits;
mod dones;
pub mod layouts;
mod lengths;
pub mod placing;
pub mod prepared;

pub use base::BaseRules;
pub use commits::HistoryRules;
pub use layouts::layout_tree;
pub use placing::is_held_by;
pub use prepared::NodeRules;
