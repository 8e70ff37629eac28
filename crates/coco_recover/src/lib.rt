//! A store opened: what the entries of its files have to keep, and what is had of them in memory.
#![tactic(auto)]

pub mod base;
pub mod commits;
mod files;
mod history;
pub mod layouts;
pub mod lost;
pub mod nodes;
pub mod opening;
mod refusal;
pub mod without;

pub use base::{BaseHistory, BasePart, BaseReading, Based};
pub use commits::{CommitReading, Committed};
pub use layouts::{LastLayout, LayoutReading};
pub use lost::read_node;
pub use nodes::{Loaded, NodeRead, NodeReading};
pub use opening::{Logs, Opened, an_opened_store_stands, recover, recover_whole};
pub use without::{
    Parts, a_store_is_one_but_for_a_node, a_store_refused_but_for_a_node_is_none, read_without,
};
