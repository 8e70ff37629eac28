//! The tables of several nodes at the end of an epoch: each node promotes its own, all are reverted, or a node's are
//! put in place anew.
#![tactic(auto)]

pub mod laws;
mod places;
pub mod promote;
pub mod revert;
pub mod take;

pub use laws::{pending_stands, settled_shards_hold_a_map, tables_at_rest};
pub use promote::promote_node;
pub use revert::revert_all;
pub use take::take_tables;
