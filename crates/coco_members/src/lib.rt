//! The nodes and the coordinator of a store, in hand between epochs.
#![tactic(auto)]

mod members;
mod nodes;
mod opened;

pub use members::Members;
pub use opened::{Reopened, members_of};
