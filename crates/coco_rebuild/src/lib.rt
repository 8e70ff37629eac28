//! A lost node file made again out of those of the other holders of its partitions.
#![tactic(auto)]

mod fault;
mod laws;
mod layout;
mod merging;
mod rebuilding;
mod ring;
mod sources;
mod writing;

pub use fault::RebuildFault;
pub use laws::a_rebuilt_store_is_good;
pub use rebuilding::{rebuild, rebuild_store};
