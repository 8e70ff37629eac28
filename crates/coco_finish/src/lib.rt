//! The end of an epoch over several nodes: its commit entry, and its being told and promoted.
#![tactic(auto)]

mod committing;
mod finishing;
pub mod laws;
mod rounds;
mod stopping;
mod tables;
mod taking;

pub use committing::commit;
pub use finishing::{finish, have_all_finished, limits};
pub use laws::unfinished_nodes_are_told;
pub use rounds::exchange;
pub use stopping::stop_last;
pub use tables::NodeTables;
pub use taking::{finish_at, nodes_finish, take_committed};
