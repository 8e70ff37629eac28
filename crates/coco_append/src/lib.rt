//! The entries of an epoch: the rows that a node prepares, why a run may be prepared and committed, and the appends.
#![tactic(auto)]

mod adding;
mod fault;
mod layouts;
mod rows;
mod runs;

pub use adding::{add_commit, add_prepared};
pub use fault::AddFault;
pub use layouts::add_layout;
pub use rows::{prepared_rows, prepared_rows_leave_the_map};
pub use runs::{a_run_is_the_next_commit, a_run_may_be_prepared, runs_stay_in_tables};
