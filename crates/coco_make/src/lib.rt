//! The making of a store: the files that a new one has.
#![tactic(auto)]

mod fault;
mod free;
mod laws;
mod make;

pub use fault::MakeFault;
pub use free::free_files;
pub use laws::new_logs_are_a_store;
pub use make::{make_empty_logs, make_store, new_layout};
