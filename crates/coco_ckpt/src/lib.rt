//! A store made small: its map becomes the base, in new files, and its epochs are left behind.
#![tactic(auto)]

mod base;
mod compacting;
mod dones;
mod files;
mod laws;
mod layout;
mod rows;

pub use compacting::compact_store;
pub use laws::a_compacted_store_is_good;
