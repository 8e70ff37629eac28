//! What an opened store has in memory, built out of its entries one after another.
#![tactic(auto)]

pub mod epochs;
pub mod laws;
pub mod merge;
pub mod packed;
pub mod tables;

pub use epochs::next_epoch;
pub use laws::{epochs_begin_with_the_base, kept_dones_follow_the_files, tables_follow_the_files};
pub use merge::{LentMap, merged};
pub use packed::{PackedRow, PackedRows, packed_rows};
pub use tables::Tables;
