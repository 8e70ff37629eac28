//! A copy of a partition's rows: the stable value of each key, and what was put for it in the current epoch.
#![tactic(auto)]

mod kept;
pub mod law;
pub mod ops;
pub mod packed;
mod rows;
pub mod table;

pub use ops::{CopyAnswer, CopyAsk};
pub use packed::PackedPut;
pub use table::CopyTable;
