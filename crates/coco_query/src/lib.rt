//! The rows of a store as they were at one of its epochs.
#![tactic(auto)]

pub mod answering;
pub mod crew;
pub mod frozen;
pub mod laws;
pub mod packed;
pub mod readers;
pub mod reading;
pub mod tables;

pub use answering::{Answered, answers};
pub use frozen::{Frozen, FrozenAnswer, FrozenAsk};
pub use laws::{ranges_are_histories, replies_are_runs};
pub use packed::PackedAnswer;
pub use readers::{Reading, Transcript};
pub use reading::{Got, Had};
pub use tables::{TablesFault, tables_at};
