//! An attempt at a call by optimistic control with logical times: what it asks of the shards, and how it ends.
#![tactic(auto)]

pub mod attempt;
mod course;
pub mod laws;
pub mod outcome;
pub mod packed_outcome;
mod progress;
pub mod rooms;
pub mod script;
mod turns;

pub use attempt::Attempt;
pub use outcome::{Ended, Ends, Move, Outcome, Tailed, Transcript, Tried, Why};
pub use packed_outcome::PackedOutcome;
pub use rooms::ScriptRooms;
pub use script::{Script, Step};
pub use turns::{run_steps, take_turn};
