//! A machine behind a lock that keeps a journal: who steps it is told its answer, and at the end the journal has just the calls that were made, each at its place.
#![tactic(auto)]

pub mod entry;
mod guarded;
pub mod journal;
pub mod journaled;
pub mod pass;
pub mod room;

pub use entry::{Entry, Placed};
pub use journal::{Journal, KeptEntry};
pub use journaled::Journaled;
pub use pass::Pass;
pub use room::{Closed, Room};
