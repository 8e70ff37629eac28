//! Places at which a worker may be held, so that a test can make two workers meet.
#![tactic(auto)]

pub mod gate;
pub mod hold;
pub mod passes;

pub use gate::{Gate, OpenGate};
pub use hold::HoldGate;
pub use passes::{Passage, Passes};
