//! Which nodes stop, and when: a power is asked at each point of an epoch, and tells what it was asked and answered.
#![tactic(auto)]

pub mod power;
pub mod record;
pub mod script;

pub use power::{Power, SteadyPower};
pub use script::ScriptPower;
