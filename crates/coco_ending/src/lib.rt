//! How a call of the program ends: its status, and its line on the error stream.
#![tactic(auto)]

mod ending;
mod error;
mod fault;

pub use ending::Ending;
pub use error::TextError;
