//! Request lines that only read, answered on the tables of one epoch.
#![tactic(auto)]

mod asks;
mod batch;
mod ending;
mod input;
pub mod laws;
mod texts;

pub use asks::{Asks, Refusal};
pub use ending::Asked;
pub use input::{QueryBounds, answer_asks};
pub use laws::lines_are_answered;
