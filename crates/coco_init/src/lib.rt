//! The command `init`: a new store from a text of procedures.
#![tactic(auto)]

mod input;
mod making;
mod text;

pub use making::init;
pub use text::one_answer;
