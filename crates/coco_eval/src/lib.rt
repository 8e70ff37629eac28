//! The evaluator: runs a procedure, and stops where it needs the value of a row.
#![tactic(auto)]

mod advance;
mod held;
mod keys;
mod machine;
mod names;
mod noted;
mod operand;
mod room;
mod run;
mod statements;
mod values;
mod variables;

pub use machine::Given;
pub use run::{Need, Run};
