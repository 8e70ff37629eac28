//! The text of a tree of procedures.
#![tactic(auto)]

mod expression;
mod pieces;
pub mod procedures;
mod statement;

pub use procedures::print;
