//! Machines behind locks whose passes go to those who work at them, and come back.
#![tactic(auto)]

pub mod desks;
pub mod locks;
mod room;
pub mod rows;
