//! Executions of an epoch's requests, and why their commits are serial.
#![tactic(auto)]

pub mod laws;
mod order;

pub use order::ordered;
