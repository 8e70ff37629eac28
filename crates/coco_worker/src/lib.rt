//! A worker of an epoch: it draws requests, tries each until an attempt commits or no more are allowed, and keeps what it did.
#![tactic(auto)]

pub mod copies;
pub mod slot;
mod steps;
mod tries;
mod worker;

pub use copies::WorkerCommit;
pub use slot::{EpochConfig, Slot, Tail};
pub use worker::work;
