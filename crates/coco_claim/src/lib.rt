//! Numbers that threads draw: each number below n once, by whichever seat draws it.
#![tactic(auto)]

pub mod claims;
mod hand;

pub use claims::{ClaimSeat, Claims};
