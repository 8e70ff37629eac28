//! The vote of nodes on an epoch: each makes its entry durable before it votes.
#![tactic(auto)]

mod exchange;
mod forcing;
mod giving_up;
pub mod laws;
mod phase;
mod step;
mod taking;

pub use forcing::{begin_anew, force_and_vote, lose_rows};
pub use giving_up::give_up;
pub use laws::voted_stores_keep_their_history;
pub use phase::{Votes, prepare};
pub use step::{Step, Stops};
