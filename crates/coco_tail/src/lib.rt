//! Epochs: the tail of requests that one thread runs on the shards in hand, and the end of an epoch.
#![tactic(auto)]

mod calls;
mod ends;
mod placed;
mod progress;
mod shards;

pub use ends::{promote_all, revert_all};
pub use placed::PlacedRequest;
pub use progress::Progress;
