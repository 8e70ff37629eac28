//! The kept replies: one Done for each request id, looked up by id, in order of commit.
#![tactic(auto)]

pub mod keeping;
pub mod kept;

pub use keeping::{add_dones, keep_dones, make_room};
pub use kept::{Found, Kept};
