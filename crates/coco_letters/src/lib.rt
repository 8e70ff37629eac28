//! The letters of a commit: what places read in them, what their cores do at them, and what goes out again.
#![tactic(auto)]

mod chief;
mod hearing;
pub mod laws;
mod nodes;
mod sending;
mod taking;
mod voter;

pub use chief::{chief_aborts, chief_begins, chief_forced, chief_hears, chief_reminds};
pub use hearing::hear;
pub use laws::{waiting_letters_were_sent, ways_follow_one_another};
pub use nodes::{Heard, node_asks, node_finishes, node_forced, node_gives_up, node_votes, restart};
pub use sending::{resend, send_actions};
pub use taking::chief_takes;
pub use voter::Voter;
