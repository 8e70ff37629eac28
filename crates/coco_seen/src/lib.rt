//! A lock whose value and history are tied to its callers: who takes the value finds a list that goes on from all that he has seen, and at the end each call of each caller stands once at its place.
#![tactic(auto)]

mod dealing;
pub mod holder;
pub mod note;
mod plays;
pub mod seen;
pub mod stores;
pub mod view;

pub use holder::HoldsNote;
pub use note::Note;
pub use seen::Seen;
pub use stores::Stores;
