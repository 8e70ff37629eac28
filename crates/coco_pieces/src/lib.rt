//! What a request wrote, cut into pieces: one for each partition that it writes.
#![tactic(auto)]

mod pieces;

pub use pieces::add_pieces;
