//! What an epoch's run leaves is what its ship phase needs.
#![tactic(auto)]

pub mod laws;

pub use laws::{early_rows_are_of_pieces, pending_is_last, pieces_are_shippable};
