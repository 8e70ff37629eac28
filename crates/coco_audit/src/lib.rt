//! What a store says of itself: its Dones and rows line by line, and whether its replies are those of a serial run.
#![tactic(auto)]

pub mod dump;
pub mod pieces;
pub mod verify;
mod writing;

pub use dump::{write_dump_done, write_dump_row};
pub use pieces::{Dump, PIECE_BYTES};
pub use verify::{NotSerial, verify_of, write_not_serial, write_serial};
