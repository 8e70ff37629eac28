//! The types that every layer speaks of: values and keys, calls and their replies, and the trait of machines.
#![tactic(auto)]

pub mod args;
pub mod call;
pub mod error;
pub mod kept_reply;
pub mod key;
pub mod limits;
pub mod machine;
pub mod packed;
pub mod packed_write;
pub mod padding;
pub mod sequence;
pub mod text;
pub mod value;

pub use args::Args;
pub use call::{
    AttemptId, Call, Cause, Done, Dones, MapRows, Piece, Pieces, Reply, Request, Write, Writes,
};
pub use error::{Failed, NoMemory, OutFault};
pub use kept_reply::KeptReply;
pub use key::Key;
pub use machine::Machine;
pub use packed::{Lent, Packed};
pub use packed_write::{PackedWrite, PackedWrites};
pub use sequence::{Bytes, Sequence};
pub use text::Text;
pub use value::Value;
