//! A shard of rows as a machine over six operations, and the law of the journals that it answers.
#![tactic(auto)]

mod kept;
pub mod law;
pub mod ops;
pub mod packed;
pub mod shard;
mod table;
mod tail;
mod values;

pub use ops::{Answer, Ask, Op};
pub use packed::{PackedAnswer, PackedAsk, PackedOp};
pub use shard::Shard;
