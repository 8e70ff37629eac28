//! What an attempt does next, and how it ends.

use crate::packed_outcome::PackedOutcome;
use crate::script::Script;
use coco_shard::Ask;
use coco_types::{AttemptId, Key, Reply, Sequence};

/// Why an attempt conflicted: another attempt's mark stands on a key, or a key that it read has another write time
/// than it read.
#[derive(Clone, Copy, Debug, PartialEq, Eq)]
pub enum Why {
    Marked { key: Key, holder: AttemptId },
    Changed { key: Key, read: u64, found: u64 },
}

/// How an attempt ended: at a logical time with a reply, by a conflict, or with a time that would be too great.
#[derive(Clone, Copy, Debug, PartialEq, Eq)]
pub enum Outcome {
    Committed { time: u64, reply: Reply },
    Conflict(Why),
    OverTime,
}

/// What an attempt does next: it asks something of a shard, or it has ended.
#[derive(Clone, Copy, Debug, PartialEq, Eq)]
pub enum Move {
    Ask { shard: u8, ask: Ask },
    Committed { time: u64, reply: Reply },
    Conflict(Why),
    OverTime,
}

/// How an attempt ended that didn't commit.
#[derive(Clone, Copy, Debug, PartialEq, Eq)]
pub enum Ended {
    Conflict(Why),
    OverTime,
}

pub type Ends = Sequence<Ended>;

/// A request that no attempt committed, with the ends of its attempts in order.
#[derive(Debug, Drop)]
pub struct Tailed {
    pub id: u64,
    pub ends: Ends,
}

/// An attempt that has ended: the place of its request in the epoch, whose it was, what it asked, and how it ended.
#[derive(Debug, Drop)]
pub struct Tried {
    pub place: u32,
    pub by: AttemptId,
    pub script: Script,
    pub outcome: PackedOutcome,
}

/// The attempts of one worker, in order.
pub type Transcript = Sequence<Tried>;
