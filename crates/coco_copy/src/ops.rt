//! What a copy is asked, and what it answers.

use coco_types::Write;

/// What a copy is asked: to take a write of an epoch at a logical time.
#[derive(Clone, Copy, Debug, PartialEq, Eq)]
pub enum CopyAsk {
    Put { epoch: u64, time: u64, write: Write },
}

/// What a copy answers. A put is applied where it is of the current epoch and nothing pends for its key at an
/// equal or a greater time.
#[derive(Clone, Copy, Debug, PartialEq, Eq)]
pub enum CopyAnswer {
    Applied,
    Older { time: u64 },
    OtherEpoch { current: u64 },
}
