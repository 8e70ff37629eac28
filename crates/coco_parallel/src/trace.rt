//! What an epoch leaves to be read.

ghost use Rattle.std.specs.Prelude.{◌≡◌, ◌++◌, [], replicate, OnOk};

use coco_journaled::Journal;
use coco_occ::Transcript;
use coco_shard::Shard;
use coco_types::NoMemory;
use coco_worker::Tail;
use std::alloc::Global;

/// The journal of each shard's lock, the transcript of each worker, which is empty where the worker wasn't started, and
/// the tail: the requests that no attempt committed, in input order, each with the ends of the attempts at it.
#[derive(Drop)]
pub struct Trace {
    pub journals: Vec<Journal<Shard>>,
    pub transcripts: Vec<Transcript>,
    pub tail: Tail,
}

// Adds the transcripts of so many workers who did nothing.
pub(crate) fn add_idle(
    alloc: Global,
    transcripts: &mut Vec<Transcript>,
    idle: u8,
) -> Result<(), NoMemory>
    ensures { OnOk result (transcripts.new.items ≡ transcripts.old.items ++ replicate idle []) }
{
    for _ in 0..idle {
        transcripts.push(Transcript::new(alloc))?;
    }
    Ok(())
}
