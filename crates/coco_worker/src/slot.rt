//! What an epoch's workers are told, and what one of them has done.

use coco_claim::ClaimSeat;
use coco_copy::CopyTable;
use coco_gate::Passes;
use coco_journaled::Pass;
use coco_occ::{ScriptRooms, Tailed, Transcript};
use coco_shard::Shard;
use coco_types::{Pieces, Sequence};

/// The number of an epoch, how many workers it may have and how many of these are started, how often they may try a
/// request, and how many nodes there are and copies of each partition.
#[derive(Clone, Copy, Debug, PartialEq, Eq)]
pub struct EpochConfig {
    pub epoch: u64,
    pub workers: u8,
    pub started: u8,
    pub attempts: u8,
    pub nodes: u8,
    pub copies: u8,
}

/// The requests that no attempt committed.
pub type Tail = Sequence<Tailed>;

/// One worker: a pass of each shard and of each copy table, the seat that it draws by, rooms for its scripts, and what
/// it did. Contracts alone see which points it passed.
#[derive(Drop)]
pub struct Slot {
    pub worker: u32,
    pub passes: Vec<Pass<Shard>>,
    pub copy_passes: Vec<Pass<CopyTable>>,
    pub seat: ClaimSeat,
    pub rooms: ScriptRooms,
    pub transcript: Transcript,
    pub pieces: Pieces,
    pub tail: Tail,
    pub passed: Passes,
}
