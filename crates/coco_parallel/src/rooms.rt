//! The rooms that the locks and the workers of an epoch leave to those of the next.

ghost use Rattle.std.specs.Prelude.{◌≡◌, vec_len};

use crate::trace::Trace;
use coco_copy::CopyTable;
use coco_journaled::{Journal, Room};
use coco_occ::{ScriptRooms, Transcript};
use coco_packs::Packs;
use coco_shard::Shard;
use std::alloc::Global;
use std::{mem, vec};

// Some 6 MB; few epochs need more, and none that follows has to hold it.
const MOST_KEPT_ENTRIES: usize = 65_536;

/// The rooms of an epoch's locks and of its workers' transcripts, which the next epoch's begin with. Locks take theirs
/// from the end, so the last lock's stands first; workers take theirs in order.
#[derive(Drop)]
pub struct Rooms {
    pub(crate) shards: Vec<Room<Shard>>,
    pub(crate) copies: Vec<Room<CopyTable>>,
    /// The lists of places of each lock, in the locks' order, until the journals are there too.
    pub(crate) shard_lists: Vec<Vec<Vec<u64>>>,
    pub(crate) copy_lists: Vec<Vec<Vec<u64>>>,
    /// The workers' transcripts, whose scripts' rooms serve again, and the rooms of those before, for transcripts.
    pub(crate) transcripts: Vec<Transcript>,
    pub(crate) scripts: Vec<ScriptRooms>,
}

impl Rooms {
    /// No rooms. It takes no memory.
    pub fn new(alloc: Global) -> Rooms {
        Rooms {
            shards: Vec::new(alloc),
            copies: Vec::new(alloc),
            shard_lists: Vec::new(alloc),
            copy_lists: Vec::new(alloc),
            transcripts: Vec::new(alloc),
            scripts: Vec::new(alloc),
        }
    }

    /// Keeps the transcripts of an epoch that is read and the journals, these with the lists that the locks left. A
    /// journal of more than 65,536 entries is let go, as are journals and lists out of memory.
    pub fn keep(&mut self, trace: Trace, copy_journals: Vec<Journal<CopyTable>>) {
        keep_all(&mut self.shards, trace.journals, &mut self.shard_lists);
        keep_all(&mut self.copies, copy_journals, &mut self.copy_lists);
        self.transcripts = trace.transcripts;
    }

    /// How many rooms there are for the locks of shards, and how many for those of copies.
    pub fn of_locks(&self) -> (usize, usize)
        ensures { (result.0 ≡ vec_len self.now.shards) × (result.1 ≡ vec_len self.now.copies) }
    {
        (self.shards.len(), self.copies.len())
    }

    // The transcripts that were kept, and the rooms of those before, worker after worker. None of them stay.
    pub(crate) fn of_workers(
        &mut self,
        alloc: Global,
    ) -> (vec::IntoIter<Transcript>, vec::IntoIter<ScriptRooms>) {
        let transcripts = mem::replace(&mut self.transcripts, Vec::new(alloc));
        let scripts = mem::replace(&mut self.scripts, Vec::new(alloc));
        (transcripts.into_iter(), scripts.into_iter())
    }
}

// Makes a room of each journal with its lists, the last one first, but for one whose room would be held for nothing.
fn keep_all<M: Packs + Drop>(
    rooms: &mut Vec<Room<M>>,
    mut journals: Vec<Journal<M>>,
    all_lists: &mut Vec<Vec<Vec<u64>>>,
) {
    while let Some(journal) = journals.pop() {
        let Some(lists) = all_lists.pop() else {
            return;
        };
        if journal.len() <= MOST_KEPT_ENTRIES {
            let _ = rooms.push(Room { journal, lists });
        }
    }
}
