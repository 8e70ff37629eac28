//! What a closed lock leaves, and the room that the next one begins with.

use crate::journal::Journal;
use coco_packs::Packs;
use coco_types::NoMemory;
use std::alloc::Global;

/// What a journaled lock leaves at its end. The journal and the lists can be the room of the next lock.
#[derive(Drop)]
pub struct Closed<M: Packs> {
    pub machine: M,
    pub journal: Journal<M>,
    /// The lists in which the passes kept their places, empty.
    pub lists: Vec<Vec<u64>>,
}

/// The room of a journal and of the lists of places that passes keep. What stands in it is let go.
#[derive(Drop)]
pub struct Room<M: Packs> {
    pub journal: Journal<M>,
    pub lists: Vec<Vec<u64>>,
}

impl<M: Packs> Room<M> {
    /// Room for so many entries, and for as many places of each pass.
    pub fn new(alloc: Global, entries: usize, passes: u32) -> Result<Room<M>, NoMemory> {
        let journal = Journal::with_room(alloc, entries)?;
        let mut lists = Vec::with_capacity(alloc, passes as usize)?;
        for _ in 0..passes {
            lists.push(Vec::with_capacity(alloc, entries)?)?;
        }
        Ok(Room { journal, lists })
    }
}
