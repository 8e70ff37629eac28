//! A letter, and a letter with its receiver.

ghost use Rattle.std.specs.Prelude.{◌≡◌, IfOk};

use coco_types::{Bytes, NoMemory};
use std::alloc::Global;

/// A letter, with the place that it is from. Places 0 to 7 are nodes, place 8 is the coordinator.
#[derive(Debug, Drop)]
pub struct Letter {
    pub from: u8,
    pub bytes: Bytes,
}

/// A letter to a place.
#[derive(Debug, Drop)]
pub struct Posted {
    pub to: u8,
    pub letter: Letter,
}

impl Letter {
    // The same letter once more.
    pub(crate) fn copied(&self, alloc: Global) -> Result<Letter, NoMemory>
        ensures { IfOk result (λ copy. copy ≡ self.now) }
    {
        let bytes = self.bytes.as_slice().to_vec(alloc)?;
        Ok(Letter {
            from: self.from,
            bytes: Bytes::from_vec(bytes),
        })
    }
}
