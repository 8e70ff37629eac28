//! Room for texts on the heap, which is there before the text is.

ghost use Rattle.std.specs.Prelude.{◌≡◌, IsSome, IfOk, OnErr};
ghost use Rattle.coco_types.specs.Packing.{IsText};

use coco_types::{AttemptId, NoMemory, Text, Value};
use std::alloc::Global;

/// Room for one text. A mark stands on one, so that a text can be written without memory where a row is marked.
#[derive(Debug, Drop)]
pub struct Slip {
    pub(crate) by: AttemptId,
    pub(crate) text: Text,
}

/// Room for one text, on the heap.
pub type Room = Box<Slip>;

/// Rooms that nobody has, kept so that the next one needs no memory.
#[derive(Debug, Drop)]
pub struct Rooms {
    free: Vec<Room>,
}

// So many are kept at the most.
const MOST_FREE: usize = 32;

impl Rooms {
    /// No rooms yet, and this heap for them.
    pub fn new(alloc: Global) -> Rooms {
        Rooms {
            free: Vec::new(alloc),
        }
    }

    /// A room. It takes memory only where none is free, and then for those too that come back.
    pub fn take(&mut self) -> Result<Room, NoMemory> {
        match self.free.pop() {
            Some(room) => Ok(room),
            None => {
                self.free.reserve(MOST_FREE)?;
                built(*self.free.allocator())
            }
        }
    }

    /// Room for this value: one for a text, and none for any other.
    pub fn take_for(&mut self, value: &Option<Value>) -> Result<Option<Room>, NoMemory>
        ensures room { IfOk result (λ room. IsText value.now → IsSome room) }
        ensures missing { OnErr result (IsText value.now) }
    {
        match value {
            Some(Value::Text(_)) => Ok(Some(self.take()?)),
            Some(Value::Int(_)) | None => Ok(None),
        }
    }

    /// Keeps a room that is needed no more, where it takes no memory to.
    pub fn give(&mut self, room: Option<Room>) {
        if let Some(room) = room
            && self.free.len() < MOST_FREE
        {
            let _ = self.free.push(room);
        }
    }
}

fn built(alloc: Global) -> Result<Room, NoMemory> {
    let by = AttemptId {
        worker: 0,
        number: 0,
    };
    match Text::of("") {
        Some(text) => Ok(Box::new(alloc, Slip { by, text })?),
        None => unreachable!(),
    }
}
