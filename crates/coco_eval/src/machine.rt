//! The state of a run: what it keeps, and where it stands.

use crate::variables::Slots;
use coco_types::{Key, Reply, Value, Write};
use std::alloc::Global;

/// A value that a row has on the map that the run reads.
#[derive(Clone, Copy, Debug)]
pub struct Given {
    pub key: Key,
    pub value: Option<Value>,
}

/// How a run stands within a statement: at its start, at a `get` whose value was given, or in one
/// of its blocks, of a `repeat` in one of its turns.
#[derive(Clone, Copy, Debug)]
pub enum Way {
    Fresh,
    Given,
    Then,
    Else,
    Turn(u8),
}

/// Where a run stands within a block.
#[derive(Clone, Copy, Debug)]
pub struct Frame {
    pub at: usize,
    pub way: Way,
}

/// Why a part of a run stops: the statements behind it come next, the value of a key is needed, or
/// the run has ended.
#[derive(Clone, Copy, Debug)]
pub enum Stop {
    Goes,
    Asks(Way),
    Ends,
}

/// What a run keeps, the key that it asks for and the reply that it ends with. Its path says where
/// it stands, the innermost block first.
#[derive(Drop)]
pub struct Machine {
    pub variables: Slots,
    pub given: Vec<Given>,
    pub writes: Vec<Write>,
    pub path: Vec<Frame>,
    pub asked: Key,
    pub reply: Reply,
}

impl Machine {
    /// A state without room.
    pub fn new(alloc: Global) -> Machine {
        Machine {
            variables: Slots::new(alloc),
            given: Vec::new(alloc),
            writes: Vec::new(alloc),
            path: Vec::new(alloc),
            asked: Key { table: 0, row: 0 },
            reply: Reply::Ok(None),
        }
    }
}
