//! The six operations on a row, as they are asked and answered.

ghost use Rattle.std.specs.Prelude.{◌≡◌};

use coco_types::{AttemptId, Key, Value};

/// One step on one row. Times are logical times of the epoch.
#[derive(Clone, Copy, Debug, PartialEq, Eq)]
pub enum Op {
    /// The newest value and its times.
    Read(Key),
    /// Puts the asker's mark on the row.
    Lock(Key),
    /// Makes the version written at `wts` valid until `time`.
    Extend {
        key: Key,
        wts: u64,
        time: u64,
    },
    /// Writes a value at `time`, and takes the asker's mark away.
    Install {
        key: Key,
        time: u64,
        value: Option<Value>,
    },
    /// Takes the asker's mark away.
    Release(Key),
    /// The value of the last committed epoch.
    Past(Key),
}

/// An operation and the attempt that asks for it.
#[derive(Clone, Copy, Debug, PartialEq, Eq)]
pub struct Ask {
    pub by: AttemptId,
    pub op: Op,
}

/// What a shard answers. `wts` and `rts` are the row's write time and read time as the step found them.
#[derive(Clone, Copy, Debug, PartialEq, Eq)]
pub enum Answer {
    Got {
        wts: u64,
        rts: u64,
        value: Option<Value>,
    },
    Locked {
        wts: u64,
        rts: u64,
    },
    /// Another attempt has the row locked.
    Marked {
        holder: AttemptId,
    },
    /// The row was written since, at `wts`.
    Changed {
        wts: u64,
    },
    Extended,
    Installed,
    Released,
    /// The row isn't locked by the asker.
    NotMine {
        mark: Option<AttemptId>,
    },
    Stood(Option<Value>),
}

impl Op {
    ghost use Rattle.std.specs.Prelude.{◌≡◌};
    ghost use Rattle.coco_shard.specs.Table.{key_of};

    /// The key of the row that the operation is on.
    pub fn key(&self) -> Key
        ensures { result ≡ key_of self.now }
    {
        match self {
            Op::Read(key) | Op::Lock(key) | Op::Release(key) | Op::Past(key) => *key,
            Op::Extend { key, .. } | Op::Install { key, .. } => *key,
        }
    }
}
