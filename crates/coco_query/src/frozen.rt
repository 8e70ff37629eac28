//! The rows of one partition, which never change.

ghost use Rattle.std.specs.Prelude.{◌≡◌};
ghost use Rattle.coco_query.specs.Frozen.{after_ask, answer_in, had};
ghost use Rattle.coco_query.specs.declared.frozen.FrozenAnswer.TheVariants.{Had};

use coco_copy::CopyTable;
use coco_shard::Shard;
use coco_types::{Key, Machine, NoMemory, Value};

/// What a table is asked.
#[derive(Clone, Copy, Debug, PartialEq, Eq)]
pub enum FrozenAsk {
    Get(Key),
}

/// What it answers: the key's value, none where it has none.
#[derive(Clone, Copy, Debug, PartialEq, Eq)]
pub enum FrozenAnswer {
    Had(Option<Value>),
}

impl FrozenAnswer {
    /// The value that the key had.
    pub fn value(&self) -> &Option<Value>
        ensures { self.now ≡ Had result.now }
    {
        match self {
            FrozenAnswer::Had(value) => value,
        }
    }
}

/// The rows of one partition: the stable ones of a shard or of a copy.
#[derive(Drop)]
pub enum Frozen {
    Shard(Shard),
    Copy(CopyTable),
}

impl Frozen {
    /// The key's value.
    pub fn had(&self, key: Key) -> Option<Value>
        ensures { result ≡ had self.now key }
    {
        match self {
            Frozen::Shard(shard) => shard.stable(key),
            Frozen::Copy(copy) => copy.stable(key),
        }
    }
}

impl Machine for Frozen {
    type Ask = FrozenAsk;

    type Answer = FrozenAnswer;

    ghost answer_to = { answer_in };

    ghost state_after = { after_ask };

    fn apply(&mut self, ask: FrozenAsk) -> Result<FrozenAnswer, NoMemory> {
        let FrozenAsk::Get(key) = ask;
        Ok(FrozenAnswer::Had(self.had(key)))
    }
}
