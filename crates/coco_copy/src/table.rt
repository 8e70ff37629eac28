//! A copy of a partition, as a machine.

ghost use Rattle.std.specs.Prelude.{◌≡◌, IfOk, OnOk, OnErr};
ghost use Rattle.std.specs.FinMap.{get, empty, entries};
ghost use Rattle.coco_types.specs.RowKey.{RowKey};
ghost use Rattle.coco_ast.specs.Keyed.{write_at};
ghost use Rattle.coco_copy.specs.CopyState.{begun, promoted_at};
ghost use Rattle.coco_copy.specs.declared.ops.CopyAsk.TheVariants.{Put};
ghost use Rattle.coco_copy.specs.Puts.{HasNothing, TakesMemory, after_ask, answer_in, epoch_of, key_of, value_of};

use crate::kept::Kept;
use crate::ops::{CopyAnswer, CopyAsk};
use crate::rows::{load, put, stable_rows};
use coco_rows::settle;
use coco_types::{Key, Machine, MapRows, NoMemory, Packed, PackedWrite, Value, Write};
use std::alloc::Global;
use std::collections::BTreeMap;
use std::marker::Model;

/// A copy of a partition. Contracts see its current epoch, its stable map, and what pends in the epoch for each
/// key: a time and a value, none where the row is to go.
#[derive(Drop)]
pub struct CopyTable {
    epoch: u64,
    rows: BTreeMap<Key, Kept>,
    listed: Vec<Key>,
}

impl Model for CopyTable {
    ghost use Rattle.std.specs.Prelude.{vec_capacity};
    ghost use Rattle.coco_copy.specs.CopyState.{CopyState};
    ghost use Rattle.coco_copy.specs.Codes.{copy_code};

    ghost Value = { CopyState };

    ghost coded = { copy_code };

    ghost use Rattle.coco_copy.specs.Kept.{view_of, IsWhole};

    ghost view = { λ a. view_of a.epoch a.rows.entries };

    ghost invariant = { λ a. IsWhole a.rows.entries a.listed.items (vec_capacity a.listed) };
}

impl CopyTable {
    /// A copy without rows in epoch 0, which grows on this allocator.
    pub fn new(alloc: Global) -> CopyTable
        ensures { result ≡ begun 0 empty }
    {
        CopyTable {
            epoch: 0,
            rows: BTreeMap::new(alloc),
            listed: Vec::new(alloc),
        }
    }

    /// Sets the stable value of a key, or takes it away. Out of memory, nothing has changed.
    pub fn load(&mut self, key: Key, value: Option<Value>) -> Result<(), NoMemory>
        ensures ok { OnOk result (self.new ≡ record self.old { stable = write_at self.old.stable key value }) }
        ensures err { OnErr result (self.new ≡ self.old) }
        ensures missing { OnErr result (TakesMemory self.old key value) }
    {
        load(&mut self.rows, &mut self.listed, key, &value)
    }

    /// Begins an epoch, in which nothing was put yet.
    pub fn begin(&mut self, epoch: u64)
        ensures { self.new ≡ begun epoch self.old.stable }
    {
        settle(&mut self.rows, &mut self.listed, false);
        self.epoch = epoch;
    }

    /// The key's value of the last committed epoch.
    pub fn stable(&self, key: Key) -> Option<Value>
        ensures { result ≡ get self.now.stable key }
    {
        match self.rows.get(&key) {
            Some(kept) => kept.stable.get(),
            None => None,
        }
    }

    /// What pends for the key in the current epoch: the time and the value.
    pub fn pending(&self, key: Key) -> Option<(u64, Option<Value>)>
        ensures { result ≡ get self.now.pending key }
    {
        match self.rows.get(&key) {
            Some(kept) => kept.what_pends(),
            None => None,
        }
    }

    /// Answers a put whose write is packed, and keeps it as it is. Out of memory, it was of the current epoch, the key
    /// has no row, and nothing has changed.
    pub fn put(&mut self, epoch: u64, time: u64, write: PackedWrite) -> Result<CopyAnswer, NoMemory>
        ensures answer { IfOk result (λ answer. answer ≡ answer_in self.old (Put epoch time write)) }
        ensures state { IfOk result (λ _. self.new ≡ after_ask self.old (Put epoch time write)) }
        ensures err { OnErr result (self.new ≡ self.old) }
        ensures current { OnErr result (epoch ≡ self.old.epoch) }
        ensures missing { OnErr result (HasNothing self.old write.key) }
    {
        let (key, value) = write.into_parts();
        if epoch == self.epoch {
            put(&mut self.rows, &mut self.listed, time, key, value)
        } else {
            Ok(CopyAnswer::OtherEpoch {
                current: self.epoch,
            })
        }
    }

    /// All keys that have a stable value, each with it, rising.
    pub fn rows(&self) -> Result<MapRows, NoMemory>
        ensures { IfOk result (λ rows. rows ≡ entries self.now.stable) }
    {
        let alloc = *self.listed.allocator();
        let values = stable_rows(alloc, &self.rows)?;
        Ok(MapRows::from_vec(values))
    }

    /// Makes every pending value the stable one. A row that is to go is gone.
    pub fn promote(&mut self)
        ensures epoch { self.new.epoch ≡ self.old.epoch }
        ensures stable { (k : RowKey) → get self.new.stable k ≡ promoted_at self.old k }
        ensures pending { self.new.pending ≡ empty }
    {
        settle(&mut self.rows, &mut self.listed, true);
    }

    /// Forgets what pends.
    pub fn revert(&mut self)
        ensures { self.new ≡ begun self.old.epoch self.old.stable }
    {
        settle(&mut self.rows, &mut self.listed, false);
    }
}

impl Machine for CopyTable {
    type Ask = CopyAsk;

    type Answer = CopyAnswer;

    ghost answer_to = { answer_in };

    ghost state_after = { after_ask };

    /// Answers a put. Out of memory, it was of the current epoch, the key has no row or the value is a text, and nothing
    /// has changed.
    fn apply(&mut self, ask: CopyAsk) -> Result<CopyAnswer, NoMemory>
        ensures answer { IfOk result (λ answer. answer ≡ answer_in self.old ask) }
        ensures state { IfOk result (λ _. self.new ≡ after_ask self.old ask) }
        ensures err { OnErr result (self.new ≡ self.old) }
        ensures current { OnErr result (epoch_of ask ≡ self.old.epoch) }
        ensures missing { OnErr result (TakesMemory self.old (key_of ask) (value_of ask)) }
    {
        let CopyAsk::Put { epoch, time, write } = ask;
        if epoch != self.epoch {
            return Ok(CopyAnswer::OtherEpoch {
                current: self.epoch,
            });
        }
        let Write { key, value } = write;
        let packed = Packed::of(*self.listed.allocator(), &value)?;
        put(&mut self.rows, &mut self.listed, time, key, packed)
    }
}
