//! The shard: rows under their keys, as a machine and for the steps that need no lock.

ghost use Rattle.std.specs.Prelude.{◌≡◌, ◌≤◌, ◌++◌, List, None, true, IfOk, IsSome, OnOk, OnErr};
ghost use Rattle.std.specs.FinMap.{get, insert, empty};
ghost use Rattle.std.specs.Map.{keys_of};
ghost use Rattle.coco_types.specs.RowKey.{RowKey};
ghost use Rattle.coco_types.specs.declared.value.Value.{Value as Datum};
ghost use Rattle.coco_shard.specs.Memory.{TakesRoom, TakesMemory};
ghost use Rattle.coco_shard.specs.RowState.{loaded, row_at, newest_at, stable_at, value_at, Holds, IsSettled, IsGreatestTime, ListsRows};
ghost use Rattle.coco_shard.specs.Table.{after_ask, answer_in, installed, extended, key_of, may_make_row};

use crate::kept::read;
use crate::ops::{Answer, Ask, Op};
use crate::table::{act_on_missing, act_on_rows, drop_loaded, load_row, stable_of};
use crate::tail::{put_row, read_row};
use crate::values::{add_keys, greatest, values};
use coco_packs::AnswersInPlace;
use coco_rows::{Rooms, Row, settle};
use coco_types::{Key, Machine, MapRows, NoMemory, Value};
use std::alloc::Global;
use std::collections::BTreeMap;
use std::marker::Model;

/// Rows under their keys. Contracts see a finite map from the keys that have a row to what each row says; a key
/// without a row is as one without a value, with times 0 and no mark.
#[derive(Drop)]
pub struct Shard {
    rows: BTreeMap<Key, Row>,
    touched: Vec<Key>,
    spare: Rooms,
}

impl Model for Shard {
    ghost use Rattle.std.specs.FinMap as map;
    ghost use Rattle.std.specs.Prelude.{vec_capacity};
    ghost use Rattle.coco_types.specs.RowKey.{key_cmp};
    ghost use Rattle.coco_shard.specs.RowState.{RowState};
    ghost use Rattle.coco_types.specs.Codes.{key_code};
    ghost use Rattle.coco_shard.specs.Codes.{row_code};

    ghost Value = { map.FinMap key_cmp RowState };

    ghost coded = { map.code key_code row_code };

    ghost use Rattle.coco_shard.specs.Kept.{view_of, IsWhole};

    ghost view = { λ a. view_of a.rows.entries };

    ghost invariant = { λ a. IsWhole a.rows.entries a.touched.items (vec_capacity a.touched) };
}

impl Shard {
    /// A shard without rows, which grows on this allocator.
    pub fn new(alloc: Global) -> Shard
        ensures empty { result ≡ empty }
        ensures settled { IsSettled result }
    {
        Shard {
            rows: BTreeMap::new(alloc),
            touched: Vec::new(alloc),
            spare: Rooms::new(alloc),
        }
    }

    /// The key's value of the last committed epoch.
    pub fn stable(&self, key: Key) -> Option<Value>
        ensures { result ≡ stable_at self.now key }
    {
        stable_of(&self.rows, key)
    }

    /// Sets a stable value, or takes the key's row away, while no row is touched. Out of memory, nothing has changed.
    pub fn load(&mut self, key: Key, value: Option<Value>) -> Result<(), NoMemory>
        requires { IsSettled self.old }
        ensures ok { OnOk result (self.new ≡ loaded self.old key value) }
        ensures settled { IsSettled self.new }
        ensures err { OnErr result (self.new ≡ self.old) }
        ensures missing { OnErr result (TakesMemory self.old key value) }
        ensures makes { OnErr result (IsSome value) }
    {
        match value {
            Some(value) => load_row(
                &mut self.rows,
                &mut self.touched,
                &mut self.spare,
                key,
                value,
            ),
            None => {
                drop_loaded(&mut self.rows, &mut self.touched, key);
                Ok(())
            }
        }
    }

    /// All keys that have a stable value, or, for false, a newest value, each with it, rising.
    pub fn rows(&self, stable: bool) -> Result<MapRows, NoMemory>
        ensures { IfOk result (λ rows. ListsRows (value_at stable self.now) rows) }
    {
        let alloc = *self.touched.allocator();
        let values = values(alloc, &self.rows, !stable)?;
        Ok(MapRows::from_vec(values))
    }

    /// Puts all keys that have a stable value at the end of a list, rising.
    pub fn add_keys(&self, keys: &mut Vec<Key>) -> Result<(), NoMemory>
        ensures { OnOk result ((rows : List (RowKey × Datum)) × ListsRows (stable_at self.now) rows × (keys.new.items ≡ keys.old.items ++ keys_of rows)) }
    {
        add_keys(keys, &self.rows)
    }

    /// The greatest read time of any row.
    pub fn greatest_time(&self) -> u64
        ensures { IsGreatestTime self.now result }
    {
        greatest(&self.rows, &self.touched)
    }

    /// Makes every newest value the stable one, sets all times to 0 and clears the marks. Rows without a value go.
    pub fn promote(&mut self)
        ensures values { Holds (newest_at self.old) self.new }
        ensures settled { IsSettled self.new }
    {
        settle(&mut self.rows, &mut self.touched, true);
    }

    /// Makes every stable value the newest one, sets all times to 0 and clears the marks. Rows without a value go.
    pub fn revert(&mut self)
        ensures values { Holds (stable_at self.old) self.new }
        ensures settled { IsSettled self.new }
    {
        settle(&mut self.rows, &mut self.touched, false);
    }

    /// Installs a value at the time without a lock. Out of memory, nothing has changed.
    pub fn put_at(&mut self, key: Key, time: u64, value: Option<Value>) -> Result<(), NoMemory>
        requires unmarked { (row_at self.old key).mark ≡ None }
        requires later { (row_at self.old key).rts ≤ time }
        ensures ok { OnOk result (self.new ≡ insert self.old key (installed time value (row_at self.old key))) }
        ensures err { OnErr result (self.new ≡ self.old) }
        ensures missing { OnErr result (TakesMemory self.old key value) }
    {
        put_row(
            &mut self.rows,
            &mut self.touched,
            &mut self.spare,
            key,
            time,
            &value,
        )
    }

    /// The newest value, which is valid until the time from then on. Out of memory, nothing has changed.
    pub fn read_at(&mut self, key: Key, time: u64) -> Result<Option<Value>, NoMemory>
        requires unmarked { (row_at self.old key).mark ≡ None }
        requires later { (row_at self.old key).rts ≤ time }
        ensures value { IfOk result (λ value. value ≡ newest_at self.old key) }
        ensures ok { OnOk result (self.new ≡ insert self.old key (extended time (row_at self.old key))) }
        ensures err { OnErr result (self.new ≡ self.old) }
        ensures missing { OnErr result (get self.old key ≡ None) }
    {
        read_row(&mut self.rows, &mut self.touched, key, time)
    }
}

impl Machine for Shard {
    type Ask = Ask;

    type Answer = Answer;

    ghost answer_to = { answer_in };

    ghost state_after = { after_ask };

    /// Answers an ask. Out of memory, the key has no row or is to be locked, and nothing has changed.
    #[inline(always)]
    fn apply(&mut self, ask: Ask) -> Result<Answer, NoMemory>
        ensures answer { IfOk result (λ answer. answer ≡ answer_in self.old ask) }
        ensures state { IfOk result (λ _. self.new ≡ after_ask self.old ask) }
        ensures err { OnErr result (self.new ≡ self.old) }
        ensures missing { OnErr result (TakesRoom self.old ask.op) }
        ensures makes { OnErr result (may_make_row ask.op ≡ true) }
    {
        // A read of a row that is there changes nothing, and stands apart so that its answer is copied less often.
        if let Op::Read(_) = ask.op {
            if let Some(row) = self.rows.get(&ask.op.key()) {
                return Ok(read(row));
            }
            let mut answer = Answer::Released;
            act_on_missing(&mut self.rows, &mut self.touched, None, &ask, &mut answer)?;
            return Ok(answer);
        }
        let mut answer = Answer::Released;
        self.answer(&ask, &mut answer)?;
        Ok(answer)
    }
}

impl AnswersInPlace for Shard {
    #[inline(always)]
    fn answer(&mut self, ask: &Ask, answer: &mut Answer) -> Result<(), NoMemory>
        ensures answer { OnOk result (answer.new ≡ answer_in self.old ask.now) }
        ensures state { OnOk result (self.new ≡ after_ask self.old ask.now) }
        ensures err { OnErr result (self.new ≡ self.old) }
        ensures missing { OnErr result (TakesRoom self.old ask.now.op) }
        ensures makes { OnErr result (may_make_row ask.now.op ≡ true) }
    {
        act_on_rows(
            &mut self.rows,
            &mut self.touched,
            &mut self.spare,
            ask,
            answer,
        )
    }
}
