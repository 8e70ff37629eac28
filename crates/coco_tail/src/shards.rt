//! The row of a key, in the shard of its partition.

ghost use Rattle.std.specs.Prelude.{◌≡◌, ◌<◌, ◌≤◌, None, length, IfOk, OnOk, OnErr};
ghost use Rattle.coco_shard.specs.Table.{extended, installed};
ghost use Rattle.coco_tail.specs.Shards.{newest_in, row_in, with_row_in};

use coco_shard::Shard;
use coco_types::{Key, NoMemory, Value, Write};

/// The newest value of a key, which is valid until the time from then on. Out of memory, nothing has changed.
pub fn read_key(shards: &mut [Shard], key: Key, time: u64) -> Result<Option<Value>, NoMemory>
    requires some { 0 < length shards.old }
    requires unmarked { (row_in shards.old key).mark ≡ None }
    requires later { (row_in shards.old key).rts ≤ time }
    ensures value { IfOk result (λ value. value ≡ newest_in shards.old key) }
    ensures ok { OnOk result (shards.new ≡ with_row_in shards.old key (extended time (row_in shards.old key))) }
    ensures err { OnErr result (shards.new ≡ shards.old) }
{
    let place = key.partition(shards.len());
    shards[place].read_at(key, time)
}

/// Makes a write at the time. Out of memory, nothing has changed.
pub fn put_key(shards: &mut [Shard], write: &Write, time: u64) -> Result<(), NoMemory>
    requires some { 0 < length shards.old }
    requires unmarked { (row_in shards.old write.now.key).mark ≡ None }
    requires later { (row_in shards.old write.now.key).rts ≤ time }
    ensures ok { OnOk result (shards.new ≡ with_row_in shards.old write.now.key (installed time write.now.value (row_in shards.old write.now.key))) }
    ensures err { OnErr result (shards.new ≡ shards.old) }
{
    let place = write.key.partition(shards.len());
    shards[place].put_at(write.key, time, write.value)
}
