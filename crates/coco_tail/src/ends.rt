//! The end of an epoch: the shards between it and the next one.

ghost use Rattle.coco_ast.specs.Keyed.{Rows};
ghost use Rattle.coco_shard.specs.RowState.{newest_at, stable_at};
ghost use Rattle.coco_tail.specs.Shards.{AreOfPartitions, HaveNewest, HaveStable, HoldMap, SettleOn};

use coco_shard::Shard;

/// Makes the newest values of all shards the stable ones, without memory.
pub fn promote_all(shards: &mut [Shard])
    ensures each { SettleOn newest_at shards.old shards.new }
    ensures holds { (m : Rows) → AreOfPartitions shards.old → HaveNewest m shards.old → HoldMap m shards.new }
{
    for place in 0..shards.len() {
        shards[place].promote();
    }
}

/// Makes the stable values of all shards the newest ones, without memory.
pub fn revert_all(shards: &mut [Shard])
    ensures each { SettleOn stable_at shards.old shards.new }
    ensures holds { (m : Rows) → AreOfPartitions shards.old → HaveStable m shards.old → HoldMap m shards.new }
{
    for place in 0..shards.len() {
        shards[place].revert();
    }
}
