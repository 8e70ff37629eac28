//! All tables behind an epoch that wasn't committed.

ghost use Rattle.std.specs.Prelude.{◌≡◌, map};
ghost use Rattle.coco_ast.specs.Keyed.{Rows};
ghost use Rattle.coco_entry.specs.declared.layout.Layout.{Layout as LayoutState};
ghost use Rattle.coco_tail.specs.Shards.{SettleOn};
ghost use Rattle.coco_shard.specs.RowState.{stable_at};
ghost use Rattle.coco_standing.specs.Changes.{reverted};
ghost use Rattle.coco_standing.specs.Standing.{TablesKeep, TablesStand, none_behind};

use coco_copy::CopyTable;
use coco_shard::Shard;

/// Reverts all tables, without memory: what pends in them is forgotten, and they stand at the map of before.
pub fn revert_all(shards: &mut [Shard], copies: &mut [CopyTable])
    ensures shards { SettleOn stable_at shards.old shards.new }
    ensures copies { copies.new ≡ map reverted copies.old }
    ensures stand { (layout : LayoutState) (m : Rows) → TablesKeep layout m shards.old copies.old → TablesStand layout m none_behind shards.new copies.new }
{
    coco_tail::revert_all(shards);
    revert_copies(copies);
}

fn revert_copies(copies: &mut [CopyTable])
    ensures { copies.new ≡ map reverted copies.old }
{
    for place in 0..copies.len() {
        copies[place].revert();
    }
}
