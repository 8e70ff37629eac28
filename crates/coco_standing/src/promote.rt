//! A node's tables behind the commit of an epoch.

ghost use Rattle.std.specs.Prelude.{ℕ, ◌<◌, ◌≡◌, ◌*◌, Bool, length};
ghost use Rattle.std.specs.FinMap.{empty};
ghost use Rattle.coco_ast.specs.Keyed.{Rows};
ghost use Rattle.coco_copy.specs.CopyState.{begun};
ghost use Rattle.coco_standing.specs.Places.{is_copy_on, is_shard_on};
ghost use Rattle.coco_standing.specs.Changes.{ChangesAt, PromotesCopy, PromotesShard};
ghost use Rattle.coco_standing.specs.Standing.{AreCounted, NodePromotes, OthersStay, TablesStand, caught_up};

use crate::places::{copy_node, shard_node};
use coco_copy::CopyTable;
use coco_entry::Layout;
use coco_shard::Shard;

/// Promotes the tables on a node, and no others, without memory: what pends in them becomes stable. Where nothing
/// pends, they stay at their map.
pub fn promote_node(layout: &Layout, shards: &mut [Shard], copies: &mut [CopyTable], node: u8)
    requires { AreCounted layout.now shards.old copies.old }
    ensures counted { AreCounted layout.now shards.new copies.new }
    ensures promoted { NodePromotes layout.now node shards.old copies.old shards.new copies.new }
    ensures others { OthersStay layout.now node shards.old copies.old shards.new copies.new }
    ensures stand { (m : Rows) (behind : ℕ → Bool) → TablesStand layout.now m behind shards.old copies.old → TablesStand layout.now m (caught_up node behind) shards.new copies.new }
{
    promote_shards(layout, node, shards);
    promote_copies(layout, node, copies);
}

// Promotes the shards on a node.
fn promote_shards(layout: &Layout, node: u8, shards: &mut [Shard])
    requires { 0 < layout.now.nodes }
    ensures { ChangesAt empty (is_shard_on layout.now node) (λ _. PromotesShard) shards.old shards.new }
{
    for place in 0..shards.len() {
        if shard_node(layout, place) == node as usize {
            shards[place].promote();
        }
    }
}

// Promotes the copies on a node.
fn promote_copies(layout: &Layout, node: u8, copies: &mut [CopyTable])
    requires nodes { 0 < layout.now.nodes }
    requires count { length copies.old ≡ layout.now.partitions * layout.now.copies }
    ensures { ChangesAt (begun 0 empty) (is_copy_on layout.now node) (λ _. PromotesCopy) copies.old copies.new }
{
    for place in 0..copies.len() {
        if copy_node(layout, place) == node as usize {
            copies[place].promote();
        }
    }
}
