//! A node's tables that were read anew, put in the place of those that it had.

ghost use Rattle.std.specs.Prelude.{ℕ, ◌<◌, ◌≡◌, ◌*◌, Bool, false, length, slice_index_or};
ghost use Rattle.std.specs.FinMap.{empty};
ghost use Rattle.coco_ast.specs.Keyed.{Rows};
ghost use Rattle.coco_copy.specs.CopyState.{begun};
ghost use Rattle.coco_load.specs.Tables.{shard_at};
ghost use Rattle.coco_standing.specs.Places.{is_copy_on, is_shard_on};
ghost use Rattle.coco_standing.specs.Changes.{ChangesAt};
ghost use Rattle.coco_standing.specs.Standing.{AreCounted, NodeStands, NodeIsFrom, OthersStand, OthersStay, TablesStand, caught_up};

use crate::places::{copy_node, shard_node};
use coco_copy::CopyTable;
use coco_entry::Layout;
use coco_load::Tables;
use coco_shard::Shard;
use std::mem;

/// Puts the tables on a node from another set in the place of those that are there; the others of that set are let go.
/// The tables are moved, without memory.
pub fn take_tables(
    layout: &Layout,
    node: u8,
    from: Tables,
    shards: &mut [Shard],
    copies: &mut [CopyTable],
)
    requires counted { AreCounted layout.now shards.old copies.old }
    requires from { AreCounted layout.now from.shards.items from.copies.items }
    ensures counted { AreCounted layout.now shards.new copies.new }
    ensures taken { NodeIsFrom layout.now node from.shards.items from.copies.items shards.new copies.new }
    ensures others { OthersStay layout.now node shards.old copies.old shards.new copies.new }
    ensures stand { (m : Rows) (behind : ℕ → Bool) → NodeStands layout.now m node false from.shards.items from.copies.items → OthersStand layout.now m node behind shards.old copies.old
        → TablesStand layout.now m (caught_up node behind) shards.new copies.new }
{
    let mut from = from;
    take_shards(layout, node, from.shards.as_mut_slice(), shards);
    take_copies(layout, node, from.copies.as_mut_slice(), copies);
}

fn take_shards(layout: &Layout, node: u8, from: &mut [Shard], shards: &mut [Shard])
    requires nodes { 0 < layout.now.nodes }
    requires count { length from.old ≡ length shards.old }
    ensures { ChangesAt empty (is_shard_on layout.now node) (λ place _ shard. shard ≡ shard_at from.old place) shards.old shards.new }
{
    for place in 0..shards.len() {
        if shard_node(layout, place) == node as usize {
            mem::swap(&mut shards[place], &mut from[place]);
        }
    }
}

fn take_copies(layout: &Layout, node: u8, from: &mut [CopyTable], copies: &mut [CopyTable])
    requires nodes { 0 < layout.now.nodes }
    requires count { length copies.old ≡ layout.now.partitions * layout.now.copies }
    requires as_many { length from.old ≡ length copies.old }
    ensures { ChangesAt (begun 0 empty) (is_copy_on layout.now node) (λ place _ copy. copy ≡ slice_index_or from.old place (begun 0 empty)) copies.old copies.new }
{
    for place in 0..copies.len() {
        if copy_node(layout, place) == node as usize {
            mem::swap(&mut copies[place], &mut from[place]);
        }
    }
}
