//! The tables of all nodes at the end of an epoch.

ghost use Rattle.std.specs.Prelude.{◌≡◌, ◌<◌, List, Bool, false, length, slice_set};
ghost use Rattle.coco_ast.specs.Keyed.{Rows};
ghost use Rattle.coco_standing.specs.Standing.{AreCounted, NodePromotes, OthersStay, TablesStand};
ghost use Rattle.coco_finish.specs.Finishing.{is_behind, AreWhole, CatchesUp, HaveMap};

use coco_copy::CopyTable;
use coco_entry::Layout;
use coco_shard::Shard;
use coco_standing::promote_node;

/// The tables of all nodes, and which nodes are behind: those whose tables have yet to be promoted.
#[derive(Drop)]
pub struct NodeTables {
    pub layout: Layout,
    pub shards: Vec<Shard>,
    pub copies: Vec<CopyTable>,
    pub behind: Vec<bool>,
}

// The tables on a node are promoted, and it is marked so.
fn promote_and_mark(
    layout: &Layout,
    shards: &mut [Shard],
    copies: &mut [CopyTable],
    behind: &mut [bool],
    node: u8,
)
    requires counted { AreCounted layout.now shards.old copies.old }
    requires node { node < length behind.old }
    ensures counted { AreCounted layout.now shards.new copies.new }
    ensures promoted { NodePromotes layout.now node shards.old copies.old shards.new copies.new }
    ensures others { OthersStay layout.now node shards.old copies.old shards.new copies.new }
    ensures behind { behind.new ≡ slice_set behind.old node false }
    ensures map { (m : Rows) → TablesStand layout.now m (is_behind behind.old) shards.old copies.old → TablesStand layout.now m (is_behind behind.new) shards.new copies.new }
{
    promote_node(layout, shards, copies, node);
    behind[node as usize] = false;
}

// The tables on a node are promoted, and it isn't behind any more.
pub fn catch_up(tables: &mut NodeTables, node: u8)
    requires whole { AreWhole tables.old }
    requires node { node < length tables.old.behind.items }
    ensures up { CatchesUp node tables.old tables.new }
    ensures whole { AreWhole tables.new }
    ensures map { (m : Rows) → HaveMap m tables.old → HaveMap m tables.new }
    ensures count { length tables.new.behind.items ≡ length tables.old.behind.items }
{
    promote_and_mark(
        &tables.layout,
        tables.shards.as_mut_slice(),
        tables.copies.as_mut_slice(),
        tables.behind.as_mut_slice(),
        node,
    );
}
