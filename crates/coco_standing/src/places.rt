//! On which node a table stands.

ghost use Rattle.std.specs.Prelude.{◌≡◌, ◌<◌, ◌^◌};
ghost use Rattle.coco_standing.specs.Places.{copy_node, node_of};

use coco_entry::Layout;

// The node of a partition's shard.
pub fn shard_node(layout: &Layout, place: usize) -> usize
    requires { 0 < layout.now.nodes }
    ensures { result ≡ node_of layout.now place 0 }
{
    place % layout.nodes as usize
}

// The node of the copy at a place among all copies.
pub fn copy_node(layout: &Layout, place: usize) -> usize
    requires nodes { 0 < layout.now.nodes }
    requires copies { 0 < layout.now.copies }
    requires few { place < 2 ^ 63 }
    ensures { result ≡ copy_node layout.now place }
{
    let copies = layout.copies as usize;
    let behind = place % copies + 1;
    (place / copies + behind) % layout.nodes as usize
}
