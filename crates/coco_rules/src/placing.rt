//! Which nodes hold a partition.

ghost use Rattle.std.specs.Prelude.{◌≡◌, ◌<◌, ◌≤◌, ◌↔◌, IsTrue};
ghost use Rattle.coco_store.specs.Placement.{IsHeldBy};

use coco_entry::Layout;

/// Whether a node holds a partition, as its primary or as a copy: it stands at most so many places
/// behind the primary, round the ring.
pub fn is_held_by(layout: &Layout, partition: u8, node: u8) -> bool
    requires { node < layout.now.nodes }
    ensures { IsTrue result ↔ IsHeldBy layout.now partition node }
{
    let nodes = layout.nodes as u16;
    let primary = partition as u16 % nodes;
    let behind = (nodes + node as u16 - primary) % nodes;
    behind <= layout.copies as u16
}
