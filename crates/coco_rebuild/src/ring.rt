//! Which holders of a node's partitions come next behind it.

ghost use Rattle.std.specs.Prelude.{◌≡◌, ℕ, ◌<◌, MatchOption};
ghost use Rattle.coco_store.specs.Refusals.{IsFirst};
ghost use Rattle.coco_rebuild.specs.Rebuilding.{IsHeldAlone, holder_behind};
ghost use Rattle.coco_rebuild.specs.Sources.{gets, node_after, node_first};

use coco_entry::Layout;
use coco_types::Key;

/// The least partition that a node holds alone, if there is one.
pub fn held_alone(layout: &Layout, node: u8) -> Option<u8>
    requires node { node < layout.now.nodes }
    requires around { layout.now.copies < layout.now.nodes }
    ensures { MatchOption result ((p : ℕ) → ¬ (IsHeldAlone layout.now node p)) (λ p. IsFirst (IsHeldAlone layout.now node) p) }
{
    if layout.copies == 0 && node < layout.partitions {
        Some(node)
    } else {
        None
    }
}

/// The node after a node, round the ring.
pub fn node_after(layout: &Layout, node: u8) -> u8
    requires { node < layout.now.nodes }
    ensures is { result ≡ node_after layout.now node }
    ensures within { result < layout.now.nodes }
{
    let last = layout.nodes - 1;
    if node < last { node + 1 } else { 0 }
}

/// The primary of the partitions of which a node is the last holder.
pub fn node_first(layout: &Layout, node: u8) -> u8
    requires node { node < layout.now.nodes }
    requires around { layout.now.copies < layout.now.nodes }
    ensures is { result ≡ node_first layout.now node }
    ensures within { result < layout.now.nodes }
{
    if node < layout.copies {
        layout.nodes - (layout.copies - node)
    } else {
        node - layout.copies
    }
}

/// Whether a node gets the rows of a key's partition from this one.
pub fn gets(layout: &Layout, node: u8, from: u8, key: Key) -> bool
    requires node { node < layout.now.nodes }
    requires some { 0 < layout.now.partitions }
    ensures { result ≡ gets layout.now node from key }
{
    let nodes = usize::from(layout.nodes);
    let partition = key.partition(usize::from(layout.partitions));
    let primary = partition % nodes;
    let node = usize::from(node);
    let behind = if node < primary {
        node + nodes - primary
    } else {
        node - primary
    };
    behind <= usize::from(layout.copies)
        && next_holder(layout, partition, behind) == usize::from(from)
}

// The holder of a partition that comes next behind the one so far from its primary.
fn next_holder(layout: &Layout, partition: usize, behind: usize) -> usize
    requires some { 0 < layout.now.nodes }
    requires partition { partition < 256 }
    requires behind { behind < 256 }
    ensures { result ≡ holder_behind layout.now partition behind }
{
    let nodes = usize::from(layout.nodes);
    if behind == usize::from(layout.copies) {
        partition % nodes
    } else {
        (partition + (behind + 1)) % nodes
    }
}
