//! What a store with a node's file made again is.

ghost use Rattle.coco_rebuild.specs.Laws.{RebuiltIsGood};

/// Entries that have, for each committed epoch, the rows that the next holder of each of the node's partitions has
/// keep the rules of the node's file; with a layout that names their file they are contents to switch to, of the same
/// history.
pub fn a_rebuilt_store_is_good()
    ensures { RebuiltIsGood }
{}
