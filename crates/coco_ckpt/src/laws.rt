//! What a compacted store is.

ghost use Rattle.coco_ckpt.specs.Laws.{CompactedIsGood};

use coco_append::runs_stay_in_tables;

/// A good store's kept Dones, floor and rows keep the rules of a base under its greatest epoch; with a layout of new
/// files they are contents to switch to, whose history is the compacted one.
pub fn a_compacted_store_is_good()
    ensures { CompactedIsGood }
{
    // The law by which each row has its table; the call does nothing.
    runs_stay_in_tables();
}
