//! The order of Dones.

ghost use Rattle.std.specs.List.Sorted.{IsPermutation};
ghost use Rattle.coco_order.specs.Order.{AreInOrder};

use coco_types::Done;

/// The same Dones, by epoch, time and id. It takes no memory.
pub fn ordered(mut dones: Vec<Done>) -> Vec<Done>
    ensures same { IsPermutation dones.items result.items }
    ensures order { AreInOrder result.items }
{
    dones.sort_unstable_by_key(|done| (done.epoch, done.time, done.id));
    dones
}
