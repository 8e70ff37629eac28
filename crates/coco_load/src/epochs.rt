//! The number of the next epoch.

ghost use Rattle.std.specs.Prelude.{◌≡◌, ℕ, ◌<◌, ◌++◌, ◌∷◌, [], List};
ghost use Rattle.coco_load.specs.Epochs.{IsNextTo};

use coco_types::limits::EPOCHS_END;

/// The number that comes next, once this epoch stands behind those that had this next one.
pub fn next_epoch(next: u64, epoch: u64) -> u64
    requires { epoch < EPOCHS_END }
    ensures { (epochs : List ℕ) → IsNextTo epochs next → IsNextTo (epochs ++ epoch ∷ []) result }
{
    next.max(epoch + 1)
}
