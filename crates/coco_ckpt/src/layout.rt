//! The layout of a compacted store.

ghost use Rattle.std.specs.Prelude.{◌≡◌, ◌<◌, Some, IfOk};
ghost use Rattle.coco_types.specs.Limits.{epochs_end};
ghost use Rattle.coco_entry.specs.Layouts.{IsLayout};
ghost use Rattle.coco_store.specs.Rules.{IsWithinLimits};
ghost use Rattle.coco_ckpt.specs.Compacting.{IsCompactLayout};

use coco_entry::{Files, LayoutEntry};
use coco_make::free_files;
use coco_types::NoMemory;
use std::alloc::Global;

/// The layout that a store is compacted to, under the epoch that its base will have, and the number of the base file.
pub fn compact_entry(
    alloc: Global,
    old: LayoutEntry,
    epoch: u64,
) -> Result<(LayoutEntry, u32), NoMemory>
    requires is { IsLayout old }
    requires limits { IsWithinLimits old }
    requires epoch { epoch < epochs_end }
    ensures compact { IfOk result (λ new. IsCompactLayout epoch old new.0) }
    ensures base { IfOk result (λ new. new.0.base_file ≡ Some new.1) }
    ensures is { IfOk result (λ new. IsLayout new.0) }
    ensures limits { IfOk result (λ new. IsWithinLimits new.0) }
{
    let LayoutEntry {
        mut layout,
        keep,
        base_file,
    } = old;
    let mut files = free_files(alloc, &layout, base_file, layout.nodes + 2)?;
    let base = files.remove(0);
    layout.chief_file = files.remove(0);
    layout.node_files = Files::from_vec(files);
    layout.base_epoch = epoch;
    let entry = LayoutEntry {
        layout,
        keep,
        base_file: Some(base),
    };
    Ok((entry, base))
}
