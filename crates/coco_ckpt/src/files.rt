//! The files that a store is compacted into: its base file, and logs without entries.

ghost use Rattle.std.specs.Prelude.{◌≡◌, ℕ, ◌<◌, false, ◌∷◌, [], length, IfOk, OnOk};
ghost use Rattle.std.specs.FinMap.{entries};
ghost use Rattle.coco_ast.specs.History.{IsRising};
ghost use Rattle.coco_ast.specs.Keyed.{Rows};
ghost use Rattle.coco_load.specs.RowMaps.{joined, lent_map, map_with};
ghost use Rattle.coco_entry.specs.Layouts.{HasFields, is_named};
ghost use Rattle.coco_log.specs.Changes.{ChangesOnly};
ghost use Rattle.coco_log.specs.Faults.{CountsFault};
ghost use Rattle.coco_recover.specs.Opening.{ShardsHold};
ghost use Rattle.coco_ckpt.specs.Writing.{HasBase, HasEmptyLogs};

use crate::base::write_base;
use coco_entry::Layout;
use coco_host::Host;
use coco_kept::Kept;
use coco_load::{LentMap, merged};
use coco_log::LogFault;
use coco_make::make_empty_logs;
use coco_shard::Shard;
use coco_types::{MapRows, NoMemory};
use std::alloc::Global;

/// Writes all files that the layout of a compacted store names, but that of the layouts.
pub fn write_files<H: Host>(
    alloc: Global,
    host: &mut H,
    layout: &Layout,
    base: u32,
    kept: &Kept,
    shards: &[Shard],
) -> Result<(), LogFault>
    requires fields { HasFields layout.now }
    requires apart { is_named (layout.now.chief_file ∷ layout.now.node_files) base ≡ false }
    requires rising { IsRising kept.now.dones }
    ensures base { OnOk result ((m : Rows) → ShardsHold m shards.now → 0 < length shards.now
        → HasBase layout.now.base_epoch kept.now.floor kept.now.dones (entries m) base (H.reads host.new) (H.may_leave host.new)) }
    ensures empty { OnOk result (HasEmptyLogs layout.now (H.reads host.new) (H.may_leave host.new)) }
    ensures changes { ChangesOnly H.Host (base ∷ layout.now.chief_file ∷ layout.now.node_files) host.old host.new }
    ensures counts { CountsFault result (H.disk_faults host.old) (H.disk_faults host.new) }
{
    let lists = rows_of(alloc, shards)?;
    let rows = merged(alloc, lists.as_slice())?;
    write_logs(alloc, host, layout, base, kept, &rows)
}

// Writes the base file, and then the logs without entries.
fn write_logs<H: Host>(
    alloc: Global,
    host: &mut H,
    layout: &Layout,
    base: u32,
    kept: &Kept,
    rows: &LentMap<'_>,
) -> Result<(), LogFault>
    requires fields { HasFields layout.now }
    requires apart { is_named (layout.now.chief_file ∷ layout.now.node_files) base ≡ false }
    requires rising { IsRising kept.now.dones }
    ensures base { OnOk result (HasBase layout.now.base_epoch kept.now.floor kept.now.dones (entries (lent_map rows.now)) base (H.reads host.new) (H.may_leave host.new)) }
    ensures empty { OnOk result (HasEmptyLogs layout.now (H.reads host.new) (H.may_leave host.new)) }
    ensures changes { ChangesOnly H.Host (base ∷ layout.now.chief_file ∷ layout.now.node_files) host.old host.new }
    ensures counts { CountsFault result (H.disk_faults host.old) (H.disk_faults host.new) }
{
    write_base(alloc, host, base, layout.base_epoch, kept, rows)?;
    make_empty_logs(alloc, host, layout)
}

// The rows of each shard.
fn rows_of(alloc: Global, shards: &[Shard]) -> Result<Vec<MapRows>, NoMemory>
    ensures { IfOk result (λ lists. (m : Rows) → ShardsHold m shards.now → 0 < length shards.now → map_with (joined lists.items) ≡ m) }
{
    let mut lists = Vec::with_capacity(alloc, shards.len())?;
    for shard in shards {
        lists.push(shard.rows(true)?)?;
    }
    Ok(lists)
}
