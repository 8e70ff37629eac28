//! What a store has before its nodes' files: its last layout, its base, and its committed epochs.

ghost use Rattle.std.specs.Prelude.{◌≡◌, ℕ, ◌<◌, Some, Err, IfOk, IfSome};
ghost use Rattle.coco_host.specs.Files.{Files};
ghost use Rattle.coco_load.specs.Tables.{HoldMap};
ghost use Rattle.coco_log.specs.LogState.{IsOnlyRead};
ghost use Rattle.coco_read.specs.declared.fault.OpenFault.TheVariants as fault;
ghost use Rattle.coco_read.specs.Faults.{Counts};
ghost use Rattle.coco_store.specs.Rules.{IsKeep, base_of};
ghost use Rattle.coco_recover.specs.Bases.{entries_of};
ghost use Rattle.coco_recover.specs.History.{IsHistoryHeld, IsHistoryRead, kept_by};
ghost use Rattle.coco_recover.specs.Layouts.{setting_of};
ghost use Rattle.coco_recover.specs.Without.{IsHistoryRefusal};

use crate::files::{read_base, read_commits, read_layouts};
use crate::{Based, Committed, LastLayout};
use coco_entry::LayoutEntry;
use coco_host::Host;
use coco_load::{PackedRows, Tables};
use coco_log::Log;
use coco_read::OpenFault;
use std::alloc::Global;

/// What a store has before its nodes' files, with the logs of its layouts and of the coordinator.
#[derive(Drop)]
pub(crate) struct StoreHistory {
    pub last: LastLayout,
    pub committed: Committed,
    /// The rows of the base, entry by entry.
    pub rows: Vec<PackedRows>,
    pub root: Log,
    pub chief: Log,
}

// Of how many epochs the replies are kept: of all, or of as many as the layout says.
fn keep_of(entry: &LayoutEntry, is_whole: bool) -> Option<u16>
    requires { IsKeep entry.now.keep }
    ensures is { result ≡ kept_by is_whole entry.now }
    ensures some { IfSome result (λ n. 0 < n) }
{
    if is_whole { None } else { entry.keep }
}

/// Reads the files before the nodes'. Beside what they have there are tables with the rows of the base.
pub(crate) fn read_history<H: Host>(
    alloc: Global,
    host: &mut H,
    is_whole: bool,
) -> Result<(StoreHistory, Tables), OpenFault>
    ensures had { IfOk result (λ read. IsHistoryRead read.0) }
    ensures base { IfOk result (λ read. HoldMap read.0.last.entry.layout (base_of (setting_of read.0.last) (entries_of read.0.committed.base.items)).rows read.1.shards.items read.1.copies.items) }
    ensures keep { IfOk result (λ read. read.0.committed.kept.keep ≡ kept_by is_whole read.0.last.entry) }
    ensures ok { IfOk result (λ read. (files : Files) → H.reads host.old ≡ Some files → IsHistoryHeld files (H.may_leave host.new) read.0) }
    ensures refused { (file at : ℕ) (files : Files) → result ≡ Err (fault.NotAStore file at) → H.reads host.old ≡ Some files → IsHistoryRefusal files file at }
    ensures read { IsOnlyRead H.Host host.old host.new }
    ensures counts { Counts result (H.disk_faults host.old) (H.disk_faults host.new) }
{
    let (last, root) = read_layouts(alloc, host)?;
    let keep = keep_of(&last.entry, is_whole);
    let based = read_base(alloc, host, &last, keep)?;
    let Based {
        history,
        tables,
        rows,
    } = based;
    let (committed, chief) = read_commits(alloc, host, &last, history)?;
    let history = StoreHistory {
        last,
        committed,
        rows,
        root,
        chief,
    };
    Ok((history, tables))
}
