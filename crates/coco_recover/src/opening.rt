//! A store opened: what is had of it in memory, and the logs that it is written to.

ghost use Rattle.std.specs.Prelude.{◌≡◌, ◌≢◌, ℕ, ◌≤◌, false, length, None, Some, Err, IfOk, OnOk};
ghost use Rattle.coco_types.specs.Limits.{most_kept};
ghost use Rattle.coco_host.specs.Files.{Files};
ghost use Rattle.coco_append.specs.Gaining.{RestsOn};
ghost use Rattle.coco_log.specs.LogState.{IsOnlyRead};
ghost use Rattle.coco_read.specs.declared.fault.OpenFault.TheVariants as fault;
ghost use Rattle.coco_read.specs.Faults.{Counts};
ghost use Rattle.coco_store.specs.Contents.{Contents, Holds, IsGoodStore};
ghost use Rattle.coco_store.specs.Refusals.{IsFirstRefusal};
ghost use Rattle.coco_recover.specs.History.{kept_by};
ghost use Rattle.coco_recover.specs.Opening.{AllStand, EntriesAreReadied, IsOpening, IsSoundStore, OpenedStand, entry_in, its_keep, no_keep};

use crate::LastLayout;
use crate::files::read_nodes;
use crate::history::{StoreHistory, read_history};
use coco_ast::Checked;
use coco_copy::CopyTable;
use coco_entry::{Layout, LayoutEntry};
use coco_host::Host;
use coco_kept::Kept;
use coco_load::{PackedRows, Tables};
use coco_log::Log;
use coco_read::OpenFault;
use coco_shard::Shard;
use std::alloc::Global;

/// The logs that a store is written to: that of its layouts, the coordinator's, and that of each node.
#[derive(Drop)]
pub struct Logs {
    pub root: Log,
    pub chief: Log,
    pub nodes: Vec<Log>,
}

/// What is had of an opened store in memory.
#[derive(Drop)]
pub struct Opened {
    pub layout: Layout,
    pub procs: Checked,
    pub kept: Kept,
    pub shards: Vec<Shard>,
    pub copies: Vec<CopyTable>,
    pub logs: Logs,
    /// The number of the epoch that comes next.
    pub next_epoch: u64,
    /// The numbers of the committed epochs, rising.
    pub epochs: Vec<u64>,
    /// The greatest epoch that each node prepared, 0 for none.
    pub prepared: Vec<u64>,
    pub keep: Option<u16>,
    /// The rows of the base, entry by entry.
    pub base: Vec<PackedRows>,
    pub base_file: Option<u32>,
    /// Where the body of the last layout begins in the layouts' file.
    pub layout_place: u64,
}

/// The tables of an opened store stand at its map, and no node is behind, where each node has the history's rows. Each
/// node has prepared every committed epoch, below the next one.
pub fn an_opened_store_stands()
    ensures tables { OpenedStand }
    ensures readied { EntriesAreReadied }
{}

/// Opens a store: reads each of its files once, from its front, and writes none. Of the replies those are kept that
/// the layout's keep number says. Files that are no store are refused at the first place.
pub fn recover<H: Host>(alloc: Global, host: &mut H) -> Result<Opened, OpenFault>
    ensures ok { IfOk result (λ store. (files : Files) → H.reads host.old ≡ Some files → IsOpening its_keep files store) }
    ensures keep { IfOk result (λ store. store.kept.keep ≡ store.keep) }
    ensures few { IfOk result (λ store. length store.kept.dones ≤ most_kept) }
    ensures sound { IfOk result IsSoundStore }
    ensures stand { IfOk result (λ store. AllStand store.logs (H.reads host.new) (H.may_leave host.new)) }
    ensures rests { OnOk result ((files : Files) (c : Contents) → H.reads host.old ≡ Some files → IsGoodStore files c → RestsOn c (H.reads host.new) (H.may_leave host.new)) }
    ensures refused { (file at : ℕ) (files : Files) → result ≡ Err (fault.NotAStore file at) → H.reads host.old ≡ Some files → IsFirstRefusal files file at }
    ensures kept { (file at : ℕ) (files : Files) (c : Contents) → H.reads host.old ≡ Some files → Holds files c → result ≢ Err (fault.NotAStore file at) }
    ensures read { IsOnlyRead H.Host host.old host.new }
    ensures counts { Counts result (H.disk_faults host.old) (H.disk_faults host.new) }
{
    recover_with(alloc, host, false)
}

/// The same, but all replies are kept.
pub fn recover_whole<H: Host>(alloc: Global, host: &mut H) -> Result<Opened, OpenFault>
    ensures ok { IfOk result (λ store. (files : Files) → H.reads host.old ≡ Some files → IsOpening no_keep files store) }
    ensures keep { IfOk result (λ store. store.kept.keep ≡ None) }
    ensures sound { IfOk result IsSoundStore }
    ensures stand { IfOk result (λ store. AllStand store.logs (H.reads host.new) (H.may_leave host.new)) }
    ensures rests { OnOk result ((files : Files) (c : Contents) → H.reads host.old ≡ Some files → IsGoodStore files c → RestsOn c (H.reads host.new) (H.may_leave host.new)) }
    ensures refused { (file at : ℕ) (files : Files) → result ≡ Err (fault.NotAStore file at) → H.reads host.old ≡ Some files → IsFirstRefusal files file at }
    ensures kept { (file at : ℕ) (files : Files) (c : Contents) → H.reads host.old ≡ Some files → Holds files c → result ≢ Err (fault.NotAStore file at) }
    ensures read { IsOnlyRead H.Host host.old host.new }
    ensures counts { Counts result (H.disk_faults host.old) (H.disk_faults host.new) }
{
    recover_with(alloc, host, true)
}

// The same, with all replies kept or those that the layout's keep number says.
fn recover_with<H: Host>(alloc: Global, host: &mut H, is_whole: bool) -> Result<Opened, OpenFault>
    ensures ok { IfOk result (λ store. (files : Files) → H.reads host.old ≡ Some files → IsOpening (λ c. kept_by is_whole c.setting.entry) files store) }
    ensures keep { IfOk result (λ store. store.kept.keep ≡ kept_by is_whole (entry_in store)) }
    ensures few { is_whole ≡ false → IfOk result (λ store. length store.kept.dones ≤ most_kept) }
    ensures sound { IfOk result IsSoundStore }
    ensures stand { IfOk result (λ store. AllStand store.logs (H.reads host.new) (H.may_leave host.new)) }
    ensures rests { OnOk result ((files : Files) (c : Contents) → H.reads host.old ≡ Some files → IsGoodStore files c → RestsOn c (H.reads host.new) (H.may_leave host.new)) }
    ensures refused { (file at : ℕ) (files : Files) → result ≡ Err (fault.NotAStore file at) → H.reads host.old ≡ Some files → IsFirstRefusal files file at }
    ensures read { IsOnlyRead H.Host host.old host.new }
    ensures counts { Counts result (H.disk_faults host.old) (H.disk_faults host.new) }
{
    let (history, tables) = read_history(alloc, host, is_whole)?;
    let (loaded, nodes, prepared) = read_nodes(
        alloc,
        host,
        &history.last,
        &history.committed,
        tables,
    )?;
    let StoreHistory {
        last,
        committed,
        rows,
        root,
        chief,
    } = history;
    let LastLayout {
        entry,
        procs,
        place,
    } = last;
    let LayoutEntry {
        layout,
        keep,
        base_file,
    } = entry;
    let Tables { shards, copies } = loaded.tables;
    Ok(Opened {
        layout,
        procs,
        kept: committed.kept,
        shards,
        copies,
        logs: Logs { root, chief, nodes },
        next_epoch: loaded.next,
        epochs: committed.epochs,
        prepared,
        keep,
        base: rows,
        base_file,
        layout_place: place,
    })
}
