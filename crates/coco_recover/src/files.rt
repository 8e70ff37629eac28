//! A store's files, read one after another.

ghost use Rattle.std.specs.Prelude.{◌≡◌, ◌≢◌, ℕ, ◌<◌, ◌∷◌, ◌++◌, [], Some, Err, IfOk, IfSome, List, OnOk, length, map, slice_index};
ghost use Rattle.coco_host.specs.Files.{Files};
ghost use Rattle.coco_ast.specs.History.{RisesAbove};
ghost use Rattle.coco_entry.specs.declared.commit.Commit.{Commit as CommitEntry};
ghost use Rattle.coco_entry.specs.declared.prepared.Prepared.{Prepared as PreparedEntry};
ghost use Rattle.coco_load.specs.Tables.{AreTables, HoldMap};
ghost use Rattle.coco_log.specs.LogState.{IsFresh, IsOnlyRead, IsOpened};
ghost use Rattle.coco_read.specs.declared.fault.OpenFault.TheVariants as fault;
ghost use Rattle.coco_read.specs.Faults.{Counts};
ghost use Rattle.coco_rules.specs.Readying.{AreAmong};
ghost use Rattle.coco_store.specs.Contents.{HoldsNode, file_of};
ghost use Rattle.coco_store.specs.Entries.{commits_kind, layouts_kind, prepared_kind};
ghost use Rattle.coco_store.specs.Refusals.{IsFirst, IsFirstRefusal, IsNodeRefused};
ghost use Rattle.coco_store.specs.Rules.{Setting, base_of, commit_epochs, prepared_epochs};
ghost use Rattle.coco_recover.specs.Bases.{IsBased, IsHistoryOfBase, basis_of, entries_of};
ghost use Rattle.coco_recover.specs.Commits.{AreCommitted, basis_of_committed};
ghost use Rattle.coco_recover.specs.Layouts.{IsGoodLast, setting_of};
ghost use Rattle.coco_recover.specs.Nodes.{IsLoaded, IsNode, IsNodeRead, greatest_prepared, nodes_of};
ghost use Rattle.coco_recover.specs.Steps.{AreHeld, AreRead, HoldsCommitted, HoldsEntries, HoldsLast, HoldsParts, IsLeft, IsRead};
ghost use Rattle.coco_recover.specs.Without.{IsHistoryRefusal};

use crate::layouts::FIRST_GATE;
use crate::{
    BaseHistory, BaseReading, Based, CommitReading, Committed, LastLayout, LayoutReading, Loaded,
    NodeRead, NodeReading,
};
use coco_ast::Checked;
use coco_entry::Layout;
use coco_host::Host;
use coco_load::Tables;
use coco_log::Log;
use coco_read::{OpenFault, read_file};
use coco_store::kinds::{BASE, COMMITS, LAYOUTS, PREPARED};
use coco_types::NoMemory;
use std::alloc::Global;
use std::slice;

// The file of layouts.
const LAYOUTS_FILE: u32 = 0;

/// The last layout, with the log of layouts.
pub(crate) fn read_layouts<H: Host>(
    alloc: Global,
    host: &mut H,
) -> Result<(LastLayout, Log), OpenFault>
    ensures good { IfOk result (λ read. IsGoodLast read.0) }
    ensures log { IfOk result (λ read. IsFresh read.1 0 layouts_kind) }
    ensures ok { IfOk result (λ read. (files : Files) → H.reads host.old ≡ Some files → HoldsLast files read.0 × IsOpened read.1 files (H.may_leave host.new)) }
    ensures refused { (file at : ℕ) (files : Files) → result ≡ Err (fault.NotAStore file at) → H.reads host.old ≡ Some files → IsHistoryRefusal files file at }
    ensures read { IsOnlyRead H.Host host.old host.new }
    ensures counts { Counts result (H.disk_faults host.old) (H.disk_faults host.new) }
{
    let mut reading = LayoutReading::new();
    let log = read_file(alloc, host, LAYOUTS_FILE, LAYOUTS, &mut reading)?;
    match reading.into_last() {
        Some(last) => Ok((last, log)),
        // A log without a layout is refused at its only gate.
        None => Err(OpenFault::NotAStore {
            file: LAYOUTS_FILE,
            at: FIRST_GATE,
        }),
    }
}

/// The base, of which the replies are kept by a keep number, at least 1.
pub(crate) fn read_base<H: Host>(
    alloc: Global,
    host: &mut H,
    last: &LastLayout,
    keep: Option<u16>,
) -> Result<Based, OpenFault>
    requires good { IsGoodLast last.now }
    requires keep { IfSome keep (λ n. 0 < n) }
    ensures based { IfOk result (IsBased (setting_of last.now)) }
    ensures keep { IfOk result (λ based. based.history.kept.keep ≡ keep) }
    ensures ok { IfOk result (λ based. (files : Files) → H.reads host.old ≡ Some files
        → HoldsParts files last.now based.history.entries.items × IsLeft last.now.entry.base_file files (H.may_leave host.new)) }
    ensures refused { (file at : ℕ) (files : Files) → result ≡ Err (fault.NotAStore file at) → H.reads host.old ≡ Some files → HoldsLast files last.now → IsHistoryRefusal files file at }
    ensures read { IsOnlyRead H.Host host.old host.new }
    ensures counts { Counts result (H.disk_faults host.old) (H.disk_faults host.new) }
{
    let Some(file) = last.entry.base_file else {
        return Ok(Based::without_file(alloc, last, keep)?);
    };
    let mut reading = BaseReading::new(alloc, last, keep)?;
    let _log = read_file(alloc, host, file, BASE, &mut reading)?;
    Ok(reading.into_based()?)
}

/// The epochs that were committed over a base, with the coordinator's log.
pub(crate) fn read_commits<H: Host>(
    alloc: Global,
    host: &mut H,
    last: &LastLayout,
    base: BaseHistory,
) -> Result<(Committed, Log), OpenFault>
    requires good { IsGoodLast last.now }
    requires base { IsHistoryOfBase (setting_of last.now) base }
    ensures committed { IfOk result (λ read. AreCommitted (setting_of last.now) read.0) }
    ensures basis { IfOk result (λ read. basis_of_committed (setting_of last.now) read.0 ≡ basis_of (setting_of last.now) base) }
    ensures log { IfOk result (λ read. IsFresh read.1 last.now.entry.layout.chief_file commits_kind) }
    ensures ok { IfOk result (λ read. (files : Files) → H.reads host.old ≡ Some files → HoldsCommitted files last.now read.0 × IsOpened read.1 files (H.may_leave host.new)) }
    ensures refused { (file at : ℕ) (files : Files) → result ≡ Err (fault.NotAStore file at) → H.reads host.old ≡ Some files → HoldsLast files last.now
        → HoldsParts files last.now base.entries.items → IsHistoryRefusal files file at }
    ensures read { IsOnlyRead H.Host host.old host.new }
    ensures counts { Counts result (H.disk_faults host.old) (H.disk_faults host.new) }
{
    let mut reading = CommitReading::new(alloc, last, base);
    let log = read_file(
        alloc,
        host,
        last.entry.layout.chief_file,
        COMMITS,
        &mut reading,
    )?;
    Ok((reading.into_committed()?, log))
}

/// What a node's file has, read over tables, with the node's log. The committed epochs rise above the base's.
pub(crate) fn read_prepared_file<H: Host>(
    alloc: Global,
    host: &mut H,
    layout: &Layout,
    procs: &Checked,
    epochs: &[u64],
    node: u8,
    tables: Tables,
) -> Result<(NodeRead, Log), OpenFault>
    requires node { node < layout.now.nodes }
    requires files { length layout.now.node_files ≡ layout.now.nodes }
    requires rises { RisesAbove layout.now.base_epoch epochs.now }
    requires tables { AreTables layout.now tables.shards.items tables.copies.items }
    ensures ok { IfOk result (λ read. (s : Setting) → s.entry.layout ≡ layout.now → s.tree ≡ procs.now → IsNodeRead s epochs.now node tables.shards.items tables.copies.items read.0) }
    ensures whole { IfOk result (λ read. AreAmong (prepared_epochs read.0.entries.items) epochs.now) }
    ensures log { IfOk result (λ read. IsFresh read.1 (slice_index layout.now.node_files node) prepared_kind) }
    ensures opened { IfOk result (λ read. (files : Files) → H.reads host.old ≡ Some files → IsOpened read.1 files (H.may_leave host.new)) }
    ensures held { IfOk result (λ read. (files : Files) → H.reads host.old ≡ Some files → (s : Setting) (commits : List CommitEntry) → s.entry.layout ≡ layout.now → s.tree ≡ procs.now
        → commit_epochs commits ≡ epochs.now → HoldsNode s commits node read.0.entries.items (files (slice_index layout.now.node_files node))) }
    ensures here { (file at : ℕ) → result ≡ Err (fault.NotAStore file at) → file ≡ slice_index layout.now.node_files node }
    ensures refused { (file at : ℕ) (files : Files) → result ≡ Err (fault.NotAStore file at) → H.reads host.old ≡ Some files → (s : Setting) (commits : List CommitEntry)
        → s.entry.layout ≡ layout.now → s.tree ≡ procs.now → commit_epochs commits ≡ epochs.now → IsFirst (IsNodeRefused s commits node (files file)) at }
    ensures kept { (file at : ℕ) (files : Files) (s : Setting) (commits : List CommitEntry) (entries : List PreparedEntry) → H.reads host.old ≡ Some files
        → s.entry.layout ≡ layout.now → s.tree ≡ procs.now → commit_epochs commits ≡ epochs.now → HoldsNode s commits node entries (files (slice_index layout.now.node_files node))
        → result ≢ Err (fault.NotAStore file at) }
    ensures read { IsOnlyRead H.Host host.old host.new }
    ensures counts { Counts result (H.disk_faults host.old) (H.disk_faults host.new) }
{
    let file = layout.node_files.as_slice()[usize::from(node)];
    let mut reading = NodeReading::new(layout, procs, epochs, node, tables);
    let log = read_file(alloc, host, file, PREPARED, &mut reading)?;
    let read = reading.into_read()?;
    Ok((read, log))
}

/// What is loaded with the next node, the node's log, and the greatest epoch that it prepared.
pub(crate) fn read_next_node<H: Host>(
    alloc: Global,
    host: &mut H,
    last: &LastLayout,
    committed: &Committed,
    node: u8,
    loaded: Loaded,
) -> Result<(Loaded, Log, u64), OpenFault>
    requires good { IsGoodLast last.now }
    requires node { IsNode (setting_of last.now) committed.now loaded node }
    requires loaded { IsLoaded (setting_of last.now) committed.now loaded }
    ensures ok { IfOk result (λ read. (entries : List PreparedEntry) × IsRead last.now committed.now node loaded read.0 entries
        × ((files : Files) → H.reads host.old ≡ Some files → HoldsEntries files last.now committed.now node entries × IsOpened read.1 files (H.may_leave host.new))
        × (read.2 ≡ greatest_prepared entries) × AreAmong (prepared_epochs entries) committed.now.epochs.items) }
    ensures log { IfOk result (λ read. IsFresh read.1 (file_of (setting_of last.now) node) prepared_kind) }
    ensures refused { (file at : ℕ) (files : Files) → result ≡ Err (fault.NotAStore file at) → H.reads host.old ≡ Some files
        → (file ≡ file_of (setting_of last.now) node) × IsFirst (IsNodeRefused (setting_of last.now) committed.now.commits.items node (files file)) at }
    ensures read { IsOnlyRead H.Host host.old host.new }
    ensures counts { Counts result (H.disk_faults host.old) (H.disk_faults host.new) }
{
    let Loaded {
        tables,
        next,
        mut nodes,
    } = loaded;
    let layout = &last.entry.layout;
    let epochs = committed.epochs.as_slice();
    let (read, log) = read_prepared_file(alloc, host, layout, &last.procs, epochs, node, tables)?;
    let NodeRead {
        tables,
        greatest,
        entries,
    } = read;
    nodes.add(slice::from_ref(&entries));
    let next = next.max(greatest + 1);
    Ok((
        Loaded {
            tables,
            next,
            nodes,
        },
        log,
        greatest,
    ))
}

/// Adds an item to a list.
pub(crate) fn add<T: Drop>(items: &mut Vec<T>, item: T) -> Result<(), NoMemory>
    ensures { OnOk result (items.new.items ≡ items.old.items ++ item ∷ []) }
{
    items.push(item)?;
    Ok(())
}

/// What is loaded with all nodes, each in turn, their logs, and the greatest epoch that each prepared.
pub(crate) fn read_nodes<H: Host>(
    alloc: Global,
    host: &mut H,
    last: &LastLayout,
    committed: &Committed,
    tables: Tables,
) -> Result<(Loaded, Vec<Log>, Vec<u64>), OpenFault>
    requires good { IsGoodLast last.now }
    requires committed { AreCommitted (setting_of last.now) committed.now }
    requires base { HoldMap last.now.entry.layout (base_of (setting_of last.now) (entries_of committed.now.base.items)).rows tables.shards.items tables.copies.items }
    ensures read { IfOk result (λ read. AreRead last.now committed.now read.0 read.1.items last.now.entry.layout.nodes) }
    ensures ok { IfOk result (λ read. (files : Files) → H.reads host.old ≡ Some files
        → AreHeld files (H.may_leave host.new) last.now committed.now (nodes_of read.0) read.1.items last.now.entry.layout.nodes) }
    ensures prepared { IfOk result (λ read. read.2.items ≡ map greatest_prepared (nodes_of read.0)) }
    ensures refused { (file at : ℕ) (files : Files) → result ≡ Err (fault.NotAStore file at) → H.reads host.old ≡ Some files → HoldsLast files last.now
        → HoldsParts files last.now committed.now.base.items → HoldsCommitted files last.now committed.now → IsFirstRefusal files file at }
    ensures only { IsOnlyRead H.Host host.old host.new }
    ensures counts { Counts result (H.disk_faults host.old) (H.disk_faults host.new) }
{
    let mut loaded = Loaded::new(committed, tables);
    let mut logs = Vec::new(alloc);
    let mut prepared = Vec::new(alloc);
    for node in 0..last.entry.layout.nodes {
        let (more, log, greatest) = read_next_node(alloc, host, last, committed, node, loaded)?;
        loaded = more;
        add(&mut logs, log)?;
        add(&mut prepared, greatest)?;
    }
    Ok((loaded, logs, prepared))
}
