//! A store read but for one node's file, for whoever makes that file anew.

ghost use Rattle.std.specs.Prelude.{◌≡◌, ◌≢◌, ℕ, ◌<◌, ◌∷◌, ◌++◌, [], Some, Err, IfOk, IfSome, List, length, Option, OnOk};
ghost use Rattle.coco_entry.specs.declared.commit.Commit.{Commit as CommitEntry};
ghost use Rattle.coco_entry.specs.declared.prepared.Prepared.{Prepared as PreparedEntry};
ghost use Rattle.coco_host.specs.Files.{Files};
ghost use Rattle.coco_load.specs.Tables.{HoldMap};
ghost use Rattle.coco_log.specs.LogState.{IsOnlyRead, IsOpened};
ghost use Rattle.coco_read.specs.declared.fault.OpenFault.TheVariants as fault;
ghost use Rattle.coco_read.specs.Faults.{Counts};
ghost use Rattle.coco_store.specs.Contents.{Contents, file_of};
ghost use Rattle.coco_store.specs.Refusals.{IsFirst, IsNodeRefused};
ghost use Rattle.coco_store.specs.Rules.{base_of};
ghost use Rattle.coco_recover.specs.Bases.{Basis, entries_of};
ghost use Rattle.coco_recover.specs.Commits.{AreCommitted};
ghost use Rattle.coco_recover.specs.Layouts.{IsGoodLast, setting_of};
ghost use Rattle.coco_recover.specs.Nodes.{HoldsNodes, IsLoaded, IsNode, nodes_of};
ghost use Rattle.coco_recover.specs.Steps.{HoldsCommitted, HoldsEntries, HoldsLast, HoldsParts, IsRead};
ghost use Rattle.coco_recover.specs.Without.{AreOthersHeld, ArePartsOf, AreSoundParts, BehindGatesButForANode, GoodStoresAreButForANode, HoldsBut, IsFirstRefusalBut, IsGoodBut, IsLogBut, log_in, OneRefusalButForANode, PartsStand, RefusedButForANodeIsNone, RestsBut, StoresAreButForANode};

use crate::files::{add, read_next_node};
use crate::history::{StoreHistory, read_history};
use crate::{Committed, LastLayout, Loaded};
use coco_entry::{Layout, LayoutEntry};
use coco_host::Host;
use coco_io::told::Told;
use coco_load::Tables;
use coco_log::Log;
use coco_read::OpenFault;
use std::alloc::Global;
use std::slice;

/// What is had of a store of which one node's file isn't read.
#[derive(Drop)]
pub struct Parts {
    pub layout: Layout,
    pub keep: Option<u16>,
    pub base_file: Option<u32>,
    /// The numbers of the committed epochs.
    pub epochs: Vec<u64>,
    pub root: Log,
    pub chief: Log,
    /// The log of each node, and none for the one whose file is left out.
    pub nodes: Vec<Option<Log>>,
}

/// A store is one but for any node, and one but for a node that it doesn't have is one. Of one that is good but for a
/// node, too, what stands behind the last gates has no meaning.
pub fn a_store_is_one_but_for_a_node()
    ensures any { StoresAreButForANode }
    ensures good { GoodStoresAreButForANode }
    ensures gates { BehindGatesButForANode }
{}

/// Files that are refused, with a node's file left out, hold no store but for it, and one place in them is refused
/// first.
pub fn a_store_refused_but_for_a_node_is_none()
    ensures none { RefusedButForANodeIsNone }
    ensures one { OneRefusalButForANode }
{}

/// Reads the files of a store once, from their front, but for that of a node, and writes none. Files that are no
/// store, whatever stands in that node's, are refused at the first place.
pub fn read_without<H: Host>(alloc: Global, host: &mut H, node: u8) -> Result<Parts, OpenFault>
    ensures ok { IfOk result (λ parts. (files : Files) → H.reads host.old ≡ Some files → ArePartsOf node files parts) }
    ensures sound { IfOk result (AreSoundParts node) }
    ensures stand { IfOk result (λ parts. PartsStand parts (H.reads host.new) (H.may_leave host.new)) }
    ensures rests { OnOk result ((files : Files) (c : Contents) → H.reads host.old ≡ Some files → IsGoodBut node files c → RestsBut node c (H.reads host.new) (H.may_leave host.new)) }
    ensures refused { (file at : ℕ) (files : Files) → result ≡ Err (fault.NotAStore file at) → H.reads host.old ≡ Some files → IsFirstRefusalBut node files file at }
    ensures kept { (file at : ℕ) (files : Files) (c : Contents) → H.reads host.old ≡ Some files → HoldsBut node files c → result ≢ Err (fault.NotAStore file at) }
    ensures read { IsOnlyRead H.Host host.old host.new }
    ensures counts { Counts result (H.disk_faults host.old) (H.disk_faults host.new) }
{
    let (history, tables) = read_history(alloc, host, false)?;
    let nodes = read_others(alloc, host, &history.last, &history.committed, node, tables)?;
    let StoreHistory {
        last,
        committed,
        root,
        chief,
        ..
    } = history;
    let LayoutEntry {
        layout,
        keep,
        base_file,
    } = last.entry;
    Ok(Parts {
        layout,
        keep,
        base_file,
        epochs: committed.epochs,
        root,
        chief,
        nodes,
    })
}

// The logs of all nodes but one, each read in turn.
fn read_others<H: Host>(
    alloc: Global,
    host: &mut H,
    last: &LastLayout,
    committed: &Committed,
    left_out: u8,
    tables: Tables,
) -> Result<Vec<Option<Log>>, OpenFault>
    requires good { IsGoodLast last.now }
    requires committed { AreCommitted (setting_of last.now) committed.now }
    requires base { HoldMap last.now.entry.layout (base_of (setting_of last.now) (entries_of committed.now.base.items)).rows tables.shards.items tables.copies.items }
    ensures count { IfOk result (λ logs. length logs.items ≡ last.now.entry.layout.nodes) }
    ensures logs { IfOk result (λ logs. (n : ℕ) → n < last.now.entry.layout.nodes → IsLogBut left_out n (file_of (setting_of last.now) n) (log_in logs.items n)) }
    ensures ok { IfOk result (λ logs. (nodes : List (List PreparedEntry)) × ((files : Files) → H.reads host.old ≡ Some files
        → AreOthersHeld files (H.may_leave host.new) last.now committed.now left_out nodes logs.items last.now.entry.layout.nodes)) }
    ensures refused { (file at : ℕ) (files : Files) → result ≡ Err (fault.NotAStore file at) → H.reads host.old ≡ Some files → HoldsLast files last.now
        → HoldsParts files last.now committed.now.base.items → HoldsCommitted files last.now committed.now → IsFirstRefusalBut left_out files file at }
    ensures only { IsOnlyRead H.Host host.old host.new }
    ensures counts { Counts result (H.disk_faults host.old) (H.disk_faults host.new) }
{
    let mut loaded = Loaded::new(committed, tables);
    let mut logs = Vec::new(alloc);
    for node in 0..last.entry.layout.nodes {
        let (more, log) = read_other(alloc, host, last, committed, node, left_out, loaded)?;
        loaded = more;
        add(&mut logs, log)?;
    }
    Ok(logs)
}

// What is loaded with the next node, and the node's log. Of the one that is left out nothing is read.
fn read_other<H: Host>(
    alloc: Global,
    host: &mut H,
    last: &LastLayout,
    committed: &Committed,
    node: u8,
    left_out: u8,
    loaded: Loaded,
) -> Result<(Loaded, Option<Log>), OpenFault>
    requires good { IsGoodLast last.now }
    requires node { IsNode (setting_of last.now) committed.now loaded node }
    requires loaded { IsLoaded (setting_of last.now) committed.now loaded }
    ensures ok { IfOk result (λ read. (entries : List PreparedEntry) × IsRead last.now committed.now node loaded read.0 entries
        × ((files : Files) → H.reads host.old ≡ Some files
        → (node ≢ left_out → HoldsEntries files last.now committed.now node entries) × IfSome read.1 (λ log. IsOpened log files (H.may_leave host.new)))) }
    ensures log { IfOk result (λ read. IsLogBut left_out node (file_of (setting_of last.now) node) read.1) }
    ensures refused { (file at : ℕ) (files : Files) → result ≡ Err (fault.NotAStore file at) → H.reads host.old ≡ Some files
        → (node ≢ left_out) × (file ≡ file_of (setting_of last.now) node) × IsFirst (IsNodeRefused (setting_of last.now) committed.now.commits.items node (files file)) at }
    ensures read { IsOnlyRead H.Host host.old host.new }
    ensures counts { Counts result (H.disk_faults host.old) (H.disk_faults host.new) }
{
    if node == left_out {
        return Ok((passed(loaded), None));
    }
    let (loaded, log, _greatest) = read_next_node(alloc, host, last, committed, node, loaded)?;
    Ok((loaded, Some(log)))
}

// Behind a node of which nothing is read.
fn passed(loaded: Loaded) -> Loaded
    ensures loaded { (b : Basis) (commits : List CommitEntry) → HoldsNodes b commits (nodes_of loaded) loaded → HoldsNodes b commits (nodes_of result) result }
    ensures nodes { nodes_of result ≡ nodes_of loaded ++ [] ∷ [] }
{
    let Loaded {
        tables,
        next,
        mut nodes,
    } = loaded;
    nodes.add(slice::from_ref(&Told::new()));
    Loaded {
        tables,
        next,
        nodes,
    }
}
