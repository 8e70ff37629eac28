//! A node's tables read anew from its file, for a node that lost them.

ghost use Rattle.std.specs.Prelude.{◌≡◌, ◌≢◌, ℕ, ◌<◌, List, Some, Err, IfOk, false, length, slice_index};
ghost use Rattle.coco_append.specs.Gaining.{IsNodeLog, Stands};
ghost use Rattle.coco_ast.specs.History.{RisesAbove};
ghost use Rattle.coco_entry.specs.declared.commit.Commit.{Commit as CommitEntry};
ghost use Rattle.coco_host.specs.Files.{Files};
ghost use Rattle.coco_load.specs.RowMaps.{joined, map_with};
ghost use Rattle.coco_load.specs.Tables.{HoldMap, HoldMaps, IsRing, Maps};
ghost use Rattle.coco_log.specs.LogState.{IsFresh, IsOnlyRead};
ghost use Rattle.coco_read.specs.declared.fault.OpenFault.TheVariants as fault;
ghost use Rattle.coco_read.specs.Faults.{Counts};
ghost use Rattle.coco_standing.specs.Standing.{NodeStands};
ghost use Rattle.coco_store.specs.Contents.{Contents, Holds, IsGoodStore, map_in};
ghost use Rattle.coco_store.specs.Entries.{prepared_kind};
ghost use Rattle.coco_store.specs.Refusals.{IsFirst, IsNodeRefused};
ghost use Rattle.coco_store.specs.Rules.{Setting, commit_epochs};
ghost use Rattle.coco_recover.specs.Lost.{AreKnown};

use crate::NodeRead;
use crate::files::read_prepared_file;
use coco_ast::Checked;
use coco_entry::Layout;
use coco_host::Host;
use coco_load::{PackedRows, Tables};
use coco_log::Log;
use coco_read::OpenFault;
use coco_types::NoMemory;
use std::alloc::Global;

/// Reads a node's file once, from its front, and writes none: tables of which those on the node hold the rows of the
/// base, given list by list, and over them what the node prepared for the committed epochs, given rising; and the
/// node's log. What the tables on other nodes hold isn't theirs. A file that isn't the node's is refused at its first
/// place.
pub fn read_node<H: Host>(
    alloc: Global,
    host: &mut H,
    layout: &Layout,
    procs: &Checked,
    epochs: &[u64],
    base: &[PackedRows],
    node: u8,
) -> Result<(Tables, Log), OpenFault>
    requires node { node < layout.now.nodes }
    requires files { length layout.now.node_files ≡ layout.now.nodes }
    requires ring { IsRing layout.now }
    requires rises { RisesAbove layout.now.base_epoch epochs.now }
    ensures ok { IfOk result (λ read. (files : Files) (c : Contents) → H.reads host.old ≡ Some files → IsGoodStore files c → AreKnown c layout.now procs.now epochs.now base.now
        → NodeStands layout.now (map_in c) node false read.0.shards.items read.0.copies.items × IsNodeLog c node read.1) }
    ensures tables { IfOk result (λ read. (maps : Maps) × HoldMaps layout.now maps read.0.shards.items read.0.copies.items) }
    ensures log { IfOk result (λ read. IsFresh read.1 (slice_index layout.now.node_files node) prepared_kind) }
    ensures stand { IfOk result (λ read. Stands read.1 (H.reads host.new) (H.may_leave host.new)) }
    ensures here { (file at : ℕ) → result ≡ Err (fault.NotAStore file at) → file ≡ slice_index layout.now.node_files node }
    ensures refused { (file at : ℕ) (files : Files) → result ≡ Err (fault.NotAStore file at) → H.reads host.old ≡ Some files → (s : Setting) (commits : List CommitEntry)
        → s.entry.layout ≡ layout.now → s.tree ≡ procs.now → commit_epochs commits ≡ epochs.now → IsFirst (IsNodeRefused s commits node (files file)) at }
    ensures kept { (file at : ℕ) (files : Files) (c : Contents) → H.reads host.old ≡ Some files → Holds files c → AreKnown c layout.now procs.now epochs.now base.now
        → result ≢ Err (fault.NotAStore file at) }
    ensures read { IsOnlyRead H.Host host.old host.new }
    ensures counts { Counts result (H.disk_faults host.old) (H.disk_faults host.new) }
{
    let tables = with_base(alloc, layout, base)?;
    let (read, log) = read_prepared_file(alloc, host, layout, procs, epochs, node, tables)?;
    let NodeRead { tables, .. } = read;
    Ok((tables, log))
}

// Tables that hold the rows of a base.
fn with_base(alloc: Global, layout: &Layout, base: &[PackedRows]) -> Result<Tables, NoMemory>
    requires { IsRing layout.now }
    ensures { IfOk result (λ tables. HoldMap layout.now (map_with (joined base.now)) tables.shards.items tables.copies.items) }
{
    let mut tables = Tables::new(alloc, layout)?;
    for rows in base {
        tables.load_base(layout, rows.as_slice())?;
    }
    Ok(tables)
}
