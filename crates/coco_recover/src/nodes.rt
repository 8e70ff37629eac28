//! A node's file: what it prepared.

ghost use Rattle.std.specs.Prelude.{◌≡◌, ℕ, ◌<◌, nat_eq, List, [], IfOk, OnErr, OnOk};
ghost use Rattle.std.specs.Set.{is_member};
ghost use Rattle.coco_ast.specs.History.{RisesAbove};
ghost use Rattle.coco_ast.specs.Keyed.{Rows};
ghost use Rattle.coco_entry.specs.declared.prepared.Prepared.{Prepared as PreparedEntry};
ghost use Rattle.coco_load.specs.Reading.{HoldRead, with_entry};
ghost use Rattle.coco_load.specs.Tables.{AreTables, HoldMap};
ghost use Rattle.coco_store.specs.Rules.{Setting, base_of};
ghost use Rattle.coco_recover.specs.Bases.{entries_of};
ghost use Rattle.coco_recover.specs.Commits.{AreCommitted};
ghost use Rattle.coco_recover.specs.Nodes.{IsLoaded, IsNodeRead, node_basis, nodes_of};

use crate::commits::Committed;
use crate::refusal::refused;
use coco_ast::Checked;
use coco_copy::CopyTable;
use coco_entry::{Layout, Prepared, read_prepared};
use coco_io::told::Told;
use coco_load::Tables;
use coco_read::Rules;
use coco_rules::NodeRules;
use coco_shard::Shard;
use coco_types::NoMemory;
use std::alloc::Global;
use std::marker::Model;
use std::slice;

/// The tables with what was read for them, and the number of the epoch that comes next.
#[derive(Drop)]
pub struct Loaded {
    pub tables: Tables,
    pub next: u64,
    /// The entries of each node so far, which contracts alone see.
    pub nodes: Told<Told<Prepared>>,
}

/// What was read of a node: the tables with its rows, and the greatest epoch that it prepared, 0 for none.
#[derive(Drop)]
pub struct NodeRead {
    pub tables: Tables,
    pub greatest: u64,
    /// Its entries, which contracts alone see.
    pub entries: Told<Prepared>,
}

/// The entries of a node's file. Contracts see what they stand under, and all of them, but none once one was refused or
/// memory ran out.
#[derive(Drop)]
pub struct NodeReading<'a> {
    layout: &'a Layout,
    procs: &'a Checked,
    /// The committed ones.
    epochs: &'a [u64],
    node: u8,
    rules: NodeRules<'a>,
    /// The shards and the copies before the first entry.
    shards: Told<Shard>,
    copies: Told<CopyTable>,
    tables: Tables,
    taken: Told<Prepared>,
    /// The greatest epoch of the entries, 0 without one.
    greatest: u64,
    /// Whether an entry was refused, or memory ran out.
    is_spent: bool,
}

impl<'a> Model for NodeReading<'a> {
    ghost use Rattle.std.specs.Prelude.{◌≡◌, false, [], if◌then◌else◌};
    ghost use Rattle.std.specs.Coded.{codes};
    ghost use Rattle.coco_ast.specs.TreeCode.{procedures_code};
    ghost use Rattle.coco_copy.specs.Codes.{copy_code};
    ghost use Rattle.coco_entry.specs.declared.prepared.Prepared.{Prepared};
    ghost use Rattle.coco_recover.specs.Codes.{shard_code};
    ghost use Rattle.coco_recover.specs.Taking.{Taken};
    ghost use Rattle.coco_recover.specs.Nodes.{NodeBasis};

    ghost Value = { Taken NodeBasis Prepared };

    ghost coded = { Prim.hlevel (codes, procedures_code, shard_code, copy_code) };

    ghost use Rattle.coco_recover.specs.Nodes.{AreTaken, IsOfLayout, node_basis};

    ghost view = { λ r. record { under = node_basis r.layout.now r.procs.now r.epochs.now r.node r.shards.items r.copies.items; taken = if r.is_spent then [] else r.taken.items } };

    ghost invariant = { λ r. IsOfLayout (node_basis r.layout.now r.procs.now r.epochs.now r.node r.shards.items r.copies.items)
        × (r.is_spent ≡ false → AreTaken (node_basis r.layout.now r.procs.now r.epochs.now r.node r.shards.items r.copies.items) r.taken.items r.rules r.tables r.greatest) };
}

impl Loaded {
    /// Before the first node: the tables hold the base.
    pub fn new(committed: &Committed, tables: Tables) -> Loaded
        ensures loaded { (s : Setting) → AreCommitted s committed.now
            → HoldMap s.entry.layout (base_of s (entries_of committed.now.base.items)).rows tables.shards.items tables.copies.items → IsLoaded s committed.now result }
        ensures none { nodes_of result ≡ [] }
    {
        Loaded {
            tables,
            next: committed.next,
            nodes: Told::new(),
        }
    }
}

// Loads the rows of an entry whose epoch is committed. Of another one nothing is loaded.
fn load(
    tables: &mut Tables,
    layout: &Layout,
    node: u8,
    prepared: &Prepared,
    is_committed: bool,
) -> Result<(), NoMemory>
    requires tables { AreTables layout.now tables.old.shards.items tables.old.copies.items }
    requires node { node < layout.now.nodes }
    ensures tables { OnOk result (AreTables layout.now tables.new.shards.items tables.new.copies.items) }
    ensures ok { OnOk result ((s : Setting) (base : Rows) (epochs : List ℕ) (entries : ℕ → List PreparedEntry) → s.entry.layout ≡ layout.now
        → is_committed ≡ is_member nat_eq epochs prepared.now.epoch → HoldRead s base epochs entries tables.old.shards.items tables.old.copies.items
        → HoldRead s base epochs (with_entry node prepared.now entries) tables.new.shards.items tables.new.copies.items) }
{
    if is_committed {
        tables.load_prepared(layout, node, prepared.rows.as_slice())
    } else {
        Ok(())
    }
}

impl<'a> NodeReading<'a> {
    /// Before the first entry of a node, beside the committed epochs, which rise above the base's.
    pub fn new(
        layout: &'a Layout,
        procs: &'a Checked,
        epochs: &'a [u64],
        node: u8,
        tables: Tables,
    ) -> NodeReading<'a>
        requires node { node < layout.now.nodes }
        requires rises { RisesAbove layout.now.base_epoch epochs.now }
        requires tables { AreTables layout.now tables.shards.items tables.copies.items }
        ensures under { result.under ≡ node_basis layout.now procs.now epochs.now node tables.shards.items tables.copies.items }
        ensures taken { result.taken ≡ [] }
    {
        let mut shards = Told::new();
        let mut copies = Told::new();
        shards.add(tables.shards.as_slice());
        copies.add(tables.copies.as_slice());
        NodeReading {
            layout,
            procs,
            epochs,
            node,
            rules: NodeRules::new(layout, node, epochs),
            shards,
            copies,
            tables,
            taken: Told::new(),
            greatest: 0,
            is_spent: false,
        }
    }

    /// What was read of the node, if each entry was taken. It takes no memory.
    pub fn into_read(self) -> Result<NodeRead, NoMemory>
        ensures entries { IfOk result (λ read. read.entries.items ≡ self.entry.taken) }
        ensures read { IfOk result (λ read. (s : Setting) → s.entry.layout ≡ self.entry.under.layout → s.tree ≡ self.entry.under.tree
            → IsNodeRead s self.entry.under.epochs self.entry.under.node self.entry.under.shards self.entry.under.copies read) }
        ensures err { OnErr result (self.entry.taken ≡ []) }
    {
        if self.is_spent {
            return Err(NoMemory);
        }
        let NodeReading {
            tables,
            taken,
            greatest,
            ..
        } = self;
        Ok(NodeRead {
            tables,
            greatest,
            entries: taken,
        })
    }
}

impl<'a> Rules for NodeReading<'a> {
    ghost use Rattle.coco_entry.specs.declared.prepared.Prepared.{Prepared};
    ghost use Rattle.coco_recover.specs.Nodes.{NodeBasis, node_rules};
    ghost use Rattle.coco_recover.specs.Readings.{prepared_reads};

    ghost Entry = { Prepared };

    ghost Setting = { NodeBasis };

    ghost setting = { λ r. r.under };

    ghost rules = { node_rules };

    ghost taken = { λ r. r.taken };

    fn take(&mut self, alloc: Global, body: &[u8]) -> Result<Option<usize>, NoMemory> {
        let prepared = match read_prepared(alloc, body) {
            Ok(prepared) => prepared,
            Err(fault) => return refused(fault),
        };
        if self.is_spent {
            return Err(NoMemory);
        }
        self.is_spent = true;
        let layout = self.layout;
        let is_committed = match self.rules.next(layout, self.procs, &prepared) {
            Ok(is_committed) => is_committed,
            Err(at) => return Ok(Some(at)),
        };
        load(&mut self.tables, layout, self.node, &prepared, is_committed)?;
        self.greatest = self.greatest.max(prepared.epoch);
        self.taken.add(slice::from_ref(&prepared));
        self.is_spent = false;
        Ok(None)
    }

    fn lacks(&self) -> bool {
        if self.is_spent {
            !self.epochs.is_empty()
        } else {
            !self.rules.have_prepared()
        }
    }

    ghost reads = { λ _ _. prepared_reads };
}
