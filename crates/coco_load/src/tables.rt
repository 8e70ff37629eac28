//! The tables of a store's partitions, loaded row by row.

ghost use Rattle.std.specs.Prelude.{◌≡◌, ℕ, ◌+◌, ◌%◌, ◌<◌, List, length, slice_index_or, slice_set, IfOk, OnOk};
ghost use Rattle.std.specs.FinMap.{empty};
ghost use Rattle.coco_types.specs.RowKey.{partition_of};
ghost use Rattle.coco_ast.specs.Keyed.{Rows, put_over, write_at};
ghost use Rattle.coco_copy.specs.CopyState.{begun};
ghost use Rattle.coco_shard.specs.RowState.{IsSettled, loaded};
ghost use Rattle.coco_store.specs.Rules.{Setting};
ghost use Rattle.coco_load.specs.Reading.{puts, with_row, with_rows};
ghost use Rattle.coco_load.specs.Tables.{AreTables, HoldMap, HoldMaps, IsRing, Maps, shard_at};

use crate::packed::PackedRow;
use coco_copy::CopyTable;
use coco_entry::{Layout, Row};
use coco_shard::Shard;
use coco_types::{Key, NoMemory, Value};
use std::alloc::Global;

/// The shard of each partition, and the copies of each partition, one behind another round the ring.
#[derive(Drop)]
pub struct Tables {
    pub shards: Vec<Shard>,
    pub copies: Vec<CopyTable>,
}

impl Tables {
    /// As many tables as the layout says, all without rows.
    pub fn new(alloc: Global, layout: &Layout) -> Result<Tables, NoMemory>
        requires { IsRing layout.now }
        ensures { IfOk result (λ tables. HoldMap layout.now empty tables.shards.items tables.copies.items) }
    {
        let partitions = layout.partitions as usize;
        let shards = empty_shards(alloc, partitions)?;
        let copies = empty_copies(alloc, partitions * layout.copies as usize)?;
        Ok(Tables { shards, copies })
    }

    /// Loads rows of a base into the shard and each copy of their partition. Out of memory the tables are given up.
    pub fn load_base(&mut self, layout: &Layout, rows: &[PackedRow]) -> Result<(), NoMemory>
        requires { AreTables layout.now self.old.shards.items self.old.copies.items }
        ensures tables { OnOk result (AreTables layout.now self.new.shards.items self.new.copies.items) }
        ensures ok { OnOk result ((m : Rows) → HoldMap layout.now m self.old.shards.items self.old.copies.items →
            HoldMap layout.now (put_over m (puts rows.now)) self.new.shards.items self.new.copies.items) }
    {
        for row in rows {
            self.load_everywhere(layout, row.key(), &Some(row.value()))?;
        }
        Ok(())
    }

    /// Loads the rows of an entry of a node's file into the tables on that node: a partition's shard where the node is
    /// its primary, and its copy where the node is the copy's. A row without a value goes away. Out of memory the
    /// tables are given up.
    pub fn load_prepared(&mut self, layout: &Layout, node: u8, rows: &[Row]) -> Result<(), NoMemory>
        requires tables { AreTables layout.now self.old.shards.items self.old.copies.items }
        requires node { node < layout.now.nodes }
        ensures tables { OnOk result (AreTables layout.now self.new.shards.items self.new.copies.items) }
        ensures ok { OnOk result ((s : Setting) (maps : Maps) → s.entry.layout ≡ layout.now → HoldMaps layout.now maps self.old.shards.items self.old.copies.items →
            HoldMaps layout.now (with_rows s node rows.now maps) self.new.shards.items self.new.copies.items) }
    {
        for row in rows {
            let behind = nodes_behind(layout, row.key.partition(layout.partitions as usize), node);
            self.load_at(layout, behind, row.key, &row.value.get())?;
        }
        Ok(())
    }

    // Loads a row into every table of its partition.
    fn load_everywhere(
        &mut self,
        layout: &Layout,
        key: Key,
        value: &Option<Value>,
    ) -> Result<(), NoMemory>
        requires { AreTables layout.now self.old.shards.items self.old.copies.items }
        ensures tables { OnOk result (AreTables layout.now self.new.shards.items self.new.copies.items) }
        ensures ok { OnOk result ((m : Rows) → HoldMap layout.now m self.old.shards.items self.old.copies.items →
            HoldMap layout.now (write_at m key value.now) self.new.shards.items self.new.copies.items) }
    {
        let tables = layout.copies as usize + 1;
        for behind in 0..tables {
            self.load_at(layout, behind, key, value)?;
        }
        Ok(())
    }

    // Loads a row into its partition's table on the node so far behind the primary, if there is one.
    fn load_at(
        &mut self,
        layout: &Layout,
        behind: usize,
        key: Key,
        value: &Option<Value>,
    ) -> Result<(), NoMemory>
        requires { AreTables layout.now self.old.shards.items self.old.copies.items }
        ensures tables { OnOk result (AreTables layout.now self.new.shards.items self.new.copies.items) }
        ensures ok { OnOk result ((maps : Maps) → HoldMaps layout.now maps self.old.shards.items self.old.copies.items →
            HoldMaps layout.now (with_row (partition_of layout.now.partitions key) behind key value.now maps) self.new.shards.items self.new.copies.items) }
    {
        let partition = key.partition(layout.partitions as usize);
        let copies = layout.copies as usize;
        if behind == 0 {
            load_shard(&mut self.shards, partition, key, value)
        } else if behind <= copies {
            load_copy(
                &mut self.copies,
                partition * copies + behind - 1,
                key,
                value,
            )
        } else {
            Ok(())
        }
    }
}

fn load_shard(
    shards: &mut [Shard],
    place: usize,
    key: Key,
    value: &Option<Value>,
) -> Result<(), NoMemory>
    requires there { place < length shards.old }
    requires settled { IsSettled (shard_at shards.old place) }
    ensures { OnOk result (shards.new ≡ slice_set shards.old place (loaded (shard_at shards.old place) key value.now)) }
{
    shards[place].load(key, *value)
}

fn load_copy(
    copies: &mut [CopyTable],
    place: usize,
    key: Key,
    value: &Option<Value>,
) -> Result<(), NoMemory>
    requires { place < length copies.old }
    ensures { OnOk result (let copy = slice_index_or copies.old place (begun 0 empty) in
        copies.new ≡ slice_set copies.old place (record copy { stable = write_at copy.stable key value.now })) }
{
    copies[place].load(key, *value)
}

fn empty_shards(alloc: Global, count: usize) -> Result<Vec<Shard>, NoMemory>
    ensures count { IfOk result (λ shards. length shards.items ≡ count) }
    ensures empty { IfOk result (λ shards. (p : ℕ) → shard_at shards.items p ≡ empty) }
{
    let mut shards = Vec::with_capacity(alloc, count)?;
    for _ in 0..count {
        shards.push(Shard::new(alloc))?;
    }
    Ok(shards)
}

fn empty_copies(alloc: Global, count: usize) -> Result<Vec<CopyTable>, NoMemory>
    ensures count { IfOk result (λ copies. length copies.items ≡ count) }
    ensures empty { IfOk result (λ copies. (i : ℕ) → slice_index_or copies.items i (begun 0 empty) ≡ begun 0 empty) }
{
    let mut copies = Vec::with_capacity(alloc, count)?;
    for _ in 0..count {
        copies.push(CopyTable::new(alloc))?;
    }
    Ok(copies)
}

// How many nodes behind a partition's primary a node is, round the ring.
fn nodes_behind(layout: &Layout, partition: usize, node: u8) -> usize
    requires { node < layout.now.nodes }
    ensures around { result < layout.now.nodes }
    ensures there { (partition + result) % layout.now.nodes ≡ node }
{
    let nodes = layout.nodes as usize;
    let primary = partition % nodes;
    let node = node as usize;
    if node < primary {
        node + nodes - primary
    } else {
        node - primary
    }
}
