//! The tables of an opened store at one of its epochs.

ghost use Rattle.std.specs.Prelude.{◌≡◌, ℕ, ◌*◌, ◌<◌, [], ◌∷◌, length, map, slice_index_or, slice_set, vec_len, None, Err, IfOk, OnOk};
ghost use Rattle.std.specs.List.{AllByRecursion, flat_map};
ghost use Rattle.std.specs.FinMap.{empty};
ghost use Rattle.coco_types.specs.RowKey.{partition_of};
ghost use Rattle.coco_ast.specs.Fitting.{Fits};
ghost use Rattle.coco_ast.specs.History.{map_of, rows_after, up_to};
ghost use Rattle.coco_ast.specs.Keyed.{Rows, put_over};
ghost use Rattle.coco_ast.specs.Meaning.{run};
ghost use Rattle.coco_copy.specs.CopyState.{begun};
ghost use Rattle.coco_entry.specs.declared.layout.Layout.{Layout as LayoutState};
ghost use Rattle.coco_host.specs.Files.{Files};
ghost use Rattle.coco_load.specs.Reading.{puts};
ghost use Rattle.coco_load.specs.Tables.{AreTables, HoldMap, IsRing, shard_at};
ghost use Rattle.coco_recover.specs.Opening.{Has, IsSoundStore};
ghost use Rattle.coco_shard.specs.RowState.{IsSettled, loaded};
ghost use Rattle.coco_store.specs.Contents.{Contents, IsGoodStore, history_of};
ghost use Rattle.coco_query.specs.Frozen.{AreOfPartitions, HoldsFrozen, table_at};
ghost use Rattle.coco_query.specs.Replaying.{HoldsItsMap, newest_at};
ghost use Rattle.coco_query.specs.Tables.{IsWithin, between, first_in, last_in, last_of};
ghost use Rattle.coco_query.specs.declared.frozen.Frozen.TheVariants as table;
ghost use Rattle.coco_query.specs.declared.tables.TablesFault.TheVariants as fault;

use crate::frozen::Frozen;
use coco_ast::Checked;
use coco_copy::CopyTable;
use coco_entry::Layout;
use coco_kept::Kept;
use coco_load::{PackedRow, PackedRows, Tables};
use coco_recover::Opened;
use coco_serial::Executor;
use coco_shard::Shard;
use coco_types::{Call, Done, NoMemory, Write};
use std::alloc::Global;
use std::mem;

/// Why there are no tables.
#[derive(Clone, Copy, Debug, PartialEq, Eq)]
pub enum TablesFault {
    /// The epoch isn't among those from the base's to the last committed one.
    NotIn { first: u64, last: u64 },
    NoMemory,
}

impl From<NoMemory> for TablesFault {
    ghost from_gives = { λ _ e. e ≡ fault.NoMemory };

    fn from(_: NoMemory) -> TablesFault {
        TablesFault::NoMemory
    }
}

/// The tables of an epoch, one for each partition, of a store that was opened with all its replies, and its procedures.
pub fn tables_at(
    alloc: Global,
    opened: Opened,
    epoch: u64,
) -> Result<(Vec<Frozen>, Checked), TablesFault>
    requires sound { IsSoundStore opened }
    requires whole { opened.kept.keep ≡ None }
    ensures within { IfOk result (λ _. IsWithin opened epoch) }
    ensures outside { (first last : ℕ) → result ≡ Err (fault.NotIn first last) → (first ≡ first_in opened) × (last ≡ last_in opened) × (IsWithin opened epoch → ⊥) }
    ensures procs { IfOk result (λ r. r.1 ≡ opened.procs) }
    ensures count { IfOk result (λ r. length r.0.items ≡ opened.layout.partitions) }
    ensures partitions { IfOk result (λ r. AreOfPartitions r.0.items) }
    ensures tables { IfOk result (λ r. (files : Files) (c : Contents) → IsGoodStore files c → Has None c opened
        → HoldsFrozen (map_of c.setting.tree (up_to epoch (history_of c))) r.0.items) }
{
    let Opened {
        layout,
        procs,
        kept,
        shards,
        copies,
        epochs,
        base,
        ..
    } = opened;
    let first = layout.base_epoch;
    let last = last_or(first, epochs.as_slice());
    if epoch < first || last < epoch {
        return Err(TablesFault::NotIn { first, last });
    }
    if epoch == last {
        let tables = newest(alloc, &layout, shards, copies)?;
        return Ok((tables, procs));
    }
    // What is newer is let go before the older rows are made.
    drop((shards, copies));
    let tables = earlier(alloc, layout, &procs, base, &kept, epoch)?;
    Ok((tables, procs))
}

// The last of the epochs, or this one where there is none.
fn last_or(base: u64, epochs: &[u64]) -> u64
    ensures { result ≡ last_of base epochs.now }
{
    match epochs.last() {
        Some(last) => *last,
        None => base,
    }
}

// Those of the last epoch: a copy of each partition, or its shard where there is none.
fn newest(
    alloc: Global,
    layout: &Layout,
    shards: Vec<Shard>,
    copies: Vec<CopyTable>,
) -> Result<Vec<Frozen>, NoMemory>
    requires { AreTables layout.now shards.items copies.items }
    ensures count { IfOk result (λ tables. length tables.items ≡ layout.now.partitions) }
    ensures each { IfOk result (λ tables. (p : ℕ) → p < layout.now.partitions → table_at tables.items p ≡ newest_at layout.now shards.items copies.items p) }
{
    let count = layout.copies as usize;
    if count == 0 {
        frozen_shards(alloc, shards)
    } else {
        first_copies(alloc, copies, layout.partitions as usize, count)
    }
}

fn frozen_shards(alloc: Global, shards: Vec<Shard>) -> Result<Vec<Frozen>, NoMemory>
    ensures { IfOk result (λ tables. tables.items ≡ map table.Shard shards.items) }
{
    Ok(
        shards
            .into_iter()
            .map(|shard| Frozen::Shard(shard))
            .collect(alloc)?,
    )
}

// The first copy of each of so many partitions, each of which has so many.
fn first_copies(
    alloc: Global,
    mut copies: Vec<CopyTable>,
    partitions: usize,
    count: usize,
) -> Result<Vec<Frozen>, NoMemory>
    requires some { 0 < count }
    requires all { vec_len copies ≡ partitions * count }
    ensures count { IfOk result (λ tables. length tables.items ≡ partitions) }
    ensures each { IfOk result (λ tables. (p : ℕ) → p < partitions → table_at tables.items p ≡ table.Copy (slice_index_or copies.items (p * count) (begun 0 empty))) }
{
    let mut tables = Vec::with_capacity(alloc, partitions)?;
    for partition in 0..partitions {
        let copy = mem::replace(&mut copies[partition * count], CopyTable::new(alloc));
        tables.push_reserved(Frozen::Copy(copy));
    }
    Ok(tables)
}

// Those of an earlier epoch: the base's rows, and over them what the calls of the epochs up to it write, run again.
fn earlier(
    alloc: Global,
    mut layout: Layout,
    procs: &Checked,
    base: Vec<PackedRows>,
    kept: &Kept,
    epoch: u64,
) -> Result<Vec<Frozen>, NoMemory>
    requires ring { IsRing layout }
    requires fit { AllByRecursion (λ d. Fits procs.now d.call) kept.now.dones }
    ensures count { IfOk result (λ tables. length tables.items ≡ layout.partitions) }
    ensures tables { IfOk result (λ tables.
        HoldsFrozen (rows_after procs.now (put_over empty (puts (flat_map (λ rows. rows) base.items))) (between layout.base_epoch epoch kept.now.dones)) tables.items) }
{
    // Tables that are read alone need no copies.
    layout.copies = 0;
    let mut replay = Replay::of_base(alloc, &layout, base)?;
    for done in kept.iter() {
        replay.follow(&layout, procs, done, epoch)?;
    }
    let Replay {
        executor: _,
        shards,
    } = replay;
    frozen_shards(alloc, shards)
}

// An executor, and shards that hold its map.
#[derive(Drop)]
struct Replay {
    executor: Executor,
    shards: Vec<Shard>,
}

impl Replay {
    // On the map of a base, whose lists of rows are let go one after another.
    fn of_base(alloc: Global, layout: &Layout, base: Vec<PackedRows>) -> Result<Replay, NoMemory>
        requires { IsRing layout.now }
        ensures rows { IfOk result (λ replay. replay.executor.rows ≡ put_over empty (puts (flat_map (λ rows. rows) base.items))) }
        ensures held { IfOk result (λ replay. HoldsItsMap layout.now replay.executor.rows replay.shards.items) }
    {
        let mut executor = Executor::new(alloc);
        let mut tables = Tables::new(alloc, layout)?;
        for rows in base {
            load_list(&mut executor, &mut tables, layout, rows.as_slice())?;
        }
        let Tables { shards, copies: _ } = tables;
        Ok(Replay { executor, shards })
    }

    // Runs the call of a Done, if it is of the epochs behind the base's and up to this one.
    fn follow(
        &mut self,
        layout: &Layout,
        procs: &Checked,
        done: &Done,
        epoch: u64,
    ) -> Result<(), NoMemory>
        requires fits { Fits procs.now done.now.call }
        requires alone { layout.now.copies ≡ 0 }
        requires held { HoldsItsMap layout.now self.old.executor.rows self.old.shards.items }
        ensures rows { OnOk result (self.new.executor.rows ≡ rows_after procs.now self.old.executor.rows (between layout.now.base_epoch epoch (done.now ∷ []))) }
        ensures held { OnOk result (HoldsItsMap layout.now self.new.executor.rows self.new.shards.items) }
    {
        if layout.base_epoch < done.epoch && done.epoch <= epoch {
            run_on(&mut self.executor, &mut self.shards, procs, &done.call)
        } else {
            Ok(())
        }
    }
}

// Adds rows of a base to an executor's map and to the tables that hold it.
fn load_list(
    executor: &mut Executor,
    tables: &mut Tables,
    layout: &Layout,
    rows: &[PackedRow],
) -> Result<(), NoMemory>
    requires { HoldMap layout.now executor.old.rows tables.old.shards.items tables.old.copies.items }
    ensures rows { OnOk result (executor.new.rows ≡ put_over executor.old.rows (puts rows.now)) }
    ensures held { OnOk result (HoldMap layout.now executor.new.rows tables.new.shards.items tables.new.copies.items) }
{
    load_rows(executor, rows)?;
    tables.load_base(layout, rows)
}

// Adds rows to an executor's map.
fn load_rows(executor: &mut Executor, rows: &[PackedRow]) -> Result<(), NoMemory>
    ensures { OnOk result (executor.new.rows ≡ put_over executor.old.rows (puts rows.now)) }
{
    for row in rows {
        executor.load(row.key(), row.value())?;
    }
    Ok(())
}

// Runs a call, and loads what it wrote. There are no copies.
fn run_on(
    executor: &mut Executor,
    shards: &mut Vec<Shard>,
    procs: &Checked,
    call: &Call,
) -> Result<(), NoMemory>
    requires fits { Fits procs.now call.now }
    requires held { (layout : LayoutState) × (layout.copies ≡ 0) × HoldsItsMap layout executor.old.rows shards.old.items }
    ensures rows { OnOk result (executor.new.rows ≡ (run procs.now call.now executor.old.rows).rows) }
    ensures held { OnOk result ((layout : LayoutState) → layout.copies ≡ 0 → HoldsItsMap layout executor.old.rows shards.old.items → HoldsItsMap layout executor.new.rows shards.new.items) }
{
    executor.apply(procs, call)?;
    load_writes(shards, executor.writes().as_slice())
}

// Loads writes into the shards of their partitions. There are no copies.
fn load_writes(shards: &mut Vec<Shard>, writes: &[Write]) -> Result<(), NoMemory>
    requires held { (layout : LayoutState) × (m : Rows) × (layout.copies ≡ 0) × HoldsItsMap layout m shards.old.items }
    ensures { OnOk result ((layout : LayoutState) (m : Rows) → layout.copies ≡ 0 → HoldsItsMap layout m shards.old.items → HoldsItsMap layout (put_over m writes.now) shards.new.items) }
{
    for write in writes {
        load_write(shards, write)?;
    }
    Ok(())
}

fn load_write(shards: &mut Vec<Shard>, write: &Write) -> Result<(), NoMemory>
    requires some { 0 < length shards.old.items }
    requires settled { IsSettled (shard_at shards.old.items (partition_of (length shards.old.items) write.now.key)) }
    ensures { OnOk result (let place = partition_of (length shards.old.items) write.now.key in
        shards.new.items ≡ slice_set shards.old.items place (loaded (shard_at shards.old.items place) write.now.key write.now.value)) }
{
    let place = write.key.partition(shards.len());
    shards[place].load(write.key, write.value)
}
