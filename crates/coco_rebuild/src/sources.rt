//! The files of two other nodes, read on from epoch to epoch for the rows of a lost one.

ghost use Rattle.std.specs.Prelude.{◌≡◌, ◌⊎◌, ℕ, ◌<◌, nat_eq, None, Some, Ok, Err, List, [], ◌++◌, true, length, map, filter, is_some, IfOk, IfSome, IsSome, OnOk};
ghost use Rattle.std.specs.List.{AllByRecursion};
ghost use Rattle.std.specs.Set.{is_member};
ghost use Rattle.coco_bytes.specs.Lists.{FitInTurn};
ghost use Rattle.coco_entry.specs.Rows.{IsPrepared, RowRises, prepared_bytes};
ghost use Rattle.coco_entry.specs.declared.prepared.Prepared.{Prepared as PreparedEntry};
ghost use Rattle.coco_host.specs.Files.{Files};
ghost use Rattle.coco_log.specs.LogState.{IsOnlyRead};
ghost use Rattle.coco_log.specs.Reading.{IsOf, IsReading};
ghost use Rattle.coco_read.specs.Faults.{Counts};
ghost use Rattle.coco_read.specs.declared.fault.OpenFault.TheVariants as fault;
ghost use Rattle.coco_store.specs.Contents.{Contents};
ghost use Rattle.coco_store.specs.Entries.{ArePrepared, prepared_kind};
ghost use Rattle.coco_rebuild.specs.Rebuilding.{rows_at};
ghost use Rattle.coco_rebuild.specs.Sources.{AreGot, AreOthers, AreReadUpTo, AreSources, GoesOnTo, HasEpoch, HaveOtherKeys, IsFoundAt, IsReadIn, IsReadUpTo, file_at, gets};

use crate::fault::fault_in;
use crate::ring::{gets, node_after, node_first};
use coco_entry::{EntryFault, Layout, Prepared, Row, Rows, read_prepared};
use coco_host::Host;
use coco_log::Entries;
use coco_read::OpenFault;
use coco_store::kinds::PREPARED;
use std::alloc::Global;

/// The files of the node after a lost one, and of the primary of the partitions of which that is the last holder, where
/// these are two. There is none where the partitions have no copies.
#[derive(Drop)]
pub struct Sources {
    pub after: Option<Entries>,
    pub first: Option<Entries>,
}

impl Sources {
    /// Begins to read them.
    pub fn open<H: Host>(
        alloc: Global,
        host: &mut H,
        layout: &Layout,
        node: u8,
    ) -> Result<Sources, OpenFault>
        requires node { node < layout.now.nodes }
        requires around { layout.now.copies < layout.now.nodes }
        requires count { length layout.now.node_files ≡ layout.now.nodes }
        ensures are { IfOk result (AreSources layout.now node) }
        ensures begun { IfOk result (λ sources. (epochs : List ℕ) (files : Files) (c : Contents) → H.reads host.old ≡ Some files → AreOthers layout.now node epochs files c
            → (base : ℕ) → AreReadUpTo layout.now node c sources base files) }
        ensures kept { (file at : ℕ) (epochs : List ℕ) (files : Files) (c : Contents) → H.reads host.old ≡ Some files → AreOthers layout.now node epochs files c
            → ¬ (result ≡ Err (fault.NotAStore file at)) }
        ensures read { IsOnlyRead H.Host host.old host.new }
        ensures counts { Counts result (H.disk_faults host.old) (H.disk_faults host.new) }
    {
        if layout.copies == 0 {
            return Ok(Sources {
                after: None,
                first: None,
            });
        }
        let after = node_after(layout, node);
        let first = node_first(layout, node);
        let one = begin(alloc, host, layout, after)?;
        let other = if first == after {
            None
        } else {
            Some(begin(alloc, host, layout, first)?)
        };
        Ok(Sources {
            after: Some(one),
            first: other,
        })
    }

    /// The rows that the node gets for this epoch from each of the two, each by key.
    pub fn rows_at<H: Host>(
        &mut self,
        alloc: Global,
        host: &mut H,
        layout: &Layout,
        node: u8,
        epoch: u64,
    ) -> Result<(Vec<Row>, Vec<Row>), OpenFault>
        requires node { node < layout.now.nodes }
        requires around { layout.now.copies < layout.now.nodes }
        requires some { 0 < layout.now.partitions }
        requires count { length layout.now.node_files ≡ layout.now.nodes }
        requires sources { AreSources layout.now node self.old }
        ensures sources { AreSources layout.now node self.new }
        ensures rise { IfOk result (λ rows. FitInTurn RowRises None rows.0.items × FitInTurn RowRises None rows.1.items) }
        ensures apart { IfOk result (λ rows. HaveOtherKeys rows.0.items rows.1.items) }
        ensures rows { IfOk result (λ rows. (last : ℕ) (epochs : List ℕ) (files : Files) (c : Contents) → H.reads host.old ≡ Some files → AreOthers layout.now node epochs files c
            → AreReadUpTo layout.now node c self.old last files → last < epoch → is_member nat_eq epochs epoch ≡ true
            → AreReadUpTo layout.now node c self.new epoch files × AreGot layout.now node c epoch rows.0.items rows.1.items) }
        ensures kept { (file at last : ℕ) (epochs : List ℕ) (files : Files) (c : Contents) → H.reads host.old ≡ Some files → AreOthers layout.now node epochs files c
            → AreReadUpTo layout.now node c self.old last files → last < epoch → is_member nat_eq epochs epoch ≡ true → ¬ (result ≡ Err (fault.NotAStore file at)) }
        ensures read { IsOnlyRead H.Host host.old host.new }
        ensures counts { Counts result (H.disk_faults host.old) (H.disk_faults host.new) }
    {
        let after = node_after(layout, node);
        let first = node_first(layout, node);
        let rows = rows_of(alloc, host, layout, node, after, &mut self.after, epoch)?;
        let others = rows_of(alloc, host, layout, node, first, &mut self.first, epoch)?;
        Ok((rows, others))
    }
}

// Begins to read a node's file.
fn begin<H: Host>(
    alloc: Global,
    host: &mut H,
    layout: &Layout,
    node: u8,
) -> Result<Entries, OpenFault>
    requires { node < length layout.now.node_files }
    ensures of { IfOk result (IsOf (file_at layout.now node) prepared_kind) }
    ensures ok { IfOk result (λ entries. (files : Files) → H.reads host.old ≡ Some files → IsReading entries [] (files (file_at layout.now node))) }
    ensures kept { (file at : ℕ) (all : List PreparedEntry) (files : Files) → H.reads host.old ≡ Some files → ArePrepared all (files (file_at layout.now node))
        → ¬ (result ≡ Err (fault.NotAStore file at)) }
    ensures read { IsOnlyRead H.Host host.old host.new }
    ensures counts { Counts result (H.disk_faults host.old) (H.disk_faults host.new) }
{
    let file = layout.node_files.as_slice()[usize::from(node)];
    match Entries::open(alloc, host, file, PREPARED) {
        Ok(entries) => Ok(entries),
        Err(fault) => Err(fault_in(file, fault)),
    }
}

// The rows that the node gets for this epoch from one of the two, by key, and none where that isn't read.
fn rows_of<H: Host>(
    alloc: Global,
    host: &mut H,
    layout: &Layout,
    node: u8,
    from: u8,
    source: &mut Option<Entries>,
    epoch: u64,
) -> Result<Vec<Row>, OpenFault>
    requires node { node < layout.now.nodes }
    requires some { 0 < layout.now.partitions }
    requires from { from < length layout.now.node_files }
    requires of { IfSome source.old (IsOf (file_at layout.now from) prepared_kind) }
    ensures of { IfSome source.new (IsOf (file_at layout.now from) prepared_kind) }
    ensures same { is_some source.new ≡ is_some source.old }
    ensures none { source.old ≡ None → IfOk result (λ rows. rows.items ≡ []) }
    ensures rise { IfOk result (λ rows. FitInTurn RowRises None rows.items) }
    ensures got { IfOk result (λ rows. AllByRecursion (λ r. gets layout.now node from r.key ≡ true) rows.items) }
    ensures rows { IfOk result (λ rows. (all : List PreparedEntry) (last : ℕ) (files : Files) → H.reads host.old ≡ Some files → (IsSome source.old → HasEpoch all epoch (files (file_at layout.now from)))
        → last < epoch → IsReadIn source.old all last (files (file_at layout.now from))
        → IsReadIn source.new all epoch (files (file_at layout.now from)) × (IsSome source.old → rows.items ≡ filter (λ r. gets layout.now node from r.key) (rows_at epoch all))) }
    ensures kept { (file at : ℕ) (all : List PreparedEntry) (last : ℕ) (files : Files) → H.reads host.old ≡ Some files → (IsSome source.old → HasEpoch all epoch (files (file_at layout.now from)))
        → last < epoch → IsReadIn source.old all last (files (file_at layout.now from)) → ¬ (result ≡ Err (fault.NotAStore file at)) }
    ensures read { IsOnlyRead H.Host host.old host.new }
    ensures counts { Counts result (H.disk_faults host.old) (H.disk_faults host.new) }
{
    match source {
        None => Ok(Vec::new(alloc)),
        Some(entries) => {
            let file = layout.node_files.as_slice()[usize::from(from)];
            let prepared = entry_of(alloc, host, file, entries, epoch)?;
            Ok(rows_got(layout, node, from, prepared.rows))
        }
    }
}

// Those of the rows that the node gets from this one.
fn rows_got(layout: &Layout, node: u8, from: u8, rows: Rows) -> Vec<Row>
    requires node { node < layout.now.nodes }
    requires some { 0 < layout.now.partitions }
    ensures { result.items ≡ filter (λ r. gets layout.now node from r.key) rows }
{
    let mut rows = rows.into_vec();
    rows.retain(|row| gets(layout, node, from, row.key));
    rows
}

// The entry of this epoch, behind those of earlier ones. A file that doesn't have it isn't what it was when the store was
// opened.
fn entry_of<H: Host>(
    alloc: Global,
    host: &mut H,
    file: u32,
    entries: &mut Entries,
    epoch: u64,
) -> Result<Prepared, OpenFault>
    requires { IsOf file prepared_kind entries.old }
    ensures of { IsOf file prepared_kind entries.new }
    ensures is { IfOk result IsPrepared }
    ensures found { (all : List PreparedEntry) (last : ℕ) (files : Files) → H.reads host.old ≡ Some files → HasEpoch all epoch (files file) → last < epoch
        → IsReadUpTo entries.old all last (files file) → IsFoundAt result entries.new all epoch (files file) }
    ensures read { IsOnlyRead H.Host host.old host.new }
    ensures counts { Counts result (H.disk_faults host.old) (H.disk_faults host.new) }
{
    let mut prepared = next_entry(alloc, host, file, entries)?;
    while prepared.epoch < epoch {
        prepared = next_entry(alloc, host, file, entries)?;
    }
    if prepared.epoch == epoch {
        Ok(prepared)
    } else {
        Err(lost(file, entries))
    }
}

// The next entry.
fn next_entry<H: Host>(
    alloc: Global,
    host: &mut H,
    file: u32,
    entries: &mut Entries,
) -> Result<Prepared, OpenFault>
    requires { IsOf file prepared_kind entries.old }
    ensures of { IsOf file prepared_kind entries.new }
    ensures is { IfOk result IsPrepared }
    ensures next { (all done rest : List PreparedEntry) (files : Files) → H.reads host.old ≡ Some files → ArePrepared all (files file) → all ≡ done ++ rest
        → IsReading entries.old (map prepared_bytes done) (files file) → GoesOnTo result entries.new done rest (files file) }
    ensures end { entries.new.end ≡ entries.old.end }
    ensures on { OnOk result ((entries.old.at < entries.new.at) × (entries.new.at < entries.new.end)) }
    ensures read { IsOnlyRead H.Host host.old host.new }
    ensures counts { Counts result (H.disk_faults host.old) (H.disk_faults host.new) }
{
    match entries.next(host) {
        Ok(true) => read_entry(alloc, file, entries),
        Ok(false) => Err(lost(file, entries)),
        Err(fault) => Err(fault_in(file, fault)),
    }
}

// The entry whose body was read.
fn read_entry(alloc: Global, file: u32, entries: &Entries) -> Result<Prepared, OpenFault>
    ensures is { IfOk result (λ prepared. IsPrepared prepared × (prepared_bytes prepared ≡ entries.now.body)) }
    ensures reads { (e : PreparedEntry) → IsPrepared e → prepared_bytes e ≡ entries.now.body → (result ≡ Ok e) ⊎ (result ≡ Err fault.NoMemory) }
    ensures disk { ¬ (result ≡ Err fault.Disk) }
{
    match read_prepared(alloc, entries.body()) {
        Ok(prepared) => Ok(prepared),
        Err(EntryFault::NoMemory) => Err(OpenFault::NoMemory),
        Err(EntryFault::Bad { .. }) => Err(lost(file, entries)),
    }
}

// The file isn't what it was when the store was opened.
fn lost(file: u32, entries: &Entries) -> OpenFault
    ensures { result ≡ fault.NotAStore file entries.now.at }
{
    OpenFault::NotAStore {
        file,
        at: entries.gate(),
    }
}
