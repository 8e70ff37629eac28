//! The epochs that a node prepared, behind those before them and beside the committed ones.

ghost use Rattle.std.specs.Prelude.{◌≡◌, ◌↔◌, ◌<◌, ◌≤◌, ◌^◌, ◌∷◌, ◌++◌, [], List, ℕ, drop, false, length, nat_eq, ◌||◌, slice_index, IfSome, IsTrue, MatchBool, MatchResult};
ghost use Rattle.std.specs.Bool.{OnFalse, OnTrue};
ghost use Rattle.std.specs.Set.{is_member};
ghost use Rattle.coco_ast.specs.History.{RisesAbove};
ghost use Rattle.coco_entry.specs.Rows.{prepared_bytes};
ghost use Rattle.coco_entry.specs.declared.prepared.Prepared.{Prepared as PreparedEntry};
ghost use Rattle.coco_store.specs.Refusals.{IsFirst, PreparedBreaks};
ghost use Rattle.coco_store.specs.Rules.{HasTable, IsNextPrepared, IsNodeRow, Setting, prepared_epochs};
ghost use Rattle.coco_rules.specs.Judged.{FindsBroken};
ghost use Rattle.coco_rules.specs.Readying.{AreAmong, IsBehindPrepared};

use crate::commits::goes_on;
use crate::lengths::rows_len;
use crate::placing::is_held_by;
use coco_ast::Checked;
use coco_entry::{Layout, Prepared, Row};
use coco_types::Key;

/// What is remembered of the entries that a node prepared, beside the committed epochs.
#[derive(Drop)]
pub struct NodeRules<'a> {
    pub(crate) node: u8,
    /// The committed epochs above the last entry's.
    pub(crate) coming: &'a [u64],
    /// Whether one of the others has no entry.
    pub(crate) is_lacking: bool,
    pub(crate) last_epoch: u64,
}

/// Whether the procedures have a key's table.
pub(crate) fn has_table(procs: &Checked, key: &Key) -> bool
    ensures { IsTrue result ↔ (key.now.table < length procs.now.tables) }
{
    (key.table as usize) < procs.tree().tables.len()
}

// How many of these numbers come before the first that isn't below this one.
fn count_below(numbers: &[u64], end: u64) -> usize
    ensures within { result ≤ length numbers.now }
    ensures below { (k : ℕ) → k < result → slice_index numbers.now k < end }
    ensures next { result < length numbers.now → end ≤ slice_index numbers.now result }
{
    for (i, number) in numbers.iter().enumerate() {
        if *number >= end {
            return i;
        }
    }
    numbers.len()
}

// Those from a place on.
fn from_place(numbers: &[u64], place: usize) -> &[u64]
    requires { place ≤ length numbers.now }
    ensures { result.now ≡ drop place numbers.now }
{
    &numbers[place..]
}

// Whether numbers begin with one, and what comes behind it then.
#[derive(Clone, Copy)]
struct Cut<'a> {
    is_next: bool,
    rest: &'a [u64],
}

fn behind_next(numbers: &[u64], next: u64) -> Cut<'_>
    ensures is { OnTrue result.is_next (numbers.now ≡ next ∷ result.rest.now) }
    ensures same { OnFalse result.is_next (result.rest.now ≡ numbers.now) }
    ensures other { OnFalse result.is_next (0 < length numbers.now → nat_eq (slice_index numbers.now 0) next ≡ false) }
{
    if !numbers.is_empty() && numbers[0] == next {
        Cut {
            is_next: true,
            rest: from_place(numbers, 1),
        }
    } else {
        Cut {
            is_next: false,
            rest: numbers,
        }
    }
}

fn is_either(first: bool, second: bool) -> bool
    ensures { result ≡ (first || second) }
{
    first || second
}

impl<'a> NodeRules<'a> {
    /// Before a node's first entry, beside the committed epochs, which rise above the base's.
    pub fn new(layout: &Layout, node: u8, committed: &'a [u64]) -> NodeRules<'a>
        requires { RisesAbove layout.now.base_epoch committed.now }
        ensures behind { (s : Setting) → s.entry.layout ≡ layout.now → IsBehindPrepared s committed.now [] result }
        ensures node { result.node ≡ node }
    {
        NodeRules {
            node,
            coming: committed,
            is_lacking: false,
            last_epoch: layout.base_epoch,
        }
    }

    // Whether the node holds the row's partition, and the procedures have its table.
    fn takes(&self, layout: &Layout, procs: &Checked, row: &Row) -> bool
        requires node { self.now.node < layout.now.nodes }
        requires partitions { 1 ≤ layout.now.partitions }
        ensures { (s : Setting) → s.entry.layout ≡ layout.now → s.tree ≡ procs.now
            → MatchBool result (IsNodeRow s self.now.node row.now) (¬ (IsNodeRow s self.now.node row.now)) }
    {
        let partition = row.key.partition(usize::from(layout.partitions)) as u8;
        is_held_by(layout, partition, self.node) && has_table(procs, &row.key)
    }

    // The place of the first row that breaks a rule.
    fn first_broken(&self, layout: &Layout, procs: &Checked, rows: &[Row]) -> Option<usize>
        requires node { self.now.node < layout.now.nodes }
        requires partitions { 1 ≤ layout.now.partitions }
        ensures within { IfSome result (λ i. i < length rows.now) }
        ensures found { (s : Setting) → s.entry.layout ≡ layout.now → s.tree ≡ procs.now
            → FindsBroken result (λ _. IsNodeRow s self.now.node) [] rows.now (Unit {0}) }
    {
        for (place, row) in rows.iter().enumerate() {
            if !self.takes(layout, procs, row) {
                return Some(place);
            }
        }
        None
    }

    // Goes on to an entry of an epoch above the last one: whether it is committed.
    fn goes_to(&mut self, prepared: &Prepared) -> bool
        ensures behind { (s : Setting) (committed : List ℕ) (before : List PreparedEntry) → self.old.last_epoch < prepared.now.epoch
            → IsBehindPrepared s committed before self.old
            → IsBehindPrepared s committed (before ++ prepared.now ∷ []) self.new × (result ≡ is_member nat_eq committed prepared.now.epoch) }
        ensures node { self.new.node ≡ self.old.node }
    {
        let below = count_below(self.coming, prepared.epoch);
        let coming = from_place(self.coming, below);
        let cut = behind_next(coming, prepared.epoch);
        let is_lacking = is_either(self.is_lacking, 0 < below);
        self.coming = cut.rest;
        self.is_lacking = is_lacking;
        self.last_epoch = prepared.epoch;
        cut.is_next
    }

    /// Whether the epoch of an entry is committed, where it keeps its rules behind those before it;
    /// else the first byte of its body at which one is broken. After that nothing is said of what is
    /// remembered.
    pub fn next(
        &mut self,
        layout: &Layout,
        procs: &Checked,
        prepared: &Prepared,
    ) -> Result<bool, usize>
        requires node { self.old.node < layout.now.nodes }
        requires partitions { 1 ≤ layout.now.partitions }
        requires fits { length (prepared_bytes prepared.now) < 2 ^ 64 }
        ensures judges { (s : Setting) (committed : List ℕ) (before : List PreparedEntry) → s.entry.layout ≡ layout.now → s.tree ≡ procs.now
            → IsBehindPrepared s committed before self.old
            → MatchResult result
            (λ is_committed. IsNextPrepared s self.old.node before prepared.now
            × IsBehindPrepared s committed (before ++ prepared.now ∷ []) self.new
            × (is_committed ≡ is_member nat_eq committed prepared.now.epoch))
            (λ at. IsFirst (PreparedBreaks s self.old.node before prepared.now) at) }
        ensures node { self.new.node ≡ self.old.node }
    {
        if !goes_on(self.last_epoch, prepared.epoch) {
            return Err(1);
        }
        let rows = prepared.rows.as_slice();
        if let Some(place) = self.first_broken(layout, procs, rows) {
            return Err(13 + rows_len(&rows[..place]));
        }
        Ok(self.goes_to(prepared))
    }

    /// Whether each of the committed epochs had an entry.
    pub fn have_prepared(&self) -> bool
        ensures { (s : Setting) (committed : List ℕ) (before : List PreparedEntry) → IsBehindPrepared s committed before self.now
            → IsTrue result ↔ AreAmong (prepared_epochs before) committed }
    {
        !self.is_lacking && self.coming.is_empty()
    }
}
