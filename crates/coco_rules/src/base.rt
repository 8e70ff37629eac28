//! The entries of a base file, behind those before them.

ghost use Rattle.std.specs.Prelude.{◌≡◌, ◌↔◌, ◌<◌, ◌^◌, ◌∷◌, ◌++◌, [], List, Some, is_some, length, ◌==◌, ◌&&◌, IfOk, IfSome, IsTrue, MatchBool};
ghost use Rattle.coco_types.specs.RowKey.{RowKey};
ghost use Rattle.coco_types.specs.declared.call.Done.{Done};
ghost use Rattle.coco_types.specs.declared.value.Value.{Value as Datum};
ghost use Rattle.coco_bytes.specs.Lists.{last_item};
ghost use Rattle.coco_store.specs.Entries.{BaseEntry, Head, Dones, Values, base_bytes};
ghost use Rattle.coco_store.specs.Refusals.{BaseBreaks, may_stand as tag_may_stand};
ghost use Rattle.coco_store.specs.Rules.{IsKeptDone, IsNextBase, IsNextValue, IsWhole, Setting};
ghost use Rattle.coco_rules.specs.Behind.{IsBehind};
ghost use Rattle.coco_rules.specs.Basing.{EndsAtKey, IsBehindBase, less_by, may_be_dones, may_be_rows};
ghost use Rattle.coco_rules.specs.Judged.{FindsBroken, Judges};
ghost use Rattle.coco_rules.specs.Noting.{AreNoted};

use crate::commits::HistoryRules;
use crate::dones::Noted;
use crate::lengths::{base_dones_len, base_rows_len};
use crate::prepared::has_table;
use coco_ast::Checked;
use coco_entry::{BaseHead, LayoutEntry, MOST_ITEMS, rises};
use coco_types::{Done, Key, NoMemory, Value};
use std::alloc::Global;

/// What came last in a base file, and whether it was as long as it may be.
#[derive(Clone, Copy, Debug, PartialEq, Eq)]
pub(crate) enum LastEntry {
    Head,
    Dones(bool),
    Rows(bool),
}

/// What is remembered of the entries of a base file that came before.
#[derive(Drop)]
pub struct BaseRules {
    pub(crate) dones: Noted,
    pub(crate) base_epoch: u64,
    pub(crate) floor: Option<u64>,
    pub(crate) last: Option<LastEntry>,
    /// How many Dones of those that the head says are still to come: none where more came.
    pub(crate) dones_left: Option<u64>,
    /// The same of rows.
    pub(crate) rows_left: Option<u64>,
    pub(crate) last_key: Option<Key>,
}

// So many less, if there are as many.
fn less(left: Option<u64>, count: usize) -> Option<u64>
    ensures { result ≡ less_by left count }
{
    match left {
        Some(left) => left.checked_sub(count as u64),
        None => None,
    }
}

impl BaseRules {
    /// Before the first entry of the base file of this layout.
    pub fn new(alloc: Global, layout: &LayoutEntry) -> BaseRules
        ensures { (s : Setting) → s.entry ≡ layout.now → IsBehindBase s [] result }
    {
        BaseRules {
            dones: Noted::new(alloc, layout.keep),
            base_epoch: layout.layout.base_epoch,
            floor: None,
            last: None,
            dones_left: None,
            rows_left: None,
            last_key: None,
        }
    }

    // Whether an entry has come.
    fn is_begun(&self) -> bool
        ensures { result ≡ is_some self.now.last }
    {
        self.last.is_some()
    }

    // Whether a head is of the layout's base epoch.
    fn is_of(&self, head: &BaseHead) -> bool
        ensures { result ≡ (head.now.epoch == self.now.base_epoch) }
    {
        head.epoch == self.base_epoch
    }

    /// Whether an entry of this tag may stand behind the entries before it, whatever follows the tag.
    pub fn may_stand(&self, tag: u8) -> bool
        ensures { (s : Setting) (before : List BaseEntry) → IsBehindBase s before self.now → result ≡ tag_may_stand (last_item before) tag }
    {
        match tag {
            4 => !self.is_begun(),
            5 => self.may_be_dones(),
            6 => self.may_be_rows(),
            _ => false,
        }
    }

    /// Notes a head that keeps its rules behind the entries before it, and answers None; else the answer
    /// is the first byte of its body at which one is broken. After that, here and in the calls below,
    /// nothing is said of what is remembered.
    pub fn next_head(&mut self, head: &BaseHead) -> Option<usize>
        ensures { (s : Setting) (before : List BaseEntry) → IsBehindBase s before self.old
            → Judges result (IsNextBase s before (Head head.now)) (IsBehindBase s (before ++ Head head.now ∷ []) self.new) (BaseBreaks s before (Head head.now)) }
    {
        if self.is_begun() {
            return Some(0);
        }
        if !self.is_of(head) {
            return Some(1);
        }
        self.floor = head.floor;
        self.dones_left = Some(head.dones);
        self.rows_left = Some(head.rows);
        self.last = Some(LastEntry::Head);
        None
    }

    // Whether Dones may come next.
    fn may_be_dones(&self) -> bool
        ensures { result ≡ may_be_dones self.now.last }
    {
        match self.last {
            Some(LastEntry::Head) => true,
            Some(LastEntry::Dones(is_full)) => is_full,
            Some(LastEntry::Rows(_)) | None => false,
        }
    }

    // Whether rows may come next.
    fn may_be_rows(&self) -> bool
        ensures { result ≡ may_be_rows self.now.last }
    {
        match self.last {
            Some(LastEntry::Head) | Some(LastEntry::Dones(_)) => true,
            Some(LastEntry::Rows(is_full)) => is_full,
            None => false,
        }
    }

    /// Notes kept Dones in the same way.
    pub fn next_dones(&mut self, procs: &Checked, dones: &[Done]) -> Result<Option<usize>, NoMemory>
        requires { length (base_bytes (Dones dones.now)) < 2 ^ 64 }
        ensures { (s : Setting) (before : List BaseEntry) → s.tree ≡ procs.now → IsBehindBase s before self.old
            → IfOk result (λ at. Judges at (IsNextBase s before (Dones dones.now)) (IsBehindBase s (before ++ Dones dones.now ∷ []) self.new) (BaseBreaks s before (Dones dones.now))) }
    {
        if !self.may_be_dones() {
            return Ok(Some(0));
        }
        if let Some(place) = first_broken_done(&mut self.dones, self.base_epoch, procs, dones)? {
            return Ok(Some(5 + base_dones_len(&dones[..place])));
        }
        self.last = Some(LastEntry::Dones(dones.len() == MOST_ITEMS as usize));
        self.dones_left = less(self.dones_left, dones.len());
        Ok(None)
    }

    /// Notes rows of the map in the same way. They take no memory.
    pub fn next_rows(&mut self, procs: &Checked, rows: &[(Key, Value)]) -> Option<usize>
        requires { length (base_bytes (Values rows.now)) < 2 ^ 64 }
        ensures { (s : Setting) (before : List BaseEntry) → s.tree ≡ procs.now → IsBehindBase s before self.old
            → Judges result (IsNextBase s before (Values rows.now)) (IsBehindBase s (before ++ Values rows.now ∷ []) self.new) (BaseBreaks s before (Values rows.now)) }
    {
        if !self.may_be_rows() {
            return Some(0);
        }
        if let Some(place) = first_broken_row(&mut self.last_key, procs, rows) {
            return Some(5 + base_rows_len(&rows[..place]));
        }
        self.last = Some(LastEntry::Rows(rows.len() == MOST_ITEMS as usize));
        self.rows_left = less(self.rows_left, rows.len());
        None
    }

    /// Whether there is a head, and there are as many Dones and rows as it says.
    pub fn is_whole(&self) -> bool
        ensures { (s : Setting) (before : List BaseEntry) → IsBehindBase s before self.now → IsTrue result ↔ IsWhole before }
    {
        let dones = is_none_left(self.dones_left);
        let rows = is_none_left(self.rows_left);
        is_both(dones, rows)
    }

    /// What is remembered where the committed epochs begin, behind this base.
    pub fn into_history(self) -> HistoryRules
        ensures { (s : Setting) (base : List BaseEntry) → IsBehindBase s base self → IsBehind s base [] result }
    {
        let BaseRules {
            dones,
            base_epoch,
            floor,
            ..
        } = self;
        HistoryRules {
            dones,
            floor,
            last_epoch: base_epoch,
        }
    }
}

fn is_both(first: bool, second: bool) -> bool
    ensures { result ≡ (first && second) }
{
    first && second
}

// Whether none is to come, and no more came.
fn is_none_left(left: Option<u64>) -> bool
    ensures { IsTrue result ↔ (left ≡ Some 0) }
{
    match left {
        Some(left) => left == 0,
        None => false,
    }
}

// Notes a kept Done that keeps its rules behind those before it; else the answer is false.
fn takes_done(
    noted: &mut Noted,
    base_epoch: u64,
    procs: &Checked,
    done: &Done,
) -> Result<bool, NoMemory>
    ensures { (s : Setting) (before : List Done) → s.tree ≡ procs.now → s.entry.layout.base_epoch ≡ base_epoch → AreNoted s.entry.keep before noted.old
        → IfOk result (λ takes. MatchBool takes
        (IsKeptDone s before done.now × AreNoted s.entry.keep (before ++ done.now ∷ []) noted.new)
        (¬ (IsKeptDone s before done.now))) }
{
    if done.epoch < 1 || base_epoch < done.epoch {
        return Ok(false);
    }
    noted.takes(procs, done)
}

// The place of the first kept Done that breaks a rule behind those before it.
fn first_broken_done(
    noted: &mut Noted,
    base_epoch: u64,
    procs: &Checked,
    dones: &[Done],
) -> Result<Option<usize>, NoMemory>
    ensures within { IfOk result (λ place. IfSome place (λ i. i < length dones.now)) }
    ensures found { (s : Setting) (before : List Done) → s.tree ≡ procs.now → s.entry.layout.base_epoch ≡ base_epoch → AreNoted s.entry.keep before noted.old
        → IfOk result (λ place. FindsBroken place (IsKeptDone s) before dones.now (AreNoted s.entry.keep (before ++ dones.now) noted.new)) }
{
    for (place, done) in dones.iter().enumerate() {
        if !takes_done(noted, base_epoch, procs, done)? {
            return Ok(Some(place));
        }
    }
    Ok(None)
}

// Goes on to a row that keeps its rules behind those before it; else the answer is false.
fn takes_row(last: &mut Option<Key>, procs: &Checked, row: &(Key, Value)) -> bool
    ensures { (s : Setting) (before : List (RowKey × Datum)) → s.tree ≡ procs.now → EndsAtKey before last.old
        → MatchBool result
        (IsNextValue s before row.now × EndsAtKey (before ++ row.now ∷ []) last.new)
        (¬ (IsNextValue s before row.now)) }
{
    if !has_table(procs, &row.0) {
        return false;
    }
    if !rises(last, &row.0) {
        return false;
    }
    *last = Some(row.0);
    true
}

// The place of the first row that breaks a rule behind those before it.
fn first_broken_row(last: &mut Option<Key>, procs: &Checked, rows: &[(Key, Value)]) -> Option<usize>
    ensures within { IfSome result (λ i. i < length rows.now) }
    ensures found { (s : Setting) (before : List (RowKey × Datum)) → s.tree ≡ procs.now → EndsAtKey before last.old
        → FindsBroken result (IsNextValue s) before rows.now (EndsAtKey (before ++ rows.now) last.new) }
{
    for (place, row) in rows.iter().enumerate() {
        if !takes_row(last, procs, row) {
            return Some(place);
        }
    }
    None
}
