//! The base file: what the store goes on from.

ghost use Rattle.std.specs.Prelude.{◌≡◌, ℕ, ◌<◌, ◌^◌, ◌∷◌, ◌++◌, [], List, Err, length, slice_index, IfErr, IfOk, IfSome, OnErr, OnOk};
ghost use Rattle.coco_entry.specs.Grammar.{Answers};
ghost use Rattle.coco_load.specs.Tables.{IsRing};
ghost use Rattle.coco_rules.specs.Basing.{IsBehindBase};
ghost use Rattle.coco_rules.specs.Judged.{Judges};
ghost use Rattle.coco_store.specs.Entries.{BaseEntry, IsBaseEntry, base_bytes};
ghost use Rattle.coco_store.specs.Refusals.{BaseBreaks, base_behind, base_in};
ghost use Rattle.coco_store.specs.Rules.{EachBehind, IsNextBase, Setting};
ghost use Rattle.coco_recover.specs.Bases.{IsBased, IsGathered, based_of, entries_of, entry_of};
ghost use Rattle.coco_recover.specs.Layouts.{setting_of};

use crate::layouts::LastLayout;
use crate::refusal::refused;
use coco_ast::Checked;
use coco_entry::{BaseHead, EntryFault, read_base_dones, read_base_rows, read_head};
use coco_io::told::Told;
use coco_kept::{Kept, keep_dones};
use coco_load::{PackedRows, Tables, packed_rows};
use coco_read::Rules;
use coco_rules::{BaseRules, HistoryRules};
use coco_types::{Dones, MapRows, NoMemory};
use std::alloc::Global;
use std::marker::Model;
use std::slice;

/// An entry of a base file.
#[derive(Debug, Drop)]
pub enum BasePart {
    Head(BaseHead),
    Dones(Dones),
    Rows(MapRows),
}

/// What the committed epochs go on from.
#[derive(Drop)]
pub struct BaseHistory {
    pub rules: HistoryRules,
    pub kept: Kept,
    /// The entries of the base, which contracts alone see.
    pub entries: Told<BasePart>,
}

/// A base: its history, the tables with its rows, and its rows entry by entry.
#[derive(Drop)]
pub struct Based {
    pub history: BaseHistory,
    pub tables: Tables,
    pub rows: Vec<PackedRows>,
}

// What is kept of the entries of a base.
#[derive(Drop)]
pub(crate) struct Gathered {
    pub keep: Option<u16>,
    pub kept: Kept,
    pub tables: Tables,
    pub rows: Vec<PackedRows>,
    pub entries: Told<BasePart>,
}

/// The entries of a base file. Contracts see what they stand under, and all of them, but none once one was refused or
/// memory ran out.
#[derive(Drop)]
pub struct BaseReading<'a> {
    last: &'a LastLayout,
    rules: BaseRules,
    gathered: Gathered,
    /// Whether an entry was refused, or memory ran out.
    is_spent: bool,
}

impl<'a> Model for BaseReading<'a> {
    ghost use Rattle.std.specs.Prelude.{◌≡◌, false, [], if◌then◌else◌};
    ghost use Rattle.std.specs.Coded.{codes};
    ghost use Rattle.coco_ast.specs.TreeCode.{procedures_code};
    ghost use Rattle.coco_store.specs.Entries.{BaseEntry};
    ghost use Rattle.coco_recover.specs.Taking.{Taken};
    ghost use Rattle.coco_recover.specs.Bases.{BaseBasis};

    ghost Value = { Taken BaseBasis BaseEntry };

    ghost coded = { Prim.hlevel (codes, procedures_code) };

    ghost use Rattle.coco_recover.specs.Bases.{IsBasing, entries_of};
    ghost use Rattle.coco_recover.specs.Layouts.{setting_of};

    ghost view = { λ r. record { under = record { setting = setting_of r.last.now; keep = r.gathered.keep }; taken = if r.is_spent then [] else entries_of r.gathered.entries.items } };

    ghost invariant = { λ r. r.is_spent ≡ false → IsBasing (setting_of r.last.now) r.rules r.gathered };
}

fn tag_of(body: &[u8]) -> u8
    ensures { result ≡ slice_index body.now 0 }
{
    if body.is_empty() { 0 } else { body[0] }
}

// The entry of a base file that the body is, or the first field that can't stand.
fn read_part(alloc: Global, body: &[u8]) -> Result<BasePart, EntryFault>
    ensures found { IfOk result (λ part. IsBaseEntry (entry_of part) × (body.now ≡ base_bytes (entry_of part))) }
    ensures fault { IfErr result (λ fault. Answers {A = BaseEntry} (Err fault) (base_in body.now)) }
{
    match tag_of(body) {
        5 => Ok(BasePart::Dones(read_base_dones(alloc, body)?)),
        6 => Ok(BasePart::Rows(read_base_rows(alloc, body)?)),
        _ => Ok(BasePart::Head(read_head(body)?)),
    }
}

// Where a body that is no entry is bad behind the entries before it: at its tag, if that may not stand there.
fn first_bad(rules: &BaseRules, body: &[u8], fault: EntryFault) -> EntryFault
    ensures { (s : Setting) (before : List BaseEntry) → IsBehindBase s before rules.now → Answers {A = BaseEntry} (Err fault) (base_in body.now)
        → Answers {A = BaseEntry} (Err result) (base_behind before body.now) }
{
    match fault {
        EntryFault::NoMemory => EntryFault::NoMemory,
        EntryFault::Bad { at } => {
            if rules.may_stand(tag_of(body)) {
                EntryFault::Bad { at }
            } else {
                EntryFault::Bad { at: 0 }
            }
        }
    }
}

// Whether an entry keeps its rules behind those before it, or at which byte it breaks the first one.
fn judge(rules: &mut BaseRules, procs: &Checked, part: &BasePart) -> Result<Option<usize>, NoMemory>
    requires { length (base_bytes (entry_of part.now)) < 2 ^ 64 }
    ensures { (s : Setting) (before : List BaseEntry) → s.tree ≡ procs.now → IsBehindBase s before rules.old
        → IfOk result (λ at. Judges at (IsNextBase s before (entry_of part.now)) (IsBehindBase s (before ++ entry_of part.now ∷ []) rules.new) (BaseBreaks s before (entry_of part.now))) }
{
    match part {
        BasePart::Head(head) => Ok(rules.next_head(head)),
        BasePart::Dones(dones) => rules.next_dones(procs, dones.as_slice()),
        BasePart::Rows(rows) => Ok(rules.next_rows(procs, rows.as_slice())),
    }
}

impl Gathered {
    // Nothing so far.
    fn new(alloc: Global, last: &LastLayout, keep: Option<u16>) -> Result<Gathered, NoMemory>
        requires ring { IsRing last.now.entry.layout }
        requires keep { IfSome keep (λ n. 0 < n) }
        ensures gathered { IfOk result (IsGathered (setting_of last.now)) }
        ensures keep { IfOk result (λ g. g.keep ≡ keep) }
        ensures entries { IfOk result (λ g. g.entries.items ≡ []) }
    {
        Ok(Gathered {
            keep,
            kept: Kept::new(alloc, keep, None),
            tables: Tables::new(alloc, &last.entry.layout)?,
            rows: Vec::new(alloc),
            entries: Told::new(),
        })
    }

    // Keeps what an entry has that keeps its rules.
    fn gather(&mut self, alloc: Global, last: &LastLayout, part: BasePart) -> Result<(), NoMemory>
        requires each { EachBehind (IsNextBase (setting_of last.now)) [] (entries_of self.old.entries.items) }
        requires next { IsNextBase (setting_of last.now) (entries_of self.old.entries.items) (entry_of part) }
        requires gathered { IsGathered (setting_of last.now) self.old }
        ensures gathered { OnOk result (IsGathered (setting_of last.now) self.new) }
        ensures entries { self.new.entries.items ≡ self.old.entries.items ++ part ∷ [] }
        ensures keep { self.new.keep ≡ self.old.keep }
    {
        self.entries.add(slice::from_ref(&part));
        match part {
            BasePart::Head(head) => {
                self.kept = Kept::new(alloc, self.keep, head.floor);
                Ok(())
            }
            BasePart::Dones(dones) => keep_dones(alloc, &mut self.kept, dones),
            BasePart::Rows(rows) => {
                let packed = packed_rows(alloc, rows)?;
                self.tables
                    .load_base(&last.entry.layout, packed.as_slice())?;
                self.rows.push(packed)?;
                Ok(())
            }
        }
    }

    // The base, with what decides about the committed epochs.
    fn into_based(self, rules: HistoryRules) -> Based
        ensures { result ≡ based_of rules self }
    {
        Based {
            history: BaseHistory {
                rules,
                kept: self.kept,
                entries: self.entries,
            },
            tables: self.tables,
            rows: self.rows,
        }
    }
}

impl Based {
    /// That of a layout without a base file.
    pub fn without_file(
        alloc: Global,
        last: &LastLayout,
        keep: Option<u16>,
    ) -> Result<Based, NoMemory>
        requires ring { IsRing last.now.entry.layout }
        requires keep { IfSome keep (λ n. 0 < n) }
        ensures based { IfOk result (IsBased (setting_of last.now)) }
        ensures none { IfOk result (λ based. entries_of based.history.entries.items ≡ []) }
        ensures keep { IfOk result (λ based. based.history.kept.keep ≡ keep) }
    {
        let gathered = Gathered::new(alloc, last, keep)?;
        Ok(gathered.into_based(HistoryRules::new(alloc, &last.entry)))
    }
}

impl<'a> BaseReading<'a> {
    /// Before the first entry. A keep number is at least 1.
    pub fn new(
        alloc: Global,
        last: &'a LastLayout,
        keep: Option<u16>,
    ) -> Result<BaseReading<'a>, NoMemory>
        requires ring { IsRing last.now.entry.layout }
        requires keep { IfSome keep (λ n. 0 < n) }
        ensures { IfOk result (λ reading. reading ≡ record { under = record { setting = setting_of last.now; keep = keep }; taken = [] }) }
    {
        let gathered = Gathered::new(alloc, last, keep)?;
        Ok(BaseReading {
            last,
            rules: BaseRules::new(alloc, &last.entry),
            gathered,
            is_spent: false,
        })
    }

    /// The base, if each entry was taken. It takes no memory.
    pub fn into_based(self) -> Result<Based, NoMemory>
        ensures based { IfOk result (IsBased self.entry.under.setting) }
        ensures entries { IfOk result (λ based. entries_of based.history.entries.items ≡ self.entry.taken) }
        ensures keep { IfOk result (λ based. based.history.kept.keep ≡ self.entry.under.keep) }
        ensures err { OnErr result (self.entry.taken ≡ []) }
    {
        if self.is_spent {
            return Err(NoMemory);
        }
        Ok(self.gathered.into_based(self.rules.into_history()))
    }
}

impl<'a> Rules for BaseReading<'a> {
    ghost use Rattle.coco_store.specs.Entries.{BaseEntry};
    ghost use Rattle.coco_recover.specs.Bases.{BaseBasis, base_rules};
    ghost use Rattle.coco_recover.specs.Readings.{base_stands};

    ghost Entry = { BaseEntry };

    ghost Setting = { BaseBasis };

    ghost setting = { λ r. r.under };

    ghost rules = { λ b. base_rules b.setting };

    ghost taken = { λ r. r.taken };

    fn take(&mut self, alloc: Global, body: &[u8]) -> Result<Option<usize>, NoMemory> {
        if self.is_spent {
            return Err(NoMemory);
        }
        let part = match read_part(alloc, body) {
            Ok(part) => part,
            Err(fault) => return refused(first_bad(&self.rules, body, fault)),
        };
        self.is_spent = true;
        if let Some(at) = judge(&mut self.rules, &self.last.procs, &part)? {
            return Ok(Some(at));
        }
        self.gathered.gather(alloc, self.last, part)?;
        self.is_spent = false;
        Ok(None)
    }

    fn lacks(&self) -> bool {
        self.is_spent || !self.rules.is_whole()
    }

    ghost reads = { λ _. base_stands };
}
