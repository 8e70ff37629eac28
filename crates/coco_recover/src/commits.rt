//! The coordinator's file: the committed epochs.

ghost use Rattle.std.specs.Prelude.{◌≡◌, ◌<◌, [], IfOk, OnErr};
ghost use Rattle.coco_types.specs.Limits.{epochs_end};
ghost use Rattle.coco_recover.specs.Bases.{IsHistoryOfBase, basis_of};
ghost use Rattle.coco_recover.specs.Commits.{AreCommitted, basis_of_committed};
ghost use Rattle.coco_recover.specs.Layouts.{setting_of};

use crate::base::{BaseHistory, BasePart};
use crate::layouts::LastLayout;
use crate::refusal::refused;
use coco_entry::{Commit, read_commit};
use coco_io::told::Told;
use coco_kept::{Kept, keep_dones};
use coco_load::{epochs_begin_with_the_base, next_epoch};
use coco_read::Rules;
use coco_rules::HistoryRules;
use coco_types::NoMemory;
use std::alloc::Global;
use std::marker::Model;
use std::slice;

/// The epochs that were committed over a base: their numbers, the replies that are kept, and the number that comes
/// next.
#[derive(Drop)]
pub struct Committed {
    pub kept: Kept,
    pub epochs: Vec<u64>,
    pub next: u64,
    /// The entries of the base, which contracts alone see.
    pub base: Told<BasePart>,
    /// The commits, which contracts alone see.
    pub commits: Told<Commit>,
}

/// The entries of the coordinator's file. Contracts see what they stand under, and all of them, but none once one was
/// refused or memory ran out.
#[derive(Drop)]
pub struct CommitReading<'a> {
    last: &'a LastLayout,
    rules: HistoryRules,
    committed: Committed,
    /// Whether an entry was refused, or memory ran out.
    is_spent: bool,
}

impl<'a> Model for CommitReading<'a> {
    ghost use Rattle.std.specs.Prelude.{◌≡◌, false, [], if◌then◌else◌};
    ghost use Rattle.std.specs.Coded.{codes};
    ghost use Rattle.coco_ast.specs.TreeCode.{procedures_code};
    ghost use Rattle.coco_entry.specs.declared.commit.Commit.{Commit};
    ghost use Rattle.coco_recover.specs.Taking.{Taken};
    ghost use Rattle.coco_recover.specs.Bases.{Basis};

    ghost Value = { Taken Basis Commit };

    ghost coded = { Prim.hlevel (codes, procedures_code) };

    ghost use Rattle.coco_recover.specs.Layouts.{setting_of};
    ghost use Rattle.coco_recover.specs.Commits.{IsHistory, basis_of_committed};

    ghost view = { λ r. record { under = basis_of_committed (setting_of r.last.now) r.committed; taken = if r.is_spent then [] else r.committed.commits.items } };

    ghost invariant = { λ r. r.is_spent ≡ false → IsHistory (setting_of r.last.now) r.rules r.committed };
}

impl<'a> CommitReading<'a> {
    /// Before the first entry, behind a base.
    pub fn new(alloc: Global, last: &'a LastLayout, base: BaseHistory) -> CommitReading<'a>
        requires base { IsHistoryOfBase (setting_of last.now) base }
        requires epoch { last.now.entry.layout.base_epoch < epochs_end }
        ensures { result ≡ record { under = basis_of (setting_of last.now) base; taken = [] } }
    {
        epochs_begin_with_the_base();
        let BaseHistory {
            rules,
            kept,
            entries,
        } = base;
        CommitReading {
            last,
            rules,
            committed: Committed {
                kept,
                epochs: Vec::new(alloc),
                next: last.entry.layout.base_epoch + 1,
                base: entries,
                commits: Told::new(),
            },
            is_spent: false,
        }
    }

    /// The committed epochs, if each entry was taken. It takes no memory.
    pub fn into_committed(self) -> Result<Committed, NoMemory>
        ensures committed { IfOk result (AreCommitted self.entry.under.setting) }
        ensures basis { IfOk result (λ committed. basis_of_committed self.entry.under.setting committed ≡ self.entry.under) }
        ensures commits { IfOk result (λ committed. committed.commits.items ≡ self.entry.taken) }
        ensures err { OnErr result (self.entry.taken ≡ []) }
    {
        if self.is_spent {
            return Err(NoMemory);
        }
        Ok(self.committed)
    }
}

impl<'a> Rules for CommitReading<'a> {
    ghost use Rattle.coco_entry.specs.declared.commit.Commit.{Commit};
    ghost use Rattle.coco_recover.specs.Bases.{Basis};
    ghost use Rattle.coco_recover.specs.Commits.{commit_rules};
    ghost use Rattle.coco_recover.specs.Readings.{commit_reads};

    ghost Entry = { Commit };

    ghost Setting = { Basis };

    ghost setting = { λ r. r.under };

    ghost rules = { commit_rules };

    ghost taken = { λ r. r.taken };

    fn take(&mut self, alloc: Global, body: &[u8]) -> Result<Option<usize>, NoMemory> {
        let commit = match read_commit(alloc, body) {
            Ok(commit) => commit,
            Err(fault) => return refused(fault),
        };
        if self.is_spent {
            return Err(NoMemory);
        }
        self.is_spent = true;
        if let Some(at) = self.rules.next(&self.last.procs, &commit)? {
            return Ok(Some(at));
        }
        self.committed.commits.add(slice::from_ref(&commit));
        self.committed.epochs.push(commit.epoch)?;
        self.committed.next = next_epoch(self.committed.next, commit.epoch);
        keep_dones(alloc, &mut self.committed.kept, commit.dones)?;
        self.is_spent = false;
        Ok(None)
    }

    fn lacks(&self) -> bool {
        false
    }

    ghost reads = { λ _ _. commit_reads };
}
