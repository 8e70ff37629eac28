//! Committed epochs, behind the base and those before them.

ghost use Rattle.std.specs.Prelude.{◌≡◌, ◌<◌, ◌^◌, ◌∷◌, ◌++◌, [], List, ℕ, length, nat_lt, ◌&&◌, IfOk, IfSome, MatchBool};
ghost use Rattle.coco_types.specs.Limits.{epochs_end};
ghost use Rattle.coco_types.specs.declared.call.Done.{Done};
ghost use Rattle.coco_entry.specs.Commits.{commit_bytes};
ghost use Rattle.coco_entry.specs.declared.commit.Commit.{Commit as CommitEntry};
ghost use Rattle.coco_store.specs.Entries.{BaseEntry};
ghost use Rattle.coco_store.specs.Refusals.{CommitBreaks};
ghost use Rattle.coco_store.specs.Rules.{IsCommittedDone, IsNextCommit, Setting};
ghost use Rattle.coco_rules.specs.Behind.{IsBehind, IsBehindDones, is_above as comes_above};
ghost use Rattle.coco_rules.specs.Judged.{FindsBroken, Judges};

use crate::dones::Noted;
use crate::lengths::dones_len;
use coco_ast::Checked;
use coco_entry::{Commit, LayoutEntry};
use coco_types::limits::EPOCHS_END;
use coco_types::{Done, NoMemory};
use std::alloc::Global;

/// What is remembered of the base and of the committed epochs that came before: it decides whether the
/// next one keeps its rules. It holds the ids of the Dones, and no Done.
#[derive(Drop)]
pub struct HistoryRules {
    pub(crate) dones: Noted,
    pub(crate) floor: Option<u64>,
    pub(crate) last_epoch: u64,
}

/// Whether an epoch goes on behind the last one.
pub(crate) fn goes_on(last_epoch: u64, epoch: u64) -> bool
    ensures { result ≡ (nat_lt last_epoch epoch && nat_lt epoch epochs_end) }
{
    last_epoch < epoch && epoch < EPOCHS_END
}

fn is_above(floor: Option<u64>, id: u64) -> bool
    ensures { result ≡ comes_above floor id }
{
    match floor {
        Some(floor) => floor < id,
        None => true,
    }
}

impl HistoryRules {
    /// Behind this layout, whose base keeps nothing.
    pub fn new(alloc: Global, layout: &LayoutEntry) -> HistoryRules
        ensures { (s : Setting) → s.entry ≡ layout.now → IsBehind s [] [] result }
    {
        HistoryRules {
            dones: Noted::new(alloc, layout.keep),
            floor: None,
            last_epoch: layout.layout.base_epoch,
        }
    }

    // Notes a Done that keeps its rules behind those before it; else the answer is false.
    fn takes(&mut self, procs: &Checked, done: &Done) -> Result<bool, NoMemory>
        ensures epoch { self.new.last_epoch ≡ self.old.last_epoch }
        ensures takes { (s : Setting) (base : List BaseEntry) (before : List Done) → s.tree ≡ procs.now → IsBehindDones s base before self.old
            → IfOk result (λ takes. MatchBool takes
            (IsCommittedDone s base before done.now × IsBehindDones s base (before ++ done.now ∷ []) self.new)
            (¬ (IsCommittedDone s base before done.now))) }
    {
        if !is_above(self.floor, done.id) {
            return Ok(false);
        }
        self.dones.takes(procs, done)
    }

    // The place of the first Done that breaks a rule behind those before it.
    fn first_broken(&mut self, procs: &Checked, dones: &[Done]) -> Result<Option<usize>, NoMemory>
        ensures within { IfOk result (λ place. IfSome place (λ i. i < length dones.now)) }
        ensures epoch { self.new.last_epoch ≡ self.old.last_epoch }
        ensures found { (s : Setting) (base : List BaseEntry) (before : List Done) → s.tree ≡ procs.now → IsBehindDones s base before self.old
            → IfOk result (λ place. FindsBroken place (IsCommittedDone s base) before dones.now (IsBehindDones s base (before ++ dones.now) self.new)) }
    {
        for (place, done) in dones.iter().enumerate() {
            if !self.takes(procs, done)? {
                return Ok(Some(place));
            }
        }
        Ok(None)
    }

    /// Notes a commit that keeps its rules behind the base and those before it, and answers None; else
    /// the answer is the first byte of its body at which one is broken. After that, and out of memory,
    /// nothing is said of what is remembered.
    pub fn next(&mut self, procs: &Checked, commit: &Commit) -> Result<Option<usize>, NoMemory>
        requires { length (commit_bytes commit.now) < 2 ^ 64 }
        ensures { (s : Setting) (base : List BaseEntry) (before : List CommitEntry) → s.tree ≡ procs.now → IsBehind s base before self.old
            → IfOk result (λ at. Judges at (IsNextCommit s base before commit.now) (IsBehind s base (before ++ commit.now ∷ []) self.new)
            (CommitBreaks s base before commit.now)) }
    {
        if !goes_on(self.last_epoch, commit.epoch) {
            return Ok(Some(1));
        }
        let dones = commit.dones.as_slice();
        if let Some(place) = self.first_broken(procs, dones)? {
            return Ok(Some(13 + dones_len(&dones[..place])));
        }
        self.last_epoch = commit.epoch;
        Ok(None)
    }
}
