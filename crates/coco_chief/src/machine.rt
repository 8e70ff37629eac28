//! The coordinator's core, row by row of its table.

ghost use Rattle.std.specs.Prelude.{◌≡◌, ◌<◌, length, slice_set, true, IsTrue, IfOk, OnErr};
ghost use Rattle.coco_chief.specs.Ranges.{end_of, AreRanges, AreRanges-prop};
ghost use Rattle.coco_chief.specs.Table.{is_open};

use crate::flags::{all_down, are_all_up, is_up};
use crate::ranges::{Range, add_epoch, epochs_of, is_covered, ranges_of};
use crate::telling::{Word, tell_each, tell_unfinished};
use coco_msg::{Action, Message, one};
use coco_types::NoMemory;
use std::alloc::Global;

/// Where the epoch that was begun last stands.
#[derive(Clone, Copy, PartialEq, Eq)]
pub enum Phase {
    /// It is decided, or there is none.
    Rest,
    Voting,
    Forcing,
}

/// The coordinator's core. An epoch of 0 is none.
#[derive(Drop)]
pub struct ChiefCore {
    nodes: u8,
    committed: Vec<Range>,
    last: u64,
    current: u64,
    phase: Phase,
    voted: Vec<bool>,
    finished: Vec<bool>,
    ghost ranges: { AreRanges 0 committed.items } by { AreRanges-prop 0 committed.items },
    ghost end: { end_of committed.items ≡ last },
    ghost voters: { length voted.items ≡ nodes },
    ghost finishers: { length finished.items ≡ nodes },
    ghost behind: { is_open phase ≡ true → last < current },
}

impl ChiefCore {
    ghost use Rattle.coco_chief.specs.declared.machine.Phase.TheVariants.{Voting, Forcing, Rest as Still};
    ghost use Rattle.coco_chief.specs.Shown.{chief_of};
    ghost use Rattle.coco_chief.specs.Table.{restarted, begun, aborted, forced, on_vote, on_finished, on_query, counts, on_message, handled, reminds, has_finished, has_voted};
    ghost use Rattle.coco_chief.specs.Chief.{has};
    ghost use Rattle.std.specs.Prelude.{ℕ};
    ghost use Rattle.std.specs.List.Sorted.{IsStrictlyIncreasing};

    /// The core for so many nodes, with these epochs in its durable entries.
    pub fn restart(alloc: Global, nodes: u8, committed: Vec<u64>) -> Result<ChiefCore, NoMemory>
        ensures { IfOk result (λ core. chief_of core ≡ restarted nodes committed.items) }
    {
        let committed = ranges_of(alloc, committed)?;
        let last = last_epoch(&committed);
        Ok(ChiefCore {
            nodes,
            committed,
            last,
            current: 0,
            phase: Phase::Rest,
            voted: all_down(alloc, nodes)?,
            finished: all_down(alloc, nodes)?,
        })
    }

    // The allocator of what the core keeps and answers.
    fn alloc(&self) -> Global {
        *self.committed.allocator()
    }

    /// Begins an epoch. Out of memory nothing has changed.
    pub fn begin(&mut self, epoch: u64) -> Result<Vec<Action>, NoMemory>
        requires at_rest { (chief_of self.old).phase ≡ Still }
        requires some { 0 < epoch }
        requires above_begun { (chief_of self.old).current < epoch }
        requires above_committed { (chief_of self.old).last < epoch }
        ensures ok { IfOk result (λ actions. (actions.items, chief_of self.new) ≡ begun epoch (chief_of self.old)) }
        ensures err { OnErr result (chief_of self.new ≡ chief_of self.old) }
    {
        let actions = tell_each(self.alloc(), self.nodes, Word::Prepare, epoch)?;
        self.voted = all_down(self.alloc(), self.nodes)?;
        self.current = epoch;
        self.phase = Phase::Voting;
        Ok(actions)
    }

    /// Aborts the epoch that is voting or forcing. Out of memory nothing has changed.
    pub fn abort(&mut self) -> Result<Vec<Action>, NoMemory>
        requires { IsTrue (is_open (chief_of self.old).phase) }
        ensures ok { IfOk result (λ actions. (actions.items, chief_of self.new) ≡ aborted (chief_of self.old)) }
        ensures err { OnErr result (chief_of self.new ≡ chief_of self.old) }
    {
        let actions = tell_each(self.alloc(), self.nodes, Word::Abort, self.current)?;
        self.phase = Phase::Rest;
        Ok(actions)
    }

    /// The commit entry of the epoch that is forcing is durable. Out of memory nothing has changed.
    pub fn forced(&mut self, epoch: u64) -> Result<Vec<Action>, NoMemory>
        requires phase { (chief_of self.old).phase ≡ Forcing }
        requires epoch { (chief_of self.old).current ≡ epoch }
        ensures ok { IfOk result (λ actions. (actions.items, chief_of self.new) ≡ forced epoch (chief_of self.old)) }
        ensures err { OnErr result (chief_of self.new ≡ chief_of self.old) }
    {
        let actions = tell_each(self.alloc(), self.nodes, Word::Commit, epoch)?;
        let finished = all_down(self.alloc(), self.nodes)?;
        add_epoch(&mut self.committed, epoch)?;
        self.last = epoch;
        self.finished = finished;
        self.phase = Phase::Rest;
        Ok(actions)
    }

    fn on_vote(&mut self, from: u8, epoch: u64, yes: bool) -> Result<Vec<Action>, NoMemory>
        requires { from < (chief_of self.old).nodes }
        ensures ok { IfOk result (λ actions. (actions.items, chief_of self.new) ≡ on_vote from epoch yes (chief_of self.old)) }
        ensures err { OnErr result (chief_of self.new ≡ chief_of self.old) }
    {
        if epoch != self.current || self.phase != Phase::Voting {
            return Ok(Vec::new(self.alloc()));
        }
        if yes { self.count(from) } else { self.abort() }
    }

    // Counts a yes.
    fn count(&mut self, from: u8) -> Result<Vec<Action>, NoMemory>
        requires node { from < (chief_of self.old).nodes }
        requires voting { (chief_of self.old).phase ≡ Voting }
        ensures ok { IfOk result (λ actions. (actions.items, chief_of self.new) ≡ counts (slice_set (chief_of self.old).voted from true) (chief_of self.old)) }
        ensures err { OnErr result (chief_of self.new ≡ chief_of self.old) }
    {
        let force = one(
            self.alloc(),
            Action::Force {
                epoch: self.current,
            },
        )?;
        self.voted[from as usize] = true;
        if are_all_up(&self.voted) {
            self.phase = Phase::Forcing;
            return Ok(force);
        }
        Ok(Vec::new(self.alloc()))
    }

    fn on_finished(&mut self, from: u8, epoch: u64)
        requires { from < (chief_of self.old).nodes }
        ensures { chief_of self.new ≡ (on_finished from epoch (chief_of self.old)).1 }
    {
        if epoch == self.last {
            self.finished[from as usize] = true;
        }
    }

    fn on_query(&self, from: u8, epoch: u64) -> Result<Vec<Action>, NoMemory>
        ensures { IfOk result (λ actions. actions.items ≡ (on_query from epoch (chief_of self.now)).0) }
    {
        let committed = is_covered(&self.committed, epoch);
        let is_open = epoch == self.current && self.phase != Phase::Rest;
        if !committed && is_open {
            return Ok(Vec::new(self.alloc()));
        }
        let message = Message::Tell { epoch, committed };
        one(self.alloc(), Action::Send { to: from, message })
    }

    fn on_message(&mut self, from: u8, message: &Message) -> Result<Vec<Action>, NoMemory>
        requires { from < (chief_of self.old).nodes }
        ensures ok { IfOk result (λ actions. (actions.items, chief_of self.new) ≡ on_message from message.now (chief_of self.old)) }
        ensures err { OnErr result (chief_of self.new ≡ chief_of self.old) }
    {
        match message {
            Message::Vote { epoch, yes } => self.on_vote(from, *epoch, *yes),
            Message::Finished { epoch } => {
                self.on_finished(from, *epoch);
                Ok(Vec::new(self.alloc()))
            }
            Message::Query { epoch } => self.on_query(from, *epoch),
            Message::Ship { .. }
            | Message::Total { .. }
            | Message::Missing { .. }
            | Message::All { .. }
            | Message::Prepare { .. }
            | Message::Commit { .. }
            | Message::Abort { .. }
            | Message::Tell { .. } => Ok(Vec::new(self.alloc())),
        }
    }

    /// Takes a message from a place. Out of memory nothing has changed.
    pub fn handle(&mut self, from: u8, message: &Message) -> Result<Vec<Action>, NoMemory>
        ensures ok { IfOk result (λ actions. (actions.items, chief_of self.new) ≡ handled from message.now (chief_of self.old)) }
        ensures err { OnErr result (chief_of self.new ≡ chief_of self.old) }
    {
        if from < self.nodes && message.epoch() > 0 {
            self.on_message(from, message)
        } else {
            Ok(Vec::new(self.alloc()))
        }
    }

    /// Tells the nodes that haven't finished the last committed epoch once more.
    pub fn remind(&self) -> Result<Vec<Action>, NoMemory>
        ensures { IfOk result (λ actions. actions.items ≡ reminds (chief_of self.now)) }
    {
        if self.last == 0 {
            return Ok(Vec::new(self.alloc()));
        }
        tell_unfinished(self.alloc(), self.nodes, &self.finished, self.last)
    }

    /// Whether a node has finished the last committed epoch, or there is none.
    pub fn finished(&self, node: u8) -> bool
        ensures { result ≡ has_finished node (chief_of self.now) }
    {
        self.last == 0 || is_up(&self.finished, node)
    }

    /// Whether a node's yes to the epoch that was begun last was counted.
    pub fn has_voted(&self, node: u8) -> bool
        ensures { result ≡ has_voted node (chief_of self.now) }
    {
        is_up(&self.voted, node)
    }

    /// The committed epochs, rising.
    pub fn epochs(&self, alloc: Global) -> Result<Vec<u64>, NoMemory>
        ensures rising { IfOk result (λ epochs. IsStrictlyIncreasing epochs.items) }
        ensures committed { IfOk result (λ epochs. (e : ℕ) → has epochs.items e ≡ (chief_of self.now).committed e) }
    {
        epochs_of(alloc, &self.committed)
    }

    /// The epoch that was begun last, 0 where there is none.
    pub fn current(&self) -> u64
        ensures { result ≡ (chief_of self.now).current }
    {
        self.current
    }

    /// The last committed epoch, 0 where there is none.
    pub fn last(&self) -> u64
        ensures { result ≡ (chief_of self.now).last }
    {
        self.last
    }

    /// Whether the epoch that was begun last is voting or forcing.
    pub fn is_open(&self) -> bool
        ensures { result ≡ is_open (chief_of self.now).phase }
    {
        self.phase != Phase::Rest
    }

    /// Where the epoch that was begun last stands.
    pub fn phase(&self) -> Phase
        ensures { result ≡ (chief_of self.now).phase }
    {
        self.phase
    }
}

// The last epoch of ranges, 0 where there is none.
fn last_epoch(ranges: &[Range]) -> u64
    ensures { result ≡ end_of ranges.now }
{
    match ranges.last() {
        Some(range) => range.last,
        None => 0,
    }
}
