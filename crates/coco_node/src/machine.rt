//! The core of a node, row by row of its table.

ghost use Rattle.std.specs.Prelude.{◌≡◌, ◌<◌, IfOk, OnErr};
ghost use Rattle.coco_node.specs.Node.{greatest};
ghost use Rattle.coco_node.specs.Table.{votes, has_finished};

use coco_msg::{Action, Message, one, two};
use coco_types::NoMemory;
use std::alloc::Global;
use std::marker::Model;

/// The coordinator's place.
pub const COORDINATOR: u8 = 8;

/// Its place in numbers.
pub fn places()
    ensures { COORDINATOR ≡ 8 }
{}

/// What a node knows of the epoch of its newest durable entry.
#[derive(Clone, Copy, PartialEq, Eq)]
pub enum Decision {
    Unknown,
    Committed,
    Aborted,
}

/// The core of a node. An epoch of 0 is none.
#[derive(Drop)]
pub struct NodeCore {
    node: u8,
    durable: u64,
    decision: Decision,
    forcing: u64,
    lost: u64,
}

fn vote(epoch: u64, yes: bool) -> Action
    ensures { result ≡ votes yes epoch }
{
    Action::Send {
        to: COORDINATOR,
        message: Message::Vote { epoch, yes },
    }
}

fn finished(epoch: u64) -> Action
    ensures { result ≡ has_finished epoch }
{
    Action::Send {
        to: COORDINATOR,
        message: Message::Finished { epoch },
    }
}

impl Model for NodeCore {
    ghost use Rattle.coco_node.specs.Node.{Node};

    ghost Value = { Node };

    ghost view = { λ c. record { number = c.node; durable = c.durable; decision = c.decision; forcing = c.forcing; lost = c.lost } };
}

// The greatest of these epochs, 0 where there is none.
fn greatest_of(epochs: &[u64]) -> u64
    ensures { result ≡ greatest epochs.now }
{
    let mut most = 0;
    for epoch in epochs {
        most = most.max(*epoch);
    }
    most
}

impl NodeCore {
    ghost use Rattle.coco_node.specs.Node.{restarted, is_unknown};
    ghost use Rattle.coco_node.specs.Table.{awaits, on_prepare, on_committed, on_abort, on_aborted, on_message, handled, forced, asks};

    /// The core of a node with these epochs in its durable entries. A stop may have taken away the rows of one.
    pub fn restart(node: u8, epochs: Vec<u64>, lost: Option<u64>) -> NodeCore
        ensures { result ≡ restarted node epochs.items lost }
    {
        NodeCore {
            node,
            durable: greatest_of(&epochs),
            decision: Decision::Unknown,
            forcing: 0,
            lost: lost.unwrap_or(0),
        }
    }

    /// Which node it is.
    pub fn node(&self) -> u8
        ensures { result ≡ self.now.number }
    {
        self.node
    }

    // Whether this is the newest durable epoch, and what became of it isn't known.
    fn awaits(&self, epoch: u64) -> bool
        ensures { result ≡ awaits epoch self.now }
    {
        epoch == self.durable && self.decision == Decision::Unknown
    }

    fn on_prepare(&mut self, alloc: Global, epoch: u64) -> Result<Vec<Action>, NoMemory>
        ensures ok { IfOk result (λ actions. (actions.items, self.new) ≡ on_prepare epoch self.old) }
        ensures err { OnErr result (self.new ≡ self.old) }
    {
        if epoch == self.lost {
            return one(alloc, vote(epoch, false));
        }
        if epoch > self.durable && epoch > self.forcing && epoch > self.lost {
            let actions = one(alloc, Action::Force { epoch })?;
            self.forcing = epoch;
            return Ok(actions);
        }
        if self.awaits(epoch) {
            return one(alloc, vote(epoch, true));
        }
        Ok(Vec::new(alloc))
    }

    fn on_committed(&mut self, alloc: Global, epoch: u64) -> Result<Vec<Action>, NoMemory>
        ensures ok { IfOk result (λ actions. (actions.items, self.new) ≡ on_committed epoch self.old) }
        ensures err { OnErr result (self.new ≡ self.old) }
    {
        if self.awaits(epoch) {
            let actions = two(alloc, Action::Promote { epoch }, finished(epoch))?;
            self.decision = Decision::Committed;
            return Ok(actions);
        }
        let is_done = epoch == self.durable && self.decision == Decision::Committed;
        if epoch < self.durable || is_done {
            return one(alloc, finished(epoch));
        }
        Ok(Vec::new(alloc))
    }

    fn on_aborted(&mut self, alloc: Global, epoch: u64) -> Result<Vec<Action>, NoMemory>
        ensures ok { IfOk result (λ actions. (actions.items, self.new) ≡ on_aborted epoch self.old) }
        ensures err { OnErr result (self.new ≡ self.old) }
    {
        if self.awaits(epoch) {
            let actions = one(alloc, Action::Revert { epoch })?;
            self.decision = Decision::Aborted;
            return Ok(actions);
        }
        Ok(Vec::new(alloc))
    }

    fn on_abort(&mut self, alloc: Global, epoch: u64) -> Result<Vec<Action>, NoMemory>
        ensures ok { IfOk result (λ actions. (actions.items, self.new) ≡ on_abort epoch self.old) }
        ensures err { OnErr result (self.new ≡ self.old) }
    {
        if !self.awaits(epoch) && epoch == self.forcing {
            self.forcing = 0;
            return Ok(Vec::new(alloc));
        }
        self.on_aborted(alloc, epoch)
    }

    fn on_message(&mut self, alloc: Global, message: &Message) -> Result<Vec<Action>, NoMemory>
        ensures ok { IfOk result (λ actions. (actions.items, self.new) ≡ on_message message.now self.old) }
        ensures err { OnErr result (self.new ≡ self.old) }
    {
        match message {
            Message::Prepare { epoch } => self.on_prepare(alloc, *epoch),
            Message::Commit { epoch } => self.on_committed(alloc, *epoch),
            Message::Abort { epoch } => self.on_abort(alloc, *epoch),
            Message::Tell { epoch, committed } => {
                if *committed {
                    self.on_committed(alloc, *epoch)
                } else {
                    self.on_aborted(alloc, *epoch)
                }
            }
            Message::Ship { .. }
            | Message::Total { .. }
            | Message::Missing { .. }
            | Message::All { .. }
            | Message::Vote { .. }
            | Message::Finished { .. }
            | Message::Query { .. } => Ok(Vec::new(alloc)),
        }
    }

    /// Takes a message from a place. Out of memory nothing has changed.
    pub fn handle(
        &mut self,
        alloc: Global,
        from: u8,
        message: &Message,
    ) -> Result<Vec<Action>, NoMemory>
        ensures ok { IfOk result (λ actions. (actions.items, self.new) ≡ handled from message.now self.old) }
        ensures err { OnErr result (self.new ≡ self.old) }
    {
        if from == COORDINATOR && message.epoch() > 0 {
            self.on_message(alloc, message)
        } else {
            Ok(Vec::new(alloc))
        }
    }

    /// The entry of the epoch that is forcing is durable. Out of memory nothing has changed.
    pub fn forced(&mut self, alloc: Global, epoch: u64) -> Result<Vec<Action>, NoMemory>
        requires some { 0 < epoch }
        requires forcing { self.old.forcing ≡ epoch }
        ensures ok { IfOk result (λ actions. (actions.items, self.new) ≡ forced epoch self.old) }
        ensures err { OnErr result (self.new ≡ self.old) }
    {
        let actions = one(alloc, vote(epoch, true))?;
        self.durable = epoch;
        self.decision = Decision::Unknown;
        self.forcing = 0;
        Ok(actions)
    }

    /// Asks what became of its newest durable epoch, where it doesn't know.
    pub fn ask(&self, alloc: Global) -> Result<Vec<Action>, NoMemory>
        ensures { IfOk result (λ actions. actions.items ≡ asks self.now) }
    {
        if self.durable > 0 && self.decision == Decision::Unknown {
            let message = Message::Query {
                epoch: self.durable,
            };
            return one(
                alloc,
                Action::Send {
                    to: COORDINATOR,
                    message,
                },
            );
        }
        Ok(Vec::new(alloc))
    }

    /// The greatest epoch of its durable entries, 0 where there is none.
    pub fn durable(&self) -> u64
        ensures { result ≡ self.now.durable }
    {
        self.durable
    }

    /// The epoch whose entry is being made durable, 0 where there is none.
    pub fn forcing(&self) -> u64
        ensures { result ≡ self.now.forcing }
    {
        self.forcing
    }
}
