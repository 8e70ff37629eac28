//! What an attempt asked and what was answered.
ghost use Rattle.std.specs.Prelude.{◌≡◌, ◌==◌, [], ◌∷◌, ◌++◌, length, slice_get, OnOk, OnErr, IfOk};
ghost use Rattle.coco_occ.specs.Steps.{AreBy};

use coco_shard::{Answer, Ask, Op, PackedAnswer, PackedOp};
use coco_types::{AttemptId, NoMemory};
use std::alloc::Global;
use std::marker::Model;

/// An ask with the shard that it was sent to and its answer.
#[derive(Clone, Copy, Debug, PartialEq, Eq)]
pub struct Step {
    pub shard: u8,
    pub ask: Ask,
    pub answer: Answer,
}

/// A step of one attempt, its values packed.
#[derive(Debug, Drop)]
pub struct PackedStep {
    pub shard: u8,
    pub op: PackedOp,
    pub answer: PackedAnswer,
}

impl PackedStep {
    ghost use Rattle.std.specs.Prelude.{IfOk};
    ghost use Rattle.coco_occ.specs.Unpacked.{IsCopyOf};

    // The same once more.
    fn try_clone(&self) -> Result<PackedStep, NoMemory>
        ensures { IfOk result (λ copy. IsCopyOf self.now copy) }
    {
        Ok(PackedStep {
            shard: self.shard,
            op: self.op.try_clone()?,
            answer: self.answer.try_clone()?,
        })
    }
}

// Whose a script without steps is.
const NOBODY: AttemptId = AttemptId {
    worker: 0,
    number: 0,
};

/// What one attempt asked, step by step. Contracts see the list of its steps.
#[derive(Debug, Drop)]
pub struct Script {
    by: AttemptId,
    items: Vec<PackedStep>,
}

impl Model for Script {
    ghost use Rattle.std.specs.Prelude.{List};
    ghost use Rattle.coco_occ.specs.declared.script.Step.{Step as Taken};

    ghost Value = { List Taken };

    ghost use Rattle.coco_occ.specs.Unpacked.{steps_of};

    ghost view = { λ s. steps_of s.by s.items.items };
}

impl Script {
    /// A script without steps. It takes no memory.
    pub fn new(alloc: Global) -> Script
        ensures { result ≡ [] }
    {
        Script {
            by: NOBODY,
            items: Vec::new(alloc),
        }
    }

    /// A script without steps, with room for so many.
    pub fn with_room(alloc: Global, count: usize) -> Result<Script, NoMemory>
        ensures { IfOk result (λ script. script ≡ []) }
    {
        let items = Vec::with_capacity(alloc, count)?;
        Ok(Script { by: NOBODY, items })
    }

    /// Takes all steps out. The room stays.
    pub fn clear(&mut self)
        ensures { self.new ≡ [] }
    {
        self.items.clear();
    }

    /// Adds a step of the attempt, whose steps the others are too.
    pub fn push(
        &mut self,
        by: AttemptId,
        shard: u8,
        op: &Op,
        answer: &Answer,
    ) -> Result<(), NoMemory>
        requires { AreBy by self.old }
        ensures ok { OnOk result (self.new ≡ self.old ++ record { shard = shard; ask = record { by = by; op = op.now }; answer = answer.now } ∷ []) }
        ensures err { OnErr result (self.new ≡ self.old) }
    {
        let alloc = *self.items.allocator();
        let step = PackedStep {
            shard,
            op: PackedOp::of(alloc, op)?,
            answer: PackedAnswer::on_heap(alloc, answer)?,
        };
        self.items.reserve(1)?;
        self.by = by;
        self.items.push_reserved(step);
        Ok(())
    }

    /// The same once more, in the room of a script that has served.
    pub fn copied_to(&self, room: Script) -> Result<Script, NoMemory>
        ensures { IfOk result (λ copy. copy ≡ self.now) }
    {
        let Script { mut items, .. } = room;
        items.clear();
        items.reserve(self.items.len())?;
        for step in &self.items {
            items.push_reserved(step.try_clone()?);
        }
        Ok(Script { by: self.by, items })
    }

    /// How many steps it has.
    pub fn len(&self) -> usize
        ensures { result ≡ length self.now }
    {
        self.items.len()
    }

    pub fn is_empty(&self) -> bool
        ensures { result ≡ (length self.now == 0) }
    {
        self.items.is_empty()
    }

    /// The step at a place counted from 0, or None where there are fewer.
    pub fn get(&self, place: usize) -> Option<Step>
        ensures { result ≡ slice_get self.now place }
    {
        let step = self.items.get(place)?;
        Some(Step {
            shard: step.shard,
            ask: Ask {
                by: self.by,
                op: step.op.get(),
            },
            answer: step.answer.get(),
        })
    }
}
