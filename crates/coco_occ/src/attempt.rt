//! An attempt at a call: it asks shards, takes their answers, and ends by a commit or a conflict.
ghost use Rattle.std.specs.Prelude.{◌≡◌, ◌≤◌, ℕ, true, false, [], IfOk, OnOk, OnErr, List};
ghost use Rattle.coco_ast.specs.Fitting.{Fits};
ghost use Rattle.coco_shard.specs.declared.ops.Ask.{Ask as Asked};
ghost use Rattle.coco_types.specs.declared.call.Write.{Write as Written};
ghost use Rattle.coco_occ.specs.Exchange.{MayAnswer};
ghost use Rattle.coco_types.specs.RowKey.{partition_of};
ghost use Rattle.coco_occ.specs.declared.outcome.Outcome.{Outcome as End};
ghost use Rattle.coco_occ.specs.Trying.{Ready, Waits, Ended, IsSound, IsMoveOf, answered, has_ended};

use crate::course::Course;
use crate::outcome::{Move, Outcome};
use crate::progress::{accept, proceed};
use crate::script::Script;
use coco_ast::Checked;
use coco_eval::Run;
use coco_shard::{Answer, Ask, Op};
use coco_types::limits::MOST_KEYS;
use coco_types::{AttemptId, Key, NoMemory, Request, Writes};
use std::alloc::Global;
use std::marker::Model;

/// An attempt at a call. Contracts see its procedures and its call, whose it is, the number of partitions,
/// what it has asked so far, and where it stands.
#[derive(Drop)]
pub struct Attempt {
    run: Run,
    script: Script,
    partitions: u8,
    snapshot: bool,
    course: Course,
    asked: Ask,
    waits: bool,
}

impl Model for Attempt {
    ghost use Rattle.coco_occ.specs.Trying.{Trying};
    ghost use Rattle.coco_occ.specs.TryingCode.{trying_code};

    ghost Value = { Trying };

    ghost coded = { trying_code };

    ghost use Rattle.coco_occ.specs.Keeping.{IsAttempt, reply_in, standing_of};

    ghost view = { λ a. record {
      procs = a.run.procs;
      call = a.run.call;
      by = a.asked.by;
      partitions = a.partitions;
      script = a.script;
      standing = standing_of a.waits a.asked.by a.partitions a.asked.op a.course (reply_in a.run.standing) a.run.standing;
    } };

    ghost invariant = { λ a. IsAttempt a.run a.script a.asked.by a.partitions a.snapshot a.course (reply_in a.run.standing) a.asked.op a.waits };
}

impl Attempt {
    /// An attempt at its start. It has the room for what it keeps but for texts in its script.
    pub fn start(
        alloc: Global,
        procs: &Checked,
        request: &Request,
        by: AttemptId,
        partitions: u8,
    ) -> Result<Attempt, NoMemory>
        requires fits { Fits procs.now request.now.call }
        requires partitions { 1 ≤ partitions }
        ensures { IfOk result (λ a. a ≡ record { procs = procs.now; call = request.now.call; by = by; partitions = partitions; script = []; standing = Ready }) }
    {
        let run = Run::start(alloc, procs, &request.call)?;
        let script = Script::with_room(alloc, 2 * MOST_KEYS as usize)?;
        let course = Course::new(alloc)?;
        Ok(Attempt {
            run,
            script,
            partitions,
            snapshot: request.call.snapshot,
            course,
            asked: Ask { by, op: NOTHING },
            waits: false,
        })
    }

    /// Another attempt at a call in the place of one that has ended, with its room. Out of memory, nothing has changed.
    pub fn restart(
        &mut self,
        procs: &Checked,
        request: &Request,
        by: AttemptId,
        partitions: u8,
    ) -> Result<(), NoMemory>
        requires fits { Fits procs.now request.now.call }
        requires partitions { 1 ≤ partitions }
        requires ended { has_ended self.old.standing ≡ true }
        ensures ok { OnOk result (self.new ≡ record { procs = procs.now; call = request.now.call; by = by; partitions = partitions; script = []; standing = Ready }) }
        ensures err { OnErr result (self.new ≡ self.old) }
    {
        self.course.clear()?;
        self.run.restart(procs, &request.call)?;
        self.course.restart();
        self.script.clear();
        self.asked.by = by;
        self.partitions = partitions;
        self.snapshot = request.call.snapshot;
        self.waits = false;
        Ok(())
    }

    /// What it does next. It takes no memory.
    pub fn next(&mut self, procs: &Checked) -> Move
        requires procs { procs.now ≡ self.old.procs }
        requires ready { self.old.standing ≡ Ready }
        ensures told { IsMoveOf self.new.standing result }
        ensures others { self.new ≡ record self.old { standing = self.new.standing } }
        ensures sound { IsSound self.new }
    {
        if self.go_on(procs) {
            Move::Ask {
                shard: self.shard(),
                ask: *self.ask(),
            }
        } else {
            self.last_move()
        }
    }

    /// Goes on to what it does next, and says whether that is an ask: `shard` and `ask` lend it. Else it has ended,
    /// as `last_move` tells. It takes no memory.
    pub fn go_on(&mut self, procs: &Checked) -> bool
        requires procs { procs.now ≡ self.old.procs }
        requires ready { self.old.standing ≡ Ready }
        ensures asks { result ≡ true → (shard : ℕ) × (ask : Asked) × (self.new.standing ≡ Waits shard ask) }
        ensures ended { result ≡ false → has_ended self.new.standing ≡ true }
        ensures others { self.new ≡ record self.old { standing = self.new.standing } }
        ensures sound { IsSound self.new }
    {
        let asks = proceed(
            &mut self.run,
            &mut self.course,
            self.snapshot,
            procs,
            &mut self.asked.op,
        );
        self.waits = asks;
        asks
    }

    /// The shard that it asks.
    pub fn shard(&self) -> u8
        requires { (shard : ℕ) × (ask : Asked) × (self.now.standing ≡ Waits shard ask) }
        ensures { (ask : Asked) × (self.now.standing ≡ Waits result ask) }
    {
        shard_of(self.asked.op.key(), self.partitions)
    }

    /// What it asks.
    pub fn ask(&self) -> &Ask
        requires { (shard : ℕ) × (ask : Asked) × (self.now.standing ≡ Waits shard ask) }
        ensures { (shard : ℕ) × (self.now.standing ≡ Waits shard result.now) }
    {
        &self.asked
    }

    /// How it has ended.
    pub fn last_move(&self) -> Move
        requires { has_ended self.now.standing ≡ true }
        ensures { IsMoveOf self.now.standing result }
    {
        self.course.last_move(self.run.reply())
    }

    /// How it has ended, as an outcome.
    pub fn outcome(&self) -> Outcome
        requires { has_ended self.now.standing ≡ true }
        ensures { (writes : List Written) × (self.now.standing ≡ Ended result writes) }
    {
        self.course.outcome(self.run.reply())
    }

    /// Takes the answer to what it asked last. Out of memory, nothing has changed.
    pub fn take(&mut self, answer: Answer) -> Result<(), NoMemory>
        requires { (shard : ℕ) × (ask : Asked) × (self.old.standing ≡ Waits shard ask) × MayAnswer ask answer }
        ensures ok { OnOk result ((shard : ℕ) (ask : Asked) → self.old.standing ≡ Waits shard ask →
            self.new ≡ record self.old { script = answered self.old shard ask answer; standing = Ready }) }
        ensures sound { OnOk result (IsSound self.new) }
        ensures err { OnErr result (self.new ≡ self.old) }
    {
        self.take_lent(&answer)
    }

    /// The same, where the answer stays where it is.
    pub fn take_lent(&mut self, answer: &Answer) -> Result<(), NoMemory>
        requires { (shard : ℕ) × (ask : Asked) × (self.old.standing ≡ Waits shard ask) × MayAnswer ask answer.now }
        ensures ok { OnOk result ((shard : ℕ) (ask : Asked) → self.old.standing ≡ Waits shard ask →
            self.new ≡ record self.old { script = answered self.old shard ask answer.now; standing = Ready }) }
        ensures sound { OnOk result (IsSound self.new) }
        ensures err { OnErr result (self.new ≡ self.old) }
    {
        let Ask { by, op } = &self.asked;
        let shard = shard_of(op.key(), self.partitions);
        self.script.push(*by, shard, op, answer)?;
        self.waits = false;
        accept(&mut self.run, &mut self.course, op, answer);
        Ok(())
    }

    /// Whether it has ended.
    pub fn has_ended(&self) -> bool
        ensures { result ≡ has_ended self.now.standing }
    {
        !self.waits && self.course.has_ended()
    }

    /// The writes of an attempt that has ended, rising by key, none after a refusal.
    pub fn writes(&self) -> &Writes
        requires { (outcome : End) × (writes : List Written) × (self.now.standing ≡ Ended outcome writes) }
        ensures { (outcome : End) × (self.now.standing ≡ Ended outcome result.now) }
    {
        self.run.writes()
    }

    /// What it has asked so far.
    pub fn script(&self) -> &Script
        ensures { result.now ≡ self.now.script }
    {
        &self.script
    }
}

// The shard of a key.
fn shard_of(key: Key, partitions: u8) -> u8
    requires { 1 ≤ partitions }
    ensures { result ≡ partition_of partitions key }
{
    key.partition(usize::from(partitions)) as u8
}

// What is asked before the first ask.
const NOTHING: Op = Op::Read(Key { table: 0, row: 0 });
