//! A run of a call, which stops at each key whose value it needs.
ghost use Rattle.std.specs.Prelude.{◌≡◌, ◌+◌, ◌<◌, ◌≤◌, [], ◌∷◌, ◌++◌, length, vec_len, vec_capacity, IfOk, OnOk, OnErr, List};
ghost use Rattle.std.specs.Option.{option_copied};
ghost use Rattle.coco_ast.specs.Fitting.{Fits};
ghost use Rattle.coco_types.specs.declared.call.Reply.{Reply as Answer};
ghost use Rattle.coco_types.specs.RowKey.{RowKey};
ghost use Rattle.coco_types.specs.declared.call.Write.{Write as Written};
ghost use Rattle.coco_eval.specs.Needs.{IsNeedOf, IsNextOf, HasFewKeys};
ghost use Rattle.coco_eval.specs.Standing.{Ready, Asks, Ended, IsSound};

use crate::advance::{advance, settle};
use crate::machine::{Frame, Given, Machine};
use crate::noted::Noted;
use crate::room::prepare;
use coco_ast::Checked;
use coco_types::{Call, Key, NoMemory, Reply, Value, Writes};
use std::alloc::Global;
use std::marker::Model;

/// What a run needs next: the value of a key, or nothing more.
#[derive(Clone, Copy, Debug, PartialEq, Eq)]
pub enum Need {
    Read(Key),
    Ended(Reply),
}

// Whether a run goes on, waits for a value or has ended.
#[derive(Clone, Copy, Debug)]
enum Stage {
    Ready,
    Asking,
    Ended,
}

/// The run of a call. Contracts see its procedures and its call, the keys that it has asked for with
/// the values that it was given, and where it stands.
#[derive(Drop)]
pub struct Run {
    procs: Noted<Checked>,
    call: Noted<Call>,
    number: u16,
    machine: Machine,
    spare: Vec<Frame>,
    writes: Writes,
    stage: Stage,
}

impl Model for Run {
    ghost use Rattle.coco_eval.specs.Standing.{Evaluation};
    ghost use Rattle.coco_eval.specs.EvaluationCode.{evaluation_code};
    ghost use Rattle.coco_eval.specs.Keeping.{IsRunOf, standing_of};

    ghost Value = { Evaluation };

    ghost coded = { evaluation_code };

    ghost view = { λ r. record { procs = r.procs.value; call = r.call.value; given = r.machine.given.items; standing = standing_of r.stage r.machine r.writes } };

    ghost invariant = { λ r. IsRunOf r.procs.value r.call.value r.number r.machine r.spare r.writes r.stage };
}

impl Run {
    /// The run of a call, at its start. It has the room for 64 keys and for all variables.
    pub fn start(alloc: Global, procs: &Checked, call: &Call) -> Result<Run, NoMemory>
        requires { Fits procs.now call.now }
        ensures { IfOk result (λ run. run ≡ record { procs = procs.now; call = call.now; given = []; standing = Ready }) }
    {
        let mut machine = Machine::new(alloc);
        let mut spare = Vec::new(alloc);
        let Some(plan) = procs.plan(call.proc_no) else {
            unreachable!()
        };
        prepare(&mut machine, &mut spare, plan, &call.args)?;
        Ok(Run {
            procs: Noted::of(procs),
            call: Noted::of(call),
            number: call.proc_no,
            machine,
            spare,
            writes: Writes::new(alloc),
            stage: Stage::Ready,
        })
    }

    /// Starts the run of another call, with the room of this one, which has ended. Out of memory, it
    /// is as before.
    pub fn restart(&mut self, procs: &Checked, call: &Call) -> Result<(), NoMemory>
        requires fits { Fits procs.now call.now }
        requires ended { (reply : Answer) × (writes : List Written) × (self.old.standing ≡ Ended reply writes) }
        ensures ok { OnOk result (self.new ≡ record { procs = procs.now; call = call.now; given = []; standing = Ready }) }
        ensures err { OnErr result (self.new ≡ self.old) }
    {
        let Some(plan) = procs.plan(call.proc_no) else {
            unreachable!()
        };
        prepare(&mut self.machine, &mut self.spare, plan, &call.args)?;
        self.procs = Noted::of(procs);
        self.call = Noted::of(call);
        self.number = call.proc_no;
        self.stage = Stage::Ready;
        Ok(())
    }

    /// Goes on to the next key whose value is needed, or to the end. It takes no memory.
    pub fn step(&mut self, procs: &Checked) -> Need
        requires procs { procs.now ≡ self.old.procs }
        requires ready { self.old.standing ≡ Ready }
        ensures need { IsNeedOf self.new.standing result }
        ensures others { self.new ≡ record self.old { standing = self.new.standing } }
        ensures sound { IsSound self.new }
        ensures few { HasFewKeys self.new self.new.standing }
    {
        match self.next_key(procs) {
            Some(key) => Need::Read(key),
            None => Need::Ended(*self.reply()),
        }
    }

    /// The same, where the end has no reply with it: `reply` lends that.
    pub fn next_key(&mut self, procs: &Checked) -> Option<Key>
        requires procs { procs.now ≡ self.old.procs }
        requires ready { self.old.standing ≡ Ready }
        ensures key { IsNextOf self.new.standing result }
        ensures others { self.new ≡ record self.old { standing = self.new.standing } }
        ensures sound { IsSound self.new }
        ensures few { HasFewKeys self.new self.new.standing }
    {
        if advance(procs, self.number, &mut self.machine, &mut self.spare) {
            self.stage = Stage::Asking;
            return Some(self.machine.asked);
        }
        settle(&mut self.machine, &mut self.writes);
        self.stage = Stage::Ended;
        None
    }

    /// Takes the value of the key that was asked for. It takes no memory.
    pub fn give(&mut self, value: Option<Value>)
        requires { (k : RowKey) × (self.old.standing ≡ Asks k) }
        ensures { (k : RowKey) → self.old.standing ≡ Asks k →
            self.new ≡ record self.old { given = self.old.given ++ record { key = k; value = value } ∷ []; standing = Ready } }
    {
        self.give_lent(value.as_ref());
    }

    /// The same, where the value stays where it is.
    pub fn give_lent(&mut self, value: Option<&Value>)
        requires { (k : RowKey) × (self.old.standing ≡ Asks k) }
        ensures { (k : RowKey) → self.old.standing ≡ Asks k →
            self.new ≡ record self.old { given = self.old.given ++ record { key = k; value = option_copied value.entry } ∷ []; standing = Ready } }
    {
        add_given(&mut self.machine.given, self.machine.asked, value);
        self.stage = Stage::Ready;
    }

    /// The reply of a run that has ended.
    pub fn reply(&self) -> &Reply
        requires { (reply : Answer) × (writes : List Written) × (self.now.standing ≡ Ended reply writes) }
        ensures { (writes : List Written) × (self.now.standing ≡ Ended result.now writes) }
    {
        &self.machine.reply
    }

    /// The writes of a run that has ended, rising by key, none after a refusal.
    pub fn writes(&self) -> &Writes
        requires { (reply : Answer) × (writes : List Written) × (self.now.standing ≡ Ended reply writes) }
        ensures { (reply : Answer) × (self.now.standing ≡ Ended reply result.now) }
    {
        &self.writes
    }
}

// A number is written by itself, and no text's room is copied.
fn add_given(values: &mut Vec<Given>, key: Key, value: Option<&Value>)
    requires { vec_len values.old < vec_capacity values.old }
    ensures items { values.new.items ≡ values.old.items ++ record { key = key; value = option_copied value.entry } ∷ [] }
    ensures room { vec_capacity values.new ≡ vec_capacity values.old }
{
    match value {
        Some(Value::Int(number)) => values.push_reserved(Given {
            key,
            value: Some(Value::Int(*number)),
        }),
        _ => values.push_reserved(Given {
            key,
            value: value.copied(),
        }),
    }
}
