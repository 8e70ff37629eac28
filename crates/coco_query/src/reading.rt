//! A call that reads tables behind their locks, one key after another.

ghost use Rattle.std.specs.Prelude.{◌≡◌, ◌<◌, [], ◌∷◌, List, length, IfOk, OnOk};
ghost use Rattle.coco_types.specs.declared.call.Reply.{Reply as Told};
ghost use Rattle.coco_types.specs.declared.call.Write.{Write as Written};
ghost use Rattle.coco_desks.specs.Gains.{AreOf, AreSame};
ghost use Rattle.coco_eval.specs.Standing.{Ready, Ended};
ghost use Rattle.coco_query.specs.Reading.{EndsOn, Reads, given_by};

use crate::frozen::{Frozen, FrozenAnswer, FrozenAsk};
use coco_ast::Checked;
use coco_eval::Run;
use coco_journaled::{Journaled, Pass};
use coco_types::{Key, NoMemory, Packed, Sequence, Value};
use std::alloc::Global;
use std::marker::Model;
use std::sync::Wait;

/// A key that was asked for with the value that it had, kept so that one without a text takes little room. Contracts
/// see the two.
#[derive(Debug, Drop)]
pub struct Got {
    key: Key,
    value: Packed,
}

/// What a call asked for and got, in order.
pub type Had = Sequence<Got>;

impl Model for Got {
    ghost use Rattle.coco_eval.specs.declared.machine.Given.{Given};

    ghost Value = { Given };

    ghost view = { λ g. record { key = g.key; value = g.value } };
}

impl Got {
    fn of(alloc: Global, key: Key, value: &Option<Value>) -> Result<Got, NoMemory>
        ensures { IfOk result (λ got. got ≡ record { key = key; value = value.now }) }
    {
        let value = Packed::of(alloc, value)?;
        Ok(Got { key, value })
    }

    pub fn key(&self) -> Key
        ensures { result ≡ self.now.key }
    {
        self.key
    }

    pub fn value(&self) -> Option<Value>
        ensures { result ≡ self.now.value }
    {
        self.value.get()
    }
}

/// Lets a run come to its end: each key that it asks for is read in its table, under the table's lock. Out of memory,
/// the passes are as such the same.
pub fn read_all(
    rt: &impl Wait,
    alloc: Global,
    tables: &[Journaled<Frozen>],
    passes: &mut [Pass<Frozen>],
    procs: &Checked,
    running: &mut Run,
) -> Result<Had, NoMemory>
    requires procs { procs.now ≡ running.old.procs }
    requires ready { running.old.standing ≡ Ready }
    requires fresh { running.old.given ≡ [] }
    requires some { 0 < length tables.now }
    requires locks { AreOf tables.now passes.old }
    ensures same { AreSame passes.old passes.new }
    ensures reads { IfOk result (λ had. Reads (length tables.now) passes.old passes.new had) }
    ensures ended { IfOk result (λ had. (reply : Told) × (writes : List Written) × (running.new.standing ≡ Ended reply writes) × EndsOn running.old.procs running.old.call had reply) }
{
    let mut had = Had::new(alloc);
    // One place for all answers, which are large.
    let mut answer = FrozenAnswer::Had(None);
    loop {
        match running.next_key(procs) {
            Some(key) => {
                get(rt, tables, passes, key, &mut answer)?;
                let value = answer.value();
                had.push(Got::of(alloc, key, value)?)?;
                running.give_lent(value.as_ref());
            }
            None => return Ok(had),
        }
    }
}

// Reads a key in its table.
fn get(
    rt: &impl Wait,
    tables: &[Journaled<Frozen>],
    passes: &mut [Pass<Frozen>],
    key: Key,
    answer: &mut FrozenAnswer,
) -> Result<(), NoMemory>
    requires some { 0 < length tables.now }
    requires locks { AreOf tables.now passes.old }
    ensures same { AreSame passes.old passes.new }
    ensures reads { OnOk result (Reads (length tables.now) passes.old passes.new (given_by key answer.new ∷ [])) }
{
    let place = key.partition(tables.len());
    tables[place].step_lent(rt, &mut passes[place], &FrozenAsk::Get(key), answer)
}
