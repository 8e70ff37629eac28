//! A map of rows, and the calls that are run on it.
ghost use Rattle.std.specs.Prelude.{◌≡◌, ◌≤◌, [], Ok, Some, IfOk, OnOk, OnErr};
ghost use Rattle.std.specs.FinMap.{empty};
ghost use Rattle.std.specs.HashMap.{spare};
ghost use Rattle.coco_ast.specs.Fitting.{Fits};
ghost use Rattle.coco_ast.specs.Keyed.{write_at, value_at};
ghost use Rattle.coco_ast.specs.Meaning.{run};
ghost use Rattle.coco_eval.specs.Standing.{Evaluation, Ended};
ghost use Rattle.coco_serial.specs.Applied.{HasEnded, rows_of};

use crate::call_on_map::{Rows, finish, value_in};
use coco_ast::Checked;
use coco_eval::Run;
use coco_types::limits::MOST_KEYS;
use coco_types::{Call, Key, NoMemory, Reply, Value, Writes};
use std::alloc::Global;
use std::collections::HashMap;
use std::marker::Model;

/// A map of rows and the calls that are run on it. Contracts see the map, and the writes of the last
/// call that was run.
#[derive(Drop)]
pub struct Executor {
    alloc: Global,
    rows: Rows,
    last: Option<Run>,
    none: Writes,
}

impl Model for Executor {
    ghost use Rattle.std.specs.Prelude.{◌≡◌, []};
    ghost use Rattle.coco_serial.specs.Applied.{Applied, HasEnded, rows_of, last_writes};
    ghost use Rattle.coco_serial.specs.AppliedCode.{applied_code};

    ghost Value = { Applied };

    ghost coded = { applied_code };

    ghost view = { λ e. record { rows = rows_of e.rows; writes = last_writes e.last } };

    ghost invariant = { λ e. HasEnded e.last × (e.none ≡ []) };
}

impl Executor {
    /// An executor on the empty map.
    pub fn new(alloc: Global) -> Executor
        ensures { result ≡ record { rows = empty; writes = [] } }
    {
        Executor {
            alloc,
            rows: HashMap::new(alloc),
            last: None,
            none: Writes::new(alloc),
        }
    }

    /// Runs a call, and answers its reply. Out of memory, the map and the writes are as before.
    pub fn apply(&mut self, procs: &Checked, call: &Call) -> Result<Reply, NoMemory>
        requires { Fits procs.now call.now }
        ensures reply { IfOk result (λ reply. reply ≡ (run procs.now call.now self.old.rows).reply) }
        ensures rows { OnOk result (self.new.rows ≡ (run procs.now call.now self.old.rows).rows) }
        ensures writes { OnOk result (self.new.writes ≡ (run procs.now call.now self.old.rows).writes) }
        ensures err { OnErr result (self.new ≡ self.old) }
    {
        self.rows.reserve(MOST_KEYS as usize)?;
        match &mut self.last {
            Some(last) => {
                last.restart(procs, call)?;
                finish(last, procs, &mut self.rows);
                answered(last.reply())
            }
            None => first_reply(self.alloc, procs, call, &mut self.last, &mut self.rows),
        }
    }

    /// Adds a pair to the map. Out of memory, the map is as before.
    pub fn load(&mut self, key: Key, value: Value) -> Result<(), NoMemory>
        ensures ok { OnOk result (self.new ≡ record self.old { rows = write_at self.old.rows key (Some value) }) }
        ensures err { OnErr result (self.new ≡ self.old) }
    {
        self.rows.insert(key, value)?;
        Ok(())
    }

    /// What the map has at a key.
    pub fn get(&self, key: Key) -> Option<Value>
        ensures { result ≡ value_at self.now.rows key }
    {
        value_in(&self.rows, key).copied()
    }

    /// The writes of the last call that was run, rising by key, and none before the first.
    pub fn writes(&self) -> &Writes
        ensures { result.now ≡ self.now.writes }
    {
        match &self.last {
            None => &self.none,
            Some(last) => last.writes(),
        }
    }
}

// The first call makes the run whose place later ones take. It stands apart, so that they have no room for a
// run of their own to clear.
#[inline(never)]
fn first_reply(
    alloc: Global,
    procs: &Checked,
    call: &Call,
    last: &mut Option<Run>,
    rows: &mut Rows,
) -> Result<Reply, NoMemory>
    requires fits { Fits procs.now call.now }
    requires room { MOST_KEYS ≤ spare rows.old }
    ensures reply { IfOk result (λ reply. reply ≡ (run procs.now call.now (rows_of rows.old)).reply) }
    ensures rows { OnOk result (rows_of rows.new ≡ (run procs.now call.now (rows_of rows.old)).rows) }
    ensures last { OnOk result ((e : Evaluation) × (last.new ≡ Some e)
        × (e.standing ≡ Ended (run procs.now call.now (rows_of rows.old)).reply (run procs.now call.now (rows_of rows.old)).writes)) }
    ensures ended { HasEnded last.old → HasEnded last.new }
    ensures err { OnErr result ((last.new ≡ last.old) × (rows.new ≡ rows.old)) }
{
    let mut running = Run::start(alloc, procs, call)?;
    finish(&mut running, procs, rows);
    let reply = *running.reply();
    *last = Some(running);
    Ok(reply)
}

// What a call answers that has this reply. Of a whole number no text's room is copied.
fn answered(reply: &Reply) -> Result<Reply, NoMemory>
    ensures { result ≡ Ok reply.now }
{
    if let Reply::Ok(Some(Value::Int(number))) = reply {
        return Ok(Reply::Ok(Some(Value::Int(*number))));
    }
    answered_whole(reply)
}

// It stands apart, so that a number has no room for a copy to clear.
#[inline(never)]
fn answered_whole(reply: &Reply) -> Result<Reply, NoMemory>
    ensures { result ≡ Ok reply.now }
{
    Ok(*reply)
}
