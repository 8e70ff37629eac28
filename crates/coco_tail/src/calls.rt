//! How one call is run on the shards.

ghost use Rattle.std.specs.Prelude.{◌≡◌, ◌<◌, [], Some, length, OnOk};
ghost use Rattle.coco_ast.specs.Fitting.{Fits};
ghost use Rattle.coco_ast.specs.Keyed.{Rows, put_over};
ghost use Rattle.coco_ast.specs.Meaning.{run};
ghost use Rattle.coco_eval.specs.Standing.{Ready};
ghost use Rattle.coco_tail.specs.Running.{HasEnded, IsOver, IsThere, CameTo};
ghost use Rattle.coco_tail.specs.Shards.{AreOfPartitions, AreQuietAfter, HaveNewest, KeepStable};

use crate::shards::{put_key, read_key};
use coco_ast::Checked;
use coco_eval::Run;
use coco_shard::Shard;
use coco_types::{Call, NoMemory, Write};
use std::alloc::Global;

/// Runs a call on the newest values, at a time that no row's read time is above: its reads and its writes then stand
/// in the shards. Out of memory, some of them, and no stable value has changed.
pub fn run_newest(
    alloc: Global,
    running: &mut Option<Run>,
    procs: &Checked,
    call: &Call,
    shards: &mut [Shard],
    time: u64,
) -> Result<(), NoMemory>
    requires fits { Fits procs.now call.now }
    requires over { IsOver running.old }
    requires some { 0 < length shards.old }
    requires partitions { AreOfPartitions shards.old }
    requires quiet { AreQuietAfter time shards.old }
    ensures there { OnOk result (IsThere running.new) }
    ensures run { OnOk result ((m : Rows) → HaveNewest m shards.old → CameTo (run procs.now call.now m) running.new) }
    ensures newest { OnOk result ((m : Rows) → HaveNewest m shards.old → HaveNewest (put_over m (run procs.now call.now m).writes) shards.new) }
    ensures quiet { OnOk result (AreQuietAfter time shards.new) }
    ensures kept { KeepStable shards.old shards.new }
{
    make_ready(alloc, running, procs, call)?;
    let Some(running) = running else {
        unreachable!()
    };
    read_all(running, procs, shards, time)?;
    put_all(shards, running.writes().as_slice(), time)
}

// A fresh run of a call, in the place of the last one.
fn make_ready(
    alloc: Global,
    running: &mut Option<Run>,
    procs: &Checked,
    call: &Call,
) -> Result<(), NoMemory>
    requires fits { Fits procs.now call.now }
    requires over { IsOver running.old }
    ensures { OnOk result (running.new ≡ Some (record { procs = procs.now; call = call.now; given = []; standing = Ready })) }
{
    match running {
        Some(last) => last.restart(procs, call)?,
        None => *running = Some(Run::start(alloc, procs, call)?),
    }
    Ok(())
}

// Runs to the end with the newest values, which are read at the time.
fn read_all(
    running: &mut Run,
    procs: &Checked,
    shards: &mut [Shard],
    time: u64,
) -> Result<(), NoMemory>
    requires procs { procs.now ≡ running.old.procs }
    requires ready { running.old.standing ≡ Ready }
    requires fresh { running.old.given ≡ [] }
    requires some { 0 < length shards.old }
    requires partitions { AreOfPartitions shards.old }
    requires quiet { AreQuietAfter time shards.old }
    ensures ended { OnOk result (HasEnded running.new) }
    ensures run { OnOk result ((m : Rows) → HaveNewest m shards.old → CameTo (run running.old.procs running.old.call m) (Some running.new)) }
    ensures newest { OnOk result ((m : Rows) → HaveNewest m shards.old → HaveNewest m shards.new) }
    ensures quiet { OnOk result (AreQuietAfter time shards.new) }
    ensures kept { KeepStable shards.old shards.new }
{
    loop {
        match running.next_key(procs) {
            Some(key) => {
                let value = read_key(shards, key, time)?;
                running.give_lent(value.as_ref());
            }
            None => return Ok(()),
        }
    }
}

// Makes writes at a time, one after another.
fn put_all(shards: &mut [Shard], writes: &[Write], time: u64) -> Result<(), NoMemory>
    requires some { 0 < length shards.old }
    requires partitions { AreOfPartitions shards.old }
    requires quiet { AreQuietAfter time shards.old }
    ensures newest { OnOk result ((m : Rows) → HaveNewest m shards.old → HaveNewest (put_over m writes.now) shards.new) }
    ensures quiet { OnOk result (AreQuietAfter time shards.new) }
    ensures kept { KeepStable shards.old shards.new }
{
    for write in writes {
        put_key(shards, write, time)?;
    }
    Ok(())
}
