//! The attempts at one request, one after another until one commits or no more are allowed.

ghost use Rattle.std.specs.Prelude.{◌≡◌, ◌<◌, ◌≤◌, true, [], ◌∷◌, ◌++◌, length, IfOk, OnOk};
ghost use Rattle.coco_ast.specs.Fitting.{Fits};
ghost use Rattle.coco_desks.specs.Gains.{AreOf, AreSame};
ghost use Rattle.coco_occ.specs.Trying.{has_ended};
ghost use Rattle.coco_worker.specs.Trying.{AddsScript, IsGated, IsOver, IsReady, MayTry, Runs, TriesOnce, TriesOut, TriesOnly, at_start, point, points_behind};

use crate::slot::Slot;
use crate::steps::run_attempt;
use coco_ast::Checked;
use coco_gate::{Gate, Passes};
use coco_journaled::Journaled;
use coco_occ::{Attempt, Ended, Ends, Outcome, PackedOutcome, ScriptRooms, Tried};
use coco_shard::Shard;
use coco_types::{AttemptId, NoMemory, Request};
use std::alloc::Global;
use std::sync::Wait;

/// Tries a request at a place until an attempt commits or no more are allowed, and adds their scripts to the slot's
/// transcript and the ends of those that didn't commit to the others. The worker passes point 1 of the gate with each
/// attempt, and point 2 behind a commit. The answer is the time of the commit, whose
/// attempt stays in the room, or none.
pub fn try_until<G: Gate>(
    rt: &impl Wait,
    alloc: Global,
    procs: &Checked,
    shards: &[Journaled<Shard>],
    request: &Request,
    place: u32,
    attempts: u8,
    gate: &G,
    room: &mut Option<Attempt>,
    slot: &mut Slot,
    ends: &mut Ends,
) -> Result<Option<u64>, NoMemory>
    requires may { MayTry procs.now request.now (length shards.now) }
    requires attempts { 0 < attempts }
    requires locks { AreOf shards.now slot.old.passes.items }
    requires over { IsOver room.old }
    requires empty { ends.old ≡ [] }
    ensures same { AreSame slot.old.passes.items slot.new.passes.items }
    ensures others { TriesOnly slot.old slot.new }
    ensures gated { OnOk result (IsGated (G.named gate.now) slot.old → IsGated (G.named gate.now) slot.new) }
    ensures tried { IfOk result (TriesOut procs.now request.now place (length shards.now) attempts slot.old slot.new ends.new room.new) }
{
    let mut left = attempts;
    'attempts: loop {
        left -= 1;
        let outcome = try_once(rt, alloc, procs, shards, request, place, gate, room, slot)?;
        match outcome {
            Outcome::Committed { time, .. } => return Ok(Some(time)),
            Outcome::Conflict(why) => ends.push(Ended::Conflict(why))?,
            Outcome::OverTime => {
                ends.push(Ended::OverTime)?;
                return Ok(None);
            }
        }
        if left == 0 {
            return Ok(None);
        }
    }
}

// Makes one attempt at a request, in the place of the last one, and adds its script to the slot's transcript.
fn try_once<G: Gate>(
    rt: &impl Wait,
    alloc: Global,
    procs: &Checked,
    shards: &[Journaled<Shard>],
    request: &Request,
    place: u32,
    gate: &G,
    room: &mut Option<Attempt>,
    slot: &mut Slot,
) -> Result<Outcome, NoMemory>
    requires may { MayTry procs.now request.now (length shards.now) }
    requires locks { AreOf shards.now slot.old.passes.items }
    requires over { IsOver room.old }
    ensures same { AreSame slot.old.passes.items slot.new.passes.items }
    ensures others { TriesOnly slot.old slot.new }
    ensures gated { OnOk result (IsGated (G.named gate.now) slot.old → IsGated (G.named gate.now) slot.new) }
    ensures tried { IfOk result (TriesOnce procs.now request.now place (length shards.now) slot.old slot.new room.new) }
{
    let by = AttemptId {
        worker: slot.worker,
        number: slot.transcript.len() as u64,
    };
    run_one(rt, alloc, procs, shards, request, by, gate, room, slot)?;
    let Some(attempt) = &*room else {
        unreachable!()
    };
    add_script(alloc, place, by, gate, attempt, slot)
}

// Lets an attempt run from its start to its end, in the place of the last one. The worker passes point 1 of the gate
// before the attempt asks anything.
fn run_one<G: Gate>(
    rt: &impl Wait,
    alloc: Global,
    procs: &Checked,
    shards: &[Journaled<Shard>],
    request: &Request,
    by: AttemptId,
    gate: &G,
    room: &mut Option<Attempt>,
    slot: &mut Slot,
) -> Result<(), NoMemory>
    requires may { MayTry procs.now request.now (length shards.now) }
    requires locks { AreOf shards.now slot.old.passes.items }
    requires over { IsOver room.old }
    ensures same { AreSame slot.old.passes.items slot.new.passes.items }
    ensures others { TriesOnly slot.old slot.new }
    ensures transcript { slot.new.transcript ≡ slot.old.transcript }
    ensures passed { OnOk result (slot.new.passed ≡ slot.old.passed ++ point (G.named gate.now) slot.old.worker 1 ∷ []) }
    ensures ran { OnOk result (Runs (at_start procs.now request.now.call by (length shards.now)) room.new slot.old.passes.items slot.new.passes.items) }
{
    make_ready(alloc, room, procs, request, by, shards.len() as u8)?;
    slot.passed.pass(gate, slot.worker, 1);
    let Some(attempt) = room else { unreachable!() };
    let passes = slot.passes.as_mut_slice();
    run_attempt(rt, procs, shards, passes, attempt)
}

// Adds the script of an attempt that has ended to the transcript. The worker passes point 2 of the gate behind a commit.
fn add_script<G: Gate>(
    alloc: Global,
    place: u32,
    by: AttemptId,
    gate: &G,
    attempt: &Attempt,
    slot: &mut Slot,
) -> Result<Outcome, NoMemory>
    requires { has_ended attempt.now.standing ≡ true }
    ensures others { TriesOnly slot.old slot.new }
    ensures passes { slot.new.passes ≡ slot.old.passes }
    ensures added { IfOk result (AddsScript (G.named gate.now) place by attempt.now slot.old slot.new) }
{
    let outcome = attempt.outcome();
    let entry = tried(alloc, place, by, attempt, &outcome, &mut slot.rooms)?;
    slot.transcript.push(entry)?;
    pass_behind(&mut slot.passed, gate, slot.worker, &outcome);
    Ok(outcome)
}

// Has the worker pass point 2 behind an attempt that has committed.
fn pass_behind<G: Gate>(passed: &mut Passes, gate: &G, worker: u32, outcome: &Outcome)
    ensures { passed.new ≡ passed.old ++ points_behind (G.named gate.now) worker outcome.now }
{
    if let Outcome::Committed { .. } = outcome {
        passed.pass(gate, worker, 2);
    }
}

// The script of an attempt that ended so, as the transcript has it, in a room that was left.
fn tried(
    alloc: Global,
    place: u32,
    by: AttemptId,
    attempt: &Attempt,
    outcome: &Outcome,
    rooms: &mut ScriptRooms,
) -> Result<Tried, NoMemory>
    ensures { IfOk result (λ tried. tried ≡ record { place = place; by = by; script = attempt.now.script; outcome = outcome.now }) }
{
    let script = attempt.script().copied_to(rooms.next(alloc))?;
    Ok(Tried {
        place,
        by,
        script,
        outcome: PackedOutcome::of(alloc, outcome)?,
    })
}

// An attempt at its start, in the place of the last one.
fn make_ready(
    alloc: Global,
    room: &mut Option<Attempt>,
    procs: &Checked,
    request: &Request,
    by: AttemptId,
    partitions: u8,
) -> Result<(), NoMemory>
    requires fits { Fits procs.now request.now.call }
    requires some { 1 ≤ partitions }
    requires over { IsOver room.old }
    ensures { OnOk result (IsReady procs.now request.now.call by partitions room.new) }
{
    match room {
        Some(last) => last.restart(procs, request, by, partitions)?,
        None => *room = Some(Attempt::start(alloc, procs, request, by, partitions)?),
    }
    Ok(())
}
