//! A worker's way through an epoch: it draws requests until none is left, and works each off.

ghost use Rattle.std.specs.Prelude.{◌≡◌, ◌*◌, ◌<◌, ◌≤◌, [], ◌∷◌, List, length, OnOk};
ghost use Rattle.std.specs.List.{AllByRecursion};
ghost use Rattle.coco_types.specs.declared.call.Write.{Write as Written};
ghost use Rattle.coco_ast.specs.Fitting.{Fits};
ghost use Rattle.coco_desks.specs.Gains.{AreOf, AreSame};
ghost use Rattle.coco_occ.specs.declared.outcome.Outcome.{Outcome as End};
ghost use Rattle.coco_worker.specs.Copying.{MayDeliver};
ghost use Rattle.coco_worker.specs.Trying.{HasEnded, IsGated, IsOver};
ghost use Rattle.coco_worker.specs.Working.{Job, Keeps, Worked, Works, WorksDrawn};

use crate::copies::{WorkerCommit, deliver};
use crate::slot::{EpochConfig, Slot};
use crate::tries::try_until;
use coco_ast::Checked;
use coco_claim::Claims;
use coco_copy::CopyTable;
use coco_gate::Gate;
use coco_journaled::Journaled;
use coco_net::Net;
use coco_occ::{Attempt, Ends, Tailed};
use coco_pieces::add_pieces;
use coco_shard::Shard;
use coco_types::limits::MOST_PARTITIONS;
use coco_types::{NoMemory, Request, Write};
use std::alloc::Global;
use std::sync::Wait;

/// Works off requests of an epoch, each that the slot's seat draws, until none is left: attempts until one commits or
/// no more are allowed. After a commit the slot has its pieces, and its writes are put into the copies of their
/// partitions, but for those that the net doesn't carry; a request without a commit is in the slot's tail. Out of
/// memory, the epoch is given up; the passes are of their locks still.
pub fn work<G: Gate, N: Net>(
    rt: &impl Wait,
    alloc: Global,
    shards: &[Journaled<Shard>],
    copies: &[Journaled<CopyTable>],
    claims: &Claims,
    procs: &Checked,
    requests: &[Request],
    config: EpochConfig,
    slot: &mut Slot,
    gate: &G,
    net: &N,
) -> Result<(), NoMemory>
    requires some { 0 < length shards.now }
    requires most { length shards.now ≤ MOST_PARTITIONS }
    requires tables { length copies.now ≡ length shards.now * config.copies }
    requires attempts { 0 < config.attempts }
    requires nodes { 0 < config.nodes }
    requires numbers { claims.now.n ≡ length requests.now }
    requires fit { AllByRecursion (λ r. Fits procs.now r.call) requests.now }
    requires locks { AreOf shards.now slot.old.passes.items }
    requires copy_locks { AreOf copies.now slot.old.copy_passes.items }
    requires seat { slot.old.seat.claims ≡ claims.now }
    ensures same { AreSame slot.old.passes.items slot.new.passes.items }
    ensures same_copies { AreSame slot.old.copy_passes.items slot.new.copy_passes.items }
    ensures worker { slot.new.worker ≡ slot.old.worker }
    ensures worked { OnOk result (
        let job : Job = record { procs = procs.now; requests = requests.now; partitions = length shards.now; worker = slot.old.worker; config = config; carries = N.carries net.now } in
        (ws : List Worked) × Works job slot.old slot.new ws × WorksDrawn job slot.old slot.new ws) }
    ensures gated { OnOk result (IsGated (G.named gate.now) slot.old → IsGated (G.named gate.now) slot.new) }
{
    let mut room = None;
    while let Some(place) = claims.next(&mut slot.seat) {
        work_off(
            rt, alloc, shards, copies, procs, requests, place, config, gate, net, &mut room, slot,
        )?;
    }
    Ok(())
}

// Works off the request at a place.
fn work_off<G: Gate, N: Net>(
    rt: &impl Wait,
    alloc: Global,
    shards: &[Journaled<Shard>],
    copies: &[Journaled<CopyTable>],
    procs: &Checked,
    requests: &[Request],
    place: u32,
    config: EpochConfig,
    gate: &G,
    net: &N,
    room: &mut Option<Attempt>,
    slot: &mut Slot,
) -> Result<(), NoMemory>
    requires some { 0 < length shards.now }
    requires most { length shards.now ≤ MOST_PARTITIONS }
    requires tables { length copies.now ≡ length shards.now * config.copies }
    requires attempts { 0 < config.attempts }
    requires nodes { 0 < config.nodes }
    requires there { place < length requests.now }
    requires fit { AllByRecursion (λ r. Fits procs.now r.call) requests.now }
    requires locks { AreOf shards.now slot.old.passes.items }
    requires copy_locks { AreOf copies.now slot.old.copy_passes.items }
    requires over { IsOver room.old }
    ensures same { AreSame slot.old.passes.items slot.new.passes.items }
    ensures same_copies { AreSame slot.old.copy_passes.items slot.new.copy_passes.items }
    ensures worker { slot.new.worker ≡ slot.old.worker }
    ensures seat { slot.new.seat ≡ slot.old.seat }
    ensures over { OnOk result (IsOver room.new) }
    ensures worked { OnOk result (
        let job : Job = record { procs = procs.now; requests = requests.now; partitions = length shards.now; worker = slot.old.worker; config = config; carries = N.carries net.now } in
        (w : Worked) × (w.tries.place ≡ place) × Works job slot.old slot.new (w ∷ [])) }
    ensures gated { OnOk result (IsGated (G.named gate.now) slot.old → IsGated (G.named gate.now) slot.new) }
{
    let request = &requests[place as usize];
    let mut ends = Ends::new(alloc);
    let attempts = config.attempts;
    match try_until(
        rt, alloc, procs, shards, request, place, attempts, gate, room, slot, &mut ends,
    )? {
        Some(time) => {
            let commit = WorkerCommit {
                config,
                partitions: shards.len() as u8,
                worker: slot.worker,
                place,
                time,
            };
            keep(rt, alloc, copies, net, commit, room, slot)
        }
        None => slot.tail.push(Tailed {
            id: request.id,
            ends,
        }),
    }
}

// Adds the pieces of a commit, whose attempt is in the room, and brings its writes to the copies.
fn keep<N: Net>(
    rt: &impl Wait,
    alloc: Global,
    copies: &[Journaled<CopyTable>],
    net: &N,
    commit: WorkerCommit,
    room: &Option<Attempt>,
    slot: &mut Slot,
) -> Result<(), NoMemory>
    requires may { MayDeliver commit (length copies.now) }
    requires copy_locks { AreOf copies.now slot.old.copy_passes.items }
    requires ended { (outcome : End) × (writes : List Written) × HasEnded outcome writes room.now }
    ensures same { AreSame slot.old.copy_passes.items slot.new.copy_passes.items }
    ensures others { slot.new ≡ record slot.old { copy_passes = slot.new.copy_passes; pieces = slot.new.pieces } }
    ensures kept { OnOk result ((outcome : End) (writes : List Written) → HasEnded outcome writes room.now → Keeps (N.carries net.now) commit slot.old slot.new writes) }
{
    let Some(attempt) = room else { unreachable!() };
    let writes = attempt.writes().as_slice();
    keep_writes(rt, alloc, copies, net, commit, writes, slot)
}

// Adds the pieces of a commit with these writes, and brings the writes to the copies.
fn keep_writes<N: Net>(
    rt: &impl Wait,
    alloc: Global,
    copies: &[Journaled<CopyTable>],
    net: &N,
    commit: WorkerCommit,
    writes: &[Write],
    slot: &mut Slot,
) -> Result<(), NoMemory>
    requires may { MayDeliver commit (length copies.now) }
    requires copy_locks { AreOf copies.now slot.old.copy_passes.items }
    ensures same { AreSame slot.old.copy_passes.items slot.new.copy_passes.items }
    ensures others { slot.new ≡ record slot.old { copy_passes = slot.new.copy_passes; pieces = slot.new.pieces } }
    ensures kept { OnOk result (Keeps (N.carries net.now) commit slot.old slot.new writes.now) }
{
    let count = usize::from(commit.partitions);
    let pieces = &mut slot.pieces;
    add_pieces(alloc, pieces, count, commit.place, commit.time, writes)?;
    let passes = slot.copy_passes.as_mut_slice();
    deliver(rt, net, copies, passes, commit, writes)
}
