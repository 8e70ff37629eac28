//! The requests of an epoch, run on the tables of all nodes.

ghost use Rattle.std.specs.Prelude.{◌≡◌, length, IfOk};
ghost use Rattle.coco_ast.specs.Keyed.{Rows};
ghost use Rattle.coco_early.specs.Runs.{HasRun};
ghost use Rattle.coco_parallel.specs.Traces.{traced};
ghost use Rattle.coco_ship.specs.Pieces.{AreShippable};
ghost use Rattle.coco_ship.specs.Shipping.{AreBegun};
ghost use Rattle.coco_work.specs.Pacing.{HasTimed, OthersAreIdle, started_of, told};
ghost use Rattle.coco_work.specs.Working.{HaveCopied};
ghost use Rattle.coco_trial.specs.Running.{start_on, HaveAll, HaveShards, KeepAll, MayTry, SamePlaces, ring_of};

use coco_ast::Checked;
use coco_finish::NodeTables;
use coco_gate::Gate;
use coco_net::Net;
use coco_standing::tables_at_rest;
use coco_types::{NoMemory, Request};
use coco_work::{EpochRoom, Ran};
use coco_worker::EpochConfig;
use std::alloc::Global;
use std::sync::Wait;
use std::thread::Threads;
use std::time::Clock;

/// Runs the requests of an epoch on the tables of all nodes, of which none is behind. To revert them gives the rows of
/// before, whatever it answers. Nothing is sent: what the copies have behind it came early.
pub fn run<R: Threads + Wait + Clock + Sync, G: Gate + Sync, N: Net + Sync>(
    rt: &R,
    alloc: Global,
    room: &mut EpochRoom,
    tables: &mut NodeTables,
    procs: &Checked,
    requests: Vec<Request>,
    config: EpochConfig,
    gate: &G,
    net: &N,
) -> Result<Ran, NoMemory>
    requires may { MayTry procs.now requests.items config tables.old }
    // It is a run from the map that the tables had: its Dones and pieces are those of a serial epoch, which the trace has.
    ensures ran { IfOk result (λ ran. (m : Rows) → HaveShards m tables.old → HasRun (start_on procs.now m requests.items tables.old config (N.carries net.now)) tables.new.shards.items ran.dones ran.pieces (traced ran.trace)) }
    ensures keep { (m : Rows) → HaveAll m tables.old → KeepAll m tables.new }
    ensures early { IfOk result (λ ran. (m : Rows) →
        HaveCopied (start_on procs.now m requests.items tables.old (told room.old.pace config (length requests.items)) (N.carries net.now)) tables.old.copies.items tables.new.copies.items (traced ran.trace)) }
    // The pieces may be shipped, and what pends in the copies is of pieces.
    ensures shippable { IfOk result (λ ran. AreShippable (ring_of tables.old.layout) ran.pieces) }
    ensures begun { IfOk result (λ ran. AreBegun (ring_of tables.old.layout) config.epoch ran.pieces tables.new.copies.items) }
    ensures places { SamePlaces tables.old tables.new }
    // Who was started, and how long they took.
    ensures pace { HasTimed (started_of room.old.pace config.workers (length requests.items)) (length requests.items) room.old.pace room.new.pace }
    ensures idle { IfOk result (λ ran. OthersAreIdle (started_of room.old.pace config.workers (length requests.items)) ran.trace.transcripts.items) }
{
    // What holds of tables of which none is behind; the call does nothing.
    tables_at_rest();
    let ran = coco_work::run(
        rt,
        alloc,
        room,
        &mut tables.shards,
        &mut tables.copies,
        procs,
        requests,
        config,
        gate,
        net,
    )?;
    Ok(ran)
}
