//! The requests of an epoch, run on the tables in hand.
ghost use Rattle.std.specs.Prelude.{◌≡◌, ◌≤◌, length, map, IfOk};
ghost use Rattle.coco_ast.specs.Keyed.{Rows};
ghost use Rattle.coco_early.specs.Runs.{HasRun};
ghost use Rattle.coco_parallel.specs.Traces.{traced};
ghost use Rattle.coco_types.specs.declared.call.Request.{Request as Asked};
ghost use Rattle.coco_ship.specs.Pieces.{AreShippable};
ghost use Rattle.coco_ship.specs.Shipping.{AreBegun};
ghost use Rattle.coco_trial.specs.Running.{start_on, HaveAll, HaveShards, KeepAll, MayTry, SamePlaces, ring_of};

use coco_ast::Checked;
use coco_entry::Layout;
use coco_finish::NodeTables;
use coco_gate::Gate;
use coco_kept::{Kept, make_room};
use coco_net::Net;
use coco_trial::run;
use coco_types::{NoMemory, Request};
use coco_work::{EpochRoom, Ran};
use coco_worker::EpochConfig;
use std::alloc::Global;
use std::sync::Wait;
use std::thread::Threads;
use std::time::Clock;

/// What the workers of an epoch are told: its number, how many they are, who may all be started, and what the layout says of
/// nodes and copies.
pub(crate) fn config_of(layout: &Layout, epoch: u64, workers: u8, attempts: u8) -> EpochConfig
    ensures { result ≡ record { epoch = epoch; workers = workers; started = workers; attempts = attempts; nodes = layout.now.nodes; copies = layout.now.copies } }
{
    EpochConfig {
        epoch,
        workers,
        started: workers,
        attempts,
        nodes: layout.nodes,
        copies: layout.copies,
    }
}

/// The ids of requests, in order.
pub(crate) fn ids_of(alloc: Global, requests: &[Request]) -> Result<Vec<u64>, NoMemory>
    ensures { IfOk result (λ ids. ids.items ≡ map (λ (r : Asked). r.id) requests.now) }
{
    Ok(requests.iter().map(|request| request.id).collect(alloc)?)
}

/// Runs the requests of an epoch on the tables of all nodes, of which none is behind, and makes room for their Dones among the
/// kept ones. It begins with the room that the epoch before left.
pub(crate) fn run_requests<R: Threads + Wait + Clock + Sync, G: Gate + Sync, N: Net + Sync>(
    rt: &R,
    alloc: Global,
    room: &mut EpochRoom,
    tables: &mut NodeTables,
    kept: &mut Kept,
    procs: &Checked,
    requests: Vec<Request>,
    config: EpochConfig,
    gate: &G,
    net: &N,
) -> Result<Ran, NoMemory>
    requires may { MayTry procs.now requests.items config tables.old }
    ensures ran { IfOk result (λ ran. (m : Rows) → HaveShards m tables.old → HasRun (start_on procs.now m requests.items tables.old config (N.carries net.now)) tables.new.shards.items ran.dones ran.pieces (traced ran.trace)) }
    ensures keep { (m : Rows) → HaveAll m tables.old → KeepAll m tables.new }
    ensures shippable { IfOk result (λ ran. AreShippable (ring_of tables.old.layout) ran.pieces) }
    ensures begun { IfOk result (λ ran. AreBegun (ring_of tables.old.layout) config.epoch ran.pieces tables.new.copies.items) }
    ensures places { SamePlaces tables.old tables.new }
    ensures room { IfOk result (λ ran. length ran.dones ≤ kept.new.room) }
    ensures kept { kept.new ≡ record kept.old { room = kept.new.room } }
{
    let ran = run(rt, alloc, room, tables, procs, requests, config, gate, net)?;
    make_room(alloc, kept, ran.dones.as_slice())?;
    Ok(ran)
}
