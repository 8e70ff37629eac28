//! The requests of an epoch, run on the shards and copies in hand.
ghost use Rattle.std.specs.Prelude.{◌≡◌, ◌*◌, ◌<◌, ◌≤◌, length, None, IfOk, OnErr};
ghost use Rattle.coco_ast.specs.Keyed.{Rows};
ghost use Rattle.coco_parallel.specs.Traces.{traced};
ghost use Rattle.coco_parallel.specs.Worked.{begun_all, start_of};
ghost use Rattle.coco_ship.specs.Pieces.{AreShippable};
ghost use Rattle.coco_ship.specs.Shipping.{AreBegun};
ghost use Rattle.coco_ship.specs.declared.ring.Ring.{Ring};
ghost use Rattle.coco_work.specs.Pacing.{HasTimed, OthersAreIdle, busy_of, started_of, told};
ghost use Rattle.coco_work.specs.Working.{HaveCopied, HaveWorked, IsRingOn, MayWork};

use coco_ast::Checked;
use coco_copy::CopyTable;
use coco_early::{early_rows_are_of_pieces, pieces_are_shippable};
use coco_gate::Gate;
use coco_net::Net;
use coco_pace::Pace;
use coco_parallel::rooms::Rooms;
use coco_parallel::trace::Trace;
use coco_shard::Shard;
use coco_types::{Dones, NoMemory, Pieces, Request};
use coco_worker::EpochConfig;
use std::alloc::Global;
use std::mem;
use std::sync::Wait;
use std::thread::Threads;
use std::time::{Clock, Instant};

/// What workers came to in an epoch: its Dones in the order of commit, and what they wrote, in that order; and what they
/// left of how they ran it.
#[derive(Drop)]
pub struct Ran {
    pub dones: Dones,
    pub pieces: Pieces,
    pub trace: Trace,
}

/// What goes from epoch to epoch: the room of the workers' locks and transcripts, and how long one and all of them took.
#[derive(Drop)]
pub struct EpochRoom {
    rooms: Rooms,
    pub pace: Pace,
}

impl EpochRoom {
    /// Nothing has run, and there is no room. It takes no memory.
    pub fn new(alloc: Global) -> EpochRoom {
        EpochRoom {
            rooms: Rooms::new(alloc),
            pace: Pace::new(),
        }
    }

    /// Keeps what an epoch left, which is read, as room for those to come.
    pub fn keep(&mut self, alloc: Global, trace: &mut Option<Trace>)
        ensures { trace.new ≡ None }
    {
        if let Some(trace) = trace.take() {
            self.rooms.keep(trace, Vec::new(alloc));
        }
    }

    // Takes in how long so many workers took for an epoch that began then, where that is known. A clock that can't be
    // read tells nothing.
    fn keep_time<C: Clock>(&mut self, clock: &C, began: Option<Instant>, workers: u8, requests: u32)
        ensures pace { HasTimed workers requests self.old.pace self.new.pace }
    {
        let Some(began) = began else {
            return;
        };
        if let Ok(time) = began.elapsed(clock) {
            self.pace.took(workers, requests, time);
        }
    }
}

/// Runs the requests of an epoch on shards at rest and on the copies of their partitions, which begin the epoch and have
/// behind it what the net carried early. Only those workers are started who find a request to draw, and of them one alone
/// where that goes faster. It begins with the room that the epoch before left. Out of memory, the shards are as they were
/// handed in, and the copies too but for their epoch and for what pended in them.
pub fn run<R: Threads + Wait + Clock + Sync, G: Gate + Sync, N: Net + Sync>(
    rt: &R,
    alloc: Global,
    room: &mut EpochRoom,
    shards: &mut Vec<Shard>,
    copies: &mut Vec<CopyTable>,
    procs: &Checked,
    requests: Vec<Request>,
    config: EpochConfig,
    gate: &G,
    net: &N,
) -> Result<Ran, NoMemory>
    requires may { MayWork procs.now requests.items config shards.old.items }
    requires tables { length copies.old.items ≡ length shards.old.items * config.copies }
    ensures worked { IfOk result (λ ran. HaveWorked procs.now requests.items config shards.old.items shards.new.items ran.dones ran.pieces (traced ran.trace)) }
    ensures early { IfOk result (λ ran. (m : Rows) →
        HaveCopied (start_of procs.now m requests.items shards.old.items (told room.old.pace config (length requests.items)) (N.carries net.now)) copies.old.items copies.new.items (traced ran.trace)) }
    ensures shippable { IfOk result (λ ran. (ring : Ring) → IsRingOn (length shards.old.items) config.copies ring → AreShippable ring ran.pieces) }
    ensures begun { IfOk result (λ ran. (ring : Ring) → IsRingOn (length shards.old.items) config.copies ring → AreBegun ring config.epoch ran.pieces copies.new.items) }
    ensures count { length shards.new.items ≡ length shards.old.items }
    ensures err { OnErr result (shards.new.items ≡ shards.old.items) }
    ensures copies { OnErr result (copies.new.items ≡ begun_all config.epoch copies.old.items) }
    ensures pace { HasTimed (started_of room.old.pace config.workers (length requests.items)) (length requests.items) room.old.pace room.new.pace }
    ensures idle { IfOk result (λ ran. OthersAreIdle (started_of room.old.pace config.workers (length requests.items)) ran.trace.transcripts.items) }
{
    let count = requests.len() as u32;
    let busy = busy_workers(config.workers, count);
    let started = room.pace.workers(busy, count);
    let began = if busy > 1 {
        Instant::now(rt).ok()
    } else {
        None
    };
    let rooms = &mut room.rooms;
    let config = EpochConfig { started, ..config };
    let ran = run_by(
        rt, alloc, rooms, shards, copies, procs, requests, config, gate, net,
    )?;
    room.keep_time(rt, began, started, count);
    Ok(ran)
}

// How many workers find a request to draw, of whom there is one at least.
fn busy_workers(workers: u8, requests: u32) -> u8
    ensures { result ≡ busy_of workers requests }
{
    u32::from(workers).min(requests).max(1) as u8
}

// What workers came to, of whom those run who are started. Their locks begin with these rooms. Out of memory, the shards
// are as they were handed in, and nothing pends in the copies.
fn run_by<R: Threads + Wait + Sync, G: Gate + Sync, N: Net + Sync>(
    rt: &R,
    alloc: Global,
    rooms: &mut Rooms,
    shards: &mut Vec<Shard>,
    copies: &mut Vec<CopyTable>,
    procs: &Checked,
    mut requests: Vec<Request>,
    config: EpochConfig,
    gate: &G,
    net: &N,
) -> Result<Ran, NoMemory>
    requires may { MayWork procs.now requests.items config shards.old.items }
    requires tables { length copies.old.items ≡ length shards.old.items * config.copies }
    requires started { 0 < config.started }
    requires allowed { config.started ≤ config.workers }
    ensures worked { IfOk result (λ ran. HaveWorked procs.now requests.items config shards.old.items shards.new.items ran.dones ran.pieces (traced ran.trace)) }
    ensures early { IfOk result (λ ran. (m : Rows) →
        HaveCopied (start_of procs.now m requests.items shards.old.items config (N.carries net.now)) copies.old.items copies.new.items (traced ran.trace)) }
    ensures shippable { IfOk result (λ ran. (ring : Ring) → IsRingOn (length shards.old.items) config.copies ring → AreShippable ring ran.pieces) }
    ensures begun { IfOk result (λ ran. (ring : Ring) → IsRingOn (length shards.old.items) config.copies ring → AreBegun ring config.epoch ran.pieces copies.new.items) }
    ensures count { length shards.new.items ≡ length shards.old.items }
    ensures err { OnErr result (shards.new.items ≡ shards.old.items) }
    ensures copies { OnErr result (copies.new.items ≡ begun_all config.epoch copies.old.items) }
    ensures idle { IfOk result (λ ran. OthersAreIdle config.started ran.trace.transcripts.items) }
{
    let in_hand = mem::replace(shards, Vec::new(alloc));
    let tables = mem::replace(copies, Vec::new(alloc));
    // The laws by which the pieces may be shipped; the calls do nothing.
    pieces_are_shippable();
    early_rows_are_of_pieces();
    match coco_parallel::epoch::run_epoch(
        rt,
        alloc,
        in_hand,
        tables,
        procs,
        requests.as_mut_slice(),
        config,
        gate,
        net,
        rooms,
    ) {
        Ok(done) => {
            *shards = done.shards;
            *copies = done.copies;
            Ok(Ran {
                dones: done.dones,
                pieces: done.pieces,
                trace: done.trace,
            })
        }
        Err(refused) => {
            *shards = refused.shards;
            *copies = refused.copies;
            Err(NoMemory)
        }
    }
}
