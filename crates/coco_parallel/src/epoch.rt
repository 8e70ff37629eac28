//! An epoch: its workers side by side, and behind them the tail.

ghost use Rattle.std.specs.Prelude.{◌≡◌, ℕ, ◌*◌, ◌<◌, ◌≤◌, [], length, map, nat_eq, slice_index_or, IfOk, IfErr};
ghost use Rattle.std.specs.List.{IsDistinct};
ghost use Rattle.coco_ast.specs.Keyed.{Rows};
ghost use Rattle.coco_tail.specs.Running.{FitAll};
ghost use Rattle.coco_tail.specs.SerialEpoch.{IsSerialEpoch};
ghost use Rattle.coco_tail.specs.Shards.{HoldMap, AreOfPartitions, AreSettled};
ghost use Rattle.coco_parallel.specs.Epochs.{beginning_with};
ghost use Rattle.coco_parallel.specs.Traces.{IsTraceOf, traced};
ghost use Rattle.coco_parallel.specs.Worked.{AreReplayed, HaveCommits, begun_all, start_of};

use crate::ends::end_epoch;
use crate::laws::{ends_are_serial, tails_are_left};
use crate::rooms::Rooms;
use crate::side_by_side::{EpochRefused, WorkersEnd, run_workers, taken_back};
use crate::trace::{Trace, add_idle};
use coco_ast::Checked;
use coco_copy::CopyTable;
use coco_gate::Gate;
use coco_journaled::Journal;
use coco_net::Net;
use coco_order::laws::idle_workers_fit;
use coco_shard::Shard;
use coco_types::limits::{MOST_BATCH_LINES, MOST_PARTITIONS};
use coco_types::{Dones, Pieces, Request};
use coco_worker::EpochConfig;
use std::alloc::Global;
use std::sync::Wait;
use std::thread::Threads;

/// What an epoch came to: its Dones in the order of commit and what they wrote, the shards, the copies with the journals
/// of their locks, and the trace of its workers.
#[derive(Drop)]
pub struct EpochDone {
    pub shards: Vec<Shard>,
    pub copies: Vec<CopyTable>,
    pub dones: Dones,
    pub pieces: Pieces,
    pub copy_journals: Vec<Journal<CopyTable>>,
    pub trace: Trace,
}

/// Runs the requests of an epoch: the workers that are started side by side, a single one on the calling thread, and then,
/// as a tail, those that no worker committed. The calls of the requests go into their Dones, and what is left of the
/// requests isn't told. The copies begin the epoch. Out of memory, the shards are as they were handed in, and so are the
/// copies but for what pended in them. The locks and the transcripts begin with these rooms (`Rooms::keep` takes them back,
/// once they are read). `promote_all` of `coco_tail` commits what it leaves in the shards.
pub fn run_epoch<R: Threads + Wait + Sync, G: Gate + Sync, N: Net + Sync>(
    rt: &R,
    alloc: Global,
    shards: Vec<Shard>,
    copies: Vec<CopyTable>,
    procs: &Checked,
    requests: &mut [Request],
    config: EpochConfig,
    gate: &G,
    net: &N,
    rooms: &mut Rooms,
) -> Result<EpochDone, EpochRefused>
    requires some { 0 < length shards.items }
    requires most { length shards.items ≤ MOST_PARTITIONS }
    requires partitions { AreOfPartitions shards.items }
    requires settled { AreSettled shards.items }
    requires tables { length copies.items ≡ length shards.items * config.copies }
    requires started { 0 < config.started }
    requires allowed { config.started ≤ config.workers }
    requires attempts { 0 < config.attempts }
    requires nodes { 0 < config.nodes }
    requires few { length requests.old ≤ MOST_BATCH_LINES }
    requires fit { FitAll procs.now requests.old }
    requires distinct { IsDistinct nat_eq (map (λ r. r.id) requests.old) }
    ensures serial { IfOk result (λ done. (m : Rows) → HoldMap m shards.items →
        IsSerialEpoch procs.now requests.old config.epoch m done.shards.items done.dones done.pieces) }
    ensures trace { IfOk result (λ done. (m : Rows) → HoldMap m shards.items →
        IsTraceOf (beginning_with procs.now m requests.old shards.items config) config.epoch done.dones (traced done.trace)) }
    ensures idle { IfOk result (λ done. (worker : ℕ) → config.started ≤ worker → slice_index_or done.trace.transcripts.items worker [] ≡ []) }
    ensures count { IfOk result (λ done. length done.shards.items ≡ length shards.items) }
    ensures commits { IfOk result (λ done. (m : Rows) →
        HaveCommits (start_of procs.now m requests.old shards.items config (N.carries net.now)) config.workers (length copies.items) done.copy_journals.items done.trace.transcripts.items) }
    ensures replayed { IfOk result (λ done. AreReplayed (begun_all config.epoch copies.items) done.copy_journals.items done.copies.items) }
    ensures shards { IfErr result (λ refused. refused.shards.items ≡ shards.items) }
    ensures copies { IfErr result (λ refused. refused.copies.items ≡ begun_all config.epoch copies.items) }
{
    let WorkersEnd {
        mut shards,
        journals,
        copies,
        copy_journals,
        mut transcripts,
        pieces,
    } = run_workers(
        rt, alloc, shards, copies, procs, requests, config, gate, net, rooms,
    )?;
    ends_are_serial();
    let Ok((dones, pieces, tail)) = end_epoch(
        alloc,
        shards.as_mut_slice(),
        procs,
        requests,
        config,
        &transcripts,
        pieces,
    ) else {
        return Err(taken_back(shards, copies));
    };
    let idle = config.workers - config.started;
    let Ok(()) = add_idle(alloc, &mut transcripts, idle) else {
        return Err(taken_back(shards, copies));
    };
    idle_workers_fit();
    tails_are_left();
    Ok(EpochDone {
        shards,
        copies,
        dones,
        pieces,
        copy_journals,
        trace: Trace {
            journals,
            transcripts,
            tail,
        },
    })
}
