//! The workers of an epoch, each in a thread of its own.

ghost use Rattle.std.specs.Prelude.{◌≡◌, ◌*◌, ◌<◌, ◌≤◌, All, length};
ghost use Rattle.std.specs.List.{AllByRecursion};
ghost use Rattle.coco_ast.specs.Fitting.{Fits};
ghost use Rattle.coco_desks.specs.Gains.{AreOf};
ghost use Rattle.coco_worker.specs.Working.{Job};
ghost use Rattle.coco_parallel.specs.Working.{IsManned, Leaves, LeavesEach};

use coco_ast::Checked;
use coco_claim::Claims;
use coco_copy::CopyTable;
use coco_gate::Gate;
use coco_journaled::Journaled;
use coco_net::Net;
use coco_shard::Shard;
use coco_types::Request;
use coco_types::limits::MOST_PARTITIONS;
use coco_worker::{EpochConfig, Slot, work};
use std::alloc::Global;
use std::sync::Wait;
use std::thread;
use std::thread::Threads;

/// A worker's slot, and whether it has worked off all that it drew.
#[derive(Drop)]
pub struct Station {
    pub slot: Slot,
    pub is_done: bool,
}

impl Station {
    /// Works off requests until none is left; out of memory it isn't done.
    pub fn work_off<G: Gate, N: Net>(
        &mut self,
        rt: &impl Wait,
        alloc: Global,
        shards: &[Journaled<Shard>],
        copies: &[Journaled<CopyTable>],
        claims: &Claims,
        procs: &Checked,
        requests: &[Request],
        config: EpochConfig,
        gate: &G,
        net: &N,
    )
        requires some { 0 < length shards.now }
        requires most { length shards.now ≤ MOST_PARTITIONS }
        requires tables { length copies.now ≡ length shards.now * config.copies }
        requires attempts { 0 < config.attempts }
        requires nodes { 0 < config.nodes }
        requires numbers { claims.now.n ≡ length requests.now }
        requires fit { AllByRecursion (λ r. Fits procs.now r.call) requests.now }
        requires manned { IsManned shards.now copies.now claims.now self.old }
        ensures { let job : Job = record { procs = procs.now; requests = requests.now; partitions = length shards.now; worker = self.old.slot.worker; config = config; carries = N.carries net.now } in
            Leaves job self.old self.new }
    {
        let done = work(
            rt,
            alloc,
            shards,
            copies,
            claims,
            procs,
            requests,
            config,
            &mut self.slot,
            gate,
            net,
        );
        self.is_done = done.is_ok();
    }
}

/// Lets each worker run in a thread of its own; a single one runs on this thread.
pub fn run_all<R: Threads + Wait + Sync, G: Gate + Sync, N: Net + Sync>(
    rt: &R,
    alloc: Global,
    shards: &[Journaled<Shard>],
    copies: &[Journaled<CopyTable>],
    claims: &Claims,
    procs: &Checked,
    requests: &[Request],
    config: EpochConfig,
    gate: &G,
    net: &N,
    stations: &mut [Station],
)
    requires some { 0 < length shards.now }
    requires most { length shards.now ≤ MOST_PARTITIONS }
    requires tables { length copies.now ≡ length shards.now * config.copies }
    requires attempts { 0 < config.attempts }
    requires nodes { 0 < config.nodes }
    requires numbers { claims.now.n ≡ length requests.now }
    requires fit { AllByRecursion (λ r. Fits procs.now r.call) requests.now }
    requires workers { 0 < length stations.old }
    requires manned { All (IsManned shards.now copies.now claims.now) stations.old }
    ensures count { length stations.new ≡ length stations.old }
    ensures each { LeavesEach procs.now requests.now (length shards.now) config (N.carries net.now) stations.old stations.new }
{
    let threads = stations.len();
    if threads == 1 {
        stations[0].work_off(
            rt, alloc, shards, copies, claims, procs, requests, config, gate, net,
        );
        return;
    }
    thread::for_each_mut(
        rt,
        stations,
        threads,
        &|_, station| {
            station.work_off(
                rt, alloc, shards, copies, claims, procs, requests, config, gate, net,
            );
        },
    );
}
