//! The next epoch is tried: it is run, and then shipped and voted on.
ghost use Rattle.std.specs.Prelude.{◌≡◌, ◌<◌, length, IfOk};
ghost use Rattle.coco_members.specs.AtRest.{NoneBehind};
ghost use Rattle.coco_power.specs.Counting.{begun_after};
ghost use Rattle.coco_vote.specs.Asking.{IsLater as StaysAsked};
ghost use Rattle.coco_vote.specs.Taking.{AreReady};
ghost use Rattle.coco_cluster.specs.Deciding.{HasTried, StaysTrying};
ghost use Rattle.coco_cluster.specs.Faults.{CountsPart};
ghost use Rattle.coco_cluster.specs.Standing.{IsSound};
ghost use Rattle.coco_cluster.specs.Trying.{TriesFiles};
ghost use Rattle.coco_cluster.specs.Turning.{MayTurn};

use crate::deciding::{decide, one_stops};
use crate::running::{config_of, ids_of, run_requests};
use crate::{Cluster, Stop};
use coco_append::{a_run_is_the_next_commit, a_run_may_be_prepared};
use coco_gate::Gate;
use coco_host::Host;
use coco_lost::requests_back;
use coco_net::Net;
use coco_parallel::trace::Trace;
use coco_power::Power;
use coco_types::limits::EPOCHS_END;
use coco_types::{Dones, Request};
use coco_work::Ran;
use std::alloc::Global;
use std::sync::Wait;
use std::thread::Threads;
use std::time::Clock;

/// What came of an epoch that was tried.
#[derive(Drop)]
pub enum Tried {
    /// All nodes have voted for it. These are its Dones, and what its workers left of how they ran it.
    Voted { dones: Dones, trace: Trace },
    /// It was given up. These are its requests.
    GivenUp { requests: Vec<Request> },
}

impl Cluster {
    /// Tries the next epoch with these requests: it is run, shipped to the copies and voted on, or it is given up where a node
    /// stops before its entry or isn't reached. Nothing is promoted.
    pub(crate) fn try_epoch<
        R: Threads + Wait + Clock + Sync,
        H: Host,
        N: Net + Sync,
        P: Power,
        G: Gate + Sync,
    >(
        &mut self,
        rt: &R,
        alloc: Global,
        host: &mut H,
        net: &mut N,
        power: &mut P,
        requests: Vec<Request>,
        workers: u8,
        attempts: u8,
        gate: &G,
    ) -> Result<Tried, Stop>
        requires sound { IsSound self.old (N.sent net.old) }
        requires up { NoneBehind self.old.members.tables }
        requires below { self.old.next_epoch < EPOCHS_END }
        requires workers { 0 < workers }
        requires attempts { 0 < attempts }
        requires some { 0 < length requests.items }
        requires may { MayTurn self.old requests.items }
        requires ready { AreReady self.old.members.voters.items (H.reads host.old) (H.may_leave host.old) }
        ensures tried { IfOk result (λ tried. HasTried H.Host N.Net P.Power tried 1 requests.items workers attempts
            self.old self.new host.old host.new net.old net.new power.old power.new) }
        // The files.
        ensures files { TriesFiles H.Host result requests.items workers attempts self.old self.new host.old host.new }
        ensures disk { CountsPart result (H.disk_faults host.old) (H.disk_faults host.new) }
        // What stays, and what is begun, whatever the answer.
        ensures rest { StaysTrying H.Host N.Net P.Power
            self.old self.new host.old host.new net.old net.new power.old power.new }
        ensures begun { P.begun power.new ≡ begun_after (P.begun power.old) 0 1 }
    {
        let epoch = self.next_epoch;
        if one_stops(alloc, power, &mut self.members, 1, epoch)? {
            return Ok(Tried::GivenUp { requests });
        }
        self.run_and_decide(
            rt, alloc, host, net, power, requests, workers, attempts, gate,
        )
    }

    /// The next epoch, before which no node has stopped, is run and decided on.
    fn run_and_decide<
        R: Threads + Wait + Clock + Sync,
        H: Host,
        N: Net + Sync,
        P: Power,
        G: Gate + Sync,
    >(
        &mut self,
        rt: &R,
        alloc: Global,
        host: &mut H,
        net: &mut N,
        power: &mut P,
        requests: Vec<Request>,
        workers: u8,
        attempts: u8,
        gate: &G,
    ) -> Result<Tried, Stop>
        requires sound { IsSound self.old (N.sent net.old) }
        requires up { NoneBehind self.old.members.tables }
        requires below { self.old.next_epoch < EPOCHS_END }
        requires workers { 0 < workers }
        requires attempts { 0 < attempts }
        requires some { 0 < length requests.items }
        requires may { MayTurn self.old requests.items }
        requires ready { AreReady self.old.members.voters.items (H.reads host.old) (H.may_leave host.old) }
        ensures tried { IfOk result (λ tried. HasTried H.Host N.Net P.Power tried 2 requests.items workers attempts
            self.old self.new host.old host.new net.old net.new power.old power.new) }
        // The files.
        ensures files { TriesFiles H.Host result requests.items workers attempts self.old self.new host.old host.new }
        ensures disk { CountsPart result (H.disk_faults host.old) (H.disk_faults host.new) }
        // What stays, and what is begun, whatever the answer.
        ensures rest { StaysTrying H.Host N.Net P.Power
            self.old self.new host.old host.new net.old net.new power.old power.new }
        ensures power { StaysAsked P.Power power.old power.new }
    {
        let epoch = self.next_epoch;
        let ids = ids_of(alloc, requests.as_slice())?;
        let config = config_of(&self.members.tables.layout, epoch, workers, attempts);
        let Ran {
            dones,
            pieces,
            trace,
        } = run_requests(
            rt,
            alloc,
            &mut self.room,
            &mut self.members.tables,
            &mut self.kept,
            &self.procs,
            requests,
            config,
            gate,
            net,
        )?;
        // The laws by which its entries may be appended; the calls do nothing.
        a_run_is_the_next_commit();
        a_run_may_be_prepared();
        let all = decide(
            host,
            net,
            power,
            &mut self.members,
            epoch,
            pieces.as_slice(),
            &mut self.body,
        )?;
        if all {
            return Ok(Tried::Voted { dones, trace });
        }
        let requests = requests_back(alloc, ids.as_slice(), dones)?;
        Ok(Tried::GivenUp { requests })
    }
}
