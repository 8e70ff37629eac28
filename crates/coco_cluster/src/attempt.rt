//! An attempt at an epoch, which is committed or given up.
ghost use Rattle.std.specs.Prelude.{◌≡◌, ◌+◌, ◌<◌, ◌≤◌, ◌≢◌, ℕ, List, None, Err, length, IfOk, OnOk, OnErr};
ghost use Rattle.coco_append.specs.Gaining.{RestsOn};
ghost use Rattle.coco_ast.specs.Keyed.{Rows};
ghost use Rattle.coco_letters.specs.Around.{IsLater, around};
ghost use Rattle.coco_members.specs.AtRest.{ShardsHaveMap, scene_of};
ghost use Rattle.coco_store.specs.Contents.{Contents};
ghost use Rattle.coco_cluster.specs.Attempts.{Attempts, AttemptsOn, HasCause, KeepsMap};
ghost use Rattle.coco_cluster.specs.Entries.{StepsOn};
ghost use Rattle.coco_cluster.specs.Faults.{CountsAttempt};
ghost use Rattle.coco_cluster.specs.Standing.{AllStand, IsSound, StandsAt};
ghost use Rattle.coco_cluster.specs.Stepping.{AsksBy, HaveCommitted, OnEnd, StepsTo};
ghost use Rattle.coco_cluster.specs.Turning.{HasRoom, MayTurn};
ghost use Rattle.coco_cluster.specs.declared.stop.Stop.TheVariants as stop;

use crate::trying::Tried;
use crate::{Cluster, Stop};
use coco_gate::Gate;
use coco_host::Host;
use coco_net::Net;
use coco_power::Power;
use coco_settle::{finished_nodes_are_not_behind, remind};
use coco_types::Request;
use coco_types::limits::EPOCHS_END;
use std::alloc::Global;
use std::sync::Wait;
use std::thread::Threads;
use std::time::Clock;

impl Cluster {
    /// An attempt at an epoch with these requests: where all nodes have finished the epoch before, the next one is tried, and
    /// committed where all vote for it. Where it is given up, the answer is the requests.
    pub(crate) fn attempt<
        R: Threads + Wait + Clock + Sync,
        H: Host,
        N: Net + Sync,
        P: Power,
        G: Gate + Sync,
    >(
        &mut self,
        rt: &R,
        alloc: Global,
        host: &mut H,
        net: &mut N,
        power: &mut P,
        requests: Vec<Request>,
        workers: u8,
        attempts: u8,
        gate: &G,
    ) -> Result<Option<Vec<Request>>, Stop>
        requires sound { IsSound self.old (N.sent net.old) }
        requires below { self.old.next_epoch < EPOCHS_END }
        requires workers { 0 < workers }
        requires attempts { 0 < attempts }
        requires some { 0 < length requests.items }
        requires may { MayTurn self.old requests.items }
        requires stand { AllStand self.old (H.reads host.old) (H.may_leave host.old) }
        ensures sound { OnOk result (IsSound self.new (N.sent net.new)) }
        ensures attempts { IfOk result (λ again. Attempts again requests.items workers attempts self.old self.new) }
        ensures cause { IfOk result (λ again. HasCause again
            (around N.Net P.Power net.old power.old)
            (around N.Net P.Power net.new power.new)) }
        ensures asks { IfOk result (λ again. AsksBy again self.old.members.tables.layout self.old.next_epoch self.new.next_epoch
            (around N.Net P.Power net.old power.old)
            (around N.Net P.Power net.new power.new)) }
        ensures world { OnEnd result ((commits : List ℕ) × HaveCommitted result self.new.next_epoch commits
            × StepsTo (P.stopped power.old) (P.stopped power.new) self.old.next_epoch self.new.next_epoch commits (scene_of self.old.members (N.sent net.old)) (scene_of self.new.members (N.sent net.new))) }
        ensures entries { (c d : Contents) → RestsOn c (H.reads host.old) (H.may_leave host.old) → StandsAt c self.old → HasRoom c requests.items → RestsOn d (H.reads host.new) (H.may_leave host.new)
            → OnEnd result ((commits : List ℕ) × HaveCommitted result self.new.next_epoch commits
            × StepsOn c d (P.stopped power.old) (P.stopped power.new) self.old.next_epoch self.new.next_epoch commits (scene_of self.old.members (N.sent net.old)) (scene_of self.new.members (N.sent net.new))) }
        ensures map { IfOk result (λ again. P.stops_seen power.new ≡ P.stops_seen power.old → KeepsMap again self.old self.new) }
        ensures procs { self.new.procs ≡ self.old.procs }
        ensures trace { OnErr result (self.old.trace ≡ None → self.new.trace ≡ None) }
        // The files.
        ensures files { (c : Contents) → RestsOn c (H.reads host.old) (H.may_leave host.old) → StandsAt c self.old → HasRoom c requests.items
            → AttemptsOn H.Host result requests.items workers attempts c self.old self.new host.old host.new }
        ensures never { (file at : ℕ) (c : Contents) → RestsOn c (H.reads host.old) (H.may_leave host.old) → StandsAt c self.old → HasRoom c requests.items → result ≢ Err (stop.NotAStore file at) }
        ensures stand { OnOk result (AllStand self.new (H.reads host.new) (H.may_leave host.new)) }
        ensures said { H.said host.new ≡ H.said host.old }
        ensures disk { CountsAttempt result (H.disk_faults host.old) (H.disk_faults host.new) }
        ensures stream { H.say_faults host.new ≡ H.say_faults host.old }
        ensures refused { (file at : ℕ) → result ≡ Err (stop.NotAStore file at) → P.stops_seen power.old < P.stops_seen power.new }
        ensures begins { P.begun power.new ≤ P.begun power.old + 1 }
        ensures seen { OnOk result (P.stops_seen power.old ≤ P.stops_seen power.new) }
        // The counts, whatever the answer.
        ensures later { IsLater
            (around N.Net P.Power net.old power.old)
            (around N.Net P.Power net.new power.new) }
    {
        // The law by which no node is behind where all have finished; the call does nothing.
        finished_nodes_are_not_behind();
        if !remind(alloc, net, &mut self.members)? {
            return Ok(Some(requests));
        }
        match self.try_epoch(
            rt, alloc, host, net, power, requests, workers, attempts, gate,
        )? {
            Tried::Voted { dones, trace } => {
                self.commit_epoch(host, net, power, dones, trace)?;
                self.read_stopped(alloc, host)?;
                Ok(None)
            }
            Tried::GivenUp { requests } => {
                self.forget_epoch();
                self.read_stopped(alloc, host)?;
                Ok(Some(requests))
            }
        }
    }
}
