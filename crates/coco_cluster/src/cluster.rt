//! The store in hand, and its turns.
ghost use Rattle.std.specs.Prelude.{◌≡◌, ◌≢◌, ◌⊎◌, ◌+◌, ◌<◌, ◌≤◌, [], ℕ, List, None, Err, length, IsOk, OnOk, OnErr};
ghost use Rattle.std.specs.Option.{option_map};
ghost use Rattle.coco_append.specs.Gaining.{RestsOn};
ghost use Rattle.coco_ast.specs.Keyed.{Rows};
ghost use Rattle.coco_letters.specs.Around.{IsLater, SkipsFew, around, spare};
ghost use Rattle.coco_letters.specs.GivingUp.{AreGivenUp};
ghost use Rattle.coco_members.specs.AtRest.{ShardsHaveMap, scene_of};
ghost use Rattle.coco_store.specs.Contents.{Contents};
ghost use Rattle.coco_cluster.specs.Entries.{StepsOn};
ghost use Rattle.coco_cluster.specs.Faults.{CountsTurn};
ghost use Rattle.coco_cluster.specs.Standing.{AllStand, IsSound, StandsAt};
ghost use Rattle.coco_cluster.specs.Stepping.{HasAsked, HasCommittedBy, OnEnd, StepsTo};
ghost use Rattle.coco_cluster.specs.Turning.{HasRoom, HasTurned, IsUntraced, KeepsHistory, MayTurn, Turns, epochs_of};
ghost use Rattle.coco_cluster.specs.declared.stop.Stop.TheVariants as stop;

use crate::Stop;
use coco_ast::Checked;
use coco_gate::Gate;
use coco_host::Host;
use coco_kept::Kept;
use coco_load::PackedRows;
use coco_members::{Members, Reopened};
use coco_net::Net;
use coco_parallel::trace::Trace;
use coco_power::Power;
use coco_types::Request;
use coco_types::limits::EPOCHS_END;
use coco_work::EpochRoom;
use std::alloc::Global;
use std::sync::Wait;
use std::thread::Threads;
use std::time::Clock;

/// How many attempts at an epoch are given up before its nodes are unreachable.
const ATTEMPTS: usize = 4;

/// A store in hand, which takes turns: its procedures and kept replies, its nodes and coordinator, the rows of its base for a
/// node that is read anew, the number of the next epoch, and what the epoch of the last turn left, if it committed one.
#[derive(Drop)]
pub struct Cluster {
    pub procs: Checked,
    pub kept: Kept,
    pub members: Members,
    pub base: Vec<PackedRows>,
    pub next_epoch: u64,
    pub trace: Option<Trace>,
    pub(crate) body: Vec<u8>,
    pub(crate) room: EpochRoom,
}

impl Cluster {
    /// The cluster of an opened store. It takes no memory.
    pub fn of(alloc: Global, store: Reopened) -> Cluster
        ensures procs { result.procs ≡ store.procs }
        ensures kept { result.kept ≡ store.kept }
        ensures members { result.members ≡ store.members }
        ensures base { result.base ≡ store.base }
        ensures next { result.next_epoch ≡ store.next_epoch }
        ensures trace { result.trace ≡ None }
    {
        Cluster {
            procs: store.procs,
            kept: store.kept,
            members: store.members,
            base: store.base,
            next_epoch: store.next_epoch,
            trace: None,
            body: Vec::new(alloc),
            room: EpochRoom::new(alloc),
        }
    }

    /// Runs new requests as one epoch, by so many workers with so many attempts at each, and commits it: each node's prepared
    /// entry becomes durable, then the commit entry; then the tables are promoted and its Dones are kept. An epoch is given
    /// up, and tried again under the next number, where a node stops before its entry or isn't reached. Whatever the turn
    /// answers, at each moment what a crash may leave is a good store, without the epoch or with it. Where nodes are
    /// unreachable, or no number is left, only prepared entries may be there more. Without requests there is nothing to do.
    /// The trace of the turn before is gone, and that of this one stays until the next turn. After a fault the cluster may
    /// take no turn any more, and the store has to be opened again.
    pub fn turn<R: Threads + Wait + Clock + Sync, H: Host, N: Net + Sync, P: Power, G: Gate + Sync>(
        &mut self,
        rt: &R,
        alloc: Global,
        host: &mut H,
        net: &mut N,
        power: &mut P,
        requests: Vec<Request>,
        workers: u8,
        attempts: u8,
        gate: &G,
    ) -> Result<(), Stop>
        requires sound { IsSound self.old (N.sent net.old) }
        requires workers { 0 < workers }
        requires attempts { 0 < attempts }
        requires may { MayTurn self.old requests.items }
        requires stand { AllStand self.old (H.reads host.old) (H.may_leave host.old) }
        ensures turns { (c : Contents) → RestsOn c (H.reads host.old) (H.may_leave host.old) → StandsAt c self.old → HasRoom c requests.items
            → KeepsHistory H.Host result requests.items self.old.next_epoch (spare (around N.Net P.Power net.old power.old) (around N.Net P.Power net.new power.new)) c host.old host.new
            ⊎ Turns H.Host result requests.items workers attempts (spare (around N.Net P.Power net.old power.old) (around N.Net P.Power net.new power.new)) c self.old self.new host.old host.new }
        ensures never { (file at : ℕ) (c : Contents) → RestsOn c (H.reads host.old) (H.may_leave host.old) → StandsAt c self.old → HasRoom c requests.items → result ≢ Err (stop.NotAStore file at) }
        ensures nothing { requests.items ≡ [] → IsOk result × (host.new ≡ host.old) × (net.new ≡ net.old) × IsUntraced self.old self.new × (power.new ≡ power.old) }
        ensures sound { OnOk result (IsSound self.new (N.sent net.new)) }
        ensures stand { OnOk result (AllStand self.new (H.reads host.new) (H.may_leave host.new)) }
        ensures next { OnOk result (0 < length requests.items → self.old.next_epoch < self.new.next_epoch) }
        ensures few { OnOk result (SkipsFew self.old.next_epoch self.new.next_epoch (epochs_of requests.items) (spare (around N.Net P.Power net.old power.old) (around N.Net P.Power net.new power.new))) }
        ensures turned { OnOk result (0 < length requests.items → (m : Rows) × HasTurned requests.items workers attempts m self.old self.new) }
        ensures from { OnOk result (0 < length requests.items → P.stops_seen power.new ≡ P.stops_seen power.old → (m : Rows) → ShardsHaveMap m self.old.members.tables → HasTurned requests.items workers attempts m self.old self.new) }
        ensures world { OnEnd result ((commits : List ℕ) × HasCommittedBy result requests.items self.new.next_epoch commits
            × StepsTo (P.stopped power.old) (P.stopped power.new) self.old.next_epoch self.new.next_epoch commits (scene_of self.old.members (N.sent net.old)) (scene_of self.new.members (N.sent net.new))) }
        ensures entries { (c d : Contents) → RestsOn c (H.reads host.old) (H.may_leave host.old) → StandsAt c self.old → HasRoom c requests.items → RestsOn d (H.reads host.new) (H.may_leave host.new)
            → OnEnd result ((commits : List ℕ) × HasCommittedBy result requests.items self.new.next_epoch commits
            × StepsOn c d (P.stopped power.old) (P.stopped power.new) self.old.next_epoch self.new.next_epoch commits (scene_of self.old.members (N.sent net.old)) (scene_of self.new.members (N.sent net.new))) }
        ensures asks { OnOk result (0 < length requests.items → HasAsked self.old.members.tables.layout self.old.next_epoch self.new.next_epoch
            (around N.Net P.Power net.old power.old)
            (around N.Net P.Power net.new power.new)) }
        ensures begins { P.begun power.new ≤ P.begun power.old + 4 }
        ensures given_up { OnOk result ((n : ℕ) × (n < 4) × (self.new.next_epoch ≤ self.old.next_epoch + n + 1) × AreGivenUp n (around N.Net P.Power net.old power.old) (around N.Net P.Power net.new power.new)) }
        ensures refused { (file at : ℕ) → result ≡ Err (stop.NotAStore file at) → P.stops_seen power.old < P.stops_seen power.new }
        ensures ended { result ≡ Err stop.EpochsUsedUp → (EPOCHS_END ≤ self.new.next_epoch) × ((n : ℕ) × (n < 4) × (self.new.next_epoch ≤ self.old.next_epoch + n) × AreGivenUp n (around N.Net P.Power net.old power.old) (around N.Net P.Power net.new power.new)) }
        ensures untraced { OnErr result (self.new.trace ≡ None) }
        ensures used_up { 0 < length requests.items → EPOCHS_END ≤ self.old.next_epoch → result ≡ Err stop.EpochsUsedUp }
        ensures procs { self.new.procs ≡ self.old.procs }
        ensures said { H.said host.new ≡ H.said host.old }
        ensures counts { CountsTurn result self.old.next_epoch (around N.Net P.Power net.old power.old) (around N.Net P.Power net.new power.new) (H.disk_faults host.old) (H.disk_faults host.new) }
        ensures stream { H.say_faults host.new ≡ H.say_faults host.old }
        ensures later { IsLater (around N.Net P.Power net.old power.old) (around N.Net P.Power net.new power.new) }
        ensures unused { result ≡ Err stop.EpochsUsedUp → EPOCHS_END ≤ self.old.next_epoch → host.new ≡ host.old }
        ensures kept { OnOk result (length self.new.kept.dones ≤ length self.old.kept.dones + length requests.items) }
    {
        self.room.keep(alloc, &mut self.trace);
        if requests.is_empty() {
            return Ok(());
        }
        let mut requests = requests;
        for _attempt in 0..ATTEMPTS {
            if self.next_epoch >= EPOCHS_END {
                return Err(Stop::EpochsUsedUp);
            }
            match self.attempt(
                rt, alloc, host, net, power, requests, workers, attempts, gate,
            )? {
                None => return Ok(()),
                Some(again) => requests = again,
            }
        }
        Err(Stop::Unreachable)
    }

    /// What the epoch of the last turn left: each shard's journal, each worker's transcript, and the requests that no
    /// attempt committed. None where that turn committed no epoch.
    pub fn trace(&self) -> Option<&Trace>
        ensures { option_map (λ t. t.now) result ≡ self.now.trace }
    {
        self.trace.as_ref()
    }
}
