//! One batch of requests: their classes, and the turn of the new ones.
ghost use Rattle.std.specs.Prelude.{◌≡◌, ◌+◌, ◌≤◌, ◌<◌, ◌++◌, ◌∷◌, [], length, IfOk, OnOk};
ghost use Rattle.coco_types.specs.Limits.{most_batch_lines, most_kept};
ghost use Rattle.coco_append.specs.Gaining.{RestsOn};
ghost use Rattle.coco_ast.specs.Fitting.{Fits};
ghost use Rattle.coco_ast.specs.Tree.{Procedures};
ghost use Rattle.coco_batches.specs.Asking.{AreNew, known_of};
ghost use Rattle.coco_cluster.specs.Around.{IsLater, SkipsFew, around, spare};
ghost use Rattle.coco_cluster.specs.Standing.{AllStand, IsSound, StandsAt};
ghost use Rattle.coco_cluster.specs.Turning.{epochs_of};
ghost use Rattle.coco_lines.specs.Classes.{new_in};
ghost use Rattle.coco_lines.specs.declared.class.Class.{Class as RequestClass};
ghost use Rattle.coco_store.specs.Contents.{Contents};
ghost use Rattle.coco_try.specs.Growth.{IsClassOf};
ghost use Rattle.coco_try.specs.Report.{answered_in};
ghost use Rattle.coco_try.specs.Work.{AllFit, ComesOfPart, CountsPart, HasClasses, IsFew};

use coco_batches::NewRequests;
use coco_batches::classify::class_of_request;
use coco_cluster::{Cluster, Stop};
use coco_gate::Gate;
use coco_host::Host;
use coco_kept::Kept;
use coco_lines::Class;
use coco_net::Net;
use coco_power::Power;
use coco_serve::RunBounds;
use coco_types::{NoMemory, Request};
use std::alloc::Global;
use std::sync::Wait;
use std::thread::Threads;
use std::time::Clock;

/// How many requests have a Done, be it new or kept from before, and how many epochs were committed for them.
#[derive(Clone, Copy, Debug, PartialEq, Eq)]
pub struct Tally {
    pub answered: u64,
    pub epochs: u64,
}

// A batch of requests: the new ones among them, and how many are new or known with an equal call.
#[derive(Drop)]
struct Part {
    fresh: NewRequests,
    answered: u32,
}

impl Part {
    // Takes a request in by its class.
    fn take(&mut self, kept: &Kept, request: &Request) -> Result<(), NoMemory>
        requires new { AreNew kept.now self.old.fresh }
        requires few { self.old.answered < most_batch_lines }
        ensures class { OnOk result ((c : RequestClass) × IsClassOf (known_of kept.now self.old.fresh) request.now c
            × (self.new.fresh ≡ self.old.fresh ++ new_in c) × (self.new.answered ≡ self.old.answered + answered_in (c ∷ []))) }
        ensures new { OnOk result (AreNew kept.now self.new.fresh) }
        ensures fit { OnOk result ((procs : Procedures) → AllFit procs self.old.fresh → Fits procs request.now.call → AllFit procs self.new.fresh) }
    {
        let request = Request {
            id: request.id,
            call: request.call.try_clone()?,
        };
        match class_of_request(kept, &self.fresh, request) {
            Class::Refused(_) => return Ok(()),
            Class::Same(_) => {}
            Class::New(request) => self.fresh.push(request)?,
        }
        self.answered += 1;
        Ok(())
    }
}

// The requests of a batch, each taken in by its class.
fn part_of(alloc: Global, kept: &Kept, requests: &[Request]) -> Result<Part, NoMemory>
    requires few { length requests.now ≤ most_batch_lines }
    requires room { length kept.now.dones ≤ most_kept }
    ensures classes { IfOk result (λ part. HasClasses (known_of kept.now []) requests.now part.fresh part.answered) }
    ensures new { IfOk result (λ part. AreNew kept.now part.fresh) }
    ensures fit { IfOk result (λ part. (procs : Procedures) → AllFit procs requests.now → AllFit procs part.fresh) }
{
    let mut part = Part {
        fresh: NewRequests::with_room(alloc, requests.len())?,
        answered: 0,
    };
    for request in requests {
        part.take(kept, request)?;
    }
    Ok(part)
}

/// Works a batch of requests off within these bounds: the new ones among them are committed as one epoch. Nothing is
/// said. After a fault the cluster is of no further use.
pub fn work_part<
    R: Threads + Wait + Clock + Sync,
    H: Host,
    N: Net + Sync,
    P: Power,
    G: Gate + Sync,
>(
    rt: &R,
    alloc: Global,
    host: &mut H,
    net: &mut N,
    power: &mut P,
    cluster: &mut Cluster,
    part: &[Request],
    bounds: RunBounds,
    gate: &G,
) -> Result<Tally, Stop>
    requires sound { IsSound cluster.old (N.sent net.old) }
    requires workers { 0 < bounds.workers }
    requires attempts { 0 < bounds.attempts }
    requires fit { AllFit cluster.old.procs part.now }
    requires few { length part.now ≤ most_batch_lines }
    requires room { length cluster.old.kept.dones ≤ most_kept }
    requires stand { AllStand cluster.old (H.reads host.old) (H.may_leave host.old) }
    ensures comes { (c : Contents) → RestsOn c (H.reads host.old) (H.may_leave host.old) → StandsAt c cluster.old
        → ComesOfPart H.Host result part.now bounds c cluster.old.next_epoch (spare (around N.Net P.Power net.old power.old) (around N.Net P.Power net.new power.new)) cluster.new host.old host.new }
    ensures stand { OnOk result (AllStand cluster.new (H.reads host.new) (H.may_leave host.new)) }
    ensures sound { OnOk result (IsSound cluster.new (N.sent net.new)) }
    ensures room { OnOk result (length cluster.new.kept.dones ≤ most_kept) }
    ensures few { IfOk result (IsFew (length part.now)) }
    ensures next { IfOk result (λ worked. SkipsFew cluster.old.next_epoch cluster.new.next_epoch worked.epochs (spare (around N.Net P.Power net.old power.old) (around N.Net P.Power net.new power.new))) }
    ensures later { IsLater (around N.Net P.Power net.old power.old) (around N.Net P.Power net.new power.new) }
    ensures procs { cluster.new.procs ≡ cluster.old.procs }
    ensures said { H.said host.new ≡ H.said host.old }
    ensures counts { CountsPart result (known_of cluster.old.kept []) part.now cluster.old.next_epoch (around N.Net P.Power net.old power.old) (around N.Net P.Power net.new power.new)
        (record { say = H.say_faults host.old; disk = H.disk_faults host.old })
        (record { say = H.say_faults host.new; disk = H.disk_faults host.new }) }
{
    let Part { fresh, answered } = part_of(alloc, &cluster.kept, part)?;
    let requests = fresh.into_requests(alloc)?;
    let epochs = epochs_for(requests.as_slice());
    cluster.turn(
        rt,
        alloc,
        host,
        net,
        power,
        requests,
        bounds.workers,
        bounds.attempts,
        gate,
    )?;
    Ok(Tally {
        answered: u64::from(answered),
        epochs,
    })
}

// How many epochs these requests make.
fn epochs_for(requests: &[Request]) -> u64
    ensures { result ≡ epochs_of requests.now }
{
    if requests.is_empty() { 0 } else { 1 }
}
