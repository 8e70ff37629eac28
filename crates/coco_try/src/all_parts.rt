//! A workload worked off batch by batch, and told of.
ghost use Rattle.std.specs.Prelude.{◌≡◌, ◌≤◌, ◌<◌, ◌^◌, length, Ok, IfOk, IfErr, OnOk};
ghost use Rattle.coco_types.specs.Limits.{most_batch_lines, most_kept};
ghost use Rattle.coco_append.specs.Gaining.{RestsOn};
ghost use Rattle.coco_cluster.specs.Around.{IsLater, around, spare};
ghost use Rattle.coco_cluster.specs.Standing.{AllStand, IsSound, StandsAt};
ghost use Rattle.coco_gen.specs.Workload.{workload_of};
ghost use Rattle.coco_store.specs.Contents.{Contents};
ghost use Rattle.coco_try.specs.Trying.{HasCause, TriesOut};
ghost use Rattle.coco_try.specs.Work.{AllFit, done_of};
ghost use Rattle.coco_try.specs.Working.{Works};

use crate::one_part::{Tally, work_part};
use crate::report::report_of;
use coco_cluster::{Cluster, Stop};
use coco_gate::Gate;
use coco_gen::workload;
use coco_host::{Host, say_all};
use coco_net::Net;
use coco_power::Power;
use coco_serve::RunBounds;
use coco_types::Request;
use std::alloc::Global;
use std::sync::Wait;
use std::thread::Threads;
use std::time::Clock;

/// Which requests a workload has: the first so many of a seed.
#[derive(Clone, Copy, Debug, PartialEq, Eq)]
pub struct Workload {
    pub calls: u32,
    pub seed: u64,
}

/// Works a workload off within these bounds, as if its requests were the lines of a run, and then says three lines of it:
/// how many requests have a Done, how many epochs were committed, and the sum of the whole numbers in table `main`. The
/// new requests of a batch are committed to the files before those of the next are looked at. After a fault the cluster
/// is of no further use.
pub fn try_calls<
    R: Threads + Wait + Clock + Sync,
    H: Host,
    N: Net + Sync,
    P: Power,
    G: Gate + Sync,
>(
    rt: &R,
    alloc: Global,
    host: &mut H,
    net: &mut N,
    power: &mut P,
    cluster: &mut Cluster,
    load: Workload,
    bounds: RunBounds,
    gate: &G,
) -> Result<(), Stop>
    requires calls { load.calls ≤ 1000000 }
    requires seed { load.seed < 2 ^ 43 }
    requires some { 0 < bounds.size }
    requires few { bounds.size ≤ most_batch_lines }
    requires workers { 0 < bounds.workers }
    requires attempts { 0 < bounds.attempts }
    requires sound { IsSound cluster.old (N.sent net.old) }
    requires room { length cluster.old.kept.dones ≤ most_kept }
    requires stand { AllStand cluster.old (H.reads host.old) (H.may_leave host.old) }
    ensures { TriesOut H.Host cluster.old bounds (workload_of load.calls load.seed)
        (around N.Net P.Power net.old power.old)
        (around N.Net P.Power net.new power.new)
        (record { say = H.say_faults host.old; disk = H.disk_faults host.old }) (record { say = H.say_faults host.new; disk = H.disk_faults host.new })
        result host.old host.new }
{
    let requests = workload(alloc, load.calls, load.seed)?;
    // It tells that the built-in procedures are there.
    let _tree = cluster.procs.tree();
    let all = requests.as_slice();
    let worked = work_off(rt, alloc, host, net, power, cluster, all, bounds, gate)?;
    let rows = cluster.rows()?;
    let lists = rows.as_slice();
    let text = report_of(alloc, worked, lists)?;
    say_all(host, text.as_slice())?;
    Ok(())
}

// Works requests off within these bounds, one batch behind the other. Nothing is said.
fn work_off<R: Threads + Wait + Clock + Sync, H: Host, N: Net + Sync, P: Power, G: Gate + Sync>(
    rt: &R,
    alloc: Global,
    host: &mut H,
    net: &mut N,
    power: &mut P,
    cluster: &mut Cluster,
    requests: &[Request],
    bounds: RunBounds,
    gate: &G,
) -> Result<Tally, Stop>
    requires some { 0 < bounds.size }
    requires few { bounds.size ≤ most_batch_lines }
    requires workers { 0 < bounds.workers }
    requires attempts { 0 < bounds.attempts }
    requires fit { AllFit cluster.old.procs requests.now }
    requires sound { IsSound cluster.old (N.sent net.old) }
    requires room { length cluster.old.kept.dones ≤ most_kept }
    requires stand { AllStand cluster.old (H.reads host.old) (H.may_leave host.old) }
    ensures works { (c : Contents) → RestsOn c (H.reads host.old) (H.may_leave host.old) → StandsAt c cluster.old
        → Works H.Host c cluster.old.next_epoch (spare (around N.Net P.Power net.old power.old) (around N.Net P.Power net.new power.new)) bounds requests.now result cluster.new host.old host.new }
    ensures later { IsLater (around N.Net P.Power net.old power.old) (around N.Net P.Power net.new power.new) }
    ensures said { H.said host.new ≡ H.said host.old }
    ensures cause { HasCause cluster.old.next_epoch (length requests.now)
        (around N.Net P.Power net.old power.old) (around N.Net P.Power net.new power.new)
        (record { say = H.say_faults host.old; disk = H.disk_faults host.old }) (record { say = H.say_faults host.new; disk = H.disk_faults host.new }) (done_of result) }
{
    let mut worked = Tally {
        answered: 0,
        epochs: 0,
    };
    for part in requests.chunks(bounds.size as usize) {
        let more = work_part(rt, alloc, host, net, power, cluster, part, bounds, gate)?;
        worked.answered += more.answered;
        worked.epochs += more.epochs;
    }
    Ok(worked)
}
