//! One batch: its turn, and then its answers.
ghost use Rattle.std.specs.Prelude.{◌≡◌, ◌⊎◌, ◌+◌, ◌≤◌, ◌<◌, length, OnOk};
ghost use Rattle.coco_types.specs.Limits.{most_batch_lines, most_kept};
ghost use Rattle.coco_append.specs.Gaining.{RestsOn};
ghost use Rattle.coco_batches.specs.Asking.{MayCommit};
ghost use Rattle.coco_cluster.specs.Around.{IsLater, SkipsFew, around, spare};
ghost use Rattle.coco_cluster.specs.Standing.{AllStand, IsSound, StandsAt};
ghost use Rattle.coco_cluster.specs.Turning.{epochs_of};
ghost use Rattle.coco_store.specs.Contents.{Contents};
ghost use Rattle.coco_serve.specs.Faults.{CountsBatch};
ghost use Rattle.coco_serve.specs.OneBatch.{IsRefused, WorksOffBatch};

use crate::bounds::RunBounds;
use coco_batches::{Batch, texts_of};
use coco_cluster::{Cluster, Stop};
use coco_gate::Gate;
use coco_host::{Host, say_all};
use coco_net::Net;
use coco_power::Power;
use std::alloc::Global;
use std::sync::Wait;
use std::thread::Threads;
use std::time::Clock;

/// Commits the new requests of a batch within these bounds, and then says its answers. After a fault the cluster is of
/// no further use.
pub fn turn_and_say<
    R: Threads + Wait + Clock + Sync,
    H: Host,
    N: Net + Sync,
    P: Power,
    G: Gate + Sync,
>(
    rt: &R,
    alloc: Global,
    host: &mut H,
    net: &mut N,
    power: &mut P,
    cluster: &mut Cluster,
    batch: Batch,
    bounds: RunBounds,
    gate: &G,
) -> Result<(), Stop>
    requires sound { IsSound cluster.old (N.sent net.old) }
    requires workers { 0 < bounds.workers }
    requires attempts { 0 < bounds.attempts }
    requires may { MayCommit cluster.old.procs cluster.old.kept batch.fresh }
    requires few { length batch.fresh ≤ most_batch_lines }
    requires stand { AllStand cluster.old (H.reads host.old) (H.may_leave host.old) }
    ensures answers { (c : Contents) → RestsOn c (H.reads host.old) (H.may_leave host.old) → StandsAt c cluster.old
        → IsRefused H.Host result c cluster.old.next_epoch (spare (around N.Net P.Power net.old power.old) (around N.Net P.Power net.new power.new)) host.old host.new ⊎ WorksOffBatch H.Host result batch bounds c cluster.old.next_epoch (spare (around N.Net P.Power net.old power.old) (around N.Net P.Power net.new power.new)) cluster.new host.old host.new }
    ensures stand { OnOk result (AllStand cluster.new (H.reads host.new) (H.may_leave host.new)) }
    ensures sound { OnOk result (IsSound cluster.new (N.sent net.new)) }
    ensures few { OnOk result (length cluster.new.kept.dones ≤ most_kept) }
    ensures next { OnOk result (SkipsFew cluster.old.next_epoch cluster.new.next_epoch (epochs_of batch.fresh) (spare (around N.Net P.Power net.old power.old) (around N.Net P.Power net.new power.new))) }
    ensures later { IsLater (around N.Net P.Power net.old power.old) (around N.Net P.Power net.new power.new) }
    ensures procs { cluster.new.procs ≡ cluster.old.procs }
    ensures counts { CountsBatch result cluster.old.next_epoch (around N.Net P.Power net.old power.old) (around N.Net P.Power net.new power.new) (length batch.fresh)
        (record { say = H.say_faults host.old; disk = H.disk_faults host.old })
        (record { say = H.say_faults host.new; disk = H.disk_faults host.new }) }
{
    let Batch { answers, fresh } = batch;
    let requests = fresh.into_requests(alloc)?;
    cluster.turn(
        rt,
        alloc,
        host,
        net,
        power,
        requests,
        bounds.workers,
        bounds.attempts,
        gate,
    )?;
    let texts = texts_of(alloc, &cluster.kept, answers.as_slice())?;
    say_all(host, texts.as_slice())?;
    Ok(())
}
