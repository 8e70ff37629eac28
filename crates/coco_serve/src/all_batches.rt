//! Request lines answered batch by batch, to the end of the input.
ghost use Rattle.std.specs.Prelude.{◌<◌, ◌≤◌, length};
ghost use Rattle.coco_types.specs.Limits.{most_batch_lines, most_kept};
ghost use Rattle.coco_cluster.specs.Around.{around};
ghost use Rattle.coco_cluster.specs.Standing.{AllStand, IsSound};
ghost use Rattle.coco_serve.specs.Serving.{Runs};
ghost use Rattle.coco_lines.specs.Reads.{source_moment};

use crate::bounds::RunBounds;
use crate::one_batch::turn_and_say;
use coco_batches::read_batch;
use coco_cluster::{Cluster, Stop};
use coco_gate::Gate;
use coco_host::Host;
use coco_io::Source;
use coco_lines::{LineFault, Reader, Scratch};
use coco_net::Net;
use coco_power::Power;
use std::alloc::Global;
use std::sync::Wait;
use std::thread::Threads;
use std::time::Clock;

/// Reads request lines to the end of the input, and works them off within these bounds. The new requests of a batch are
/// committed to the files before its answers are said.
pub fn answer_lines<
    R: Threads + Wait + Clock + Sync,
    H: Host,
    N: Net + Sync,
    P: Power,
    S: Source,
    G: Gate + Sync,
>(
    rt: &R,
    alloc: Global,
    host: &mut H,
    net: &mut N,
    power: &mut P,
    cluster: &mut Cluster,
    input: &mut S,
    bounds: RunBounds,
    gate: &G,
) -> Result<(), Stop>
    requires some { 0 < bounds.size }
    requires few { bounds.size ≤ most_batch_lines }
    requires workers { 0 < bounds.workers }
    requires attempts { 0 < bounds.attempts }
    requires sound { IsSound cluster.old (N.sent net.old) }
    requires room { length cluster.old.kept.dones ≤ most_kept }
    requires stand { AllStand cluster.old (H.reads host.old) (H.may_leave host.old) }
    ensures { Runs H.Host cluster.old bounds
        (record { source = source_moment S.Source input.old; source_faults = S.faults input.old; say_faults = H.say_faults host.old; disk_faults = H.disk_faults host.old; around = around N.Net P.Power net.old power.old })
        (record { source = source_moment S.Source input.new; source_faults = S.faults input.new; say_faults = H.say_faults host.new; disk_faults = H.disk_faults host.new; around = around N.Net P.Power net.new power.new })
        result host.old host.new }
{
    let mut reader = Reader::new(alloc);
    let mut scratch = Scratch::new(alloc);
    'batches: loop {
        let batch = match read_batch(
            alloc,
            &mut scratch,
            &cluster.procs,
            &mut reader,
            input,
            &cluster.kept,
            bounds.size,
        ) {
            Ok(batch) => batch,
            Err(LineFault::NoMemory) => return Err(Stop::NoMemory),
            Err(LineFault::Failed) => return Err(Stop::Read),
            Err(LineFault::TooMuch) => return Err(Stop::Read),
        };
        let count = batch.answers.len();
        if count == 0 {
            return Ok(());
        }
        turn_and_say(rt, alloc, host, net, power, cluster, batch, bounds, gate)?;
        if count < bounds.size as usize {
            return Ok(());
        }
    }
}
