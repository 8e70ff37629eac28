//! The command `try`.

ghost use Rattle.std.specs.Prelude.{◌≡◌, ◌<◌, ◌≤◌, ◌^◌, []};
ghost use Rattle.coco_types.specs.Limits.{most_batch_lines};
ghost use Rattle.coco_cluster.specs.Around.{around};
ghost use Rattle.coco_gen.specs.Workload.{workload_of};
ghost use Rattle.coco_commands.specs.Trying.{TriesOn};

use crate::opening::open_cluster;
use crate::stopping::ending_of;
use coco_ending::Ending;
use coco_gate::Gate;
use coco_host::Host;
use coco_net::Net;
use coco_power::Power;
use coco_serve::RunBounds;
use coco_try::{Workload, try_calls};
use std::alloc::Global;
use std::sync::Wait;
use std::thread::Threads;
use std::time::Clock;

/// Opens the store, works a workload off on it within these bounds, and says three lines of it. Its nodes send their
/// letters over a net that has none of before.
pub fn try_out<R: Threads + Wait + Clock + Sync, H: Host, N: Net + Sync, P: Power, G: Gate + Sync>(
    rt: &R,
    alloc: Global,
    host: &mut H,
    net: &mut N,
    power: &mut P,
    load: Workload,
    bounds: RunBounds,
    gate: &G,
) -> Ending
    requires calls { load.calls ≤ 1000000 }
    requires seed { load.seed < 2 ^ 43 }
    requires some { 0 < bounds.size }
    requires few { bounds.size ≤ most_batch_lines }
    requires workers { 0 < bounds.workers }
    requires attempts { 0 < bounds.attempts }
    requires unsent { N.sent net.old ≡ [] }
    ensures { TriesOn H.Host bounds (workload_of load.calls load.seed) result
        (around N.Net P.Power net.old power.old)
        (around N.Net P.Power net.new power.new)
        (record { say = H.say_faults host.old; disk = H.disk_faults host.old }) (record { say = H.say_faults host.new; disk = H.disk_faults host.new })
        host.old host.new }
{
    match open_cluster(alloc, host) {
        Ok(mut cluster) => ending_of(try_calls(
            rt,
            alloc,
            host,
            net,
            power,
            &mut cluster,
            load,
            bounds,
            gate,
        )),
        Err(ending) => ending,
    }
}
