//! The command `run`.

ghost use Rattle.std.specs.Prelude.{◌≡◌, ◌<◌, ◌≤◌, []};
ghost use Rattle.coco_types.specs.Limits.{most_batch_lines};
ghost use Rattle.coco_cluster.specs.Around.{around};
ghost use Rattle.coco_commands.specs.Running.{RunsOn};
ghost use Rattle.coco_lines.specs.Reads.{source_moment};

use crate::opening::open_cluster;
use crate::stopping::ending_of;
use coco_ending::Ending;
use coco_gate::Gate;
use coco_host::Host;
use coco_io::Source;
use coco_net::Net;
use coco_power::Power;
use coco_serve::{RunBounds, answer_lines};
use std::alloc::Global;
use std::sync::Wait;
use std::thread::Threads;
use std::time::Clock;

/// Opens the store, and answers request lines on it to the end of the input, within these bounds. Its nodes send their
/// letters over a net that has none of before.
pub fn run<
    R: Threads + Wait + Clock + Sync,
    H: Host,
    N: Net + Sync,
    P: Power,
    S: Source,
    G: Gate + Sync,
>(
    rt: &R,
    alloc: Global,
    host: &mut H,
    net: &mut N,
    power: &mut P,
    input: &mut S,
    bounds: RunBounds,
    gate: &G,
) -> Ending
    requires some { 0 < bounds.size }
    requires few { bounds.size ≤ most_batch_lines }
    requires workers { 0 < bounds.workers }
    requires attempts { 0 < bounds.attempts }
    requires unsent { N.sent net.old ≡ [] }
    ensures { RunsOn H.Host bounds result
        (record { source = source_moment S.Source input.old; source_faults = S.faults input.old; say_faults = H.say_faults host.old; disk_faults = H.disk_faults host.old; around = around N.Net P.Power net.old power.old })
        (record { source = source_moment S.Source input.new; source_faults = S.faults input.new; say_faults = H.say_faults host.new; disk_faults = H.disk_faults host.new; around = around N.Net P.Power net.new power.new })
        host.old host.new }
{
    match open_cluster(alloc, host) {
        Ok(mut cluster) => ending_of(answer_lines(
            rt,
            alloc,
            host,
            net,
            power,
            &mut cluster,
            input,
            bounds,
            gate,
        )),
        Err(ending) => ending,
    }
}
