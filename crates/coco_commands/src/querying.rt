//! The command `query`.

ghost use Rattle.std.specs.Prelude.{◌≡◌, ◌<◌};
ghost use Rattle.coco_cluster.specs.Around.{Around};
ghost use Rattle.coco_commands.specs.Querying.{Queries, ending_of_asking, ending_of_tables};
ghost use Rattle.coco_lines.specs.Reads.{source_moment};

use crate::opening::ending_of_opening;
use coco_asks::{Asked, QueryBounds, answer_asks};
use coco_ending::Ending;
use coco_gate::Gate;
use coco_host::Host;
use coco_io::Source;
use coco_query::{TablesFault, ranges_are_histories, tables_at};
use coco_recover::recover_whole;
use std::alloc::Global;
use std::sync::Wait;
use std::thread::Threads;

/// Opens the store, and answers request lines that only read, to the end of the input, by its rows as they were at the
/// end of an epoch. An epoch that the store has no rows of is told before any input is read. No file changes.
pub fn query<R: Threads + Wait + Sync, H: Host, S: Source, G: Gate + Sync>(
    rt: &R,
    alloc: Global,
    host: &mut H,
    input: &mut S,
    bounds: QueryBounds,
    gate: &G,
) -> Ending
    requires { 0 < bounds.readers }
    ensures { (around : Around) → Queries H.Host bounds.epoch result
        (record { source = source_moment S.Source input.old; source_faults = S.faults input.old; say_faults = H.say_faults host.old; disk_faults = H.disk_faults host.old; around = around })
        (record { source = source_moment S.Source input.new; source_faults = S.faults input.new; say_faults = H.say_faults host.new; disk_faults = H.disk_faults host.new; around = around })
        host.old host.new }
{
    let store = match recover_whole(alloc, host) {
        Ok(store) => store,
        Err(fault) => return ending_of_opening(fault),
    };
    ranges_are_histories();
    match tables_at(alloc, store, bounds.epoch) {
        Ok((tables, procs)) => ending_of_asking(answer_asks(
            rt, alloc, host, input, tables, &procs, bounds, gate,
        )),
        Err(fault) => ending_of_tables(bounds.epoch, fault),
    }
}

// How a call ends that finds no tables of this epoch.
fn ending_of_tables(epoch: u64, fault: TablesFault) -> Ending
    ensures { result ≡ ending_of_tables epoch fault }
{
    match fault {
        TablesFault::NotIn { first, last } => Ending::NotWithin { epoch, first, last },
        TablesFault::NoMemory => Ending::NoMemory,
    }
}

// How a call ends whose lines were answered up to this ending.
fn ending_of_asking(asked: Asked) -> Ending
    ensures { result ≡ ending_of_asking asked }
{
    match asked {
        Asked::Finished => Ending::Finished,
        Asked::ReadFault => Ending::ReadFault,
        Asked::SayFault => Ending::SayFault,
        Asked::NoMemory => Ending::NoMemory,
    }
}
