//! The program over the arguments, the host and the streams that `main` makes.

ghost use Rattle.std.specs.Prelude.{◌≡◌, [], IfErr, IfOk, drop, map};
ghost use Rattle.std.specs.String.{string_bytes};
ghost use Rattle.coco_ending.specs.declared.ending.Ending.{Ending as CallEnding};
ghost use Rattle.coco_commands.specs.Serving.{around};
ghost use Rattle.coco.specs.Commands.{Obeys};
ghost use Rattle.coco.specs.Reporting.{IsReported};
ghost use Rattle.coco_lines.specs.Reads.{source_moment};

use crate::arguments::words_of;
use crate::top::{Reported, coco, report};
use coco_ending::Ending;
use coco_gate::Gate;
use coco_host::Host;
use coco_io::{Sink, Source};
use coco_net::Net;
use coco_power::Power;
use coco_types::NoMemory;
use std::alloc::Global;
use std::sync::Wait;
use std::thread::Threads;
use std::time::Clock;

/// Does what the arguments ask of the store in the host's files: their first two are the program's own name and the
/// folder's. Where there are no arguments, or memory ran out for the host, that is the ending, and nothing is touched. The
/// net has no letter of before.
pub fn program<
    R: Threads + Wait + Clock + Sync,
    H: Host,
    N: Net + Sync,
    P: Power,
    I: Source,
    E: Sink,
    G: Gate + Sync,
>(
    rt: &R,
    alloc: Global,
    given: &Result<Vec<String>, Ending>,
    host: &mut Result<H, NoMemory>,
    net: &mut N,
    power: &mut P,
    input: &mut I,
    errs: &mut E,
    gate: &G,
) -> Reported
    requires { N.sent net.old ≡ [] }
    ensures obeys { IfOk given.now (λ arguments. IfOk host.old (λ old. (new : H) × (host.new ≡ Ok new)
        × ((ending : CallEnding) × IsReported ending result (E.contents errs.old) (E.contents errs.new) (E.faults errs.old) (E.faults errs.new)
        × Obeys H.Host (map string_bytes (drop 2 arguments.items)) ending
        (record { source = source_moment I.Source input.old; source_faults = I.faults input.old; say_faults = H.say_faults old; disk_faults = H.disk_faults old; around = around N.Net P.Power net.old power.old })
        (record { source = source_moment I.Source input.new; source_faults = I.faults input.new; say_faults = H.say_faults new; disk_faults = H.disk_faults new; around = around N.Net P.Power net.new power.new })
        old new))) }
    ensures no_host { IfOk given.now (λ _. IfErr host.old (λ _. (host.new ≡ host.old) × (net.new ≡ net.old) × (power.new ≡ power.old) × (input.new ≡ input.old)
        × IsReported CallEnding.NoMemory result (E.contents errs.old) (E.contents errs.new) (E.faults errs.old) (E.faults errs.new))) }
    ensures no_arguments { IfErr given.now (λ ending. (host.new ≡ host.old) × (net.new ≡ net.old) × (power.new ≡ power.old) × (input.new ≡ input.old)
        × IsReported ending result (E.contents errs.old) (E.contents errs.new) (E.faults errs.old) (E.faults errs.new)) }
    ensures untouched { result.status ≡ 1 → (host.new ≡ host.old) × (net.new ≡ net.old) × (power.new ≡ power.old) × (input.new ≡ input.old) }
{
    match given {
        Ok(arguments) => match host {
            Ok(host) => coco(
                rt,
                alloc,
                words_of(arguments.as_slice()),
                host,
                net,
                power,
                input,
                errs,
                gate,
            ),
            Err(NoMemory) => report(alloc, &Ending::NoMemory, errs),
        },
        Err(ending) => report(alloc, ending, errs),
    }
}
