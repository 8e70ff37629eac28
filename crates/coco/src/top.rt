//! The top call: words in, a status out.

ghost use Rattle.std.specs.Prelude.{◌≡◌, [], map};
ghost use Rattle.std.specs.String.{string_bytes};
ghost use Rattle.coco_ending.specs.declared.ending.Ending.{Ending as CallEnding};
ghost use Rattle.coco_words.specs.Commands.{Agree, kind_of, numbers_of, options_of};
ghost use Rattle.coco_words.specs.Options.{AreInRange};
ghost use Rattle.coco_commands.specs.Serving.{around};
ghost use Rattle.coco.specs.Commands.{Does, Inits, Obeys, bounds_of, seed_from};
ghost use Rattle.coco.specs.Reporting.{IsReported};
ghost use Rattle.coco_lines.specs.Reads.{source_moment};

use coco_commands::{
    QueryBounds, RunBounds, Workload, compact, dump, migrate, query, rebuild, run, try_out, verify,
};
use coco_ending::Ending;
use coco_gate::Gate;
use coco_host::Host;
use coco_init::init;
use coco_io::{Sink, Source};
use coco_net::Net;
use coco_power::Power;
use coco_types::OutFault;
use coco_words::{Command, RunOptions, WordsFault, words as command_of};
use std::alloc::Global;
use std::sync::Wait;
use std::thread::Threads;
use std::time::Clock;

/// What a call leaves behind its ending.
#[derive(Clone, Copy, Debug, PartialEq, Eq)]
pub struct Reported {
    /// The program's status.
    pub status: u8,
    /// Whether the line of the ending was written: its front alone, where the error stream failed or memory ran out.
    pub line: Result<(), OutFault>,
}

/// Does what the words ask of the store in the host's files, and answers the program's status. A status other than 0
/// has its line on the error stream, whose faults change nothing. Where several workers run, they pass the gate as an
/// attempt begins and as one commits; one worker passes none. Readers pass it before each request and behind it. The net
/// has no letter of before.
pub fn coco<
    R: Threads + Wait + Clock + Sync,
    H: Host,
    N: Net + Sync,
    P: Power,
    I: Source,
    E: Sink,
    G: Gate + Sync,
>(
    rt: &R,
    alloc: Global,
    words: &[String],
    host: &mut H,
    net: &mut N,
    power: &mut P,
    input: &mut I,
    errs: &mut E,
    gate: &G,
) -> Reported
    requires { N.sent net.old ≡ [] }
    // The status and the line on the error stream are those of one ending, in which the words were obeyed.
    ensures obeys { (ending : CallEnding) × IsReported ending result (E.contents errs.old) (E.contents errs.new) (E.faults errs.old) (E.faults errs.new)
        × Obeys H.Host (map string_bytes words.now) ending
        (record { source = source_moment I.Source input.old; source_faults = I.faults input.old; say_faults = H.say_faults host.old; disk_faults = H.disk_faults host.old; around = around N.Net P.Power net.old power.old })
        (record { source = source_moment I.Source input.new; source_faults = I.faults input.new; say_faults = H.say_faults host.new; disk_faults = H.disk_faults host.new; around = around N.Net P.Power net.new power.new })
        host.old host.new }
    ensures untouched { result.status ≡ 1 → (host.new ≡ host.old) × (net.new ≡ net.old) × (power.new ≡ power.old) × (input.new ≡ input.old) }
{
    let ending = obey(rt, alloc, words, host, net, power, input, gate);
    report(alloc, &ending, errs)
}

/// Writes the line of an ending, or the front of it where that fails, and answers its status.
pub fn report<E: Sink>(alloc: Global, ending: &Ending, errs: &mut E) -> Reported
    ensures { IsReported ending.now result (E.contents errs.old) (E.contents errs.new) (E.faults errs.old) (E.faults errs.new) }
{
    let line = ending.complain(alloc, errs);
    Reported {
        status: ending.status(),
        line,
    }
}

// The same but for the error stream.
fn obey<
    R: Threads + Wait + Clock + Sync,
    H: Host,
    N: Net + Sync,
    P: Power,
    I: Source,
    G: Gate + Sync,
>(
    rt: &R,
    alloc: Global,
    words: &[String],
    host: &mut H,
    net: &mut N,
    power: &mut P,
    input: &mut I,
    gate: &G,
) -> Ending
    requires { N.sent net.old ≡ [] }
    ensures obeys { Obeys H.Host (map string_bytes words.now) result
        (record { source = source_moment I.Source input.old; source_faults = I.faults input.old; say_faults = H.say_faults host.old; disk_faults = H.disk_faults host.old; around = around N.Net P.Power net.old power.old })
        (record { source = source_moment I.Source input.new; source_faults = I.faults input.new; say_faults = H.say_faults host.new; disk_faults = H.disk_faults host.new; around = around N.Net P.Power net.new power.new })
        host.old host.new }
    ensures untouched { result ≡ CallEnding.BadCommandLine → (host.new ≡ host.old) × (net.new ≡ net.old) × (power.new ≡ power.old) × (input.new ≡ input.old) }
{
    match command_of(alloc, words) {
        Ok(command) => execute(rt, alloc, command, host, net, power, input, gate),
        Err(WordsFault::Usage) => Ending::BadCommandLine,
        Err(WordsFault::NoMemory) => Ending::NoMemory,
    }
}

// Does what a command asks.
fn execute<
    R: Threads + Wait + Clock + Sync,
    H: Host,
    N: Net + Sync,
    P: Power,
    I: Source,
    G: Gate + Sync,
>(
    rt: &R,
    alloc: Global,
    command: Command,
    host: &mut H,
    net: &mut N,
    power: &mut P,
    input: &mut I,
    gate: &G,
) -> Ending
    requires range { AreInRange (options_of command) (numbers_of command) }
    requires agree { Agree (kind_of command) (numbers_of command) }
    requires unsent { N.sent net.old ≡ [] }
    ensures { Does H.Host command result
        (record { source = source_moment I.Source input.old; source_faults = I.faults input.old; say_faults = H.say_faults host.old; disk_faults = H.disk_faults host.old; around = around N.Net P.Power net.old power.old })
        (record { source = source_moment I.Source input.new; source_faults = I.faults input.new; say_faults = H.say_faults host.new; disk_faults = H.disk_faults host.new; around = around N.Net P.Power net.new power.new })
        host.old host.new }
{
    match command {
        Command::Init {
            nodes,
            partitions,
            copies,
        } => match init(alloc, host, input, nodes, partitions, copies) {
            Ok(()) => Ending::Finished,
            Err(ending) => ending,
        },
        Command::Run(options) => {
            disturb(net, options.disturb);
            run(rt, alloc, host, net, power, input, bounds_of(options), gate)
        }
        Command::Dump => dump(alloc, host),
        Command::Verify => verify(alloc, host),
        Command::Migrate { keep } => migrate(alloc, host, keep),
        Command::Compact => compact(alloc, host),
        Command::Rebuild { node } => rebuild(alloc, host, node),
        Command::Query { at, readers } => {
            let bounds = QueryBounds { epoch: at, readers };
            query(rt, alloc, host, input, bounds, gate)
        }
        Command::Try {
            calls,
            seed,
            options,
        } => {
            disturb(net, options.disturb);
            let load = Workload { calls, seed };
            try_out(rt, alloc, host, net, power, load, bounds_of(options), gate)
        }
    }
}

// Asks the net for the disturbances of a seed, where there is one.
fn disturb<N: Net>(net: &mut N, seed: Option<u64>)
    ensures seed { N.last_seed net.new ≡ seed_from seed (N.last_seed net.old) }
    ensures sent { N.sent net.new ≡ N.sent net.old }
    ensures given { N.given net.new ≡ N.given net.old }
    ensures faults { N.faults net.new ≡ N.faults net.old }
{
    if let Some(seed) = seed {
        net.disturb(seed);
    }
}

// How `run` and `try` work their requests off, by their options.
fn bounds_of(options: RunOptions) -> RunBounds
    ensures { result ≡ bounds_of options }
{
    RunBounds {
        size: options.epoch,
        workers: options.workers,
        attempts: options.attempts,
    }
}
