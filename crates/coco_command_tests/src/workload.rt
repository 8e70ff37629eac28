//! Workloads that are made from a number, worked off on stores of one node and of three.

ghost use Rattle.std.specs.Prelude.{◌≡◌, ◌<◌, ◌≤◌, ◌^◌, []};
ghost use Rattle.coco_types.specs.Limits.{most_batch_lines};

use crate::made::{LAYOUTS, host_with};
use coco_commands::{RunBounds, Workload, migrate, run, try_out, verify};
use coco_ending::Ending;
use coco_gate::OpenGate;
use coco_host::{Host, MemoryHost};
use coco_init::init;
use coco_io::MemorySource;
use coco_net::{Lose, Net, QuietNet, ScriptNet, SeededNet};
use coco_power::SteadyPower;
use coco_types::{NoMemory, OutFault};
use std::alloc::Global;
use std::sync::Wait;
use std::test::Fail;
use std::thread::Threads;
use std::time::Clock;

const NEVER: u64 = u64::MAX;

fn input_of(alloc: Global, text: &str) -> Result<MemorySource, NoMemory> {
    let bytes = Vec::from_slice(alloc, text.as_bytes())?;
    Ok(MemorySource::new(bytes, Vec::new(alloc)))
}

// A new store of so many nodes with as many partitions, of each of which all others have a copy. One call of the host
// fails.
fn new_store(alloc: Global, nodes: u8, failing: u64) -> Result<MemoryHost, NoMemory>
    requires some { 0 < nodes }
    requires few { nodes ≤ 8 }
{
    let mut host = MemoryHost::new(alloc, Vec::from_slice(alloc, &[failing])?);
    let _ = init(
        alloc,
        &mut host,
        &mut input_of(alloc, "")?,
        nodes,
        nodes,
        nodes - 1,
    );
    Ok(host)
}

// So many requests in a batch, and so many workers.
fn bounds(size: u32, workers: u8) -> RunBounds
    ensures size { result.size ≡ size }
    ensures workers { result.workers ≡ workers }
    ensures attempts { result.attempts ≡ 3 }
{
    RunBounds {
        size,
        workers,
        attempts: 3,
    }
}

// How a workload ends over a net.
fn ended<R: Threads + Wait + Clock + Sync, H: Host, N: Net + Sync>(
    rt: &R,
    alloc: Global,
    host: &mut H,
    net: &mut N,
    load: Workload,
    bounds: RunBounds,
) -> Ending
    requires calls { load.calls ≤ 1000000 }
    requires seed { load.seed < 2 ^ 43 }
    requires some { 0 < bounds.size }
    requires few { bounds.size ≤ most_batch_lines }
    requires workers { 0 < bounds.workers }
    requires attempts { 0 < bounds.attempts }
    requires unsent { N.sent net.old ≡ [] }
{
    let mut power = SteadyPower::new();
    try_out(rt, alloc, host, net, &mut power, load, bounds, &OpenGate)
}

// Whether it ends well and says this and nothing else.
fn says<R: Threads + Wait + Clock + Sync, N: Net + Sync>(
    rt: &R,
    alloc: Global,
    host: &mut MemoryHost,
    net: &mut N,
    load: Workload,
    bounds: RunBounds,
    said: &str,
) -> bool
    requires calls { load.calls ≤ 1000000 }
    requires seed { load.seed < 2 ^ 43 }
    requires some { 0 < bounds.size }
    requires few { bounds.size ≤ most_batch_lines }
    requires workers { 0 < bounds.workers }
    requires attempts { 0 < bounds.attempts }
    requires unsent { N.sent net.old ≡ [] }
{
    let before = host.said().len();
    let ending = ended(rt, alloc, host, net, load, bounds);
    ending == Ending::Finished && host.said().get(before..) == Some(said.as_bytes())
}

const TWO_THOUSAND: Workload = Workload {
    calls: 2_000,
    seed: 7,
};

const FORTY: Workload = Workload { calls: 40, seed: 7 };

const THREE: Workload = Workload { calls: 3, seed: 7 };

#[test]
fn a_workload_is_told_of(rt: HostRuntime) -> Result<(), Fail> {
    let alloc = rt.alloc();
    let cases = [
        (TWO_THOUSAND, 1, 1, "calls 2000\nepochs 2000\nsum 0\n"),
        (TWO_THOUSAND, 100, 1, "calls 2000\nepochs 20\nsum 0\n"),
        (TWO_THOUSAND, 1_024, 4, "calls 2000\nepochs 2\nsum 0\n"),
        // The third call adds 61 to a row, and no fourth takes them from another.
        (THREE, 2, 1, "calls 3\nepochs 2\nsum 61\n"),
    ];
    for (load, size, workers, said) in &cases {
        let mut host = new_store(alloc, 1, NEVER)?;
        let mut net = QuietNet::new(alloc);
        let bounds = bounds(*size, *workers);
        assert!(rt;
            says(&rt, alloc, &mut host, &mut net, *load, bounds, said),
            "{said}"
        );
    }
    Ok(())
}

// What is known from before has its Done and makes no epoch of its own. The fourth call takes from a row what the third
// added.
#[test]
fn known_calls_make_no_epoch(rt: HostRuntime) -> Result<(), Fail> {
    let alloc = rt.alloc();
    let mut host = new_store(alloc, 1, NEVER)?;
    let cases = [
        (THREE, "calls 3\nepochs 1\nsum 61\n"),
        (THREE, "calls 3\nepochs 0\nsum 61\n"),
        (FORTY, "calls 40\nepochs 4\nsum 0\n"),
        (FORTY, "calls 40\nepochs 0\nsum 0\n"),
        (THREE, "calls 3\nepochs 0\nsum 0\n"),
    ];
    for (load, said) in &cases {
        let mut net = QuietNet::new(alloc);
        assert!(rt;
            says(&rt, alloc, &mut host, &mut net, *load, bounds(10, 4), said),
            "{said}"
        );
    }
    Ok(())
}

// The ids of two of the calls, one with its call and one with another; and a text and a number in rows of no call.
const LINES: &str = r#"{"args":[337,807],"call":"add","id":7340033}
{"args":[5,70],"call":"put","id":7340034}
{"args":[1000,"a"],"call":"put","id":1}
{"args":[1001,-9223372036854775808],"call":"put","id":2}
{"args":[1002,-9223372036854775808],"call":"put","id":3}
"#;

// Of the forty calls one is refused, which would have taken 807.
const TOLD: &str = "calls 39\nepochs 4\nsum -18446744073709550739\n";

// With one epoch's replies kept, the calls of the first three batches are old.
const TOLD_AGAIN: &str = "calls 10\nepochs 0\nsum -18446744073709550739\n";

#[test]
fn refused_calls_are_not_counted(rt: HostRuntime) -> Result<(), Fail> {
    let alloc = rt.alloc();
    let mut host = new_store(alloc, 1, NEVER)?;
    let mut input = input_of(alloc, LINES)?;
    let mut power = SteadyPower::new();
    let mut net = QuietNet::new(alloc);
    let ten = bounds(10, 1);
    let ending = run(
        &rt, alloc, &mut host, &mut net, &mut power, &mut input, ten, &OpenGate,
    );
    assert!(rt; ending == Ending::Finished);
    let mut net = QuietNet::new(alloc);
    assert!(rt; says(&rt, alloc, &mut host, &mut net, FORTY, ten, TOLD));
    assert!(rt; migrate(alloc, &mut host, 1) == Ending::Finished);
    let mut net = QuietNet::new(alloc);
    assert!(rt; says(&rt, alloc, &mut host, &mut net, FORTY, ten, TOLD_AGAIN));
    Ok(())
}

// Whether a workload on three nodes over this net is told of, and leaves a store that tells of all its calls.
fn goes_well<R: Threads + Wait + Clock + Sync, N: Net + Sync>(
    rt: &R,
    alloc: Global,
    net: &mut N,
) -> Result<bool, NoMemory>
    requires { N.sent net.old ≡ [] }
{
    let mut host = new_store(alloc, 3, NEVER)?;
    let said = "calls 40\nepochs 4\nsum 0\n";
    let is_told = says(rt, alloc, &mut host, net, FORTY, bounds(10, 4), said);
    let mut host = host.crash(0)?;
    let is_serial = verify(alloc, &mut host) == Ending::Finished;
    Ok(is_told && is_serial && host.said() == "serial 40\n".as_bytes())
}

#[test]
fn a_workload_goes_well_on_three_nodes(rt: HostRuntime) -> Result<(), Fail> {
    let alloc = rt.alloc();
    assert!(rt; goes_well(&rt, alloc, &mut QuietNet::new(alloc))?);
    for seed in [0, 5, 9_223_372_036_854_775_807] {
        let mut net = SeededNet::new(alloc);
        net.disturb(seed);
        assert!(rt; goes_well(&rt, alloc, &mut net)?, "seed {seed}");
    }
    let mut net = ScriptNet::new(alloc, Lose::FirstSend, true, 2);
    assert!(rt; goes_well(&rt, alloc, &mut net)?);
    Ok(())
}

#[test]
fn nothing_is_said_where_a_workload_breaks_off(rt: HostRuntime) -> Result<(), Fail> {
    let alloc = rt.alloc();
    let mut host = new_store(alloc, 3, NEVER)?;
    let mut net = ScriptNet::new(alloc, Lose::To(2), false, 1);
    let ending = ended(&rt, alloc, &mut host, &mut net, THREE, bounds(2, 1));
    assert!(rt; ending == Ending::Unreachable && host.said().is_empty());
    let mut host = MemoryHost::new(alloc, Vec::new(alloc));
    let mut net = QuietNet::new(alloc);
    let ending = ended(&rt, alloc, &mut host, &mut net, THREE, bounds(2, 1));
    assert!(rt; ending == Ending::NotAStore { file: 0, at: 0 } && host.said().is_empty());
    Ok(())
}

// A store without history, in whose node's file an entry of this number stands, less than 256 below the end of all.
fn store_near_the_end(alloc: Global, low: u8) -> Result<MemoryHost, OutFault> {
    let prepared = [
        b'C', b'O', b'C', b'O', b'L', b'O', b'G', 2, 1, 0, 0, 0, 13, 3, 0, 0, 0, 255, 255, 255,
        255, low, 0, 0, 0, 0, 0,
    ];
    let commits = b"COCOLOG\x01\0";
    host_with(alloc, &[(0, &LAYOUTS), (1, commits), (2, &prepared)])
}

// The first batch, of two calls, is committed where the greatest number is left.
#[test]
fn nothing_is_said_where_epochs_are_used_up(rt: HostRuntime) -> Result<(), Fail> {
    let alloc = rt.alloc();
    for (low, told) in [(254, "serial 2\n"), (255, "serial 0\n")] {
        let mut host = store_near_the_end(alloc, low)?;
        let mut net = QuietNet::new(alloc);
        let ending = ended(&rt, alloc, &mut host, &mut net, THREE, bounds(2, 1));
        let is_silent = ending == Ending::EpochsUsedUp && host.said().is_empty();
        let is_serial = verify(alloc, &mut host) == Ending::Finished;
        assert!(rt;
            is_silent && is_serial && host.said() == told.as_bytes(),
            "{low}"
        );
    }
    Ok(())
}

// Whether a workload whose host fails at this call ends so, says nothing or a front, and goes on behind a crash; none
// where it ended before that call.
fn survives<R: Threads + Wait + Clock + Sync>(
    rt: &R,
    alloc: Global,
    failing: u64,
) -> Result<Option<bool>, NoMemory> {
    let mut host = new_store(alloc, 1, failing)?;
    let mut net = QuietNet::new(alloc);
    let ending = ended(rt, alloc, &mut host, &mut net, THREE, bounds(2, 1));
    if ending == Ending::Finished {
        return Ok(None);
    }
    let fault = if host.say_faults() > 0 {
        Ending::SayFault
    } else {
        Ending::DiskFault
    };
    let is_silent = host.said().is_empty();
    let mut host = host.crash(failing)?;
    let mut net = QuietNet::new(alloc);
    let ending_then = ended(rt, alloc, &mut host, &mut net, THREE, bounds(2, 1));
    let said = std::str::from_utf8(host.said()).unwrap_or("");
    let goes_on = said.starts_with("calls 3\nepochs ") && said.ends_with("\nsum 61\n");
    Ok(Some(ending == fault && is_silent && ending_then == Ending::Finished && goes_on))
}

// The first calls are those of `init`.
#[test]
fn no_failing_call_loses_a_request(rt: HostRuntime) -> Result<(), Fail> {
    let mut last = 0;
    for failing in 12..200 {
        match survives(&rt, rt.alloc(), failing)? {
            Some(survives) => assert!(rt; survives, "call {failing}"),
            None => break,
        }
        last = failing;
    }
    assert!(rt; last > 20, "{last} calls");
    Ok(())
}
