//! The commands on stores in memory: worked calls one after another, every call of the host failing in turn, and files
//! that are cut.

ghost use Rattle.std.specs.Prelude.{◌<◌, ◌≤◌};
ghost use Rattle.coco_types.specs.Limits.{most_batch_lines};

use crate::ending::{CHECK, PARSE};
use coco_commands::{RunBounds, dump, run, verify};
use coco_ending::{Ending, TextError};
use coco_gate::{Gate, HoldGate, OpenGate};
use coco_host::{FuseHost, Host, MemoryHost};
use coco_init::init;
use coco_io::MemorySource;
use coco_net::QuietNet;
use coco_power::SteadyPower;
use coco_types::NoMemory;
use std::alloc::Global;
use std::sync::Wait;
use std::test::Fail;
use std::thread::Threads;
use std::time::Clock;

// A command: a store is made of one node, or of three that have all of three partitions; runs are by one worker with each
// line in a batch of its own or with two in each, or by two workers.
#[derive(Clone, Copy)]
enum Asked {
    Init,
    InitThree,
    Run,
    RunPairs,
    RunSideBySide,
    Dump,
    Verify,
}

const ALONE: RunBounds = RunBounds {
    size: 1,
    workers: 1,
    attempts: 3,
};

const IN_PAIRS: RunBounds = RunBounds {
    size: 2,
    workers: 1,
    attempts: 3,
};

const BY_TWO: RunBounds = RunBounds {
    size: 2,
    workers: 2,
    attempts: 3,
};

// `run` with a net that loses nothing, and no stops.
fn run_on<R: Threads + Wait + Clock + Sync, H: Host, G: Gate + Sync>(
    rt: &R,
    alloc: Global,
    host: &mut H,
    input: &mut MemorySource,
    bounds: RunBounds,
    gate: &G,
) -> Ending
    requires some { 0 < bounds.size }
    requires few { bounds.size ≤ most_batch_lines }
    requires workers { 0 < bounds.workers }
    requires attempts { 0 < bounds.attempts }
{
    let mut net = QuietNet::new(alloc);
    let mut power = SteadyPower::new();
    run(rt, alloc, host, &mut net, &mut power, input, bounds, gate)
}

fn ending_of(made: Result<(), Ending>) -> Ending {
    match made {
        Ok(()) => Ending::Finished,
        Err(ending) => ending,
    }
}

fn call<R: Threads + Wait + Clock + Sync, H: Host, G: Gate + Sync>(
    rt: &R,
    alloc: Global,
    host: &mut H,
    asked: Asked,
    input: &mut MemorySource,
    gate: &G,
) -> Ending {
    match asked {
        Asked::Init => ending_of(init(alloc, host, input, 1, 1, 0)),
        Asked::InitThree => ending_of(init(alloc, host, input, 3, 3, 2)),
        Asked::Run => run_on(rt, alloc, host, input, ALONE, gate),
        Asked::RunPairs => run_on(rt, alloc, host, input, IN_PAIRS, gate),
        Asked::RunSideBySide => run_on(rt, alloc, host, input, BY_TWO, gate),
        Asked::Dump => dump(alloc, host),
        Asked::Verify => verify(alloc, host),
    }
}

// An input of this text, whose read of this number fails.
fn input_of(alloc: Global, text: &str, failing: u64) -> Result<MemorySource, NoMemory> {
    let bytes = Vec::from_slice(alloc, text.as_bytes())?;
    let fails = Vec::from_slice(alloc, &[failing])?;
    let mut input = MemorySource::new(bytes, fails);
    input.short_reads(40);
    Ok(input)
}

// How a call on this text ends.
fn ended<R: Threads + Wait + Clock + Sync, H: Host>(
    rt: &R,
    alloc: Global,
    host: &mut H,
    asked: Asked,
    text: &str,
) -> Result<Ending, NoMemory> {
    let mut input = input_of(alloc, text, NEVER)?;
    Ok(call(rt, alloc, host, asked, &mut input, &OpenGate))
}

const NEVER: u64 = u64::MAX;

fn new_host(alloc: Global, failing: u64) -> Result<MemoryHost, NoMemory> {
    Ok(MemoryHost::new(alloc, Vec::from_slice(alloc, &[failing])?))
}

// A new store, without epochs.
fn new_store<R: Threads + Wait + Clock + Sync>(
    rt: &R,
    alloc: Global,
) -> Result<MemoryHost, NoMemory> {
    let mut host = new_host(alloc, NEVER)?;
    ended(rt, alloc, &mut host, Asked::Init, "")?;
    Ok(host)
}

const LINES: &str = r#"{"args":[5,70],"call":"put","id":1}
{"args":[5],"call":"get","id":2}
"#;

const FIRST: &str = r#"{"args":[5,70],"call":"put","id":1}
"#;

const ANSWERS: &str = r#"{"epoch":1,"id":1,"ok":70,"time":1}
{"epoch":2,"id":2,"ok":70,"time":1}
"#;

const DUMP: &str =
    r#"{"args":[5,70],"call":"put","epoch":1,"id":1,"ok":70,"snapshot":false,"time":1}
{"args":[5],"call":"get","epoch":2,"id":2,"ok":70,"snapshot":false,"time":1}
{"row":5,"table":"main","value":70}
"#;

const EMPTY: Ending = Ending::NotAStore { file: 0, at: 0 };

// Each call on one store: its input, how it ends, and what it says.
const CALLS: [(Asked, &str, Ending, &str); 9] = [
    (Asked::Run, LINES, EMPTY, ""),
    (
        Asked::Init,
        "proc f() { refuse 1 }",
        Ending::Refused(TextError::Parse(PARSE)),
        "",
    ),
    (
        Asked::Init,
        "proc f() { let x = 1; }",
        Ending::Refused(TextError::Check(CHECK)),
        "",
    ),
    (Asked::Init, "", Ending::Finished, ""),
    (Asked::Init, "", Ending::AlreadyThere { bytes: 39 }, ""),
    (Asked::Run, LINES, Ending::Finished, ANSWERS),
    (Asked::RunPairs, LINES, Ending::Finished, ANSWERS),
    (Asked::Dump, "", Ending::Finished, DUMP),
    (Asked::Verify, "", Ending::Finished, "serial 2\n"),
];

// Whether a call on this host says this and nothing else, and ends so.
fn goes_so<R: Threads + Wait + Clock + Sync>(
    rt: &R,
    alloc: Global,
    host: &mut MemoryHost,
    row: &(Asked, &str, Ending, &str),
) -> Result<bool, NoMemory> {
    let (asked, text, ending, said) = row;
    let before = host.said().len();
    let is_ended = ended(rt, alloc, host, *asked, text)? == *ending;
    Ok(is_ended && host.said().get(before..) == Some(said.as_bytes()))
}

#[test]
fn worked_calls_follow_one_another(rt: HostRuntime) -> Result<(), Fail> {
    let mut host = new_host(rt.alloc(), NEVER)?;
    for (place, row) in CALLS.iter().enumerate() {
        assert!(rt; goes_so(&rt, rt.alloc(), &mut host, row)?, "call {place}");
    }
    Ok(())
}

const TWO_PUTS: &str = r#"{"args":[5,70],"call":"put","id":1}
{"args":[6,1],"call":"put","id":2}
"#;

const AT_ONE_TIME: &str = r#"{"epoch":1,"id":1,"ok":70,"time":1}
{"epoch":1,"id":2,"ok":1,"time":1}
"#;

// Each of two workers waits at its first attempt until the other has begun one.
#[test]
fn two_workers_run_side_by_side(rt: HostRuntime) -> Result<(), Fail> {
    let mut host = new_store(&rt, rt.alloc())?;
    let mut input = input_of(rt.alloc(), TWO_PUTS, NEVER)?;
    let gate = HoldGate::new(10_000_000);
    let ending = call(
        &rt,
        rt.alloc(),
        &mut host,
        Asked::RunSideBySide,
        &mut input,
        &gate,
    );
    let is_said = host.said() == AT_ONE_TIME.as_bytes();
    assert!(rt; is_said && ending == Ending::Finished && gate.met());
    Ok(())
}

// Whether a run whose second read fails says this. The first read gives the first line with four bytes behind it.
fn says_before_a_fault<R: Threads + Wait + Clock + Sync>(
    rt: &R,
    alloc: Global,
    asked: Asked,
    said: &str,
) -> Result<bool, NoMemory> {
    let mut host = new_store(rt, alloc)?;
    let mut input = input_of(alloc, LINES, 1)?;
    let ending = call(rt, alloc, &mut host, asked, &mut input, &OpenGate);
    Ok(host.said() == said.as_bytes() && ending == Ending::ReadFault)
}

#[test]
fn a_failing_read_leaves_whole_batches(rt: HostRuntime) -> Result<(), Fail> {
    let first = &ANSWERS[..36];
    assert!(rt; says_before_a_fault(&rt, rt.alloc(), Asked::Run, first)?);
    assert!(rt; says_before_a_fault(&rt, rt.alloc(), Asked::RunPairs, "")?);
    Ok(())
}

// After a crash by this pick the same lines are answered, each once.
fn goes_on<R: Threads + Wait + Clock + Sync>(
    rt: &R,
    alloc: Global,
    host: MemoryHost,
    pick: u64,
) -> Result<bool, NoMemory> {
    let mut host = host.crash(pick)?;
    let ending = ended(rt, alloc, &mut host, Asked::Run, LINES)?;
    let seventies = text_of(host.said()).matches("\"ok\":70,").count();
    let verdict = (Asked::Verify, "", Ending::Finished, "serial 2\n");
    let is_serial = goes_so(rt, alloc, &mut host, &verdict)?;
    Ok(ending == Ending::Finished && seventies == 2 && is_serial)
}

fn text_of(bytes: &[u8]) -> &str {
    std::str::from_utf8(bytes).unwrap_or("")
}

// Whether nothing is lost where this call of the host fails, none where the run ended before it. A call of `init` that
// fails leaves no store.
fn survives_a_failing_call<R: Threads + Wait + Clock + Sync>(
    rt: &R,
    alloc: Global,
    made: Asked,
    failing: u64,
    pick: u64,
) -> Result<Option<bool>, NoMemory> {
    let mut host = new_host(alloc, failing)?;
    if ended(rt, alloc, &mut host, made, "")? != Ending::Finished {
        return Ok(Some(true));
    }
    let ending = ended(rt, alloc, &mut host, Asked::Run, LINES)?;
    if ending == Ending::Finished {
        return Ok(None);
    }
    let fault = if host.say_faults() > 0 {
        Ending::SayFault
    } else {
        Ending::DiskFault
    };
    Ok(Some(ending == fault && goes_on(rt, alloc, host, pick)?))
}

// Whether nothing is lost where the host is given up behind so many writes and syncs, none where the run needs no more.
fn survives_a_fuse<R: Threads + Wait + Clock + Sync>(
    rt: &R,
    alloc: Global,
    made: Asked,
    passes: u64,
    pick: u64,
) -> Result<Option<bool>, NoMemory> {
    let mut host = new_host(alloc, NEVER)?;
    ended(rt, alloc, &mut host, made, "")?;
    let mut host = FuseHost::new(host, passes);
    let ending = ended(rt, alloc, &mut host, Asked::Run, LINES)?;
    if ending == Ending::Finished {
        return Ok(None);
    }
    let is_fault = matches!(ending, Ending::SayFault | Ending::DiskFault);
    Ok(Some(is_fault && goes_on(rt, alloc, host.inner(), pick)?))
}

// How a host fails: one of its calls does, or all behind so many writes and syncs.
#[derive(Clone, Copy, Debug)]
enum Failing {
    Once,
    FromThereOn,
}

// Where a host fails at each place in turn, the first place at which something is lost, and the last one.
fn failing_places<R: Threads + Wait + Clock + Sync>(
    rt: &R,
    alloc: Global,
    made: Asked,
    failing: Failing,
    pick: u64,
) -> Result<(Option<u64>, u64), NoMemory> {
    let mut last = 0;
    for place in 0..1000 {
        let survives = match failing {
            Failing::Once => survives_a_failing_call(rt, alloc, made, place, pick)?,
            Failing::FromThereOn => survives_a_fuse(rt, alloc, made, place, pick)?,
        };
        match survives {
            Some(true) => last = place,
            Some(false) => return Ok((Some(place), last)),
            None => return Ok((None, last)),
        }
    }
    Ok((None, last))
}

// The calls that fail in turn are those of `init` and then those of `run`.
#[test]
fn a_failing_host_loses_nothing(rt: HostRuntime) -> Result<(), Fail> {
    for made in [Asked::Init, Asked::InitThree] {
        for failing in [Failing::Once, Failing::FromThereOn] {
            for pick in 0..8 {
                let (bad, last) = failing_places(&rt, rt.alloc(), made, failing, pick)?;
                assert!(rt; bad.is_none() && last > 10, "{failing:?} {bad:?} {pick}");
            }
        }
    }
    Ok(())
}

// After a crash the history is found serial, and the first line is answered, which says this.
fn goes_on_with<R: Threads + Wait + Clock + Sync>(
    rt: &R,
    alloc: Global,
    host: MemoryHost,
    said: &str,
) -> Result<bool, NoMemory> {
    let mut host = host.crash(0)?;
    ended(rt, alloc, &mut host, Asked::Verify, "")?;
    let ending = ended(rt, alloc, &mut host, Asked::Run, FIRST)?;
    Ok(ending == Ending::Finished && host.said() == said.as_bytes())
}

const LEFT_OUT: &str = r#"serial 0
{"epoch":2,"id":1,"ok":70,"time":1}
"#;

// Opening syncs three files, and a prepared entry takes two writes and two syncs. So the host is given up at the first
// write of the commit entry: its epoch is left out, and its number isn't given again.
#[test]
fn an_epoch_without_its_commit_entry_is_left_out(rt: HostRuntime) -> Result<(), Fail> {
    let mut host = FuseHost::new(new_store(&rt, rt.alloc())?, 7);
    let ending = ended(&rt, rt.alloc(), &mut host, Asked::Run, FIRST)?;
    let host = host.inner();
    let is_silent = ending == Ending::DiskFault && host.said().is_empty();
    assert!(rt; is_silent && goes_on_with(&rt, rt.alloc(), host, LEFT_OUT)?);
    Ok(())
}

const KEPT: &str = r#"serial 1
{"epoch":1,"id":1,"ok":70,"time":1}
"#;

// Whether a run on a new store, whose call of this number fails, says this front of its answer and keeps its epoch. Ten
// bytes are said at a time.
fn says_a_front<R: Threads + Wait + Clock + Sync>(
    rt: &R,
    alloc: Global,
    failing: u64,
    front: &str,
) -> Result<bool, NoMemory> {
    let mut host = new_host(alloc, failing)?;
    host.short_says(10);
    ended(rt, alloc, &mut host, Asked::Init, "")?;
    let ending = ended(rt, alloc, &mut host, Asked::Run, FIRST)?;
    let is_front = ending == Ending::SayFault && host.said() == front.as_bytes();
    Ok(is_front && goes_on_with(rt, alloc, host, KEPT)?)
}

// The call of the host that fails, counted from 0, is the first or the second one that says.
#[test]
fn a_failing_say_leaves_a_front_of_the_answer(rt: HostRuntime) -> Result<(), Fail> {
    assert!(rt; says_a_front(&rt, rt.alloc(), 32, "")?);
    assert!(rt; says_a_front(&rt, rt.alloc(), 33, "{\"epoch\":1")?);
    Ok(())
}

// Whether a store of one epoch is refused whose file is cut to this length, at its first byte that is no log's.
fn is_refused_when_cut<R: Threads + Wait + Clock + Sync>(
    rt: &R,
    alloc: Global,
    file: u32,
    len: u64,
) -> Result<bool, NoMemory> {
    let mut host = new_store(rt, alloc)?;
    ended(rt, alloc, &mut host, Asked::Run, FIRST)?;
    host.cut(file, len);
    let refused = Ending::NotAStore {
        file,
        at: len.min(8),
    };
    Ok(ended(rt, alloc, &mut host, Asked::Run, LINES)? == refused)
}

#[test]
fn a_cut_file_is_refused_at_its_place(rt: HostRuntime) -> Result<(), Fail> {
    for len in 0..75 {
        let is_well = is_refused_when_cut(&rt, rt.alloc(), 1, len)?
            && (len > 8 || is_refused_when_cut(&rt, rt.alloc(), 0, len)?);
        assert!(rt; is_well, "{len} bytes");
    }
    Ok(())
}
