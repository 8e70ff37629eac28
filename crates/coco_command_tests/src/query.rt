//! Lines that only read, answered as a small store was at each of its epochs.

use coco_commands::{QueryBounds, RunBounds, query, run};
use coco_ending::Ending;
use coco_gate::{Gate, HoldGate, OpenGate};
use coco_host::MemoryHost;
use coco_init::init;
use coco_io::MemorySource;
use coco_net::QuietNet;
use coco_power::SteadyPower;
use coco_types::NoMemory;
use std::alloc::Global;
use std::sync::Wait;
use std::test::Fail;
use std::thread::Threads;
use std::time::Clock;

const NEVER: u64 = u64::MAX;

// Three epochs: the row is 70 in the first two and 71 in the third.
const LINES: &str = r#"{"args":[5,70],"call":"put","id":1}
{"args":[5],"call":"get","id":2}
{"args":[5,71],"call":"put","id":3}
"#;

const GETS: &str = r#"{"args":[5],"call":"get","id":9}
{"args":[5],"call":"get","id":10,"snapshot":true}
{"args":[5,1],"call":"put","id":9}
"#;

// What they are answered at the base, and at the ends of the last two epochs.
const AT_0: &str = r#"{"epoch":0,"id":9,"ok":null,"time":0}
{"epoch":0,"id":10,"ok":null,"time":0}
{"error":"snapshot","line":3}
"#;

const AT_2: &str = r#"{"epoch":2,"id":9,"ok":70,"time":0}
{"epoch":2,"id":10,"ok":70,"time":0}
{"error":"snapshot","line":3}
"#;

const AT_3: &str = r#"{"epoch":3,"id":9,"ok":71,"time":0}
{"epoch":3,"id":10,"ok":71,"time":0}
{"error":"snapshot","line":3}
"#;

// An input of this text, whose read of this number fails. Each read gives forty bytes.
fn input_of(alloc: Global, text: &str, failing: u64) -> Result<MemorySource, NoMemory> {
    let bytes = Vec::from_slice(alloc, text.as_bytes())?;
    let fails = Vec::from_slice(alloc, &[failing])?;
    let mut input = MemorySource::new(bytes, fails);
    input.short_reads(40);
    Ok(input)
}

fn store<R: Threads + Wait + Clock + Sync>(rt: &R, alloc: Global) -> Result<MemoryHost, NoMemory> {
    let mut host = MemoryHost::new(alloc, Vec::new(alloc));
    let _ = init(alloc, &mut host, &mut input_of(alloc, "", NEVER)?, 1, 1, 0);
    let alone = RunBounds {
        size: 1,
        workers: 1,
        attempts: 3,
    };
    let mut lines = input_of(alloc, LINES, NEVER)?;
    let mut net = QuietNet::new(alloc);
    let mut power = SteadyPower::new();
    let _ = run(
        rt, alloc, &mut host, &mut net, &mut power, &mut lines, alone, &OpenGate,
    );
    Ok(host)
}

// How a query of these lines ends, by two readers, and whether it says this.
fn asks<R: Threads + Wait + Sync, G: Gate + Sync>(
    rt: &R,
    alloc: Global,
    host: &mut MemoryHost,
    input: &mut MemorySource,
    epoch: u64,
    text: &str,
    gate: &G,
) -> (Ending, bool) {
    let before = host.said().len();
    let bounds = QueryBounds { epoch, readers: 2 };
    let ending = query(rt, alloc, host, input, bounds, gate);
    let said = host.said();
    let is_said = said.len() == before + text.len() && said.ends_with(text.as_bytes());
    (ending, is_said)
}

#[test]
fn lines_are_answered_as_the_store_was(rt: HostRuntime) -> Result<(), Fail> {
    let mut host = store(&rt, rt.alloc())?;
    let cases = [(0, AT_0), (2, AT_2), (3, AT_3)];
    for (epoch, text) in cases {
        let mut input = input_of(rt.alloc(), GETS, NEVER)?;
        let asked = asks(
            &rt,
            rt.alloc(),
            &mut host,
            &mut input,
            epoch,
            text,
            &OpenGate,
        );
        assert!(rt; asked == (Ending::Finished, true), "{epoch}");
    }
    Ok(())
}

// Not even an input whose first read fails is read.
#[test]
fn an_epoch_that_is_none_is_told_first(rt: HostRuntime) -> Result<(), Fail> {
    let mut host = store(&rt, rt.alloc())?;
    let mut input = input_of(rt.alloc(), GETS, 0)?;
    let outside = Ending::NotWithin {
        epoch: 4,
        first: 0,
        last: 3,
    };
    let asked = asks(&rt, rt.alloc(), &mut host, &mut input, 4, "", &OpenGate);
    assert!(rt; asked == (outside, true));
    let asked = asks(&rt, rt.alloc(), &mut host, &mut input, 3, "", &OpenGate);
    assert!(rt; asked == (Ending::ReadFault, true));
    Ok(())
}

#[test]
fn two_readers_meet(rt: HostRuntime) -> Result<(), Fail> {
    let mut host = store(&rt, rt.alloc())?;
    let gate = HoldGate::new(10_000_000);
    let mut input = input_of(rt.alloc(), GETS, NEVER)?;
    let asked = asks(&rt, rt.alloc(), &mut host, &mut input, 2, AT_2, &gate);
    assert!(rt; asked == (Ending::Finished, true));
    assert!(rt; gate.met());
    Ok(())
}

// Of 1,030 lines the first 1,024 are a batch, for which it takes 52 reads; they are answered though the next one fails.
#[test]
fn whole_batches_are_answered_before_a_fault(rt: HostRuntime) -> Result<(), Fail> {
    let alloc = rt.alloc();
    let mut lines = String::new(alloc);
    for _ in 0..1_030 {
        lines.push_str("{\n")?;
    }
    let cases = [
        (NEVER, Ending::Finished, 1_030),
        (52, Ending::ReadFault, 1_024),
        (50, Ending::ReadFault, 0),
    ];
    for (failing, ending, count) in cases {
        let mut text = String::new(alloc);
        for number in 1..=count {
            text.push_str(format!(in alloc;
                "{{\"error\":\"json\",\"line\":{number}}}\n"
            )?.as_str())?;
        }
        let mut host = store(&rt, alloc)?;
        let mut input = input_of(alloc, lines.as_str(), failing)?;
        let asked = asks(
            &rt,
            alloc,
            &mut host,
            &mut input,
            1,
            text.as_str(),
            &OpenGate,
        );
        assert!(rt; asked == (ending, true), "{count}");
    }
    Ok(())
}
