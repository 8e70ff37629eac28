//! The worked store of two epochs, given keep numbers.

ghost use Rattle.std.specs.Prelude.{◌<◌, ◌≤◌};
ghost use Rattle.coco_types.specs.Limits.{most_batch_lines, most_keep};

use coco_commands::{RunBounds, migrate, recover, run};
use coco_ending::Ending;
use coco_gate::OpenGate;
use coco_host::{FuseHost, Host, MemoryHost};
use coco_io::MemorySource;
use coco_net::QuietNet;
use coco_power::SteadyPower;
use std::alloc::Global;
use std::sync::Wait;
use std::test::Fail;
use std::thread::Threads;
use std::time::Clock;

// One node, one partition, no copies, and an empty text: without a keep number, with 1, and with 2 behind that.
const LAYOUTS: [u8; 103] =
    *b"COCOLOG\x00\x01\x00\x00\x00\x19\x01\x01\x01\x01\x00\x00\x00\x00\x01\x00\x00\x00\x02\x00\x00\x00\x00\x00\x00\x00\x00\x00\x00\x00\x00\
\x01\x00\x00\x00\x1b\x01\x02\x01\x01\x00\x00\x00\x00\x01\x00\x00\x00\x02\x00\x00\x00\x00\x00\x00\x00\x00\x00\x00\x00\x00\x00\x01\
\x01\x00\x00\x00\x1b\x01\x02\x01\x01\x00\x00\x00\x00\x01\x00\x00\x00\x02\x00\x00\x00\x00\x00\x00\x00\x00\x00\x00\x00\x00\x00\x02\x00";

// The first layout, behind it the same one with a base in file 3, and that one with the keep number 1,000.
const WITH_BASE: [u8; 111] =
    *b"COCOLOG\x00\x01\x00\x00\x00\x19\x01\x01\x01\x01\x00\x00\x00\x00\x01\x00\x00\x00\x02\x00\x00\x00\x00\x00\x00\x00\x00\x00\x00\x00\x00\
\x01\x00\x00\x00\x1f\x01\x03\x01\x01\x00\x00\x00\x00\x01\x00\x00\x00\x02\x00\x00\x00\x00\x00\x00\x00\x00\x00\x00\x00\x00\x00\x00\x00\x00\x00\x03\
\x01\x00\x00\x00\x1f\x01\x03\x01\x01\x00\x00\x00\x00\x01\x00\x00\x00\x02\x00\x00\x00\x00\x00\x00\x00\x00\x00\x00\x00\x00\x03\xe8\x00\x00\x00\x03\x00";

// A base of epoch 0 without replies and rows.
const BASE: [u8; 48] =
    *b"COCOLOG\x03\x01\x00\x00\x00\x22\x04\x00\x00\x00\x00\x00\x00\x00\x00\x00\x00\x00\x00\x00\x00\x00\x00\x00\x00\x00\x00\x00\x00\x00\x00\x00\x00\x00\x00\x00\x00\x00\x00\x00\x00";

const TWO_LINES: &str = r#"{"args":[5,70],"call":"put","id":1}
{"args":[5],"call":"get","id":2}
"#;

// A line that is forgotten, two that aren't, and one whose reply is forgotten where each line is an epoch.
const FOUR_LINES: &str = r#"{"args":[5,70],"call":"put","id":1}
{"args":[5],"call":"get","id":2}
{"args":[5],"call":"get","id":3}
{"args":[5],"call":"get","id":2}
"#;

const FOUR_ANSWERS: &str = r#"{"error":"old","line":1}
{"epoch":2,"id":2,"ok":70,"time":1}
{"epoch":3,"id":3,"ok":70,"time":1}
{"error":"old","line":4}
"#;

const ONE_BATCH: &str = r#"{"error":"old","line":1}
{"epoch":2,"id":2,"ok":70,"time":1}
{"epoch":3,"id":3,"ok":70,"time":1}
{"epoch":2,"id":2,"ok":70,"time":1}
"#;

/// Runs lines on the store, so many in a batch.
pub fn run_lines<R: Threads + Wait + Clock + Sync>(
    rt: &R,
    alloc: Global,
    host: &mut MemoryHost,
    lines: &str,
    size: u32,
) -> Result<Ending, Fail>
    requires some { 0 < size }
    requires few { size ≤ most_batch_lines }
{
    let bytes = Vec::from_slice(alloc, lines.as_bytes())?;
    let mut input = MemorySource::new(bytes, Vec::new(alloc));
    let bounds = RunBounds {
        size,
        workers: 1,
        attempts: 1,
    };
    let mut net = QuietNet::new(alloc);
    let mut power = SteadyPower::new();
    Ok(run(
        rt, alloc, host, &mut net, &mut power, &mut input, bounds, &OpenGate,
    ))
}

// A store with these bytes in its layouts' file, and without epochs.
fn new_store(alloc: Global, layouts: &[u8]) -> Result<MemoryHost, Fail> {
    let mut host = MemoryHost::new(alloc, Vec::new(alloc));
    host.write_at(0, 0, layouts)?;
    host.write_at(1, 0, b"COCOLOG\x01\x00")?;
    host.write_at(2, 0, b"COCOLOG\x02\x00")?;
    host.write_at(3, 0, &BASE)?;
    Ok(host)
}

/// The store of two epochs, without a keep number.
pub fn worked_store<R: Threads + Wait + Clock + Sync>(
    rt: &R,
    alloc: Global,
) -> Result<MemoryHost, Fail> {
    let mut first = LAYOUTS;
    first[38] = 0;
    let mut host = new_store(alloc, &first[..39])?;
    run_lines(rt, alloc, &mut host, TWO_LINES, 1)?;
    Ok(host)
}

// Whether the command ends well and leaves these bytes in the layouts' file.
fn migrates_to(alloc: Global, host: &mut MemoryHost, keep: u16, layouts: &[u8]) -> bool
    requires some { 0 < keep }
    requires few { keep ≤ most_keep }
{
    let mut bytes = [0; 120];
    migrate(alloc, host, keep) == Ending::Finished
        && host.read_at(0, 0, &mut bytes) == Ok(layouts.len())
        && bytes.starts_with(layouts)
}

#[test]
fn each_keep_number_is_one_layout_more(rt: HostRuntime) -> Result<(), Fail> {
    let mut host = worked_store(&rt, rt.alloc())?;
    let mut once = LAYOUTS;
    once[70] = 0;
    assert!(rt; migrates_to(rt.alloc(), &mut host, 1, &once[..71]));
    assert!(rt; migrates_to(rt.alloc(), &mut host, 2, &LAYOUTS));
    Ok(())
}

#[test]
fn a_base_file_stays(rt: HostRuntime) -> Result<(), Fail> {
    let mut before = WITH_BASE;
    before[74] = 0;
    let mut host = new_store(rt.alloc(), &before[..75])?;
    assert!(rt; migrates_to(rt.alloc(), &mut host, 1_000, &WITH_BASE));
    Ok(())
}

// Whether the store with the keep number 1 answers so, for so many lines in a batch.
fn is_answered<R: Threads + Wait + Clock + Sync>(
    rt: &R,
    alloc: Global,
    size: u32,
    answers: &str,
) -> Result<bool, Fail>
    requires some { 0 < size }
    requires few { size ≤ most_batch_lines }
{
    let mut host = worked_store(rt, alloc)?;
    let before = host.said().len();
    let _ = migrate(alloc, &mut host, 1);
    run_lines(rt, alloc, &mut host, FOUR_LINES, size)?;
    Ok(host.said().get(before..) == Some(answers.as_bytes()))
}

#[test]
fn what_is_forgotten_is_old(rt: HostRuntime) -> Result<(), Fail> {
    assert!(rt; is_answered(&rt, rt.alloc(), 1, FOUR_ANSWERS)?);
    assert!(rt; is_answered(&rt, rt.alloc(), 4, ONE_BATCH)?);
    Ok(())
}

// Whether a failed write of the layout leaves no keep number, after a crash by this pick. The opening syncs three files,
// and the host is given up behind these.
fn leaves_no_keep_number<R: Threads + Wait + Clock + Sync>(
    rt: &R,
    alloc: Global,
    pick: u64,
) -> Result<bool, Fail> {
    let mut host = FuseHost::new(worked_store(rt, alloc)?, 3);
    let is_fault = migrate(alloc, &mut host, 1) == Ending::DiskFault;
    let mut host = host.inner().crash(pick)?;
    Ok(is_fault && recover(alloc, &mut host)?.keep.is_none())
}

#[test]
fn a_crash_within_the_first_write_leaves_no_keep_number(rt: HostRuntime) -> Result<(), Fail> {
    for pick in [0, 1, 2, 3, 7] {
        assert!(rt;
            leaves_no_keep_number(&rt, rt.alloc(), pick)?,
            "pick {pick}"
        );
    }
    Ok(())
}

#[test]
fn what_is_no_store_is_left_alone(rt: HostRuntime) -> Result<(), Fail> {
    let mut host = MemoryHost::new(rt.alloc(), Vec::new(rt.alloc()));
    let refused = Ending::NotAStore { file: 0, at: 0 };
    let ending = migrate(rt.alloc(), &mut host, 1);
    assert!(rt; ending == refused && host.len(0) == Ok(0));
    Ok(())
}
