//! The worked store of two epochs, made small.

use crate::migrate::{run_lines, worked_store};
use coco_commands::{compact, dump, recover, verify};
use coco_ending::Ending;
use coco_host::{FuseHost, Host, MemoryHost};
use std::alloc::Global;
use std::sync::Wait;
use std::test::Fail;
use std::thread::Threads;
use std::time::Clock;

// The layout of one node, one partition, no copies and an empty text, and behind it the one with base file 3, whose
// coordinator has file 4 and whose node has file 5.
const LAYOUTS: [u8; 75] =
    *b"COCOLOG\x00\x01\x00\x00\x00\x19\x01\x01\x01\x01\x00\x00\x00\x00\x01\x00\x00\x00\x02\x00\x00\x00\x00\x00\x00\x00\x00\x00\x00\x00\x00\
\x01\x00\x00\x00\x1f\x01\x03\x01\x01\x00\x00\x00\x00\x04\x00\x00\x00\x05\x00\x00\x00\x00\x00\x00\x00\x02\x00\x00\x00\x00\x00\x00\x00\x00\x00\x03\x00";

// The last layout of the store that is made small again: base file 1, coordinator's file 2, node's file 6, epoch 3.
const THIRD: [u8; 37] =
    *b"\x01\x00\x00\x00\x1f\x01\x03\x01\x01\x00\x00\x00\x00\x02\x00\x00\x00\x06\x00\x00\x00\x00\x00\x00\x00\x03\x00\x00\x00\x00\x00\x00\x00\x00\x00\x01\x00";

// The head of epoch 2, two Dones, and one row.
const BASE: [u8; 190] =
    *b"COCOLOG\x03\x01\x00\x00\x00\x22\x04\x00\x00\x00\x00\x00\x00\x00\x02\x00\x00\x00\x00\x00\x00\x00\x00\x00\x00\x00\x00\x00\x00\x00\x00\x02\x00\x00\x00\x00\x00\x00\x00\x01\
\x01\x00\x00\x00\x6c\x05\x00\x00\x00\x02\x00\x00\x00\x00\x00\x00\x00\x01\x00\x00\x00\x00\x00\x00\x00\x01\x00\x01\x00\x02\x01\x00\x00\x00\x00\x00\x00\x00\x05\x01\x00\x00\x00\x00\x00\x00\x00\x46\x00\x00\x00\x00\x00\x00\x00\x01\x00\x01\x00\x00\x00\x00\x00\x00\x00\x46\
\x00\x00\x00\x00\x00\x00\x00\x02\x00\x00\x00\x00\x00\x00\x00\x02\x00\x00\x00\x01\x01\x00\x00\x00\x00\x00\x00\x00\x05\x00\x00\x00\x00\x00\x00\x00\x01\x00\x01\x00\x00\x00\x00\x00\x00\x00\x46\
\x01\x00\x00\x00\x18\x06\x00\x00\x00\x01\x00\x00\x00\x00\x00\x00\x00\x00\x00\x05\x01\x00\x00\x00\x00\x00\x00\x00\x46\x00";

const COMMITS: [u8; 9] = *b"COCOLOG\x01\x00";

const PREPARED: [u8; 9] = *b"COCOLOG\x02\x00";

// What the worked store tells.
const TOLD: &str =
    r#"{"args":[5,70],"call":"put","epoch":1,"id":1,"ok":70,"snapshot":false,"time":1}
{"args":[5],"call":"get","epoch":2,"id":2,"ok":70,"snapshot":false,"time":1}
{"row":5,"table":"main","value":70}
"#;

// A line that is known, and a new one.
const LINES: &str = r#"{"args":[5,70],"call":"put","id":1}
{"args":[5],"call":"get","id":3}
"#;

const ANSWERS: &str = r#"{"epoch":1,"id":1,"ok":70,"time":1}
{"epoch":3,"id":3,"ok":70,"time":1}
"#;

// The worked store, made small.
fn small_store<R: Threads + Wait + Clock + Sync>(
    rt: &R,
    alloc: Global,
) -> Result<MemoryHost, Fail> {
    let mut host = worked_store(rt, alloc)?;
    let _ = compact(alloc, &mut host);
    Ok(host)
}

// Whether a file has these bytes and no more.
fn has(host: &mut MemoryHost, file: u32, bytes: &[u8]) -> bool {
    let mut there = [0; 200];
    host.read_at(file, 0, &mut there) == Ok(bytes.len()) && there.starts_with(bytes)
}

// Whether the store tells what the worked one does.
fn tells(alloc: Global, host: &mut MemoryHost) -> bool {
    let before = host.said().len();
    let ending = dump(alloc, host);
    ending == Ending::Finished && host.said().get(before..) == Some(TOLD.as_bytes())
}

#[test]
fn the_new_files_have_the_base_and_no_epoch(rt: HostRuntime) -> Result<(), Fail> {
    let mut host = small_store(&rt, rt.alloc())?;
    let files = [
        (0, &LAYOUTS[..]),
        (3, &BASE[..]),
        (4, &COMMITS[..]),
        (5, &PREPARED[..]),
    ];
    for (file, bytes) in &files {
        assert!(rt; has(&mut host, *file, bytes), "file {file}");
    }
    Ok(())
}

#[test]
fn no_line_tells_a_small_store_from_the_other(rt: HostRuntime) -> Result<(), Fail> {
    let mut host = small_store(&rt, rt.alloc())?;
    assert!(rt; tells(rt.alloc(), &mut host));
    let before = host.said().len();
    let _ = verify(rt.alloc(), &mut host);
    assert!(rt; host.said().get(before..) == Some(&b"serial 0\n"[..]));
    let before = host.said().len();
    run_lines(&rt, rt.alloc(), &mut host, LINES, 1)?;
    assert!(rt; host.said().get(before..) == Some(ANSWERS.as_bytes()));
    let before = host.said().len();
    let _ = verify(rt.alloc(), &mut host);
    assert!(rt; host.said().get(before..) == Some(&b"serial 1\n"[..]));
    Ok(())
}

// The numbers of files that the last layout doesn't name are used again.
#[test]
fn a_small_store_is_made_small_again(rt: HostRuntime) -> Result<(), Fail> {
    let mut host = small_store(&rt, rt.alloc())?;
    run_lines(&rt, rt.alloc(), &mut host, LINES, 1)?;
    assert!(rt; compact(rt.alloc(), &mut host) == Ending::Finished);
    let mut layout = [0; 40];
    assert!(rt; host.read_at(0, 74, &mut layout) == Ok(37) && layout.starts_with(&THIRD));
    Ok(())
}

// Whether a host that stops behind so many writes and syncs, which is told as a fault of the disk, leaves, after a crash by
// this pick, a store that is opened, with its old files or with the new ones, tells what it told before, and is made small
// then.
fn leaves_a_store<R: Threads + Wait + Clock + Sync>(
    rt: &R,
    alloc: Global,
    passes: u64,
    pick: u64,
) -> Result<bool, Fail> {
    let mut host = FuseHost::new(worked_store(rt, alloc)?, passes);
    let ending = compact(alloc, &mut host);
    let is_whole = ending == Ending::Finished;
    let is_told = is_whole || ending == Ending::DiskFault;
    let mut host = host.inner().crash(pick)?;
    let base_file = recover(alloc, &mut host)?.base_file;
    let is_one = base_file == Some(3) || (base_file.is_none() && !is_whole);
    let is_same = tells(alloc, &mut host);
    Ok(is_told && is_one && is_same && compact(alloc, &mut host) == Ending::Finished)
}

// Behind the three syncs of the opening.
#[test]
fn a_crash_leaves_the_old_files_or_the_new_ones(rt: HostRuntime) -> Result<(), Fail> {
    for passes in 3..16 {
        for pick in [0, 1, 2, 3, 7] {
            assert!(rt;
                leaves_a_store(&rt, rt.alloc(), passes, pick)?,
                "{passes} calls, pick {pick}"
            );
        }
    }
    Ok(())
}

#[test]
fn what_is_no_store_is_not_made_small(rt: HostRuntime) -> Result<(), Fail> {
    let mut host = MemoryHost::new(rt.alloc(), Vec::new(rt.alloc()));
    let refused = Ending::NotAStore { file: 0, at: 0 };
    let ending = compact(rt.alloc(), &mut host);
    assert!(rt; ending == refused && host.len(0) == Ok(0));
    Ok(())
}
