//! A store of four nodes, of which a file is lost and made again.

use crate::made::{self, host_with};
use coco_commands::{dump, rebuild, recover};
use coco_ending::Ending;
use coco_host::{FuseHost, Host, MemoryHost};
use std::alloc::Global;
use std::test::Fail;

// Four nodes, five partitions, one copy and an empty text. The layout behind it gives file 6 to the third node.
const LAYOUTS: [u8; 93] =
    *b"COCOLOG\x00\x01\x00\x00\x00\x25\x01\x01\x04\x05\x01\x00\x00\x00\x01\x00\x00\x00\x02\x00\x00\x00\x03\x00\x00\x00\x04\x00\x00\x00\x05\x00\x00\x00\x00\x00\x00\x00\x00\x00\x00\x00\x00\
\x01\x00\x00\x00\x25\x01\x01\x04\x05\x01\x00\x00\x00\x01\x00\x00\x00\x02\x00\x00\x00\x03\x00\x00\x00\x06\x00\x00\x00\x05\x00\x00\x00\x00\x00\x00\x00\x00\x00\x00\x00\x00\x00";

// The log with the first one alone.
const FIRST: [u8; 51] =
    *b"COCOLOG\x00\x01\x00\x00\x00\x25\x01\x01\x04\x05\x01\x00\x00\x00\x01\x00\x00\x00\x02\x00\x00\x00\x03\x00\x00\x00\x04\x00\x00\x00\x05\x00\x00\x00\x00\x00\x00\x00\x00\x00\x00\x00\x00\x00";

// put(6, 60) as id 1 and put(7, 70) as id 2, in epoch 1.
const COMMITS: [u8; 123] =
    *b"COCOLOG\x01\x01\x00\x00\x00\x6d\x02\x00\x00\x00\x00\x00\x00\x00\x01\x00\x00\x00\x02\
\x00\x00\x00\x00\x00\x00\x00\x01\x00\x01\x00\x02\x01\x00\x00\x00\x00\x00\x00\x00\x06\x01\x00\x00\x00\x00\x00\x00\x00\x3c\x00\x00\x00\x00\x00\x00\x00\x01\x00\x01\x00\x00\x00\x00\x00\x00\x00\x3c\
\x00\x00\x00\x00\x00\x00\x00\x02\x00\x01\x00\x02\x01\x00\x00\x00\x00\x00\x00\x00\x07\x01\x00\x00\x00\x00\x00\x00\x00\x46\x00\x00\x00\x00\x00\x00\x00\x02\x00\x01\x00\x00\x00\x00\x00\x00\x00\x46\x00";

// What the nodes prepared: the first one has neither row, the second one row 6, the fourth one row 7, the third one both.
const NONE: [u8; 27] =
    *b"COCOLOG\x02\x01\x00\x00\x00\x0d\x03\x00\x00\x00\x00\x00\x00\x00\x01\x00\x00\x00\x00\x00";

const SIX: [u8; 54] =
    *b"COCOLOG\x02\x01\x00\x00\x00\x28\x03\x00\x00\x00\x00\x00\x00\x00\x01\x00\x00\x00\x01\
\x00\x00\x00\x00\x00\x00\x00\x00\x00\x06\x00\x00\x00\x00\x00\x00\x00\x01\x01\x00\x00\x00\x00\x00\x00\x00\x3c\x00";

const SEVEN: [u8; 54] =
    *b"COCOLOG\x02\x01\x00\x00\x00\x28\x03\x00\x00\x00\x00\x00\x00\x00\x01\x00\x00\x00\x01\
\x00\x00\x00\x00\x00\x00\x00\x00\x00\x07\x00\x00\x00\x00\x00\x00\x00\x02\x01\x00\x00\x00\x00\x00\x00\x00\x46\x00";

const BOTH: [u8; 81] =
    *b"COCOLOG\x02\x01\x00\x00\x00\x43\x03\x00\x00\x00\x00\x00\x00\x00\x01\x00\x00\x00\x02\
\x00\x00\x00\x00\x00\x00\x00\x00\x00\x06\x00\x00\x00\x00\x00\x00\x00\x01\x01\x00\x00\x00\x00\x00\x00\x00\x3c\
\x00\x00\x00\x00\x00\x00\x00\x00\x00\x07\x00\x00\x00\x00\x00\x00\x00\x02\x01\x00\x00\x00\x00\x00\x00\x00\x46\x00";

// How a call ends that reads the file which is lost.
const LACKS_FILE: Ending = Ending::NotAStore { file: 4, at: 0 };

const TOLD: &str =
    r#"{"args":[6,60],"call":"put","epoch":1,"id":1,"ok":60,"snapshot":false,"time":1}
{"args":[7,70],"call":"put","epoch":1,"id":2,"ok":70,"snapshot":false,"time":2}
{"row":6,"table":"main","value":60}
{"row":7,"table":"main","value":70}
"#;

// The store without the file of its third node.
fn lost_store(alloc: Global) -> Result<MemoryHost, Fail> {
    let files: [(u32, &[u8]); 5] = [
        (0, &FIRST),
        (1, &COMMITS),
        (2, &NONE),
        (3, &SIX),
        (5, &SEVEN),
    ];
    Ok(host_with(alloc, &files)?)
}

// Whether a file has these bytes and no more.
fn has(host: &mut MemoryHost, file: u32, bytes: &[u8]) -> bool {
    let mut there = [0; 130];
    host.read_at(file, 0, &mut there) == Ok(bytes.len()) && there.starts_with(bytes)
}

#[test]
fn a_lost_file_is_made_again_of_two_others(rt: HostRuntime) -> Result<(), Fail> {
    let mut host = lost_store(rt.alloc())?;
    assert!(rt; rebuild(rt.alloc(), &mut host, 2) == Ending::Finished);
    let files = [
        (0, &LAYOUTS[..]),
        (1, &COMMITS[..]),
        (2, &NONE[..]),
        (3, &SIX[..]),
        (4, &[][..]),
        (5, &SEVEN[..]),
        (6, &BOTH[..]),
    ];
    for (file, bytes) in &files {
        assert!(rt; has(&mut host, *file, bytes), "file {file}");
    }
    let _ = dump(rt.alloc(), &mut host);
    assert!(rt; host.said() == TOLD.as_bytes());
    assert!(rt; rebuild(rt.alloc(), &mut host, 2) == Ending::Finished);
    assert!(rt; has(&mut host, 4, &BOTH));
    Ok(())
}

#[test]
fn what_can_not_be_made_again_is_told(rt: HostRuntime) -> Result<(), Fail> {
    let mut host = lost_store(rt.alloc())?;
    for node in [1, 7] {
        assert!(rt;
            rebuild(rt.alloc(), &mut host, node) == LACKS_FILE,
            "node {node}"
        );
    }
    let files: [(u32, &[u8]); 3] = [
        (0, &made::LAYOUTS),
        (1, &made::COMMITS),
        (2, &made::PREPARED),
    ];
    let mut host = host_with(rt.alloc(), &files)?;
    let cases = [
        (0, Ending::NoHolder { partition: 0 }),
        (1, Ending::NoNode { node: 1, nodes: 1 }),
    ];
    for (node, ending) in cases {
        assert!(rt;
            rebuild(rt.alloc(), &mut host, node) == ending,
            "node {node}"
        );
    }
    assert!(rt; has(&mut host, 0, &made::LAYOUTS) && has(&mut host, 3, &[]));
    Ok(())
}

// Whether a host that stops behind so many writes and syncs leaves, after a crash by this pick, a store that lacks the
// file or that has it, and of which it is made then.
fn leaves_a_store(alloc: Global, passes: u64, pick: u64) -> Result<bool, Fail> {
    let mut host = FuseHost::new(lost_store(alloc)?, passes);
    let is_whole = rebuild(alloc, &mut host, 2) == Ending::Finished;
    let mut host = host.inner().crash(pick)?;
    let is_one = match recover(alloc, &mut host) {
        Ok(store) => store.layout.node_files.as_slice() == [2, 3, 6, 5].as_slice(),
        Err(_) => !is_whole && dump(alloc, &mut host) == LACKS_FILE,
    };
    Ok(is_one && rebuild(alloc, &mut host, 2) == Ending::Finished)
}

// Behind the five syncs of the opening.
#[test]
fn a_crash_leaves_the_store_without_the_file_or_with_it(rt: HostRuntime) -> Result<(), Fail> {
    for passes in 5..14 {
        for pick in [0, 1, 2, 3, 7] {
            assert!(rt;
                leaves_a_store(rt.alloc(), passes, pick)?,
                "{passes} calls, pick {pick}"
            );
        }
    }
    Ok(())
}
