//! The order of commits, at times that concurrency control gave.

use coco_order::ordered;
use coco_types::{Args, Call, Done, KeptReply, NoMemory, Packed};
use std::alloc::Global;
use std::test::Fail;

// An epoch, a time in it and an id.
type Stamp = (u64, u64, u64);

// Dones so stamped, and their ids in the order of commit.
const CASES: [(&str, &[Stamp], &[u64]); 3] = [
    (
        "times go before ids",
        &[(1, 2, 2), (1, 1, 7), (1, 1, 3), (1, 0, 9)],
        &[9, 3, 7, 2],
    ),
    ("epochs go before times", &[(2, 1, 1), (1, 5, 2)], &[2, 1]),
    // get(1) as id 1 read row 1 and extended it to 1; put(1, 7) as id 2 then locked it, read until 1.
    (
        "a reader goes before the writer that locked behind it",
        &[(1, 2, 2), (1, 1, 1)],
        &[1, 2],
    ),
];

fn done(alloc: Global, stamp: Stamp) -> Done {
    let (epoch, time, id) = stamp;
    Done {
        id,
        call: Call {
            proc_no: 0,
            snapshot: false,
            args: Args::new(alloc),
        },
        epoch,
        time,
        reply: KeptReply::answered(Packed::none()),
    }
}

fn are_ordered(alloc: Global, stamps: &[Stamp], ids: &[u64]) -> Result<bool, NoMemory> {
    let mut dones = Vec::new(alloc);
    for stamp in stamps {
        dones.push(done(alloc, *stamp))?;
    }
    let dones = ordered(dones);
    Ok(dones.len() == ids.len() && dones.iter().zip(ids).all(|(done, id)| done.id == *id))
}

#[test]
fn commits_go_by_epoch_then_time_then_id(rt: HostRuntime) -> Result<(), Fail> {
    for (name, stamps, ids) in &CASES {
        let is_well = are_ordered(rt.alloc(), stamps, ids)?;
        assert!(rt; is_well, "{name}");
    }
    Ok(())
}
