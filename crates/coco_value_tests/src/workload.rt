//! The requests of three seeds, worked out apart from the generator's definition.

use coco_gen::workload;
use coco_types::{Args, Call, NoMemory, Request, Value};
use std::alloc::Global;
use std::test::Fail;

// An id, a row and the amount that is added to it.
type Row = (u64, i64, i64);

const ROWS: [(u64, [Row; 5]); 3] = [
    (
        0,
        [
            (1, 107, 528),
            (2, 875, -528),
            (3, 254, 276),
            (4, 669, -276),
            (5, 310, 167),
        ],
    ),
    (
        7,
        [
            (7_340_033, 337, 807),
            (7_340_034, 285, -807),
            (7_340_035, 804, 61),
            (7_340_036, 93, -61),
            (7_340_037, 468, 769),
        ],
    ),
    (
        8_796_093_022_207,
        [
            (9_223_372_036_853_727_233, 999, 632),
            (9_223_372_036_853_727_234, 32, -632),
            (9_223_372_036_853_727_235, 398, 29),
            (9_223_372_036_853_727_236, 264, -29),
            (9_223_372_036_853_727_237, 127, 903),
        ],
    ),
];

fn addition(alloc: Global, row: &Row) -> Result<Request, NoMemory> {
    let (id, row, amount) = *row;
    let mut args = Args::new(alloc);
    args.push(Some(Value::Int(row)))?;
    args.push(Some(Value::Int(amount)))?;
    Ok(Request {
        id,
        call: Call {
            proc_no: 2,
            snapshot: false,
            args,
        },
    })
}

// Whether the workload of a seed has these requests alone.
fn is_made(alloc: Global, seed: u64, rows: &[Row]) -> Result<bool, NoMemory> {
    let calls = rows.len();
    if seed >= 1 << 43 || calls > 5 {
        return Ok(false);
    }
    let mut wanted = Vec::new(alloc);
    for row in rows {
        wanted.push(addition(alloc, row)?)?;
    }
    Ok(workload(alloc, calls as u32, seed)? == wanted)
}

#[test]
fn seeds_make_the_requests_that_were_worked_out(rt: HostRuntime) -> Result<(), Fail> {
    for (seed, rows) in &ROWS {
        for calls in 0..6 {
            let made = is_made(rt.alloc(), *seed, &rows[..calls])?;
            assert!(rt; made, "{calls} of {seed}");
        }
    }
    Ok(())
}
