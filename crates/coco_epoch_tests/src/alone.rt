//! Epochs of two calls of built-in procedures, run by one worker alone on two shards without rows.

ghost use Rattle.std.specs.Prelude.{◌≤◌, length, map, nat_eq, IfOk};
ghost use Rattle.std.specs.List.{IsDistinct};
ghost use Rattle.coco_tail.specs.Running.{FitAll};

use crate::made::{GET, Line, PUT, Work, answers, are_pieces, two_shards, work_of};
use coco_gate::OpenGate;
use coco_net::QuietNet;
use coco_parallel::epoch::{EpochDone, run_epoch};
use coco_parallel::rooms::Rooms;
use coco_shard::Shard;
use coco_tail::promote_all;
use coco_types::limits::MOST_BATCH_LINES;
use coco_types::{Done, Key, NoMemory, Value};
use coco_worker::EpochConfig;
use std::alloc::Global;
use std::sync::Wait;
use std::test::Fail;
use std::thread::Threads;

const FIVE: Key = Key { table: 0, row: 5 };

const LOOK: Line<'static> = (0, &[5], true);

const PUT_OTHER: Line<'static> = (1, &[6, 8], false);

// A Done's id, its time, and the number that it answers, or none.
type Told = (u64, u64, Option<i64>);

// Two calls, the Dones that they come to, and the place, the partition and the time of each piece.
struct Case<'a> {
    name: &'a str,
    first: Line<'a>,
    second: Line<'a>,
    told: [Told; 2],
    pieces: &'a [(u32, u8, u64)],
}

// Row 5 has 70 behind each of these.
const CASES: [Case<'static>; 4] = [
    Case {
        name: "two writes of different rows are at one time",
        first: PUT,
        second: PUT_OTHER,
        told: [(1, 1, Some(70)), (2, 1, Some(8))],
        pieces: &[(0, 1, 1), (1, 0, 1)],
    },
    Case {
        name: "a write is above the read in front of it",
        first: GET,
        second: PUT,
        told: [(1, 1, None), (2, 2, Some(70))],
        pieces: &[(1, 1, 2)],
    },
    Case {
        name: "a read is above the write in front of it",
        first: PUT,
        second: GET,
        told: [(1, 1, Some(70)), (2, 2, Some(70))],
        pieces: &[(0, 1, 1)],
    },
    Case {
        name: "a snapshot call behind a writer is in front of it",
        first: PUT,
        second: LOOK,
        told: [(2, 0, None), (1, 1, Some(70))],
        pieces: &[(0, 1, 1)],
    },
];

const ALONE: EpochConfig = EpochConfig {
    epoch: 1,
    workers: 1,
    started: 1,
    attempts: 3,
    nodes: 1,
    copies: 0,
};

// The two calls of a case, of ids 1 and 2.
fn two_calls(alloc: Global, case: &Case<'_>) -> Result<Work, Fail>
    ensures few { IfOk result (λ work. length work.requests.items ≤ MOST_BATCH_LINES) }
    ensures distinct { IfOk result (λ work. IsDistinct nat_eq (map (λ r. r.id) work.requests.items)) }
    ensures fit { IfOk result (λ work. FitAll work.procs work.requests.items) }
{
    work_of(alloc, &[(1, case.first), (2, case.second)])
}

// What they come to.
fn ran<R: Threads + Wait + Sync>(
    rt: &R,
    alloc: Global,
    case: &Case<'_>,
) -> Result<EpochDone, Fail> {
    let mut work = two_calls(alloc, case)?;
    let shards = two_shards(alloc)?;
    let requests = work.requests.as_mut_slice();
    match run_epoch(
        rt,
        alloc,
        shards,
        Vec::new(alloc),
        &work.procs,
        requests,
        ALONE,
        &OpenGate,
        &QuietNet::new(alloc),
        &mut Rooms::new(alloc),
    ) {
        Ok(done) => Ok(done),
        Err(_) => Err(NoMemory.into()),
    }
}

fn is_told(done: &Done, told: Told) -> bool {
    let (id, time, number) = told;
    done.id == id && done.time == time && answers(done, number)
}

fn are_told(dones: &[Done], told: [Told; 2]) -> bool {
    match dones {
        [first, second] => is_told(first, told[0]) && is_told(second, told[1]),
        _ => false,
    }
}

fn has_seventy(shards: &mut [Shard]) -> bool {
    promote_all(shards);
    match shards.get(1) {
        Some(shard) => shard.stable(FIVE) == Some(Value::Int(70)),
        None => false,
    }
}

fn comes_to<R: Threads + Wait + Sync>(
    rt: &R,
    alloc: Global,
    case: &Case<'_>,
) -> Result<bool, Fail> {
    let mut done = ran(rt, alloc, case)?;
    Ok(
        are_told(done.dones.as_slice(), case.told)
            && are_pieces(done.pieces.as_slice(), case.pieces)
            && has_seventy(done.shards.as_mut_slice()),
    )
}

#[test]
fn times_are_above_what_stands_in_front(rt: HostRuntime) -> Result<(), Fail> {
    for case in &CASES {
        let is_well = comes_to(&rt, rt.alloc(), case)?;
        assert!(rt; is_well, "{}", case.name);
    }
    Ok(())
}
