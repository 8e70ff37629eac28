//! A tail of two calls of built-in procedures, on two shards without rows.

ghost use Rattle.std.specs.Prelude.{◌≡◌, ◌≤◌, length, IfOk};
ghost use Rattle.coco_types.specs.Limits.{most_batch_lines};
ghost use Rattle.coco_tail.specs.Running.{FitAll, requests_of};
ghost use Rattle.coco_tail.specs.Shards.{AreOfPartitions, AreQuietAfter};

use crate::made::{GET, PUT, Work, answers, two_shards, work_of};
use coco_ast::Checked;
use coco_shard::Shard;
use coco_tail::{PlacedRequest, Progress, promote_all, revert_all};
use coco_types::{Done, Key, NoMemory, Piece, Request, Value};
use std::alloc::Global;
use std::test::Fail;

const ROW: Key = Key { table: 0, row: 5 };

// The requests at places 0, 4 and so on.
fn placed(alloc: Global, requests: Vec<Request>) -> Result<Vec<PlacedRequest>, NoMemory>
    ensures { IfOk result (λ tail. requests_of tail.items ≡ requests.items) }
{
    let mut tail = Vec::new(alloc);
    let mut place: u32 = 0;
    for request in requests {
        tail.push(PlacedRequest { place, request })?;
        place = place.saturating_add(4);
    }
    Ok(tail)
}

// What the tail of these requests behind time 3 comes to.
fn ran(
    alloc: Global,
    procs: &Checked,
    shards: &mut [Shard],
    requests: Vec<Request>,
) -> Result<Progress, NoMemory>
    requires two { length shards.old ≡ 2 }
    requires partitions { AreOfPartitions shards.old }
    requires quiet { AreQuietAfter 3 shards.old }
    requires few { length requests.items ≤ most_batch_lines }
    requires fit { FitAll procs.now requests.items }
{
    let tail = placed(alloc, requests)?;
    let mut progress = Progress::start(alloc, 1, 2)?;
    progress.run_tail(procs, shards, tail, 3)?;
    Ok(progress)
}

// What the tail of a put and a get of its row comes to.
fn ran_calls(alloc: Global, shards: &mut [Shard]) -> Result<Progress, Fail>
    requires two { length shards.old ≡ 2 }
    requires partitions { AreOfPartitions shards.old }
    requires quiet { AreQuietAfter 3 shards.old }
{
    let Work { procs, requests } = work_of(alloc, &[(7, PUT), (8, GET)])?;
    let progress = ran(alloc, &procs, shards, requests)?;
    Ok(progress)
}

fn are_told(dones: &[Done]) -> bool {
    match dones {
        [put, get] => {
            (put.id, put.time, get.id, get.time) == (7, 4, 8, 5)
                && answers(put, Some(70))
                && answers(get, Some(70))
        }
        _ => false,
    }
}

fn is_only_piece(pieces: &[Piece]) -> bool {
    match pieces {
        [put] => (put.place, put.partition, put.time, put.writes.len()) == (0, 1, 4, 1),
        _ => false,
    }
}

fn stands_above(alloc: Global) -> Result<bool, Fail> {
    let mut shards = two_shards(alloc)?;
    let progress = ran_calls(alloc, shards.as_mut_slice())?;
    Ok(are_told(progress.dones.as_slice()) && is_only_piece(progress.pieces.as_slice()))
}

#[test]
fn a_tail_stands_above_the_greatest_read_time(rt: HostRuntime) -> Result<(), Fail> {
    let is_well = stands_above(rt.alloc())?;
    assert!(rt; is_well);
    Ok(())
}

// What is stable behind such a tail that is committed, or taken back.
fn left_by(alloc: Global, is_committed: bool) -> Result<Option<Value>, Fail> {
    let mut shards = two_shards(alloc)?;
    ran_calls(alloc, shards.as_mut_slice())?;
    if is_committed {
        promote_all(shards.as_mut_slice());
    } else {
        revert_all(shards.as_mut_slice());
    }
    Ok(shards.get(1).and_then(|shard| shard.stable(ROW)))
}

#[test]
fn an_epoch_ends_on_the_newest_or_the_stable_values(rt: HostRuntime) -> Result<(), Fail> {
    let committed = left_by(rt.alloc(), true)?;
    let taken_back = left_by(rt.alloc(), false)?;
    assert!(rt; committed == Some(Value::Int(70)) && taken_back.is_none());
    Ok(())
}
