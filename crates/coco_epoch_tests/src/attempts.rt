//! An attempt whose time would be too great.

ghost use Rattle.std.specs.Prelude.{◌≡◌, length, IfOk};
ghost use Rattle.coco_ast.specs.Fitting.{Fits};

use crate::made::{PUT, work_of};
use coco_ast::Checked;
use coco_occ::{Attempt, Move, run_steps};
use coco_shard::{Ask, Op, Shard};
use coco_types::limits::MOST_TIME;
use coco_types::{AttemptId, Key, Machine, NoMemory, Request, Value};
use std::alloc::Global;
use std::test::Fail;

const FIVE: Key = Key { table: 0, row: 5 };

const READER: AttemptId = AttemptId {
    worker: 1,
    number: 1,
};

const WRITER: AttemptId = AttemptId {
    worker: 0,
    number: 1,
};

// A shard whose row 5 is valid until the greatest time.
fn late_shards(alloc: Global) -> Result<Vec<Shard>, NoMemory>
    ensures { IfOk result (λ shards. length shards.items ≡ 1) }
{
    // (a proof knows the parts of an ask by the types that are named here)
    let _value: Option<Value> = None;
    let mut shard = Shard::new(alloc);
    shard.apply(Ask {
        by: READER,
        op: Op::Read(FIVE),
    })?;
    shard.apply(Ask {
        by: READER,
        op: Op::Extend {
            key: FIVE,
            wts: 0,
            time: MOST_TIME,
        },
    })?;
    let mut shards = Vec::new(alloc);
    shards.push(shard)?;
    Ok(shards)
}

// The moves of an attempt there.
fn late_moves(
    alloc: Global,
    procs: &Checked,
    request: &Request,
) -> Result<Vec<(u32, Move)>, NoMemory>
    requires { Fits procs.now request.now.call }
{
    let mut shards = late_shards(alloc)?;
    let attempt = Attempt::start(alloc, procs, request, WRITER, 1)?;
    let mut attempts = Vec::new(alloc);
    attempts.push(attempt)?;
    run_steps(alloc, procs, &mut shards, &mut attempts, &[0; 8])
}

// It locks the row, finds no time above its read time, and takes its mark away.
#[test]
fn no_time_is_above_the_greatest(rt: HostRuntime) -> Result<(), Fail> {
    let work = work_of(rt.alloc(), &[(1, PUT)])?;
    let request = work.requests.first().ok_or("no request")?;
    let moves = late_moves(rt.alloc(), &work.procs, request)?;
    let is_over = matches!(moves.last(), Some((0, Move::OverTime)));
    assert!(rt; is_over && moves.len() == 3);
    Ok(())
}
