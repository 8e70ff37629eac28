//! A row of a shard beside its writer, and behind the end of an epoch.

ghost use Rattle.coco_shard.specs.RowState.{IsSettled};

use coco_shard::*;
use coco_types::{AttemptId, Key, Machine, NoMemory, Text, Value};
use std::alloc::Global;
use std::test::Fail;

const FIVE: Key = Key { table: 0, row: 5 };

fn ask(worker: u32, op: Op) -> Ask {
    Ask {
        by: AttemptId { worker, number: 1 },
        op,
    }
}

fn int(n: i64) -> Option<Value> {
    Some(Value::Int(n))
}

// Whether the shard so answers the worker's operation.
fn answers(shard: &mut Shard, worker: u32, op: Op, answer: Answer) -> bool {
    shard.apply(ask(worker, op)) == Ok(answer)
}

// Whether row 5 of table 0, which is loaded as 1, is locked, and installed as 2 at 1.
fn is_written(shard: &mut Shard) -> Result<bool, NoMemory>
    requires { IsSettled shard.old }
{
    shard.load(FIVE, int(1))?;
    let is_locked = answers(shard, 0, Op::Lock(FIVE), Answer::Locked { wts: 0, rts: 0 });
    let op = Op::Install {
        key: FIVE,
        time: 1,
        value: int(2),
    };
    Ok(is_locked && answers(shard, 0, op, Answer::Installed))
}

// Whether row 5 is read as this number, written at the time and valid until it.
fn reads(shard: &mut Shard, time: u64, n: i64) -> bool {
    let got = Answer::Got {
        wts: time,
        rts: time,
        value: int(n),
    };
    answers(shard, 1, Op::Read(FIVE), got)
}

// Whether a written row 5 has its value of the last epoch beside the newest one.
fn has_both_values(shard: &mut Shard) -> bool {
    answers(shard, 1, Op::Past(FIVE), Answer::Stood(int(1)))
        && reads(shard, 1, 2)
        && shard.stable(FIVE) == int(1)
        && shard.greatest_time() == 1
}

#[test]
fn past_is_of_the_last_epoch_beside_a_writer(rt: HostRuntime) -> Result<(), Fail> {
    let mut shard = Shard::new(rt.alloc());
    let is_written = is_written(&mut shard)?;
    assert!(rt; is_written && has_both_values(&mut shard));
    Ok(())
}

// Whether a written row 5 is read as this number behind a promote or a revert.
fn reads_behind(alloc: Global, promotes: bool, n: i64) -> Result<bool, NoMemory> {
    let mut shard = Shard::new(alloc);
    let is_written = is_written(&mut shard)?;
    if promotes {
        shard.promote();
    } else {
        shard.revert();
    }
    Ok(is_written && reads(&mut shard, 0, n))
}

#[test]
fn a_revert_leaves_the_stable_value_and_a_promote_the_newest(rt: HostRuntime) -> Result<(), Fail> {
    let is_reverted = reads_behind(rt.alloc(), false, 1)?;
    let is_promoted = reads_behind(rt.alloc(), true, 2)?;
    assert!(rt; is_reverted && is_promoted);
    Ok(())
}

// Whether nobody's install and nobody's release of row 5 are answered with who has locked it.
fn refuses(shard: &mut Shard, worker: u32, mark: Option<AttemptId>) -> bool {
    let install = Op::Install {
        key: FIVE,
        time: 1,
        value: int(2),
    };
    answers(shard, worker, install, Answer::NotMine { mark })
        && answers(shard, worker, Op::Release(FIVE), Answer::NotMine { mark })
}

#[test]
fn a_row_is_written_by_who_has_locked_it_alone(rt: HostRuntime) -> Result<(), Fail> {
    let mut shard = Shard::new(rt.alloc());
    shard.load(FIVE, int(1))?;
    assert!(rt; refuses(&mut shard, 0, None));
    let is_locked = answers(
        &mut shard,
        0,
        Op::Lock(FIVE),
        Answer::Locked { wts: 0, rts: 0 },
    );
    let holder = AttemptId {
        worker: 0,
        number: 1,
    };
    assert!(rt; is_locked && refuses(&mut shard, 1, Some(holder)) && shard.stable(FIVE) == int(1));
    Ok(())
}

// Whether row 5 takes this value under a lock, and has it behind a promote.
fn takes(shard: &mut Shard, value: Option<Value>) -> bool {
    let op = Op::Install {
        key: FIVE,
        time: 1,
        value,
    };
    let got = Answer::Got {
        wts: 1,
        rts: 1,
        value,
    };
    let is_installed = answers(shard, 0, Op::Lock(FIVE), Answer::Locked { wts: 0, rts: 0 })
        && answers(shard, 0, op, Answer::Installed)
        && answers(shard, 1, Op::Read(FIVE), got);
    shard.promote();
    is_installed && shard.stable(FIVE) == value
}

fn text(of: &str) -> Option<Value> {
    Text::of(of).map(Value::Text)
}

#[test]
fn texts_and_numbers_follow_each_other(rt: HostRuntime) -> Result<(), Fail> {
    let mut shard = Shard::new(rt.alloc());
    let values = [
        text("twelve"),
        text("thirteen"),
        int(1),
        text("one"),
        None,
        text("two"),
    ];
    for value in values {
        let is_taken = takes(&mut shard, value);
        assert!(rt; is_taken);
    }
    Ok(())
}
