//! Puts out of order, and both ends of an epoch.

use coco_copy::*;
use coco_packs::Packs;
use coco_types::{Key, Machine, NoMemory, PackedWrite, Text, Value, Write};
use std::alloc::Global;
use std::test::Fail;

const FIVE: Key = Key { table: 0, row: 5 };

const SIX: Key = Key { table: 0, row: 6 };

fn int(n: i64) -> Option<Value> {
    Some(Value::Int(n))
}

fn fifty() -> Result<Option<Value>, Fail> {
    let text = Text::of("fifty").ok_or("no text")?;
    Ok(Some(Value::Text(text)))
}

fn put(epoch: u64, time: u64, key: Key, value: Option<Value>) -> CopyAsk {
    let write = Write { key, value };
    CopyAsk::Put { epoch, time, write }
}

// Whether the copy takes puts of epoch 3 that come out of order, where row 5 is loaded as 1 before.
fn is_written(table: &mut CopyTable) -> Result<bool, NoMemory> {
    table.load(FIVE, int(1))?;
    table.begin(3);
    for (epoch, time, key, n, answer) in [
        (3, 2, FIVE, Some(20), CopyAnswer::Applied),
        (3, 1, FIVE, Some(10), CopyAnswer::Older { time: 2 }),
        (3, 2, FIVE, Some(21), CopyAnswer::Older { time: 2 }),
        (2, 9, FIVE, Some(90), CopyAnswer::OtherEpoch { current: 3 }),
        (3, 4, SIX, None, CopyAnswer::Applied),
        (3, 5, SIX, Some(50), CopyAnswer::Applied),
    ] {
        if table.apply(put(epoch, time, key, n.map(Value::Int)))? != answer {
            return Ok(false);
        }
    }
    Ok(true)
}

fn pends(table: &CopyTable, key: Key, time: u64, value: Option<Value>) -> bool {
    table.pending(key) == Some((time, value))
}

#[test]
fn the_greatest_time_of_the_epoch_pends(rt: HostRuntime) -> Result<(), Fail> {
    let mut table = CopyTable::new(rt.alloc());
    let is_written = is_written(&mut table)?;
    let is_pending = pends(&table, FIVE, 2, int(20)) && pends(&table, SIX, 5, int(50));
    let is_stable = table.stable(FIVE) == int(1) && table.stable(SIX).is_none();
    assert!(rt; is_written && is_pending && is_stable);
    Ok(())
}

fn has_rows(table: &CopyTable, rows: &[(Key, Value)]) -> Result<bool, NoMemory> {
    Ok(table.rows()?.as_slice() == rows)
}

// Whether a promote makes what pends stable, and another takes a row away.
fn promotes(table: &mut CopyTable) -> Result<bool, NoMemory> {
    table.promote();
    let is_promoted = has_rows(table, &[(FIVE, Value::Int(20)), (SIX, Value::Int(50))])?;
    let is_at_rest = table.pending(FIVE).is_none();
    table.begin(4);
    table.apply(put(4, 1, FIVE, None))?;
    table.promote();
    Ok(is_promoted && is_at_rest && has_rows(table, &[(SIX, Value::Int(50))])?)
}

#[test]
fn a_promote_makes_what_pends_stable(rt: HostRuntime) -> Result<(), Fail> {
    let mut table = CopyTable::new(rt.alloc());
    let is_written = is_written(&mut table)?;
    assert!(rt; is_written && promotes(&mut table)?);
    Ok(())
}

// Whether the copy so answers a put whose write is packed.
fn puts_packed(
    table: &mut CopyTable,
    alloc: Global,
    put: (u64, u64, Key, Option<Value>),
    answer: CopyAnswer,
) -> Result<bool, NoMemory> {
    let (epoch, time, key, value) = put;
    let write = PackedWrite::of(alloc, &Write { key, value })?;
    Ok(table.put(epoch, time, write)? == answer)
}

// Whether packed writes are put by their times, and a promote makes the last one stable.
fn takes_packed(
    table: &mut CopyTable,
    alloc: Global,
    value: Option<Value>,
) -> Result<bool, NoMemory> {
    let older = CopyAnswer::Older { time: 2 };
    let is_older = puts_packed(table, alloc, (3, 1, FIVE, value), older)?;
    let is_put = puts_packed(table, alloc, (3, 3, FIVE, value), CopyAnswer::Applied)?;
    let is_pending = pends(table, FIVE, 3, value);
    table.promote();
    let is_stable = table.stable(FIVE) == value;
    let other = CopyAnswer::OtherEpoch { current: 3 };
    let is_late = puts_packed(table, alloc, (4, 1, SIX, None), other)?;
    Ok(is_older && is_put && is_pending && is_stable && is_late)
}

#[test]
fn a_packed_write_is_put(rt: HostRuntime) -> Result<(), Fail> {
    let mut table = CopyTable::new(rt.alloc());
    let is_written = is_written(&mut table)?;
    assert!(rt; is_written && takes_packed(&mut table, rt.alloc(), fifty()?)?);
    Ok(())
}

fn put_is_read_back(alloc: Global, value: Option<Value>) -> Result<bool, NoMemory> {
    let asked = put(3, 2, FIVE, value);
    let packed = CopyTable::pack_ask(alloc, &asked)?;
    Ok(CopyTable::unpack_ask(&packed) == asked)
}

fn answer_is_read_back(alloc: Global) -> Result<bool, NoMemory> {
    let older = CopyAnswer::Older { time: 2 };
    CopyTable::spare(alloc)?;
    let (packed, _left) = CopyTable::pack_answer(&older, ());
    Ok(CopyTable::unpack_answer(&packed) == older)
}

#[test]
fn a_packed_put_is_read_back(rt: HostRuntime) -> Result<(), Fail> {
    let none = put_is_read_back(rt.alloc(), None)?;
    let number = put_is_read_back(rt.alloc(), int(5))?;
    let text = put_is_read_back(rt.alloc(), fifty()?)?;
    assert!(rt; none && number && text && answer_is_read_back(rt.alloc())?);
    Ok(())
}
