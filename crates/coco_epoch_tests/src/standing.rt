//! Two partitions and a copy of each on three nodes, at the end of an epoch.

ghost use Rattle.std.specs.Prelude.{◌≡◌, ◌<◌, ◌^◌, length, IfOk};
ghost use Rattle.coco_load.specs.Tables.{IsRing};
ghost use Rattle.coco_standing.specs.Standing.{AreCounted};

use coco_copy::{CopyAsk, CopyTable};
use coco_entry::Layout;
use coco_load::{Tables, packed_rows};
use coco_shard::{Ask, Op, Shard};
use coco_standing::{promote_node, revert_all, take_tables};
use coco_types::{AttemptId, Key, Machine, MapRows, NoMemory, Sequence, Value, Write};
use std::alloc::Global;
use std::test::Fail;

// One node promotes, all revert, or one takes tables in which the rows are 3.
#[derive(Clone, Copy)]
enum End {
    Promoted(u8),
    Reverted,
    Taken(u8),
}

// The shards are on nodes 0 and 1, and the copies on nodes 1 and 2.
fn layout(alloc: Global) -> Layout
    ensures { IsRing result }
{
    Layout {
        nodes: 3,
        partitions: 2,
        copies: 1,
        chief_file: 1,
        node_files: Sequence::new(alloc),
        base_epoch: 0,
        text: Sequence::new(alloc),
    }
}

fn key(row: usize) -> Key
    requires { row < 2 ^ 63 }
{
    Key {
        table: 0,
        row: row as u64,
    }
}

// Each partition has one row, with this number.
fn loaded(alloc: Global, layout: &Layout, number: i64) -> Result<Tables, NoMemory>
    requires { IsRing layout.now }
    ensures { IfOk result (λ tables. AreCounted layout.now tables.shards.items tables.copies.items) }
{
    let mut tables = Tables::new(alloc, layout)?;
    let rows = vec![in alloc; (key(0), Value::Int(number)), (key(1), Value::Int(number))]?;
    let rows = packed_rows(alloc, MapRows::from_vec(rows))?;
    tables.load_base(layout, rows.as_slice())?;
    Ok(tables)
}

fn two() -> Option<Value> {
    Some(Value::Int(2))
}

// An epoch makes the rows 2 in all shards.
fn write_shards(shards: &mut [Shard]) -> Result<(), NoMemory>
    ensures { length shards.new ≡ length shards.old }
{
    for place in 0..shards.len() {
        let key = key(place);
        let by = AttemptId {
            worker: 0,
            number: 1,
        };
        let value = two();
        let install = Op::Install {
            key,
            time: 1,
            value,
        };
        for op in [Op::Lock(key), install] {
            shards[place].apply(Ask { by, op })?;
        }
    }
    Ok(())
}

// And in all copies.
fn write_copies(copies: &mut [CopyTable]) -> Result<(), NoMemory>
    ensures { length copies.new ≡ length copies.old }
{
    for place in 0..copies.len() {
        let write = Write {
            key: key(place),
            value: two(),
        };
        copies[place].begin(1);
        copies[place].apply(CopyAsk::Put {
            epoch: 1,
            time: 1,
            write,
        })?;
    }
    Ok(())
}

fn end_epoch(
    alloc: Global,
    layout: &Layout,
    end: End,
    shards: &mut [Shard],
    copies: &mut [CopyTable],
) -> Result<(), NoMemory>
    requires { AreCounted layout.now shards.old copies.old }
{
    match end {
        End::Promoted(node) => promote_node(layout, shards, copies, node),
        End::Reverted => revert_all(shards, copies),
        End::Taken(node) => {
            let from = loaded(alloc, layout, 3)?;
            take_tables(layout, node, from, shards, copies);
        }
    }
    Ok(())
}

fn number(value: Option<Value>) -> i64 {
    match value {
        Some(Value::Int(number)) => number,
        _ => 0,
    }
}

// The rows that are stable in the two shards, and in the two copies.
fn stable(shards: &[Shard], copies: &[CopyTable]) -> Option<[i64; 4]> {
    let (first, second) = (shards.first()?, shards.get(1)?);
    let (copy, other) = (copies.first()?, copies.get(1)?);
    Some([
        number(first.stable(key(0))),
        number(second.stable(key(1))),
        number(copy.stable(key(0))),
        number(other.stable(key(1))),
    ])
}

// What is stable once an epoch over rows that were 1 has ended so.
fn ended(alloc: Global, layout: &Layout, end: End) -> Result<Option<[i64; 4]>, NoMemory>
    requires { IsRing layout.now }
{
    let mut tables = loaded(alloc, layout, 1)?;
    let shards = tables.shards.as_mut_slice();
    let copies = tables.copies.as_mut_slice();
    write_shards(shards)?;
    write_copies(copies)?;
    end_epoch(alloc, layout, end, shards, copies)?;
    Ok(stable(shards, copies))
}

fn end_as_told(alloc: Global) -> Result<bool, NoMemory> {
    let layout = layout(alloc);
    for (end, wanted) in [
        (End::Promoted(0), [2, 1, 1, 1]),
        (End::Promoted(1), [1, 2, 2, 1]),
        (End::Promoted(2), [1, 1, 1, 2]),
        (End::Reverted, [1, 1, 1, 1]),
        (End::Taken(1), [1, 3, 3, 1]),
    ] {
        if ended(alloc, &layout, end)? != Some(wanted) {
            return Ok(false);
        }
    }
    Ok(true)
}

#[test]
fn a_node_ends_an_epoch_in_its_own_tables(rt: HostRuntime) -> Result<(), Fail> {
    let end_as_told = end_as_told(rt.alloc())?;
    assert!(rt; end_as_told);
    Ok(())
}
