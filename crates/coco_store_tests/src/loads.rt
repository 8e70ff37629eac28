//! A small store on two nodes: two partitions, each with one copy on the other node.

ghost use Rattle.std.specs.Prelude.{◌≡◌, ◌<◌, IfOk, OnOk};
ghost use Rattle.coco_load.specs.Tables.{AreTables, IsRing};

use crate::made::number;
use coco_entry::{Layout, Row};
use coco_load::*;
use coco_types::{Key, MapRows, NoMemory, Packed, Sequence, Text, Value};
use std::alloc::Global;
use std::test::Fail;

fn layout(alloc: Global) -> Layout
    ensures ring { IsRing result }
    ensures nodes { result.nodes ≡ 2 }
{
    Layout {
        nodes: 2,
        partitions: 2,
        copies: 1,
        chief_file: 1,
        node_files: Sequence::new(alloc),
        base_epoch: 0,
        text: Sequence::new(alloc),
    }
}

fn key(row: u32) -> Key {
    Key {
        table: 0,
        row: u64::from(row),
    }
}

// The base's rows 0, 1 and 2 are 1, 2 and 3.
fn based(alloc: Global, layout: &Layout) -> Result<Tables, NoMemory>
    requires { IsRing layout.now }
    ensures { IfOk result (λ tables. AreTables layout.now tables.shards.items tables.copies.items) }
{
    let mut tables = Tables::new(alloc, layout)?;
    let rows = vec![in alloc;
        (key(0), Value::Int(1)),
        (key(1), Value::Int(2)),
        (key(2), Value::Int(3)),
    ]?;
    let rows = packed_rows(alloc, MapRows::from_vec(rows))?;
    tables.load_base(layout, rows.as_slice())?;
    Ok(tables)
}

// A whole number and a text come out as they went in.
fn stay_as_they_are(alloc: Global) -> Result<bool, NoMemory> {
    let Some(text) = Text::of("seven") else {
        return Ok(false);
    };
    let (number, text) = (Value::Int(-7), Value::Text(text));
    let rows = vec![in alloc; (key(1), number), (key(2), text)]?;
    let packed = packed_rows(alloc, MapRows::from_vec(rows))?;
    let [first, second] = packed.as_slice() else {
        return Ok(false);
    };
    let is_first = first.key() == key(1) && first.value() == number;
    let is_second = second.key() == key(2) && second.value() == text;
    Ok(is_first && is_second)
}

#[test]
fn packed_rows_are_those_that_came(rt: HostRuntime) -> Result<(), Fail> {
    assert!(rt; stay_as_they_are(rt.alloc())?);
    Ok(())
}

fn row(number: u32, value: Packed) -> Row {
    Row {
        key: key(number),
        time: 1,
        value,
    }
}

// Loads an entry of a node: row 0 is 10, row 1 is 20, and row 2 goes.
fn load(tables: &mut Tables, layout: &Layout, node: u8) -> Result<(), NoMemory>
    requires tables { AreTables layout.now tables.old.shards.items tables.old.copies.items }
    requires node { node < layout.now.nodes }
    ensures { OnOk result (AreTables layout.now tables.new.shards.items tables.new.copies.items) }
{
    let rows = [
        row(0, Packed::of_int(10)),
        row(1, Packed::of_int(20)),
        row(2, Packed::none()),
    ];
    tables.load_prepared(layout, node, &rows)
}

// What the shard and the copy of its partition have at a row.
fn seen(tables: &Tables, row: u32) -> Option<[Option<i64>; 2]> {
    let place = (row % 2) as usize;
    let shard = tables.shards.get(place)?;
    let copy = tables.copies.get(place)?;
    Some([
        number(shard.stable(key(row))),
        number(copy.stable(key(row))),
    ])
}

fn shows(tables: &Tables, wanted: &[[Option<i64>; 2]; 3]) -> bool {
    seen(tables, 0) == Some(wanted[0])
        && seen(tables, 1) == Some(wanted[1])
        && seen(tables, 2) == Some(wanted[2])
}

// Loads node 0, which has the shard of partition 0 and the copy of partition 1, and then the other one.
fn are_loaded(alloc: Global) -> Result<bool, NoMemory> {
    let layout = layout(alloc);
    let mut tables = based(alloc, &layout)?;
    load(&mut tables, &layout, 0)?;
    let is_first = shows(
        &tables,
        &[[Some(10), Some(1)], [Some(2), Some(20)], [None, Some(3)]],
    );
    load(&mut tables, &layout, 1)?;
    let both = [[Some(10), Some(10)], [Some(20), Some(20)], [None, None]];
    Ok(is_first && shows(&tables, &both))
}

#[test]
fn rows_are_loaded_on_their_nodes(rt: HostRuntime) -> Result<(), Fail> {
    assert!(rt; are_loaded(rt.alloc())?);
    Ok(())
}
