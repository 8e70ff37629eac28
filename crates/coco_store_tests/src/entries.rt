//! Entries as bytes.

use crate::made::put_of_seventy;
use coco_entry::*;
use coco_types::{Done, Key, NoMemory, Packed, Value};
use std::alloc::Global;
use std::test::Fail;

const FIRST: [u8; 25] = [
    1, 1, 1, 1, 0, 0, 0, 0, 1, 0, 0, 0, 2, 0, 0, 0, 0, 0, 0, 0, 0, 0, 0, 0, 0,
];

const SECOND: [u8; 27] = [
    1, 2, 1, 1, 0, 0, 0, 0, 1, 0, 0, 0, 2, 0, 0, 0, 0, 0, 0, 0, 0, 0, 0, 0, 0, 0, 1,
];

const THIRD: [u8; 31] = [
    1, 3, 1, 1, 0, 0, 0, 0, 4, 0, 0, 0, 5, 0, 0, 0, 0, 0, 0, 0, 2, 0, 0, 0, 0, 0, 0, 0, 0, 0, 3,
];

const COMMIT: [u8; 61] = [
    2, 0, 0, 0, 0, 0, 0, 0, 1, 0, 0, 0, 1, 0, 0, 0, 0, 0, 0, 0, 1, 0, 1, 0, 2, 1, 0, 0, 0, 0, 0, 0,
    0, 5, 1, 0, 0, 0, 0, 0, 0, 0, 70, 0, 0, 0, 0, 0, 0, 0, 1, 0, 1, 0, 0, 0, 0, 0, 0, 0, 70,
];

const PREPARED: [u8; 40] = [
    3, 0, 0, 0, 0, 0, 0, 0, 1, 0, 0, 0, 1, 0, 0, 0, 0, 0, 0, 0, 0, 0, 5, 0, 0, 0, 0, 0, 0, 0, 1, 1,
    0, 0, 0, 0, 0, 0, 0, 70,
];

const HEAD: [u8; 34] = [
    4, 0, 0, 0, 0, 0, 0, 0, 2, 1, 0, 0, 0, 0, 0, 0, 0, 7, 0, 0, 0, 0, 0, 0, 0, 1, 0, 0, 0, 0, 0, 0,
    0, 1,
];

const DONES: [u8; 61] = [
    5, 0, 0, 0, 1, 0, 0, 0, 0, 0, 0, 0, 1, 0, 0, 0, 0, 0, 0, 0, 1, 0, 1, 0, 2, 1, 0, 0, 0, 0, 0, 0,
    0, 5, 1, 0, 0, 0, 0, 0, 0, 0, 70, 0, 0, 0, 0, 0, 0, 0, 1, 0, 1, 0, 0, 0, 0, 0, 0, 0, 70,
];

const ROWS: [u8; 24] = [
    6, 0, 0, 0, 1, 0, 0, 0, 0, 0, 0, 0, 0, 0, 5, 1, 0, 0, 0, 0, 0, 0, 0, 70,
];

// The coordinator's file and the node's, and what a layout has behind them: its base epoch, and maybe a keep number
// and a base file.
type Fields = (u32, u32, u64, Option<u16>, Option<u32>);

// Whether it is the layout of one node, one partition and no copies with these fields.
fn has_fields(read: &LayoutEntry, fields: &Fields) -> bool {
    let layout = &read.layout;
    let (chief_file, node_file, base_epoch, keep, base_file) = fields;
    (layout.nodes, layout.partitions, layout.copies) == (1, 1, 0)
        && layout.chief_file == *chief_file
        && layout.node_files.as_slice() == [*node_file].as_slice()
        && layout.base_epoch == *base_epoch
        && read.keep == *keep
        && read.base_file == *base_file
}

// Whether this body is read as a layout with these fields, and put back as it was.
fn is_layout(alloc: Global, body: &[u8], fields: &Fields) -> Result<bool, EntryFault> {
    let read = read_layout(alloc, body)?;
    let mut out = Vec::new(alloc);
    put_layout(&mut out, &read.layout, read.keep, read.base_file)?;
    Ok(out.as_slice() == body && has_fields(&read, fields))
}

#[test]
fn a_layout_has_the_bytes_of_its_version(rt: HostRuntime) -> Result<(), Fail> {
    let cases: [(&[u8], Fields); 3] = [
        (&FIRST, (1, 2, 0, None, None)),
        (&SECOND, (1, 2, 0, Some(1), None)),
        (&THIRD, (4, 5, 2, None, Some(3))),
    ];
    for (body, fields) in &cases {
        assert!(rt; is_layout(rt.alloc(), body, fields)?, "{}", fields.0);
    }
    Ok(())
}

// Whether a Done was read that is the put of 70, and no other.
fn is_put_of_seventy(alloc: Global, dones: &[Done]) -> Result<bool, NoMemory> {
    let done = put_of_seventy(alloc)?;
    match dones {
        [only] => Ok(*only == done),
        _ => Ok(false),
    }
}

fn is_commit(alloc: Global) -> Result<bool, EntryFault> {
    let mut out = Vec::new(alloc);
    put_commit(&mut out, 1, &[put_of_seventy(alloc)?])?;
    let commit = read_commit(alloc, &COMMIT)?;
    let is_put = is_put_of_seventy(alloc, commit.dones.as_slice())?;
    Ok(is_put && commit.epoch == 1 && out.as_slice() == COMMIT.as_slice())
}

fn is_prepared(alloc: Global) -> Result<bool, EntryFault> {
    let row = Row {
        key: Key { table: 0, row: 5 },
        time: 1,
        value: Packed::of_int(70),
    };
    let mut out = Vec::new(alloc);
    put_prepared(&mut out, 1, &[row])?;
    let prepared = read_prepared(alloc, &PREPARED)?;
    let is_read = prepared.epoch == 1 && prepared.rows.len() == 1;
    Ok(is_read && out.as_slice() == PREPARED.as_slice())
}

#[test]
fn a_put_of_seventy_has_its_commit_and_its_row(rt: HostRuntime) -> Result<(), Fail> {
    assert!(rt; is_commit(rt.alloc())? && is_prepared(rt.alloc())?);
    Ok(())
}

fn is_head(alloc: Global) -> Result<bool, EntryFault> {
    let head = BaseHead {
        epoch: 2,
        floor: Some(7),
        dones: 1,
        rows: 1,
    };
    let mut out = Vec::new(alloc);
    put_head(&mut out, &head)?;
    Ok(out.as_slice() == HEAD.as_slice() && read_head(&HEAD)? == head)
}

fn are_dones(alloc: Global) -> Result<bool, EntryFault> {
    let mut out = Vec::new(alloc);
    put_base_dones(&mut out, &[put_of_seventy(alloc)?])?;
    let read = read_base_dones(alloc, &DONES)?;
    let is_put = is_put_of_seventy(alloc, read.as_slice())?;
    Ok(is_put && out.as_slice() == DONES.as_slice())
}

fn are_rows(alloc: Global) -> Result<bool, EntryFault> {
    let mut out = Vec::new(alloc);
    put_base_rows(&mut out, &[(Key { table: 0, row: 5 }, Value::Int(70))])?;
    let read = read_base_rows(alloc, &ROWS)?;
    Ok(out.as_slice() == ROWS.as_slice() && read.len() == 1)
}

#[test]
fn a_base_has_a_head_and_its_items(rt: HostRuntime) -> Result<(), Fail> {
    assert!(rt; is_head(rt.alloc())? && are_dones(rt.alloc())? && are_rows(rt.alloc())?);
    Ok(())
}

#[test]
fn faults_are_readable(rt: HostRuntime) -> Result<(), Fail> {
    let said = format!(in rt.alloc(); "{}; {}", EntryFault::Bad { at: 3 }, EntryFault::NoMemory)?;
    assert_eq!(rt; said.as_str(), "no entry: bad at byte 3; out of memory");
    Ok(())
}
