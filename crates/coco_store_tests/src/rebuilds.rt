//! The file of a lost node, made again.

use crate::made::{COMMITS, Files, LAYOUTS, PREPARED, has_bytes, host_with, number};
use coco_host::MemoryHost;
use coco_read::OpenFault;
use coco_rebuild::{RebuildFault, rebuild};
use coco_recover::recover;
use coco_types::{Key, OutFault};
use std::alloc::Global;
use std::test::Fail;

// Three nodes, each of which holds all three partitions.
const ALL_HOLD: [u8; 47] = [
    b'C', b'O', b'C', b'O', b'L', b'O', b'G', 0, 1, 0, 0, 0, 33, 1, 1, 3, 3, 2, 0, 0, 0, 1, 0, 0,
    0, 2, 0, 0, 0, 3, 0, 0, 0, 4, 0, 0, 0, 0, 0, 0, 0, 0, 0, 0, 0, 0, 0,
];

// The same, and then file 5 for the last node.
const ALL_HOLD_AGAIN: [u8; 85] = [
    b'C', b'O', b'C', b'O', b'L', b'O', b'G', 0, 1, 0, 0, 0, 33, 1, 1, 3, 3, 2, 0, 0, 0, 1, 0, 0,
    0, 2, 0, 0, 0, 3, 0, 0, 0, 4, 0, 0, 0, 0, 0, 0, 0, 0, 0, 0, 0, 0, 1, 0, 0, 0, 33, 1, 1, 3, 3,
    2, 0, 0, 0, 1, 0, 0, 0, 2, 0, 0, 0, 3, 0, 0, 0, 5, 0, 0, 0, 0, 0, 0, 0, 0, 0, 0, 0, 0, 0,
];

// Three nodes, of which each holds the partition of its number and the one before.
const TWO_HOLD: [u8; 47] = [
    b'C', b'O', b'C', b'O', b'L', b'O', b'G', 0, 1, 0, 0, 0, 33, 1, 1, 3, 3, 1, 0, 0, 0, 1, 0, 0,
    0, 2, 0, 0, 0, 3, 0, 0, 0, 4, 0, 0, 0, 0, 0, 0, 0, 0, 0, 0, 0, 0, 0,
];

// The same, and then file 5 for the first node.
const TWO_HOLD_AGAIN: [u8; 85] = [
    b'C', b'O', b'C', b'O', b'L', b'O', b'G', 0, 1, 0, 0, 0, 33, 1, 1, 3, 3, 1, 0, 0, 0, 1, 0, 0,
    0, 2, 0, 0, 0, 3, 0, 0, 0, 4, 0, 0, 0, 0, 0, 0, 0, 0, 0, 0, 0, 0, 1, 0, 0, 0, 33, 1, 1, 3, 3,
    1, 0, 0, 0, 1, 0, 0, 0, 5, 0, 0, 0, 3, 0, 0, 0, 4, 0, 0, 0, 0, 0, 0, 0, 0, 0, 0, 0, 0, 0,
];

// put(5, 70) as id 1 and put(6, 7) as id 2 in epoch 2.
const TWO_PUTS: [u8; 123] = [
    b'C', b'O', b'C', b'O', b'L', b'O', b'G', 1, 1, 0, 0, 0, 109, 2, 0, 0, 0, 0, 0, 0, 0, 2, 0, 0,
    0, 2, 0, 0, 0, 0, 0, 0, 0, 1, 0, 1, 0, 2, 1, 0, 0, 0, 0, 0, 0, 0, 5, 1, 0, 0, 0, 0, 0, 0, 0,
    70, 0, 0, 0, 0, 0, 0, 0, 1, 0, 1, 0, 0, 0, 0, 0, 0, 0, 70, 0, 0, 0, 0, 0, 0, 0, 2, 0, 1, 0, 2,
    1, 0, 0, 0, 0, 0, 0, 0, 6, 1, 0, 0, 0, 0, 0, 0, 0, 7, 0, 0, 0, 0, 0, 0, 0, 2, 0, 1, 0, 0, 0, 0,
    0, 0, 0, 7, 0,
];

// Row 6, of partition 0, in epoch 1, which wasn't committed, and in epoch 2.
const SIX: [u8; 99] = [
    b'C', b'O', b'C', b'O', b'L', b'O', b'G', 2, 1, 0, 0, 0, 40, 3, 0, 0, 0, 0, 0, 0, 0, 1, 0, 0,
    0, 1, 0, 0, 0, 0, 0, 0, 0, 0, 0, 6, 0, 0, 0, 0, 0, 0, 0, 1, 1, 0, 0, 0, 0, 0, 0, 0, 9, 1, 0, 0,
    0, 40, 3, 0, 0, 0, 0, 0, 0, 0, 2, 0, 0, 0, 1, 0, 0, 0, 0, 0, 0, 0, 0, 0, 6, 0, 0, 0, 0, 0, 0,
    0, 2, 1, 0, 0, 0, 0, 0, 0, 0, 7, 0,
];

// Row 5, of partition 2, in epoch 2.
const FIVE: [u8; 54] = [
    b'C', b'O', b'C', b'O', b'L', b'O', b'G', 2, 1, 0, 0, 0, 40, 3, 0, 0, 0, 0, 0, 0, 0, 2, 0, 0,
    0, 1, 0, 0, 0, 0, 0, 0, 0, 0, 0, 5, 0, 0, 0, 0, 0, 0, 0, 1, 1, 0, 0, 0, 0, 0, 0, 0, 70, 0,
];

// Both rows in epoch 2.
const BOTH: [u8; 81] = [
    b'C', b'O', b'C', b'O', b'L', b'O', b'G', 2, 1, 0, 0, 0, 67, 3, 0, 0, 0, 0, 0, 0, 0, 2, 0, 0,
    0, 2, 0, 0, 0, 0, 0, 0, 0, 0, 0, 5, 0, 0, 0, 0, 0, 0, 0, 1, 1, 0, 0, 0, 0, 0, 0, 0, 70, 0, 0,
    0, 0, 0, 0, 0, 0, 0, 6, 0, 0, 0, 0, 0, 0, 0, 2, 1, 0, 0, 0, 0, 0, 0, 0, 7, 0,
];

// Files, the node that is made again, what the call answers, and what files have then.
const STORES: [(&str, Files, u8, Result<(), RebuildFault>, Files); 4] = [
    (
        "each node holds all",
        &[
            (0, &ALL_HOLD),
            (1, &COMMITS),
            (2, &PREPARED),
            (3, &PREPARED),
        ],
        2,
        Ok(()),
        &[
            (0, &ALL_HOLD_AGAIN),
            (1, &COMMITS),
            (2, &PREPARED),
            (3, &PREPARED),
            (4, &[]),
            (5, &PREPARED),
        ],
    ),
    (
        "rows come of two nodes",
        &[(0, &TWO_HOLD), (1, &TWO_PUTS), (3, &SIX), (4, &FIVE)],
        0,
        Ok(()),
        &[
            (0, &TWO_HOLD_AGAIN),
            (1, &TWO_PUTS),
            (2, &[]),
            (3, &SIX),
            (4, &FIVE),
            (5, &BOTH),
        ],
    ),
    (
        "no other holder",
        &[(0, &LAYOUTS), (1, &COMMITS), (2, &PREPARED)],
        0,
        Err(RebuildFault::NoHolder { partition: 0 }),
        &[(0, &LAYOUTS), (1, &COMMITS), (2, &PREPARED), (3, &[])],
    ),
    (
        "no such node",
        &[(0, &LAYOUTS), (1, &COMMITS), (2, &PREPARED)],
        1,
        Err(RebuildFault::NoNode { nodes: 1 }),
        &[(0, &LAYOUTS), (1, &COMMITS), (2, &PREPARED), (3, &[])],
    ),
];

fn is_made_again(
    alloc: Global,
    files: Files,
    node: u8,
    answer: &Result<(), RebuildFault>,
    after: Files,
) -> Result<bool, OutFault> {
    let mut host = host_with(alloc, files)?;
    let mut is_well = rebuild(alloc, &mut host, node) == *answer;
    for (file, bytes) in after {
        is_well = is_well && has_bytes(&mut host, *file, bytes);
    }
    Ok(is_well)
}

#[test]
fn files_are_made_again_or_refused(rt: HostRuntime) -> Result<(), Fail> {
    for (name, files, node, answer, after) in &STORES {
        assert!(rt;
            is_made_again(rt.alloc(), files, *node, answer, after)?,
            "{name}"
        );
    }
    Ok(())
}

// Row 5 of a store of three partitions, once it is opened.
fn five(alloc: Global, host: &mut MemoryHost) -> Result<Option<i64>, OpenFault> {
    let store = recover(alloc, host)?;
    match store.shards.get(2) {
        Some(shard) => Ok(number(shard.stable(Key { table: 0, row: 5 }))),
        None => Ok(None),
    }
}

// Whether a store is refused for the file that is lost, and opened once that was made again.
fn is_opened_again(alloc: Global) -> Result<bool, OutFault> {
    let (_, files, node, answer, _) = &STORES[0];
    let mut host = host_with(alloc, files)?;
    let refused = OpenFault::NotAStore { file: 4, at: 0 };
    let is_refused = five(alloc, &mut host) == Err(refused);
    let is_made = rebuild(alloc, &mut host, *node) == *answer;
    Ok(is_refused && is_made && five(alloc, &mut host) == Ok(Some(70)))
}

#[test]
fn a_store_is_opened_once_its_file_is_made_again(rt: HostRuntime) -> Result<(), Fail> {
    assert!(rt; is_opened_again(rt.alloc())?);
    Ok(())
}
