//! The worked stores of one node, opened from their bytes.

ghost use Rattle.coco_recover.specs.Opening.{IsSoundStore};

use crate::made::{
    BASE, COMMITS, Files, LAYOUTS, NO_COMMITS, NONE_PREPARED, PREPARED, TWO_COMMITS, TWO_LAYOUTS,
    TWO_PREPARED, host_with, number,
};
use coco_host::MemoryHost;
use coco_read::OpenFault;
use coco_recover::{Opened, read_node, read_without, recover, recover_whole};
use coco_types::{Key, OutFault};
use std::alloc::Global;
use std::test::Fail;

// The layout of one node, and behind it one of two nodes and no copies.
const TWO_NODES: [u8; 73] = [
    b'C', b'O', b'C', b'O', b'L', b'O', b'G', 0, 1, 0, 0, 0, 25, 1, 1, 1, 1, 0, 0, 0, 0, 1, 0, 0,
    0, 2, 0, 0, 0, 0, 0, 0, 0, 0, 0, 0, 0, 0, 1, 0, 0, 0, 29, 1, 1, 2, 1, 0, 0, 0, 0, 1, 0, 0, 0,
    2, 0, 0, 0, 3, 0, 0, 0, 0, 0, 0, 0, 0, 0, 0, 0, 0, 0,
];

// What is seen of an opened store: the number of its next epoch, how many replies it keeps, its row 5, how many nodes
// its last layout has, and where that layout's body begins.
type Summary = (u64, u64, Option<i64>, u8, u64);

fn seen(store: &Opened) -> Summary {
    let five = Key { table: 0, row: 5 };
    let value = match store.shards.first() {
        Some(shard) => number(shard.stable(five)),
        None => None,
    };
    (
        store.next_epoch,
        store.kept.len(),
        value,
        store.layout.nodes,
        store.layout_place,
    )
}

// What is seen once a store is opened, with all replies or by its keep number.
fn opened(alloc: Global, host: &mut MemoryHost, is_whole: bool) -> Result<Summary, OpenFault> {
    let store = if is_whole {
        recover_whole(alloc, host)
    } else {
        recover(alloc, host)
    };
    match store {
        Ok(store) => Ok(seen(&store)),
        Err(fault) => Err(fault),
    }
}

// Of the store that is refused the node lacks the entry of the committed epoch, which is found at its last gate.
const STORES: [(&str, Files, Result<Summary, OpenFault>); 7] = [
    (
        "no epoch",
        &[(0, &LAYOUTS), (1, &NO_COMMITS), (2, &NONE_PREPARED)],
        Ok((1, 0, None, 1, 13)),
    ),
    (
        "a prepared epoch",
        &[(0, &LAYOUTS), (1, &NO_COMMITS), (2, &PREPARED)],
        Ok((2, 0, None, 1, 13)),
    ),
    (
        "a committed epoch",
        &[(0, &LAYOUTS), (1, &COMMITS), (2, &PREPARED)],
        Ok((2, 1, Some(70), 1, 13)),
    ),
    (
        "an epoch that was not prepared",
        &[(0, &LAYOUTS), (1, &COMMITS), (2, &NONE_PREPARED)],
        Err(OpenFault::NotAStore { file: 2, at: 8 }),
    ),
    (
        "a base",
        &[
            (0, &TWO_LAYOUTS),
            (1, &COMMITS),
            (2, &PREPARED),
            (3, &BASE),
            (4, &NO_COMMITS),
            (5, &NONE_PREPARED),
        ],
        Ok((3, 2, Some(70), 1, 43)),
    ),
    (
        "a file of no node",
        &[
            (0, &LAYOUTS),
            (1, &NO_COMMITS),
            (2, &NONE_PREPARED),
            (3, &NONE_PREPARED),
        ],
        Ok((1, 0, None, 1, 13)),
    ),
    (
        "two nodes",
        &[
            (0, &TWO_NODES),
            (1, &NO_COMMITS),
            (2, &NONE_PREPARED),
            (3, &NONE_PREPARED),
        ],
        Ok((1, 0, None, 2, 43)),
    ),
];

fn is_opened(
    alloc: Global,
    files: Files,
    is_whole: bool,
    wanted: &Result<Summary, OpenFault>,
) -> Result<bool, OutFault> {
    let mut host = host_with(alloc, files)?;
    Ok(opened(alloc, &mut host, is_whole) == *wanted)
}

#[test]
fn stores_are_opened_with_their_last_layout_or_refused(rt: HostRuntime) -> Result<(), Fail> {
    for (name, files, wanted) in &STORES {
        let is_well = is_opened(rt.alloc(), files, false, wanted)?
            && is_opened(rt.alloc(), files, true, wanted)?;
        assert!(rt; is_well, "{name}");
    }
    Ok(())
}

// Whether a base file is refused at the tag of its second entry, whatever follows that tag.
fn is_refused_at_a_tag(alloc: Global, tag: u8) -> Result<bool, OutFault> {
    let mut base = BASE;
    base[52] = tag;
    let mut host = host_with(alloc, &[(0, &TWO_LAYOUTS), (3, &base)])?;
    let refused = OpenFault::NotAStore { file: 3, at: 52 };
    Ok(opened(alloc, &mut host, false) == Err(refused))
}

#[test]
fn a_later_entry_of_another_tag_is_bad_at_its_tag(rt: HostRuntime) -> Result<(), Fail> {
    for tag in [4, 7] {
        assert!(rt;
            is_refused_at_a_tag(rt.alloc(), tag)?,
            "a later entry of tag {tag}"
        );
    }
    Ok(())
}

// Files with the committed epochs, the greatest that each node prepared, and the next one.
const EPOCHS: [(Files, &'static [u64], &'static [u64], u64); 3] = [
    (
        &[(0, &LAYOUTS), (1, &TWO_COMMITS), (2, &TWO_PREPARED)],
        &[1, 3],
        &[3],
        4,
    ),
    (
        &[(0, &LAYOUTS), (1, &NO_COMMITS), (2, &TWO_PREPARED)],
        &[],
        &[3],
        4,
    ),
    (
        &[
            (0, &TWO_NODES),
            (1, &NO_COMMITS),
            (2, &PREPARED),
            (3, &NONE_PREPARED),
        ],
        &[],
        &[1, 0],
        2,
    ),
];

// Whether a store is opened with these committed epochs, these that its nodes prepared, and this next one.
fn has_epochs(
    alloc: Global,
    files: Files,
    epochs: &[u64],
    prepared: &[u64],
    next: u64,
) -> Result<bool, OutFault> {
    let mut host = host_with(alloc, files)?;
    match recover(alloc, &mut host) {
        Ok(store) => Ok(
            store.epochs.as_slice() == epochs
                && store.prepared.as_slice() == prepared
                && store.next_epoch == next,
        ),
        Err(_) => Ok(false),
    }
}

#[test]
fn epochs_are_had_of_a_store(rt: HostRuntime) -> Result<(), Fail> {
    for (files, epochs, prepared, next) in EPOCHS {
        assert!(rt;
            has_epochs(rt.alloc(), files, epochs, prepared, next)?,
            "{next}"
        );
    }
    Ok(())
}

// Whether a store of which a node's file isn't read has committed epoch 1, and a log of the first of two nodes alone.
fn is_first_alone(alloc: Global, host: &mut MemoryHost, node: u8) -> Result<bool, OpenFault> {
    let parts = read_without(alloc, host, node)?;
    Ok(
        parts.epochs.as_slice() == [1].as_slice()
            && matches!(parts.nodes.first(), Some(Some(_)))
            && !matches!(parts.nodes.get(1), Some(Some(_))),
    )
}

// Whether a store without its second node's file is read without that node, and refused without another and with all.
fn is_left_out(alloc: Global) -> Result<bool, OutFault> {
    let mut host = host_with(alloc, &[(0, &TWO_NODES), (1, &COMMITS), (2, &PREPARED)])?;
    let refused = OpenFault::NotAStore { file: 3, at: 0 };
    let is_read = is_first_alone(alloc, &mut host, 1) == Ok(true);
    let is_refused = is_first_alone(alloc, &mut host, 0) == Err(refused)
        && is_first_alone(alloc, &mut host, 2) == Err(refused);
    Ok(is_read && is_refused && opened(alloc, &mut host, false) == Err(refused))
}

#[test]
fn a_node_is_left_out(rt: HostRuntime) -> Result<(), Fail> {
    assert!(rt; is_left_out(rt.alloc())?);
    Ok(())
}

// What the second of two nodes prepared for epoch 1: nothing, since it doesn't hold the partition.
const NO_ROWS: [u8; 27] = [
    b'C', b'O', b'C', b'O', b'L', b'O', b'G', 2, 1, 0, 0, 0, 13, 3, 0, 0, 0, 0, 0, 0, 0, 1, 0, 0,
    0, 0, 0,
];

const TWO_NODES_AT_ONE: Files = &[
    (0, &TWO_NODES),
    (1, &COMMITS),
    (2, &PREPARED),
    (3, &NO_ROWS),
];

// A node's file, its number, and what row 5's table has once the node's tables are read anew from it.
const ANEW: [(Files, u8, Result<Option<i64>, OpenFault>); 4] = [
    (&[(2, &PREPARED)], 0, Ok(Some(70))),
    (&[(3, &NO_ROWS)], 1, Ok(None)),
    (
        &[(2, &NONE_PREPARED)],
        0,
        Err(OpenFault::NotAStore { file: 2, at: 8 }),
    ),
    (
        &[(2, &COMMITS)],
        0,
        Err(OpenFault::NotAStore { file: 2, at: 7 }),
    ),
];

// What row 5's table has once a node's tables are read anew, over a store that was opened.
fn five_anew(
    alloc: Global,
    store: &Opened,
    host: &mut MemoryHost,
    node: u8,
) -> Result<Option<i64>, OpenFault>
    requires { IsSoundStore store.now }
{
    if node >= store.layout.nodes {
        return Ok(None);
    }
    let (tables, _log) = read_node(
        alloc,
        host,
        &store.layout,
        &store.procs,
        store.epochs.as_slice(),
        store.base.as_slice(),
        node,
    )?;
    let five = Key { table: 0, row: 5 };
    Ok(match tables.shards.first() {
        Some(shard) => number(shard.stable(five)),
        None => None,
    })
}

// Whether a node's tables are read anew so, out of these files alone.
fn is_read_anew(
    alloc: Global,
    files: Files,
    node: u8,
    wanted: &Result<Option<i64>, OpenFault>,
) -> Result<bool, OutFault> {
    let mut host = host_with(alloc, TWO_NODES_AT_ONE)?;
    let Ok(store) = recover(alloc, &mut host) else {
        return Ok(false);
    };
    let mut host = host_with(alloc, files)?;
    Ok(five_anew(alloc, &store, &mut host, node) == *wanted)
}

#[test]
fn a_lost_nodes_tables_are_read_anew(rt: HostRuntime) -> Result<(), Fail> {
    for (files, node, wanted) in &ANEW {
        assert!(rt;
            is_read_anew(rt.alloc(), files, *node, wanted)?,
            "node {node}"
        );
    }
    Ok(())
}
