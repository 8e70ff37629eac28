//! The worked store of one epoch, compacted.

use crate::made::{
    COMMITS, LAYOUTS, NO_COMMITS, NONE_PREPARED, PREPARED, TWO_LAYOUTS, has_bytes, host_with,
    number,
};
use coco_ckpt::compact_store;
use coco_recover::{Opened, recover};
use coco_types::Key;
use std::test::Fail;

// The layout of before, and one from epoch 1 on with a base in file 3, the coordinator's file 4 and the node's file 5.
const SMALL: [u8; 75] = [
    b'C', b'O', b'C', b'O', b'L', b'O', b'G', 0, 1, 0, 0, 0, 25, 1, 1, 1, 1, 0, 0, 0, 0, 1, 0, 0,
    0, 2, 0, 0, 0, 0, 0, 0, 0, 0, 0, 0, 0, 0, 1, 0, 0, 0, 31, 1, 3, 1, 1, 0, 0, 0, 0, 4, 0, 0, 0,
    5, 0, 0, 0, 0, 0, 0, 0, 1, 0, 0, 0, 0, 0, 0, 0, 0, 0, 3, 0,
];

#[test]
fn a_compacted_store_is_opened_from_new_files(rt: HostRuntime) -> Result<(), Fail> {
    let files: [(u32, &[u8]); 3] = [(0, &LAYOUTS), (1, &COMMITS), (2, &PREPARED)];
    let mut host = host_with(rt.alloc(), &files)?;
    let store = recover(rt.alloc(), &mut host)?;
    assert!(rt; compact_store(rt.alloc(), &mut host, store) == Ok(()));
    assert!(rt; has_bytes(&mut host, 0, &SMALL));
    assert!(rt; has_bytes(&mut host, 1, &COMMITS) && has_bytes(&mut host, 2, &PREPARED));
    assert!(rt; has_bytes(&mut host, 4, &NO_COMMITS) && has_bytes(&mut host, 5, &NONE_PREPARED));
    let small = recover(rt.alloc(), &mut host)?;
    assert!(rt; small.next_epoch == 2 && small.kept.len() == 1 && small.base_file == Some(3));
    Ok(())
}

// Behind the row of epoch 1, which has 70, one of epoch 2 with 71, which was never committed.
const ONE_MORE_PREPARED: [u8; 99] = [
    b'C', b'O', b'C', b'O', b'L', b'O', b'G', 2, 1, 0, 0, 0, 40, 3, 0, 0, 0, 0, 0, 0, 0, 1, 0, 0,
    0, 1, 0, 0, 0, 0, 0, 0, 0, 0, 0, 5, 0, 0, 0, 0, 0, 0, 0, 1, 1, 0, 0, 0, 0, 0, 0, 0, 70, 1, 0,
    0, 0, 40, 3, 0, 0, 0, 0, 0, 0, 0, 2, 0, 0, 0, 1, 0, 0, 0, 0, 0, 0, 0, 0, 0, 5, 0, 0, 0, 0, 0,
    0, 0, 1, 1, 0, 0, 0, 0, 0, 0, 0, 71, 0,
];

// What row 5 of a store has.
fn five(store: &Opened) -> Option<i64> {
    match store.shards.first() {
        Some(shard) => number(shard.stable(Key { table: 0, row: 5 })),
        None => None,
    }
}

// The base is of epoch 2, and has what epoch 1 left.
#[test]
fn an_epoch_that_was_prepared_alone_leaves_its_number(rt: HostRuntime) -> Result<(), Fail> {
    let files: [(u32, &[u8]); 3] = [(0, &LAYOUTS), (1, &COMMITS), (2, &ONE_MORE_PREPARED)];
    let mut host = host_with(rt.alloc(), &files)?;
    let store = recover(rt.alloc(), &mut host)?;
    assert!(rt; compact_store(rt.alloc(), &mut host, store) == Ok(()));
    assert!(rt; has_bytes(&mut host, 0, &TWO_LAYOUTS));
    assert!(rt; has_bytes(&mut host, 4, &NO_COMMITS) && has_bytes(&mut host, 5, &NONE_PREPARED));
    let small = recover(rt.alloc(), &mut host)?;
    assert!(rt; small.next_epoch == 3 && small.kept.len() == 1 && five(&small) == Some(70));
    Ok(())
}
