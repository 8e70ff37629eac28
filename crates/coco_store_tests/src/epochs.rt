//! The worked stores of one node, at their epochs.

use crate::made::{
    BASE, COMMITS, Files, LAYOUTS, NO_COMMITS, NONE_PREPARED, PREPARED, TWO_COMMITS, TWO_LAYOUTS,
    TWO_PREPARED, host_with, number,
};
use coco_query::{TablesFault, tables_at};
use coco_recover::recover_whole;
use coco_types::{Key, OutFault};
use std::alloc::Global;
use std::test::Fail;

// put(5, 70) in epoch 1, no request in epoch 3, and no epoch 2.
const TWO_EPOCHS: Files = &[(0, &LAYOUTS), (1, &TWO_COMMITS), (2, &TWO_PREPARED)];

// The same put, in a base of epoch 2.
const BASED: Files = &[
    (0, &TWO_LAYOUTS),
    (1, &COMMITS),
    (2, &PREPARED),
    (3, &BASE),
    (4, &NO_COMMITS),
    (5, &NONE_PREPARED),
];

type Found = Result<Option<i64>, TablesFault>;

const STORES: [(Files, u64, Found); 8] = [
    (TWO_EPOCHS, 0, Ok(None)),
    (TWO_EPOCHS, 1, Ok(Some(70))),
    (TWO_EPOCHS, 2, Ok(Some(70))),
    (TWO_EPOCHS, 3, Ok(Some(70))),
    (TWO_EPOCHS, 4, Err(TablesFault::NotIn { first: 0, last: 3 })),
    (BASED, 1, Err(TablesFault::NotIn { first: 2, last: 2 })),
    (BASED, 2, Ok(Some(70))),
    (BASED, 3, Err(TablesFault::NotIn { first: 2, last: 2 })),
];

// What row 5 of a store has at an epoch; nothing of a store that isn't opened.
fn five_at(alloc: Global, files: Files, epoch: u64) -> Result<Option<Found>, OutFault> {
    let mut host = host_with(alloc, files)?;
    let Ok(store) = recover_whole(alloc, &mut host) else {
        return Ok(None);
    };
    let five = Key { table: 0, row: 5 };
    Ok(Some(match tables_at(alloc, store, epoch) {
        Ok((tables, _procs)) => Ok(match tables.first() {
            Some(table) => number(table.had(five)),
            None => None,
        }),
        Err(fault) => Err(fault),
    }))
}

#[test]
fn a_row_is_had_as_it_was_at_each_epoch(rt: HostRuntime) -> Result<(), Fail> {
    for (files, epoch, wanted) in &STORES {
        assert!(rt;
            five_at(rt.alloc(), files, *epoch)? == Some(*wanted),
            "epoch {epoch}"
        );
    }
    Ok(())
}
