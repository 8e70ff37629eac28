//! Dones that come, are found and go, by tables.

use crate::made::call;
use coco_kept::{Found, Kept};
use coco_types::{Done, KeptReply, NoMemory, Reply};
use std::alloc::Global;
use std::test::Fail;

fn find(alloc: Global, kept: &Kept, id: u64, row: Option<i64>) -> Result<Found, NoMemory> {
    Ok(kept.find(id, &call(alloc, row)?))
}

// Adds a Done of this epoch and says true, where the id is new and the epoch isn't too low.
fn keep(
    alloc: Global,
    kept: &mut Kept,
    id: u64,
    epoch: u64,
    row: Option<i64>,
) -> Result<bool, NoMemory> {
    let call = call(alloc, row)?;
    let reply = KeptReply::of(alloc, &Reply::Ok(None))?;
    kept.reserve(&[id])?;
    if kept.find(id, &call) != Found::New || epoch < kept.newest_epoch() {
        return Ok(false);
    }
    kept.add(Done {
        id,
        call,
        epoch,
        time: 1,
        reply,
    });
    Ok(true)
}

// Keeps these ids, each with its epoch, and says whether each was new.
fn keep_all(
    alloc: Global,
    kept: &mut Kept,
    dones: &[(u64, u64)],
    row: Option<i64>,
) -> Result<bool, NoMemory> {
    for (id, epoch) in dones {
        if !keep(alloc, kept, *id, *epoch, row)? {
            return Ok(false);
        }
    }
    Ok(true)
}

fn id_at(kept: &Kept, place: u64) -> Option<u64> {
    kept.nth(place).map(|done| done.id)
}

#[test]
fn a_known_id_is_the_same_only_with_an_equal_call(rt: HostRuntime) -> Result<(), Fail> {
    let mut kept = Kept::new(rt.alloc(), None, Some(6));
    assert!(rt; keep(rt.alloc(), &mut kept, 7, 1, Some(5))?);
    let cases = [
        (7, Some(5), Found::Same),
        (7, Some(6), Found::Reused),
        (7, None, Found::Reused),
        (8, Some(5), Found::New),
        (6, Some(5), Found::Old),
        (0, Some(5), Found::Old),
    ];
    for (id, row, found) in cases {
        assert!(rt; find(rt.alloc(), &kept, id, row)? == found, "{id}");
    }
    Ok(())
}

// Whether just these ids are held, in this order.
fn are_held(alloc: Global, kept: &Kept, ids: &[u64]) -> Result<bool, NoMemory> {
    for (place, id) in ids.iter().enumerate() {
        if id_at(kept, place as u64) != Some(*id) || find(alloc, kept, *id, None)? != Found::Same {
            return Ok(false);
        }
    }
    Ok(kept.len() == ids.len() as u64)
}

#[test]
fn the_last_epochs_are_kept(rt: HostRuntime) -> Result<(), Fail> {
    // A keep number, Dones as (id, epoch), and then which are held, the floor, and how many are of epochs up to 2.
    let cases: [(u16, &[(u64, u64)], &[u64], Option<u64>, u64); 6] = [
        (1, &[(1, 1)], &[1], None, 1),
        (1, &[(1, 1), (2, 2)], &[2], Some(1), 1),
        (1, &[(1, 1), (2, 2), (3, 3)], &[3], Some(2), 0),
        (
            2,
            &[(9, 1), (4, 1), (2, 1), (12, 5)],
            &[9, 4, 2, 12],
            None,
            3,
        ),
        (
            2,
            &[(9, 1), (4, 1), (12, 5), (20, 6), (15, 6)],
            &[12, 20, 15],
            Some(9),
            0,
        ),
        (
            3,
            &[(8, 1), (9, 2), (10, 2), (11, 3), (12, 9)],
            &[9, 10, 11, 12],
            Some(8),
            2,
        ),
    ];
    for (number, dones, ids, floor, early) in cases {
        let mut kept = Kept::new(rt.alloc(), Some(number.max(1)), None);
        let are_new = keep_all(rt.alloc(), &mut kept, dones, None)?;
        assert!(rt;
            are_new
                && kept.floor() == floor
                && kept.count_until(2) == early
                && are_held(rt.alloc(), &kept, ids)?,
            "{number}"
        );
    }
    Ok(())
}

// Keeps ids until no more are to be kept, and says whether each was new and they are as many as that.
fn fill(alloc: Global, kept: &mut Kept) -> Result<bool, NoMemory> {
    for id in 0..1_048_576u64 {
        if kept.is_full() || !keep(alloc, kept, id, 1, None)? {
            return Ok(false);
        }
    }
    Ok(kept.is_full())
}

#[test]
fn a_full_store_still_knows_its_ids(rt: HostRuntime) -> Result<(), Fail> {
    let mut kept = Kept::new(rt.alloc(), None, None);
    assert!(rt; fill(rt.alloc(), &mut kept)?);
    for (id, found) in [(1_000_000, Found::Same), (1_048_576, Found::New)] {
        assert!(rt; find(rt.alloc(), &kept, id, None)? == found, "{id}");
    }
    Ok(())
}
