//! The rows of a few pieces.

use coco_append::prepared_rows;
use coco_types::{Key, NoMemory, Packed, PackedWrite, PackedWrites, Piece, Pieces};
use std::alloc::Global;
use std::test::Fail;

const HERE: Key = Key { table: 0, row: 5 };

const FIRST: Key = Key { table: 0, row: 3 };

const ELSEWHERE: Key = Key { table: 0, row: 4 };

// Of each piece its partition, its time, and the key and the number that it writes.
const PIECES: [(u8, u64, Key, i64); 4] = [
    (1, 1, HERE, 70),
    (1, 2, FIRST, 30),
    (0, 3, ELSEWHERE, 40),
    (1, 4, HERE, 71),
];

fn piece(
    alloc: Global,
    partition: u8,
    time: u64,
    key: Key,
    number: i64,
) -> Result<Piece, NoMemory> {
    let mut writes = PackedWrites::new(alloc);
    writes.push(PackedWrite::new(key, Packed::of_int(number)))?;
    Ok(Piece {
        place: 0,
        partition,
        time,
        writes,
    })
}

fn pieces(alloc: Global) -> Result<Pieces, NoMemory> {
    let mut pieces = Pieces::new(alloc);
    for (partition, time, key, number) in &PIECES {
        pieces.push(piece(alloc, *partition, *time, *key, *number)?)?;
    }
    Ok(pieces)
}

// Whether partition 1 has the last writes of its two keys.
fn are_last(alloc: Global) -> Result<bool, NoMemory> {
    let pieces = pieces(alloc)?;
    let rows = prepared_rows(alloc, pieces.as_slice(), &[false, true])?;
    Ok(match rows.as_slice() {
        [first, second] => {
            (first.key, first.time, first.value.int()) == (FIRST, 2, Some(30))
                && (second.key, second.time, second.value.int()) == (HERE, 4, Some(71))
        }
        _ => false,
    })
}

#[test]
fn each_key_that_is_held_has_its_last_write(rt: HostRuntime) -> Result<(), Fail> {
    let is_well = are_last(rt.alloc())?;
    assert!(rt; is_well);
    Ok(())
}
