//! The pieces of a request: its writes, partition by partition.

ghost use Rattle.std.specs.Prelude.{◌≡◌, ◌≢◌, ◌<◌, ◌≤◌, ◌++◌, ℕ, [], IfOk, OnOk};
ghost use Rattle.coco_pieces.specs.Pieces.{request_pieces, writes_on};

use coco_types::limits::MOST_PARTITIONS;
use coco_types::{NoMemory, PackedWrite, PackedWrites, Piece, Pieces, Write};
use std::alloc::Global;

/// Adds the pieces of a request at this place and time, one for each of so many partitions that it writes, rising
/// by partition.
pub fn add_pieces(
    alloc: Global,
    pieces: &mut Pieces,
    count: usize,
    place: u32,
    time: u64,
    writes: &[Write],
) -> Result<(), NoMemory>
    requires some { 0 < count }
    requires most { count ≤ MOST_PARTITIONS }
    ensures { OnOk result (pieces.new ≡ pieces.old ++ request_pieces count place time writes.now) }
{
    let mut partition = next_partition(writes, count, 0);
    while partition < count {
        pieces.push(Piece {
            place,
            partition: partition as u8,
            time,
            writes: writes_in(alloc, writes, count, partition)?,
        })?;
        partition = next_partition(writes, count, partition + 1);
    }
    Ok(())
}

// The least partition from this one on that is written, or their count.
fn next_partition(writes: &[Write], count: usize, from: usize) -> usize
    requires { from ≤ count }
    ensures least { from ≤ result }
    ensures most { result ≤ count }
    ensures skips { (p : ℕ) → from ≤ p → p < result → writes_on count p writes.now ≡ [] }
    ensures there { result < count → writes_on count result writes.now ≢ [] }
{
    let mut next = count;
    if from < count {
        for write in writes {
            let partition = write.key.partition(count);
            if from <= partition && partition < next {
                next = partition;
            }
        }
    }
    next
}

// The writes on a partition, packed.
fn writes_in(
    alloc: Global,
    writes: &[Write],
    count: usize,
    partition: usize,
) -> Result<PackedWrites, NoMemory>
    requires { 0 < count }
    ensures { IfOk result (λ found. found ≡ writes_on count partition writes.now) }
{
    let mut found = Vec::new(alloc);
    for write in writes {
        if write.key.partition(count) == partition {
            found.push(PackedWrite::of(alloc, write)?)?;
        }
    }
    Ok(PackedWrites::from_vec(found))
}
