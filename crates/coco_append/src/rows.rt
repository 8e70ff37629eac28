//! The rows of an epoch's prepared entry.

ghost use Rattle.std.specs.Prelude.{◌≡◌, ◌<◌, ◌^◌, ℕ, List, [], ◌∷◌, length, IfOk, OnOk};
ghost use Rattle.std.specs.List.Sorted.{IsStrictlySortedBy};
ghost use Rattle.std.specs.Map.{keys_of};
ghost use Rattle.std.specs.Option.{option_map, option_or};
ghost use Rattle.coco_types.specs.RowKey.{RowKey, key_cmp};
ghost use Rattle.coco_types.specs.declared.call.Done.{Done};
ghost use Rattle.coco_types.specs.declared.call.Request.{Request as Asked};
ghost use Rattle.coco_ast.specs.Keyed.{Rows as Map};
ghost use Rattle.coco_ast.specs.Tree.{Procedures};
ghost use Rattle.coco_append.specs.LastWrites.{AreLastWrites, LeaveTheMap, held_pieces, holds, last_stamp, last_value};
ghost use Rattle.coco_append.specs.Stamps.{rows_in, stamp_at};

use coco_entry::Row;
use coco_types::{Key, NoMemory, Packed, PackedWrite, Piece};
use std::alloc::Global;
use std::collections::BTreeMap;

/// What a key was written last, and when.
#[derive(Drop)]
pub struct Stamp {
    pub time: u64,
    pub value: Packed,
}

/// The rows of the prepared entry of a node that holds these partitions, from an epoch's pieces: each key as it was
/// written last, rising by key.
pub fn prepared_rows(alloc: Global, pieces: &[Piece], held: &[bool]) -> Result<Vec<Row>, NoMemory>
    ensures rows { IfOk result (λ rows. AreLastWrites held.now pieces.now rows.items) }
    ensures few { IfOk result (λ rows. length rows.items < 2 ^ 32) }
{
    let mut last = BTreeMap::new(alloc);
    for piece in pieces {
        keep_piece(&mut last, held, piece)?;
    }
    rows_of(alloc, &last)
}

fn keep_piece(last: &mut BTreeMap<Key, Stamp>, held: &[bool], piece: &Piece) -> Result<(), NoMemory>
    ensures { OnOk result ((k : RowKey) → stamp_at k last.new.entries ≡ option_or (last_stamp k (held_pieces held.now (piece.now ∷ []))) (stamp_at k last.old.entries)) }
{
    if is_held(held, piece.partition) {
        keep_last(last, piece.time, piece.writes.as_slice())
    } else {
        Ok(())
    }
}

fn is_held(held: &[bool], partition: u8) -> bool
    ensures { result ≡ holds held.now partition }
{
    match held.get(partition as usize) {
        Some(found) => *found,
        None => false,
    }
}

// Keeps the last write on each key.
fn keep_last(
    last: &mut BTreeMap<Key, Stamp>,
    time: u64,
    writes: &[PackedWrite],
) -> Result<(), NoMemory>
    ensures { OnOk result ((k : RowKey) → stamp_at k last.new.entries ≡ option_or (option_map (λ v. (time, v)) (last_value k writes.now)) (stamp_at k last.old.entries)) }
{
    for write in writes {
        let value = write.value().try_clone()?;
        last.insert(write.key(), Stamp { time, value })?;
    }
    Ok(())
}

fn rows_of(alloc: Global, last: &BTreeMap<Key, Stamp>) -> Result<Vec<Row>, NoMemory>
    ensures rows { IfOk result (λ rows. rows.items ≡ rows_in last.now.entries) }
    ensures rising { OnOk result (IsStrictlySortedBy key_cmp (keys_of last.now.entries)) }
    ensures few { IfOk result (λ rows. length rows.items < 2 ^ 32) }
{
    // An entry counts its rows in 32 bits.
    if last.len() > u32::MAX as usize {
        return Err(NoMemory);
    }
    let mut rows = Vec::with_capacity(alloc, last.len())?;
    for (key, stamp) in last {
        rows.push(Row {
            key: *key,
            time: stamp.time,
            value: stamp.value.try_clone()?,
        })?;
    }
    Ok(rows)
}

/// Put over the map before the Dones, the rows of their pieces give the map after them, on each partition held.
pub fn prepared_rows_leave_the_map()
    ensures { (ps : Procedures) (count : ℕ) (requests : List Asked) (m : Map) (dones : List Done) → LeaveTheMap ps count requests m dones }
{}
