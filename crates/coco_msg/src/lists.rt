//! Counted writes and places.

ghost use Rattle.std.specs.Prelude.{◌≡◌, [], None, Some, ◌≤◌, ◌<◌, ◌^◌, ◌++◌, length, IfOk, OnOk};
ghost use Rattle.coco_bytes.specs.Fields.{u32_bytes};
ghost use Rattle.coco_bytes.specs.Lists.{counted, counted_at, items_at};
ghost use Rattle.coco_bytes.specs.Values.{key_bytes, value_bytes};
ghost use Rattle.coco_types.specs.declared.value.Value.TheVariants.{Int};
ghost use Rattle.coco_msg.specs.Bytes.{write_bytes};
ghost use Rattle.coco_msg.specs.Reading.{write_at, rises, place_at, Answers};

use crate::MessageFault;
use crate::message::Places;
use coco_bytes::{get_key, get_u32, get_value, put_key, put_packed, put_u32};
use coco_types::{Key, NoMemory, Packed, PackedWrite, PackedWrites, Sequence};
use std::alloc::Global;

/// Puts counted writes behind the bytes.
pub fn put_writes(out: &mut Vec<u8>, writes: &[PackedWrite]) -> Result<(), NoMemory>
    requires { length writes.now < 2 ^ 32 }
    ensures { OnOk result (out.new.items ≡ out.old.items ++ counted write_bytes writes.now) }
{
    put_u32(out, writes.len() as u32)?;
    for write in writes {
        put_write(out, write)?;
    }
    Ok(())
}

// Puts a write behind the bytes, that of a number at once.
fn put_write(out: &mut Vec<u8>, write: &PackedWrite) -> Result<(), NoMemory>
    ensures { OnOk result (out.new.items ≡ out.old.items ++ write_bytes write.now) }
{
    match write.value().int() {
        Some(number) => {
            out.extend_from_slice(&int_bytes(write.key(), number))?;
            Ok(())
        }
        None => {
            put_key(out, write.key())?;
            put_packed(out, write.value())
        }
    }
}

// The bytes of a write of a number.
fn int_bytes(key: Key, number: i64) -> [u8; 19]
    ensures { result ≡ key_bytes key ++ value_bytes (Some (Int number)) }
{
    let [a, b] = key.table.to_be_bytes();
    let [c, d, e, f, g, h, i, j] = key.row.to_be_bytes();
    let [k, l, m, n, o, p, q, r] = number.to_be_bytes();
    [a, b, c, d, e, f, g, h, i, j, 1, k, l, m, n, o, p, q, r]
}

/// Puts counted places behind the bytes.
pub fn put_places(out: &mut Vec<u8>, places: &[u32]) -> Result<(), NoMemory>
    requires { length places.now < 2 ^ 32 }
    ensures { OnOk result (out.new.items ≡ out.old.items ++ counted u32_bytes places.now) }
{
    put_u32(out, places.len() as u32)?;
    for place in places {
        put_u32(out, *place)?;
    }
    Ok(())
}

#[tactic(auto, unfolding(crate::specs::Reading::write_at))]
fn get_write(alloc: Global, from: &[u8], at: usize) -> Result<(PackedWrite, usize), MessageFault>
    requires { at ≤ length from.now }
    ensures read { Answers result (write_at from.now at) }
    ensures within { IfOk result (λ r. r.1 ≤ length from.now) }
{
    let (key, next) = get_key(from, at)?;
    let (value, end) = get_value(from, next)?;
    let value = Packed::of(alloc, &value)?;
    Ok((PackedWrite::new(key, value), end))
}

// The bytes of a write without a value, which is the shortest.
const SHORTEST: usize = 11;

// No writes yet, in a list's room, which holds so many.
fn emptied(mut room: Vec<PackedWrite>, count: usize) -> Result<PackedWrites, NoMemory>
    ensures { IfOk result (λ writes. writes ≡ []) }
{
    room.clear();
    room.reserve(count)?;
    Ok(Sequence::from_vec(room))
}

// So many writes, one behind another.
fn get_each_write(
    room: Vec<PackedWrite>,
    from: &[u8],
    at: usize,
    count: u32,
) -> Result<(PackedWrites, usize), MessageFault>
    requires { at ≤ length from.now }
    ensures read { Answers result (items_at (λ _. write_at) None count from.now at) }
    ensures within { IfOk result (λ r. r.1 ≤ length from.now) }
{
    let most = (from.len() - at) / SHORTEST;
    let alloc = *room.allocator();
    let mut writes = emptied(room, most.min(count as usize))?;
    let mut end = at;
    for _ in 0..count {
        let (write, after) = get_write(alloc, from, end)?;
        writes.push(write)?;
        end = after;
    }
    Ok((writes, end))
}

/// The counted writes at a place, in a list's room.
#[tactic(auto, unfolding(coco_bytes::specs::Lists::counted_at))]
pub fn get_writes(
    room: Vec<PackedWrite>,
    from: &[u8],
    at: usize,
) -> Result<(PackedWrites, usize), MessageFault>
    requires { at ≤ length from.now }
    ensures read { Answers result (counted_at (λ _. write_at) from.now at) }
    ensures within { IfOk result (λ r. r.1 ≤ length from.now) }
{
    let (count, next) = get_u32(from, at)?;
    get_each_write(room, from, next, count)
}

// Whether a place is above the one before it.
fn is_above(place: u32, before: Option<u32>) -> bool
    ensures { result ≡ rises before place }
{
    match before {
        Some(before) => before < place,
        None => true,
    }
}

// The place at a place of the bytes, which is to be above the one before it.
#[tactic(auto, unfolding(crate::specs::Reading::place_at))]
fn get_place(from: &[u8], at: usize, before: Option<u32>) -> Result<(u32, usize), MessageFault>
    requires { at ≤ length from.now }
    ensures read { Answers result (place_at before from.now at) }
    ensures within { IfOk result (λ r. r.1 ≤ length from.now) }
{
    let (place, end) = get_u32(from, at)?;
    if is_above(place, before) {
        Ok((place, end))
    } else {
        Err(MessageFault::Bad { at })
    }
}

// So many places, one behind another.
fn get_each_place(
    alloc: Global,
    from: &[u8],
    at: usize,
    count: u32,
) -> Result<(Places, usize), MessageFault>
    requires { at ≤ length from.now }
    ensures read { Answers result (items_at place_at None count from.now at) }
    ensures within { IfOk result (λ r. r.1 ≤ length from.now) }
{
    let mut places = Sequence::new(alloc);
    let mut before = None;
    let mut end = at;
    for _ in 0..count {
        let (place, after) = get_place(from, end, before)?;
        places.push(place)?;
        before = Some(place);
        end = after;
    }
    Ok((places, end))
}

/// The counted places at a place of the bytes.
#[tactic(auto, unfolding(coco_bytes::specs::Lists::counted_at))]
pub fn get_places(alloc: Global, from: &[u8], at: usize) -> Result<(Places, usize), MessageFault>
    requires { at ≤ length from.now }
    ensures read { Answers result (counted_at place_at from.now at) }
    ensures within { IfOk result (λ r. r.1 ≤ length from.now) }
{
    let (count, next) = get_u32(from, at)?;
    get_each_place(alloc, from, next, count)
}
