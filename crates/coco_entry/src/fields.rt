//! Fields that several entries have: their tag, packed values, and the end.

ghost use Rattle.std.specs.Prelude.{◌≡◌, ◌≤◌, ◌++◌, [], length, IfOk, OnOk, OnErr};
ghost use Rattle.coco_bytes.specs.Values.{value_bytes, IsValue, value_at};
ghost use Rattle.coco_entry.specs.Grammar.{tag_at, whole as whole_of, Answers};

use crate::EntryFault;
use coco_bytes::{FieldFault, get_i64, get_u8, get_value, packed_fits, put_packed};
use coco_types::{NoMemory, Packed};
use std::alloc::Global;

/// The tag in front, which is to be this one.
#[tactic(auto, unfolding(crate::specs::Grammar::tag_at))]
pub fn get_tag(body: &[u8], tag: u8) -> Result<(u8, usize), FieldFault>
    ensures read { result ≡ tag_at tag body.now 0 }
    ensures within { IfOk result (λ r. r.1 ≤ length body.now) }
{
    let (found, end) = get_u8(body, 0)?;
    if found == tag {
        Ok((found, end))
    } else {
        Err(FieldFault::Bad { at: 0 })
    }
}

/// What was read, where nothing is left over.
#[tactic(auto, unfolding(crate::specs::Grammar::whole))]
pub fn whole<T: Drop>(body: &[u8], entry: T, end: usize) -> Result<T, EntryFault>
    ensures { Answers result (whole_of body.now (entry, end)) }
{
    if body.len() == end {
        Ok(entry)
    } else {
        Err(EntryFault::Bad { at: end })
    }
}

/// Empties the bytes where a put ran out of memory.
pub fn emptied(out: &mut Vec<u8>, put: Result<(), NoMemory>) -> Result<(), NoMemory>
    ensures same { result ≡ put }
    ensures ok { OnOk put (out.new.items ≡ out.old.items) }
    ensures err { OnErr put (out.new.items ≡ []) }
{
    if put.is_err() {
        out.clear();
    }
    put
}

/// Puts a packed value or none behind the bytes. Each is one that has bytes.
pub fn put_any(out: &mut Vec<u8>, value: &Packed) -> Result<(), NoMemory>
    ensures ok { OnOk result (out.new.items ≡ out.old.items ++ value_bytes value.now) }
    ensures fits { IsValue value.now }
{
    packed_fits(value);
    put_packed(out, value)
}

/// The value or none at a place, packed.
#[tactic(auto, unfolding(coco_bytes::specs::Values::value_at, coco_bytes::specs::Values::value_of_kind))]
pub fn get_any(alloc: Global, from: &[u8], at: usize) -> Result<(Packed, usize), EntryFault>
    requires { at ≤ length from.now }
    ensures read { Answers result (value_at from.now at) }
    ensures within { IfOk result (λ r. r.1 ≤ length from.now) }
{
    let (kind, next) = get_u8(from, at)?;
    // Most values are numbers.
    if kind == 1 {
        let (number, end) = get_i64(from, next)?;
        return Ok((Packed::of_int(number), end));
    }
    let (value, end) = get_value(from, at)?;
    Ok((Packed::of(alloc, &value)?, end))
}
