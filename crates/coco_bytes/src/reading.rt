//! Fields read at a place: the value, and the place behind it.

ghost use Rattle.std.specs.Prelude.{◌≡◌, ◌+◌, ◌≤◌, length, IfOk};
ghost use Rattle.coco_bytes.specs.Reads.{u8_at, flag_at, u16_at, u32_at, u64_at, i64_at, bytes16_at};

use crate::FieldFault;

/// The byte at a place.
#[tactic(auto, unfolding(crate::specs::Reads::u8_at))]
pub fn get_u8(from: &[u8], at: usize) -> Result<(u8, usize), FieldFault>
    requires { at ≤ length from.now }
    ensures read { result ≡ u8_at from.now at }
    ensures within { IfOk result (λ r. r.1 ≤ length from.now) }
{
    match from.get(at) {
        Some(n) => Ok((*n, at + 1)),
        None => Err(FieldFault::Short { at }),
    }
}

/// The flag at a place. A byte that is neither 0 nor 1 is bad at its place.
#[tactic(auto, unfolding(crate::specs::Reads::flag_at))]
pub fn get_flag(from: &[u8], at: usize) -> Result<(bool, usize), FieldFault>
    requires { at ≤ length from.now }
    ensures read { result ≡ flag_at from.now at }
    ensures within { IfOk result (λ r. r.1 ≤ length from.now) }
{
    let (flag, end) = get_u8(from, at)?;
    if flag < 2 {
        Ok((flag == 1, end))
    } else {
        Err(FieldFault::Bad { at })
    }
}

/// The number whose two bytes stand at a place.
#[tactic(auto, unfolding(crate::specs::Reads::number_at))]
pub fn get_u16(from: &[u8], at: usize) -> Result<(u16, usize), FieldFault>
    requires { at ≤ length from.now }
    ensures read { result ≡ u16_at from.now at }
    ensures within { IfOk result (λ r. r.1 ≤ length from.now) }
{
    match &from[at..] {
        [a, b, ..] => Ok((u16::from_be_bytes([*a, *b]), at + 2)),
        _ => Err(FieldFault::Short { at }),
    }
}

/// The number whose four bytes stand at a place.
#[tactic(auto, unfolding(crate::specs::Reads::number_at))]
pub fn get_u32(from: &[u8], at: usize) -> Result<(u32, usize), FieldFault>
    requires { at ≤ length from.now }
    ensures read { result ≡ u32_at from.now at }
    ensures within { IfOk result (λ r. r.1 ≤ length from.now) }
{
    match &from[at..] {
        [a, b, c, d, ..] => Ok((u32::from_be_bytes([*a, *b, *c, *d]), at + 4)),
        _ => Err(FieldFault::Short { at }),
    }
}

/// The number whose eight bytes stand at a place.
#[tactic(auto, unfolding(crate::specs::Reads::number_at))]
pub fn get_u64(from: &[u8], at: usize) -> Result<(u64, usize), FieldFault>
    requires { at ≤ length from.now }
    ensures read { result ≡ u64_at from.now at }
    ensures within { IfOk result (λ r. r.1 ≤ length from.now) }
{
    let rest = &from[at..];
    if rest.len() < 8 {
        return Err(FieldFault::Short { at });
    }
    let n = u64::from_be_bytes([
        rest[0], rest[1], rest[2], rest[3], rest[4], rest[5], rest[6], rest[7],
    ]);
    Ok((n, at + 8))
}

/// The signed number whose eight bytes stand at a place.
#[tactic(auto, unfolding(crate::specs::Reads::i64_at))]
pub fn get_i64(from: &[u8], at: usize) -> Result<(i64, usize), FieldFault>
    requires { at ≤ length from.now }
    ensures read { result ≡ i64_at from.now at }
    ensures within { IfOk result (λ r. r.1 ≤ length from.now) }
{
    let (n, end) = get_u64(from, at)?;
    Ok((n.cast_signed(), end))
}

/// Where the bytes with their length in front of them, which is at most so much, begin and end.
#[tactic(auto, unfolding(crate::specs::Reads::bytes16_at))]
pub fn get_bytes16(from: &[u8], at: usize, most: u16) -> Result<(usize, usize), FieldFault>
    requires { at ≤ length from.now }
    ensures read { result ≡ bytes16_at most from.now at }
    ensures within { IfOk result (λ r. (r.0 ≤ r.1) × (r.1 ≤ length from.now)) }
    ensures most { IfOk result (λ r. r.1 ≤ r.0 + most) }
{
    let (len, start) = get_u16(from, at)?;
    if most < len {
        return Err(FieldFault::Bad { at });
    }
    let len = len as usize;
    if from.len() - start < len {
        return Err(FieldFault::Short { at });
    }
    Ok((start, start + len))
}
