//! Keys and values as fields.

ghost use Rattle.std.specs.Prelude.{◌≡◌, ◌≤◌, ◌∷◌, ◌++◌, length, IfOk, OnOk, OnErr};
ghost use Rattle.coco_bytes.specs.Fields.{i64_bytes, bytes16};
ghost use Rattle.coco_bytes.specs.Values.{key_bytes, key_at, value_bytes, IsValue, value_at, text_at};

use crate::FieldFault;
use crate::reading::{get_bytes16, get_i64, get_u8, get_u16, get_u64};
use crate::writing::{put_both, put_u8};
use coco_types::limits::MOST_TEXT_BYTES;
use coco_types::{Key, Lent, NoMemory, Packed, Text, Value};
use std::str::from_utf8;

// One more than the greatest row.
const ROWS: u64 = 1 << 63;

/// Puts a key behind the bytes.
pub fn put_key(out: &mut Vec<u8>, key: Key) -> Result<(), NoMemory>
    ensures ok { OnOk result (out.new.items ≡ out.old.items ++ key_bytes key) }
    ensures err { OnErr result (out.new.items ≡ out.old.items) }
{
    let [a, b] = key.table.to_be_bytes();
    let [c, d, e, f, g, h, i, j] = key.row.to_be_bytes();
    out.extend_from_slice(&[a, b, c, d, e, f, g, h, i, j])?;
    Ok(())
}

/// The key at a place. A row of 2^63 or more is bad at its place.
#[tactic(auto, unfolding(crate::specs::Values::key_at))]
pub fn get_key(from: &[u8], at: usize) -> Result<(Key, usize), FieldFault>
    requires { at ≤ length from.now }
    ensures read { result ≡ key_at from.now at }
    ensures within { IfOk result (λ r. r.1 ≤ length from.now) }
{
    let (table, next) = get_u16(from, at)?;
    let (row, end) = get_u64(from, next)?;
    if row < ROWS {
        Ok((Key { table, row }, end))
    } else {
        Err(FieldFault::Bad { at: next })
    }
}

/// Puts a value or none behind the bytes.
pub fn put_value(out: &mut Vec<u8>, value: &Option<Value>) -> Result<(), NoMemory>
    ensures ok { OnOk result (out.new.items ≡ out.old.items ++ value_bytes value.now) }
    ensures err { OnErr result (out.new.items ≡ out.old.items) }
{
    match value {
        None => put_u8(out, 0),
        Some(Value::Int(n)) => put_int(out, *n),
        Some(Value::Text(text)) => put_text(out, text),
    }
}

/// Puts a packed value or none behind the bytes.
pub fn put_packed(out: &mut Vec<u8>, value: &Packed) -> Result<(), NoMemory>
    ensures ok { OnOk result (out.new.items ≡ out.old.items ++ value_bytes value.now) }
    ensures err { OnErr result (out.new.items ≡ out.old.items) }
{
    match value.lend() {
        None => put_u8(out, 0),
        Some(Lent::Int(n)) => put_int(out, n),
        Some(Lent::Text(text)) => put_text(out, text),
    }
}

/// A packed value or none is one that has bytes: a number of 64 bits, or a text of at most 256 bytes.
pub fn packed_fits(value: &Packed)
    ensures { IsValue value.now }
{
    match value.lend() {
        None => {}
        Some(Lent::Int(number)) => {
            let _number = number;
        }
        Some(Lent::Text(text)) => {
            let _bytes = text.as_bytes();
        }
    }
}

// A kind and its number are put at once, since most values are numbers.
fn put_int(out: &mut Vec<u8>, n: i64) -> Result<(), NoMemory>
    ensures ok { OnOk result (out.new.items ≡ out.old.items ++ 1 ∷ i64_bytes n) }
    ensures err { OnErr result (out.new.items ≡ out.old.items) }
{
    let [a, b, c, d, e, f, g, h] = n.to_be_bytes();
    out.extend_from_slice(&[1, a, b, c, d, e, f, g, h])?;
    Ok(())
}

fn put_text(out: &mut Vec<u8>, text: &Text) -> Result<(), NoMemory>
    ensures ok { OnOk result (out.new.items ≡ out.old.items ++ 2 ∷ bytes16 text.now) }
    ensures err { OnErr result (out.new.items ≡ out.old.items) }
{
    let bytes = text.as_bytes();
    let [high, low] = (bytes.len() as u16).to_be_bytes();
    put_both(out, &[2, high, low], bytes)
}

/// The value or none at a place. An unknown kind is bad at its place, a text at that of its length.
#[tactic(auto, unfolding(crate::specs::Values::value_at, crate::specs::Values::value_of_kind))]
pub fn get_value(from: &[u8], at: usize) -> Result<(Option<Value>, usize), FieldFault>
    requires { at ≤ length from.now }
    ensures read { result ≡ value_at from.now at }
    ensures within { IfOk result (λ r. r.1 ≤ length from.now) }
{
    let (kind, next) = get_u8(from, at)?;
    match kind {
        0 => Ok((None, next)),
        1 => {
            let (n, end) = get_i64(from, next)?;
            Ok((Some(Value::Int(n)), end))
        }
        2 => {
            let (text, end) = get_text(from, next)?;
            Ok((Some(Value::Text(text)), end))
        }
        _ => Err(FieldFault::Bad { at }),
    }
}

#[tactic(auto, unfolding(crate::specs::Values::text_at, crate::specs::Reads::text16_at))]
fn get_text(from: &[u8], at: usize) -> Result<(Text, usize), FieldFault>
    requires { at ≤ length from.now }
    ensures read { result ≡ text_at from.now at }
    ensures within { IfOk result (λ r. r.1 ≤ length from.now) }
{
    let (start, end) = get_bytes16(from, at, MOST_TEXT_BYTES as u16)?;
    let Ok(s) = from_utf8(&from[start..end]) else {
        return Err(FieldFault::Bad { at });
    };
    match Text::of(s) {
        Some(text) => Ok((text, end)),
        None => Err(FieldFault::Bad { at }),
    }
}
