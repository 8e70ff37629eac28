//! Keys: those that rows have, and what is known of one.
ghost use Rattle.std.specs.Prelude.{◌≡◌, ◌+◌, ◌<◌, ◌≤◌, ◌^◌, length, vec_capacity, vec_len, MatchResult, slice_set, insert, Some};
ghost use Rattle.std.specs.Option.{option_copied};
ghost use Rattle.coco_ast.specs.Meaning.{Datum, key_of, place_of as table_number, put_write, row_key};
ghost use Rattle.coco_ast.specs.Plans.{place_in};
ghost use Rattle.coco_types.specs.declared.value.Value.TheVariants.{Int};
ghost use Rattle.coco_eval.specs.Lending.{datum_of};
ghost use Rattle.coco_eval.specs.Places.{written_at, given_at};
ghost use Rattle.coco_eval.specs.Slots.{names_in};

use crate::machine::Given;
use crate::names::are_same_names;
use crate::operand::{Operand, owned};
use crate::values::{leaf, value};
use crate::variables::Slots;
use coco_ast::{Name, Spot, Term};
use coco_types::{Cause, Key, Value, Write};
use std::cmp::Ordering;

/// The key of a row.
#[inline(always)]
pub fn key(tables: &[Name], terms: &[Term], variables: &Slots, spot: &Spot) -> Result<Key, Cause>
    requires { length tables.now < 2 ^ 16 }
    ensures { result ≡ key_of tables.now variables.now (place_in (names_in variables.now) terms.now spot.now) }
{
    if let Some(row) = leaf(terms, spot.row, variables) {
        return numbered_key(table_number(tables, &spot.table), row);
    }
    match value(terms, spot.row, variables) {
        Ok(row) => row_key(table_number(tables, &spot.table), &row),
        Err(cause) => Err(cause),
    }
}

fn table_number(tables: &[Name], name: &Name) -> u16
    requires { length tables.now < 2 ^ 16 }
    ensures { result ≡ table_number tables.now name.now }
{
    for (i, table) in tables.iter().enumerate() {
        if are_same_names(table, name) {
            return i as u16;
        }
    }
    tables.len() as u16
}

fn row_key(table: u16, row: &Operand<'_>) -> Result<Key, Cause>
    ensures { result ≡ row_key table (datum_of row.now) }
{
    match row {
        Operand::Int(row) => numbered_key(table, *row),
        Operand::None | Operand::Text(_) | Operand::Literal(_) => Err(Cause::Kind),
    }
}

fn numbered_key(table: u16, row: i64) -> Result<Key, Cause>
    ensures { result ≡ row_key table (Some (Int row)) }
{
    match u64::try_from(row) {
        Ok(row) => Ok(Key { table, row }),
        Err(_) => Err(Cause::BadRow),
    }
}

/// What was written under a key.
pub fn written(writes: &[Write], key: Key) -> Option<&Option<Value>>
    ensures { option_copied result ≡ written_at writes.now key }
{
    for write in writes {
        if key.compare(&write.key) == Ordering::Equal {
            return Some(&write.value);
        }
    }
    None
}

/// What was given for a key.
pub fn given(values: &[Given], key: Key) -> Option<&Option<Value>>
    ensures { option_copied result ≡ given_at values.now key }
{
    for given in values {
        if key.compare(&given.key) == Ordering::Equal {
            return Some(&given.value);
        }
    }
    None
}

/// Puts a write into a list that rises by key, in the place of an earlier one of its key.
pub fn put(writes: &mut Vec<Write>, key: Key, value: &Operand<'_>)
    requires { vec_len writes.old < vec_capacity writes.old }
    ensures list { writes.new.items ≡ put_write key (datum_of value.now) writes.old.items }
    ensures len { length writes.new.items ≤ length writes.old.items + 1 }
    ensures room { vec_capacity writes.old ≤ vec_capacity writes.new }
{
    match place_among(writes, key) {
        Ok(at) => {
            writes[at] = Write {
                key,
                value: owned(value),
            }
        }
        Err(at) => insert(writes, at, key, value),
    }
}

fn insert(writes: &mut Vec<Write>, at: usize, key: Key, value: &Operand<'_>)
    requires at { at ≤ vec_len writes.old }
    requires room { vec_len writes.old < vec_capacity writes.old }
    ensures list { writes.new.items ≡ insert writes.old.items at (record { key = key; value = datum_of value.now }) }
    ensures room { vec_capacity writes.old ≤ vec_capacity writes.new }
{
    if at < writes.len() {
        let write = Write {
            key,
            value: owned(value),
        };
        let _ = writes.insert(at, write);
        return;
    }
    // A number is written by itself, and no text's room is copied.
    match value {
        Operand::Int(number) => writes.push_reserved(Write {
            key,
            value: Some(Value::Int(*number)),
        }),
        _ => writes.push_reserved(Write {
            key,
            value: owned(value),
        }),
    }
}

// The place of a key, or where a write of it would stand.
fn place_among(writes: &[Write], key: Key) -> Result<usize, usize>
    ensures { MatchResult result
        (λ i. (i < length writes.now) × ((d : Datum) → put_write key d writes.now ≡ slice_set writes.now i (record { key = key; value = d })))
        (λ i. (i ≤ length writes.now) × ((d : Datum) → put_write key d writes.now ≡ insert writes.now i (record { key = key; value = d }))) }
{
    for (i, write) in writes.iter().enumerate() {
        match key.compare(&write.key) {
            Ordering::Less => return Err(i),
            Ordering::Equal => return Ok(i),
            Ordering::Greater => {}
        }
    }
    Err(writes.len())
}
