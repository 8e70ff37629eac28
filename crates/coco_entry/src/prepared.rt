//! The entry that a node prepares.

ghost use Rattle.std.specs.Prelude.{◌≡◌, None, ◌≤◌, ◌<◌, ◌^◌, [], ◌++◌, length, IfOk, OnOk, OnErr, All};
ghost use Rattle.coco_bytes.specs.Lists.{counted, FitInTurn, items_at};
ghost use Rattle.std.specs.Option.{option_map};
ghost use Rattle.coco_bytes.specs.Values.{IsKey};
ghost use Rattle.coco_entry.specs.Grammar.{Answers, ReadsExactly};
ghost use Rattle.coco_entry.specs.Rows.{key_rises, rising_key_at, row_bytes, IsRow, row_at, RowRises, prepared_bytes, IsPrepared, prepared_at, prepared_in};

use crate::EntryFault;
use crate::fields::{emptied, get_any, get_tag, put_any, whole};
use coco_bytes::{FieldFault, get_key, get_u32, get_u64, put_key, put_u8, put_u32, put_u64};
use coco_types::{Key, NoMemory, Packed, Sequence};
use std::alloc::Global;
use std::cmp::Ordering;

/// What a row became in an epoch: its value or none, and its write time.
#[derive(Debug, Drop)]
pub struct Row {
    pub key: Key,
    pub time: u64,
    pub value: Packed,
}

pub type Rows = Sequence<Row>;

/// An epoch and the rows written in it that a node holds, rising by key.
#[derive(Debug, Drop)]
pub struct Prepared {
    pub epoch: u64,
    pub rows: Rows,
}

/// A key's numbers are those of its fields.
pub fn key_fits(key: &Key)
    ensures { IsKey key.now }
{
    let _table = key.table;
    let _row = key.row;
}

fn put_row(out: &mut Vec<u8>, row: &Row) -> Result<(), NoMemory>
    ensures ok { OnOk result (out.new.items ≡ out.old.items ++ row_bytes row.now) }
    ensures fits { OnOk result (IsRow row.now) }
{
    key_fits(&row.key);
    put_key(out, row.key)?;
    put_u64(out, row.time)?;
    put_any(out, &row.value)?;
    Ok(())
}

fn put_rows(out: &mut Vec<u8>, rows: &[Row]) -> Result<(), NoMemory>
    requires { length rows.now < 2 ^ 32 }
    ensures ok { OnOk result (out.new.items ≡ out.old.items ++ counted row_bytes rows.now) }
    ensures fit { OnOk result (All IsRow rows.now) }
{
    put_u32(out, rows.len() as u32)?;
    for row in rows {
        put_row(out, row)?;
    }
    Ok(())
}

/// Whether a key is above the one before it.
pub fn rises(before: &Option<Key>, key: &Key) -> bool
    ensures { result ≡ key_rises before.now key.now }
{
    match before {
        Some(before) => before.compare(key) == Ordering::Less,
        None => true,
    }
}

/// The key at a place, which is to be above the one before it.
#[tactic(auto, unfolding(crate::specs::Rows::rising_key_at))]
pub fn get_rising_key(
    from: &[u8],
    at: usize,
    before: &Option<Key>,
) -> Result<(Key, usize), FieldFault>
    requires { at ≤ length from.now }
    ensures read { result ≡ rising_key_at before.now from.now at }
    ensures within { IfOk result (λ r. r.1 ≤ length from.now) }
{
    let (key, end) = get_key(from, at)?;
    if rises(before, &key) {
        Ok((key, end))
    } else {
        Err(FieldFault::Bad { at })
    }
}

#[tactic(auto, unfolding(crate::specs::Rows::row_at))]
fn get_row(
    alloc: Global,
    from: &[u8],
    at: usize,
    before: &Option<Key>,
) -> Result<(Row, usize), EntryFault>
    requires { at ≤ length from.now }
    ensures read { Answers result (row_at before.now from.now at) }
    ensures within { IfOk result (λ r. r.1 ≤ length from.now) }
{
    let (key, at) = get_rising_key(from, at, before)?;
    let (time, at) = get_u64(from, at)?;
    let (value, end) = get_any(alloc, from, at)?;
    Ok((Row { key, time, value }, end))
}

// So many rows, one behind another, rising by key.
fn get_each_row(
    alloc: Global,
    from: &[u8],
    at: usize,
    count: u32,
) -> Result<(Rows, usize), EntryFault>
    requires { at ≤ length from.now }
    ensures read { Answers result (items_at (λ before. row_at (option_map (λ r. r.key) before)) None count from.now at) }
    ensures within { IfOk result (λ r. r.1 ≤ length from.now) }
{
    let mut rows = Sequence::new(alloc);
    let mut before = None;
    let mut end = at;
    for _ in 0..count {
        let (row, after) = get_row(alloc, from, end, &before)?;
        before = Some(row.key);
        // The proof of the push wants this field's type in view.
        let _value = &row.value;
        rows.push(row)?;
        end = after;
    }
    Ok((rows, end))
}

#[tactic(auto, unfolding(crate::specs::Rows::prepared_at))]
fn get_prepared(alloc: Global, from: &[u8], at: usize) -> Result<(Prepared, usize), EntryFault>
    requires { at ≤ length from.now }
    ensures read { Answers result (prepared_at from.now at) }
    ensures within { IfOk result (λ r. r.1 ≤ length from.now) }
{
    let (epoch, at) = get_u64(from, at)?;
    let (count, at) = get_u32(from, at)?;
    let (rows, end) = get_each_row(alloc, from, at, count)?;
    Ok((Prepared { epoch, rows }, end))
}

#[tactic(auto, unfolding(crate::specs::Grammar::tagged))]
fn get_whole(alloc: Global, body: &[u8]) -> Result<Prepared, EntryFault>
    ensures { Answers result (prepared_in body.now) }
{
    let (_tag, at) = get_tag(body, 3)?;
    let (prepared, end) = get_prepared(alloc, body, at)?;
    whole(body, prepared, end)
}

/// The rows of an epoch that the body is, or the first field that can't stand.
pub fn read_prepared(alloc: Global, body: &[u8]) -> Result<Prepared, EntryFault>
    ensures { ReadsExactly body.now result (prepared_in body.now) prepared_bytes IsPrepared }
{
    get_whole(alloc, body)
}

fn put_whole(out: &mut Vec<u8>, epoch: u64, rows: &[Row]) -> Result<(), NoMemory>
    requires count { length rows.now < 2 ^ 32 }
    requires rise { FitInTurn RowRises None rows.now }
    ensures ok { OnOk result (out.new.items ≡ out.old.items ++ prepared_bytes (record { epoch = epoch; rows = rows.now })) }
    ensures entry { OnOk result (IsPrepared (record { epoch = epoch; rows = rows.now })) }
{
    put_u8(out, 3)?;
    put_u64(out, epoch)?;
    put_rows(out, rows)
}

/// Puts the entry that a node prepares behind the bytes. Out of memory no bytes are left.
pub fn put_prepared(out: &mut Vec<u8>, epoch: u64, rows: &[Row]) -> Result<(), NoMemory>
    requires count { length rows.now < 2 ^ 32 }
    requires rise { FitInTurn RowRises None rows.now }
    ensures ok { OnOk result (out.new.items ≡ out.old.items ++ prepared_bytes (record { epoch = epoch; rows = rows.now })) }
    // It is read again.
    ensures entry { OnOk result (IsPrepared (record { epoch = epoch; rows = rows.now })) }
    ensures err { OnErr result (out.new.items ≡ []) }
{
    let put = put_whole(out, epoch, rows);
    emptied(out, put)
}
