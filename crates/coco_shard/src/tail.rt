//! The steps that need no lock, on the map of rows: one runs alone, as an epoch's tail does, so each is one look-up and a change in place.

ghost use Rattle.std.specs.Prelude.{◌≡◌, ◌⊎◌, None, IsSome, IfOk, OnErr, vec_capacity};
ghost use Rattle.coco_types.specs.Packing.{IsText};
ghost use Rattle.coco_shard.specs.Kept.{Changes, IsWhole, kept_at, view_of};
ghost use Rattle.coco_shard.specs.RowState.{newest_at};
ghost use Rattle.coco_shard.specs.Table.{extended, installed};

use crate::kept::{put, raise_read_time, touch};
use coco_rows::{Room, Rooms, Row, add_row, list_key};
use coco_types::{Key, NoMemory, Value};
use std::collections::BTreeMap;

// Installs a value at the time, and makes the row where it is missing.
pub fn put_row(
    rows: &mut BTreeMap<Key, Row>,
    touched: &mut Vec<Key>,
    spare: &mut Rooms,
    key: Key,
    time: u64,
    value: &Option<Value>,
) -> Result<(), NoMemory>
    requires { IsWhole rows.old.entries touched.old.items (vec_capacity touched.old) }
    ensures whole { IsWhole rows.new.entries touched.new.items (vec_capacity touched.new) }
    ensures changes { Changes rows.old.entries rows.new.entries key (installed time value.now) result }
    ensures missing { OnErr result ((kept_at rows.old.entries key ≡ None) ⊎ IsText value.now) }
{
    let room = spare.take_for(value)?;
    let Some(row) = rows.get_mut(&key) else {
        return put_missing(rows, touched, key, time, value, room);
    };
    let was = row.is_touched();
    // The room is there for a text alone, so none is left.
    let _ = put(row, time, value, room);
    list_key(touched, key, touch(row, was));
    Ok(())
}

// The same where the key has no row.
#[inline(never)]
fn put_missing(
    rows: &mut BTreeMap<Key, Row>,
    touched: &mut Vec<Key>,
    key: Key,
    time: u64,
    value: &Option<Value>,
    room: Option<Room>,
) -> Result<(), NoMemory>
    requires whole { IsWhole rows.old.entries touched.old.items (vec_capacity touched.old) }
    requires missing { kept_at rows.old.entries key ≡ None }
    requires room { IsText value.now → IsSome room }
    ensures whole { IsWhole rows.new.entries touched.new.items (vec_capacity touched.new) }
    ensures changes { Changes rows.old.entries rows.new.entries key (installed time value.now) result }
{
    let mut row = Row::without_value();
    let _ = put(&mut row, time, value, room);
    let _ = touch(&mut row, true);
    add_row(rows, touched, key, row)
}

// The newest value, which is valid until the time from then on. Makes the row where it is missing.
pub fn read_row(
    rows: &mut BTreeMap<Key, Row>,
    touched: &mut Vec<Key>,
    key: Key,
    time: u64,
) -> Result<Option<Value>, NoMemory>
    requires { IsWhole rows.old.entries touched.old.items (vec_capacity touched.old) }
    ensures whole { IsWhole rows.new.entries touched.new.items (vec_capacity touched.new) }
    ensures changes { Changes rows.old.entries rows.new.entries key (extended time) result }
    ensures missing { OnErr result (kept_at rows.old.entries key ≡ None) }
    ensures value { IfOk result (λ value. value ≡ newest_at (view_of rows.old.entries) key) }
{
    let Some(row) = rows.get_mut(&key) else {
        extend_missing(rows, touched, key, time)?;
        return Ok(None);
    };
    let was = row.is_touched();
    raise_read_time(row, time);
    list_key(touched, key, touch(row, was));
    Ok(row.newest_value())
}

// The same where the key has no row.
#[inline(never)]
fn extend_missing(
    rows: &mut BTreeMap<Key, Row>,
    touched: &mut Vec<Key>,
    key: Key,
    time: u64,
) -> Result<(), NoMemory>
    requires whole { IsWhole rows.old.entries touched.old.items (vec_capacity touched.old) }
    requires missing { kept_at rows.old.entries key ≡ None }
    ensures whole { IsWhole rows.new.entries touched.new.items (vec_capacity touched.new) }
    ensures changes { Changes rows.old.entries rows.new.entries key (extended time) result }
{
    let mut row = Row::without_value();
    raise_read_time(&mut row, time);
    let _ = touch(&mut row, true);
    add_row(rows, touched, key, row)
}
