//! The operations on the map of rows, with the list of touched keys that always has room for every row.

ghost use Rattle.std.specs.Prelude.{◌≡◌, ◌⊎◌, true, false, None, Some, IsSome, IfNone, IfSome, IfOk, OnOk, OnErr, vec_capacity};
ghost use Rattle.coco_shard.specs.Kept.{Acts, IsWhole, SetsRow, kept_at, view_of};
ghost use Rattle.coco_shard.specs.Memory.{is_lock};
ghost use Rattle.coco_shard.specs.RowState.{IsSettled, resting, stable_at};
ghost use Rattle.coco_types.specs.Packing.{IsText};
ghost use Rattle.coco_rows.specs.Versions.{at_rest};
ghost use Rattle.std.specs.FinMap.{insert, remove};
ghost use Rattle.coco_shard.specs.Table.{key_of, leaves_row};

use crate::kept::{act, touch};
use crate::ops::{Answer, Ask, Op};
use coco_rows::{Newest, Room, Rooms, Row, Stored, add_row, drop_row, list_key, settle};
use coco_types::{Key, NoMemory, Value};
use std::collections::BTreeMap;

// Answers an ask on the rows, and makes the row where it is missing and the answer wants one.
#[inline(never)]
pub fn act_on_rows(
    rows: &mut BTreeMap<Key, Row>,
    touched: &mut Vec<Key>,
    spare: &mut Rooms,
    ask: &Ask,
    answer: &mut Answer,
) -> Result<(), NoMemory>
    requires { IsWhole rows.old.entries touched.old.items (vec_capacity touched.old) }
    ensures whole { IsWhole rows.new.entries touched.new.items (vec_capacity touched.new) }
    ensures acts { Acts rows.old.entries rows.new.entries ask.now answer.new result }
{
    let room = room_for(spare, &ask.op)?;
    let key = ask.op.key();
    let Some(row) = rows.get_mut(&key) else {
        return act_on_missing(rows, touched, room, ask, answer);
    };
    let was = row.is_touched();
    let left = act(row, ask, room, answer);
    list_key(touched, key, touch(row, was));
    spare.give(left);
    Ok(())
}

// The room that the mark of a lock is to stand on.
fn room_for(spare: &mut Rooms, op: &Op) -> Result<Option<Room>, NoMemory>
    ensures room { IfOk result (λ room. is_lock op.now ≡ true → IsSome room) }
    ensures lock { OnErr result (is_lock op.now ≡ true) }
{
    match op {
        Op::Lock(_) => Ok(Some(spare.take()?)),
        Op::Read(_) | Op::Release(_) | Op::Past(_) => Ok(None),
        Op::Extend { .. } | Op::Install { .. } => Ok(None),
    }
}

// The same where the key has no row.
#[inline(never)]
pub fn act_on_missing(
    rows: &mut BTreeMap<Key, Row>,
    touched: &mut Vec<Key>,
    room: Option<Room>,
    ask: &Ask,
    answer: &mut Answer,
) -> Result<(), NoMemory>
    requires whole { IsWhole rows.old.entries touched.old.items (vec_capacity touched.old) }
    requires missing { kept_at rows.old.entries (key_of ask.now.op) ≡ None }
    requires room { is_lock ask.now.op ≡ true → IsSome room }
    ensures whole { IsWhole rows.new.entries touched.new.items (vec_capacity touched.new) }
    ensures acts { Acts rows.old.entries rows.new.entries ask.now answer.new result }
{
    let mut row = Row::without_value();
    // A row without a mark takes the room of a lock, so none is left.
    let _ = act(&mut row, ask, room, answer);
    if !leaves_row(answer) {
        return Ok(());
    }
    let _ = touch(&mut row, true);
    add_row(rows, touched, ask.op.key(), row)?;
    Ok(())
}

// Whether an answer leaves a row under the key.
fn leaves_row(answer: &Answer) -> bool
    ensures { result ≡ leaves_row answer.now }
{
    match answer {
        Answer::Got { .. } | Answer::Locked { .. } => true,
        Answer::Extended | Answer::Installed | Answer::Released => true,
        Answer::Marked { .. } | Answer::Changed { .. } => false,
        Answer::NotMine { .. } | Answer::Stood(_) => false,
    }
}

// The stable value under a key.
pub fn stable_of(rows: &BTreeMap<Key, Row>, key: Key) -> Option<Value>
    ensures { result ≡ stable_at (view_of rows.now.entries) key }
{
    match rows.get(&key) {
        Some(row) => row.stable.get(),
        None => None,
    }
}

// Sets the row of a key to one with this stable value.
pub fn load_row(
    rows: &mut BTreeMap<Key, Row>,
    touched: &mut Vec<Key>,
    spare: &mut Rooms,
    key: Key,
    value: Value,
) -> Result<(), NoMemory>
    requires { IsWhole rows.old.entries touched.old.items (vec_capacity touched.old) }
    ensures whole { IsWhole rows.new.entries touched.new.items (vec_capacity touched.new) }
    ensures state { OnOk result (view_of rows.new.entries ≡ insert (view_of rows.old.entries) key (resting (Some value))) }
    ensures err { OnErr result (rows.new.entries ≡ rows.old.entries) }
    ensures missing { OnErr result ((kept_at rows.old.entries key ≡ None) ⊎ IsText (Some value)) }
{
    let value = Some(value);
    let room = spare.take_for(&value)?;
    let row = Row::at_rest(Stored::of(&value, room));
    match load_at(rows, key, row) {
        Some(row) => add_row(rows, touched, key, row),
        None => Ok(()),
    }
}

// Takes the row of a key away, while no row is touched.
pub fn drop_loaded(rows: &mut BTreeMap<Key, Row>, touched: &mut Vec<Key>, key: Key)
    requires whole { IsWhole rows.old.entries touched.old.items (vec_capacity touched.old) }
    requires settled { IsSettled (view_of rows.old.entries) }
    ensures whole { IsWhole rows.new.entries touched.new.items (vec_capacity touched.new) }
    ensures state { view_of rows.new.entries ≡ remove (view_of rows.old.entries) key }
{
    // Rows at rest may still be listed. None is behind this, so the list doesn't name the row that goes.
    settle(rows, touched, false);
    drop_row(rows, key);
}

// Sets the row of a key that has one. Where it has none, the row comes back.
fn load_at(rows: &mut BTreeMap<Key, Row>, key: Key, row: Row) -> Option<Row>
    ensures missing { IfSome result (λ back. (back ≡ row) × (kept_at rows.old.entries key ≡ None) × (rows.new.entries ≡ rows.old.entries)) }
    ensures set { IfNone result (SetsRow rows.old.entries rows.new.entries key row) }
{
    match rows.get_mut(&key) {
        Some(kept) => {
            let touched = kept.is_touched();
            *kept = row;
            if touched {
                kept.newest = Newest::AsStable;
            }
            None
        }
        None => Some(row),
    }
}
