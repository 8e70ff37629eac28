//! The rows of a copy under their keys, beside the list of those that were put in this epoch.

ghost use Rattle.std.specs.Prelude.{◌≡◌, ◌||◌, ℕ, ◌++◌, true, false, None, Some, is_some, IfOk, IfSome, IfNone, OnOk, OnErr, option_and_then, vec_capacity};
ghost use Rattle.coco_ast.specs.Keyed.{write_at};
ghost use Rattle.coco_copy.specs.Kept.{IsWhole, entry_of, SetsStable, kept_at, part_of, pending_of, stable_of, view_of};
ghost use Rattle.coco_copy.specs.Puts.{HasNothing, TakesMemory, answer_in, after_ask, put_at};

use crate::kept::Kept;
use crate::ops::CopyAnswer;
use coco_rows::{add_row, drop_row, list_key, make_room};
use coco_types::{Key, NoMemory, Packed, Value};
use std::alloc::Global;
use std::collections::BTreeMap;
use std::collections::btree_map::Entry;

// Takes a put of the current epoch.
pub fn put(
    rows: &mut BTreeMap<Key, Kept>,
    listed: &mut Vec<Key>,
    time: u64,
    key: Key,
    value: Packed,
) -> Result<CopyAnswer, NoMemory>
    requires { IsWhole rows.old.entries listed.old.items (vec_capacity listed.old) }
    ensures whole { IsWhole rows.new.entries listed.new.items (vec_capacity listed.new) }
    ensures answer { IfOk result (λ answer. (epoch : ℕ) → answer ≡ answer_in (view_of epoch rows.old.entries) (put_at epoch time key value)) }
    ensures state { OnOk result ((epoch : ℕ) → view_of epoch rows.new.entries ≡ after_ask (view_of epoch rows.old.entries) (put_at epoch time key value)) }
    ensures err { OnErr result (rows.new.entries ≡ rows.old.entries) }
    ensures missing { OnErr result ((epoch : ℕ) → HasNothing (view_of epoch rows.old.entries) key) }
{
    // Want of this room matters only where the key is new.
    let has_room = make_room(listed, rows.len()).is_ok();
    match rows.entry(key)? {
        Entry::Occupied(entry) => {
            let kept = entry.into_mut();
            let first = kept.pending.is_none();
            let answer = kept.put(time, value);
            list_key(listed, key, first);
            Ok(answer)
        }
        Entry::Vacant(entry) => {
            if !has_room {
                return Err(NoMemory);
            }
            entry.insert(Kept {
                stable: Packed::none(),
                pending: Some((time, value)),
            });
            list_key(listed, key, true);
            Ok(CopyAnswer::Applied)
        }
    }
}

// Sets the stable value of a key, or takes it away.
pub fn load(
    rows: &mut BTreeMap<Key, Kept>,
    listed: &mut Vec<Key>,
    key: Key,
    value: &Option<Value>,
) -> Result<(), NoMemory>
    requires { IsWhole rows.old.entries listed.old.items (vec_capacity listed.old) }
    ensures whole { IsWhole rows.new.entries listed.new.items (vec_capacity listed.new) }
    ensures state { OnOk result ((epoch : ℕ) → view_of epoch rows.new.entries ≡ record (view_of epoch rows.old.entries) { stable = write_at (view_of epoch rows.old.entries).stable key value.now }) }
    ensures err { OnErr result (rows.new.entries ≡ rows.old.entries) }
    ensures missing { OnErr result ((epoch : ℕ) → TakesMemory (view_of epoch rows.old.entries) key value.now) }
{
    if !keeps_row(rows, key, value) {
        drop_row(rows, key);
        return Ok(());
    }
    let packed = Packed::of(*listed.allocator(), value)?;
    match load_at(rows, key, packed) {
        Some(stable) => {
            let made = Kept {
                stable,
                pending: None,
            };
            add_row(rows, listed, key, made)
        }
        None => Ok(()),
    }
}

// Whether anything stands in the key's row with this stable value.
fn keeps_row(rows: &BTreeMap<Key, Kept>, key: Key, value: &Option<Value>) -> bool
    ensures { result ≡ (is_some value.now || is_some (option_and_then pending_of (kept_at rows.now.entries key))) }
{
    let pends = match rows.get(&key) {
        Some(kept) => kept.pending.is_some(),
        None => false,
    };
    value.is_some() || pends
}

// Sets the stable value of a row that is there. Where none is, the value comes back.
fn load_at(rows: &mut BTreeMap<Key, Kept>, key: Key, value: Packed) -> Option<Packed>
    ensures missing { IfSome result (λ back. (back ≡ value) × (kept_at rows.old.entries key ≡ None) × (rows.new.entries ≡ rows.old.entries)) }
    ensures set { IfNone result (SetsStable rows.old.entries rows.new.entries key value) }
{
    match rows.get_mut(&key) {
        Some(kept) => {
            kept.stable = value;
            None
        }
        None => Some(value),
    }
}

// The keys that have a stable value, each with it.
pub fn stable_rows(alloc: Global, rows: &BTreeMap<Key, Kept>) -> Result<Vec<(Key, Value)>, NoMemory>
    ensures { IfOk result (λ values. values.items ≡ part_of stable_of rows.now.entries) }
{
    let mut values = Vec::new(alloc);
    for (key, kept) in rows {
        push_value(&mut values, *key, &kept.stable)?;
    }
    Ok(values)
}

fn push_value(values: &mut Vec<(Key, Value)>, key: Key, value: &Packed) -> Result<(), NoMemory>
    ensures { OnOk result (values.new.items ≡ values.old.items ++ entry_of key value.now) }
{
    if let Some(value) = value.get() {
        values.push((key, value))?;
    }
    Ok(())
}
