//! How a call is run on a map in memory.
ghost use Rattle.std.specs.Prelude.{◌≡◌, ◌+◌, ◌≤◌, false, true, [], ◌∷◌, length, Some};
ghost use Rattle.std.specs.HashMap.{spare};
ghost use Rattle.std.specs.Option.{option_copied};
ghost use Rattle.coco_ast.specs.Keyed.{put_over, value_at, write_at};
ghost use Rattle.coco_ast.specs.Meaning.{run};
ghost use Rattle.coco_eval.specs.Standing.{Ready, Ended};
ghost use Rattle.coco_serial.specs.Applied.{rows_of};
ghost use Rattle.coco_types.specs.declared.value.Value.TheVariants.{Int};

use coco_ast::Checked;
use coco_eval::Run;
use coco_types::limits::MOST_KEYS;
use coco_types::{Key, Value, Write};
use std::collections::HashMap;

/// The rows of a map.
pub type Rows = HashMap<Key, Value>;

/// What a map has at a key.
#[inline(always)]
pub fn value_in(rows: &Rows, key: Key) -> Option<&Value>
    ensures { option_copied result ≡ value_at (rows_of rows.now) key }
{
    rows.get(&key)
}

/// Runs to the end on a map, and puts the writes over it. It has room for them.
pub fn finish(running: &mut Run, procs: &Checked, rows: &mut Rows)
    requires procs { procs.now ≡ running.old.procs }
    requires ready { running.old.standing ≡ Ready }
    requires fresh { running.old.given ≡ [] }
    requires room { MOST_KEYS ≤ spare rows.old }
    ensures ended { running.new.standing ≡ Ended (run running.old.procs running.old.call (rows_of rows.old)).reply (run running.old.procs running.old.call (rows_of rows.old)).writes }
    ensures rows { rows_of rows.new ≡ (run running.old.procs running.old.call (rows_of rows.old)).rows }
{
    read_all(running, procs, rows);
    put_all(rows, running.writes().as_slice());
}

// Runs to the end, with the values that a map has.
fn read_all(running: &mut Run, procs: &Checked, rows: &Rows)
    requires procs { procs.now ≡ running.old.procs }
    requires ready { running.old.standing ≡ Ready }
    requires fresh { running.old.given ≡ [] }
    ensures ended { running.new.standing ≡ Ended (run running.old.procs running.old.call (rows_of rows.now)).reply (run running.old.procs running.old.call (rows_of rows.now)).writes }
    ensures rows { (run running.old.procs running.old.call (rows_of rows.now)).rows
        ≡ put_over (rows_of rows.now) (run running.old.procs running.old.call (rows_of rows.now)).writes }
    ensures few { length (run running.old.procs running.old.call (rows_of rows.now)).writes ≤ MOST_KEYS }
{
    loop {
        match running.next_key(procs) {
            Some(key) => running.give_lent(value_in(rows, key)),
            None => return,
        }
    }
}

// Puts writes over a map, which has room for them.
fn put_all(rows: &mut Rows, writes: &[Write])
    requires { length writes.now ≤ spare rows.old }
    ensures { rows_of rows.new ≡ put_over (rows_of rows.old) writes.now }
{
    for write in writes {
        put(rows, write);
    }
}

fn put(rows: &mut Rows, write: &Write)
    requires { 1 ≤ spare rows.old }
    ensures rows { rows_of rows.new ≡ put_over (rows_of rows.old) (write.now ∷ []) }
    ensures room { spare rows.old ≤ spare rows.new + 1 }
{
    match &write.value {
        Some(value) => put_value(rows, write.key, value),
        None => {
            rows.remove(&write.key);
        }
    }
}

fn put_value(rows: &mut Rows, key: Key, value: &Value)
    requires { 1 ≤ spare rows.old }
    ensures rows { rows_of rows.new ≡ write_at (rows_of rows.old) key (Some value.now) }
    ensures room { spare rows.old ≤ spare rows.new + 1 }
{
    if !replace(rows, key, value) {
        let _ = rows.insert(key, *value);
    }
}

// Writes the value of a key that has one, and says whether it has.
fn replace(rows: &mut Rows, key: Key, value: &Value) -> bool
    ensures replaced { result ≡ true → rows_of rows.new ≡ write_at (rows_of rows.old) key (Some value.now) }
    ensures missing { result ≡ false → rows.new ≡ rows.old }
    ensures room { spare rows.new ≡ spare rows.old }
{
    match rows.get_mut(&key) {
        Some(place) => {
            store(place, value);
            true
        }
        None => false,
    }
}

// Of a number in the place of a number, that alone is written.
fn store(place: &mut Value, value: &Value)
    ensures { place.new ≡ value.now }
{
    if let Value::Int(number) = value {
        store_number(place, *number);
    } else {
        *place = *value;
    }
}

fn store_number(place: &mut Value, number: i64)
    ensures { place.new ≡ Int number }
{
    match place {
        Value::Int(old) => *old = number,
        Value::Text(_) => *place = Value::Int(number),
    }
}
