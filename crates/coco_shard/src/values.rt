//! What a shard's rows have in all: their values in order, and the greatest read time of some.

ghost use Rattle.std.specs.Prelude.{◌≡◌, ◌++◌, false, OnOk, IfOk};
ghost use Rattle.std.specs.Map.{keys_of};
ghost use Rattle.std.specs.List.Sorted.{IsStrictlySortedBy};
ghost use Rattle.coco_types.specs.RowKey.{key_cmp};
ghost use Rattle.coco_rows.specs.Versions.{version_of};
ghost use Rattle.coco_shard.specs.Kept.{entry_of, kept_at, values_in, most_rts, rts_of};

use coco_rows::Row;
use coco_types::{Key, NoMemory, Value};
use std::alloc::Global;
use std::collections::BTreeMap;

// The keys that have a value in one of the two versions, each with it.
pub fn values(
    alloc: Global,
    rows: &BTreeMap<Key, Row>,
    newest: bool,
) -> Result<Vec<(Key, Value)>, NoMemory>
    ensures values { IfOk result (λ values. values.items ≡ values_in newest rows.now.entries) }
    ensures rising { OnOk result (IsStrictlySortedBy key_cmp (keys_of rows.now.entries)) }
{
    let mut values = Vec::new(alloc);
    for (key, row) in rows {
        push_value(&mut values, *key, version(row, newest))?;
    }
    Ok(values)
}

fn push_value(
    values: &mut Vec<(Key, Value)>,
    key: Key,
    value: Option<Value>,
) -> Result<(), NoMemory>
    ensures { OnOk result (values.new.items ≡ values.old.items ++ entry_of key value) }
{
    if let Some(value) = value {
        values.push((key, value))?;
    }
    Ok(())
}

fn version(row: &Row, newest: bool) -> Option<Value>
    ensures { result ≡ version_of newest row.now }
{
    if newest {
        row.newest_value()
    } else {
        row.stable.get()
    }
}

// Puts the keys that have a stable value at the end of a list.
pub fn add_keys(keys: &mut Vec<Key>, rows: &BTreeMap<Key, Row>) -> Result<(), NoMemory>
    ensures keys { OnOk result (keys.new.items ≡ keys.old.items ++ keys_of (values_in false rows.now.entries)) }
    ensures rising { OnOk result (IsStrictlySortedBy key_cmp (keys_of rows.now.entries)) }
{
    for (key, row) in rows {
        if row.stable.is_some() {
            keys.push(*key)?;
        }
    }
    Ok(())
}

// The greatest read time of these keys.
pub fn greatest(rows: &BTreeMap<Key, Row>, touched: &[Key]) -> u64
    ensures { result ≡ most_rts rows.now.entries touched.now }
{
    let mut most = 0;
    for key in touched {
        most = read_time(rows, *key).max(most);
    }
    most
}

fn read_time(rows: &BTreeMap<Key, Row>, key: Key) -> u64
    ensures { result ≡ rts_of (kept_at rows.now.entries key) }
{
    match rows.get(&key) {
        Some(row) => row.rts,
        None => 0,
    }
}
