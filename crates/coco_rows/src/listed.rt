//! Rows of any kind under their keys, beside the list of the keys of those that an epoch has touched. The list always
//! has room for the key of every row, so an epoch's end takes no memory.

ghost use Rattle.std.specs.Prelude.{◌≡◌, ◌+◌, ◌^◌, ◌<◌, ◌≤◌, ◌++◌, ◌∷◌, [], if◌then◌else◌, cond, true, None, Some, is_some, OnOk, OnErr, length, vec_len, vec_capacity};
ghost use Rattle.std.specs.Map.{remove_entry, set_value};
ghost use Rattle.std.specs.BTreeMap.{is_at};
ghost use Rattle.coco_types.specs.RowKey.{RowKey, key_cmp};
ghost use Rattle.coco_rows.specs.Listing.{IsListing, IsRising, IsSound, RowKind, Settles, kept_at, settled};

use coco_types::{Key, NoMemory};
use std::collections::BTreeMap;

/// A row that notes whether an epoch has touched it.
pub trait EpochRow: Drop {
    /// How it is noted, and what an epoch's end leaves of it.
    ghost kind: { RowKind Self };

    fn is_noted(&self) -> bool
        ensures { result ≡ kind.is_noted self.now };

    /// Ends the epoch with the newest version or with the stable one, and says whether a value stands.
    fn rest(&mut self, promotes: bool) -> bool
        ensures row { self.new ≡ kind.at_rest (kind.version_of promotes self.old) }
        ensures stands { result ≡ is_some (kind.version_of promotes self.old) };
}

/// Ends the epoch of each listed row, and drops those without a value.
pub fn settle<R: EpochRow>(rows: &mut BTreeMap<Key, R>, listed: &mut Vec<Key>, promotes: bool)
    requires { IsListing R.kind rows.old.entries listed.old.items (vec_capacity listed.old) }
    ensures whole { IsListing R.kind rows.new.entries listed.new.items (vec_capacity listed.new) }
    ensures none { listed.new.items ≡ [] }
    ensures rows { (q : RowKey) → kept_at rows.new.entries q ≡ settled R.kind promotes (kept_at rows.old.entries q) }
{
    'keys: while let Some(key) = listed.pop() {
        settle_row(rows, key, promotes);
    }
}

fn settle_row<R: EpochRow>(rows: &mut BTreeMap<Key, R>, key: Key, promotes: bool)
    ensures { Settles R.kind promotes key rows.old.entries rows.new.entries }
{
    if !rest_at(rows, key, promotes) {
        drop_row(rows, key);
    }
}

// Takes the row of a key to rest, and says whether it has a value. A missing row needs none.
fn rest_at<R: EpochRow>(rows: &mut BTreeMap<Key, R>, key: Key, promotes: bool) -> bool
    ensures missing { kept_at rows.old.entries key ≡ None → (rows.new.entries ≡ rows.old.entries) × (result ≡ true) }
    ensures found { (row : R) → kept_at rows.old.entries key ≡ Some row →
        (rows.new.entries ≡ set_value (is_at (key_cmp key)) rows.old.entries (R.kind.at_rest (R.kind.version_of promotes row)))
        × (result ≡ is_some (R.kind.version_of promotes row)) }
{
    match rows.get_mut(&key) {
        Some(row) => row.rest(promotes),
        None => true,
    }
}

/// Takes the row of a key away, where there is one.
pub fn drop_row<R: Drop>(rows: &mut BTreeMap<Key, R>, key: Key)
    ensures entries { rows.new.entries ≡ remove_entry (is_at (key_cmp key)) rows.old.entries }
    ensures at { (q : RowKey) → kept_at rows.new.entries q ≡ cond (is_at (key_cmp key) q) None (kept_at rows.old.entries q) }
    ensures rising { IsRising rows.new.entries }
    ensures len { length rows.new.entries + cond (is_some (kept_at rows.old.entries key)) 1 0 ≡ length rows.old.entries }
{
    let _ = rows.remove(&key);
}

/// Makes both rooms for a new row, and then puts it there.
pub fn add_row<R: EpochRow>(
    rows: &mut BTreeMap<Key, R>,
    listed: &mut Vec<Key>,
    key: Key,
    row: R,
) -> Result<(), NoMemory>
    requires whole { IsListing R.kind rows.old.entries listed.old.items (vec_capacity listed.old) }
    requires missing { kept_at rows.old.entries key ≡ None }
    requires sound { IsSound R.kind row }
    ensures whole { IsListing R.kind rows.new.entries listed.new.items (vec_capacity listed.new) }
    ensures ok { OnOk result ((q : RowKey) → kept_at rows.new.entries q ≡ cond (is_at (key_cmp key) q) (Some row) (kept_at rows.old.entries q)) }
    ensures err { OnErr result (rows.new.entries ≡ rows.old.entries) }
{
    let noted = row.is_noted();
    make_room(listed, rows.len())?;
    rows.insert(key, row)?;
    list_key(listed, key, noted);
    Ok(())
}

/// Makes room in the list for one key more than there are rows.
pub fn make_room(listed: &mut Vec<Key>, rows: usize) -> Result<(), NoMemory>
    requires few { rows < 2 ^ 63 }
    requires each_once { vec_len listed.old ≤ rows }
    ensures items { listed.new.items ≡ listed.old.items }
    ensures ok { OnOk result (rows + 1 ≤ vec_capacity listed.new) }
    ensures capacity { vec_capacity listed.old ≤ vec_capacity listed.new }
{
    listed.reserve(rows + 1 - listed.len())?;
    Ok(())
}

/// Lists a key whose row is noted for the first time. The room is there.
#[inline(always)]
pub fn list_key(listed: &mut Vec<Key>, key: Key, first: bool)
    requires { first ≡ true → vec_len listed.old < vec_capacity listed.old }
    ensures items { listed.new.items ≡ (if first then listed.old.items ++ key ∷ [] else listed.old.items) }
    ensures capacity { vec_capacity listed.old ≤ vec_capacity listed.new }
{
    if first {
        let _ = listed.push(key);
    }
}
