//! The entries of a base file: its head, the kept Dones, and the rows of the map.

ghost use Rattle.std.specs.Prelude.{◌≡◌, None, Some, ◌≤◌, ◌<◌, ◌^◌, [], ◌++◌, length, IfOk, OnOk, OnErr, All};
ghost use Rattle.std.specs.Option.{option_map};
ghost use Rattle.coco_bytes.specs.Lists.{counted, FitInTurn, items_at};
ghost use Rattle.coco_bytes.specs.Values.{IsValue};
ghost use Rattle.coco_entry.specs.Grammar.{Answers, ReadsExactly};
ghost use Rattle.coco_entry.specs.Bases.{floor_bytes, IsFloor, floor_number_at, floor_at, head_bytes, IsHead, head_at, head_in, items_count_at, AreItems, is_before as comes_before, stamp_rises, stamp_of, stamped_at, DoneRises, base_done_bytes, IsBaseDone, base_done_at, base_dones_bytes, AreBaseDones, base_dones_at, base_dones_in, present_at, BaseRowRises, base_row_bytes, IsBaseRow, base_row_at, base_rows_bytes, AreBaseRows, base_rows_at, base_rows_in};

use crate::EntryFault;
use crate::calls::{Timed, done_of_parts, get_kept, get_timed, put_done};
use crate::fields::{emptied, get_tag, whole};
use crate::prepared::{get_rising_key, key_fits};
use coco_bytes::{
    FieldFault, get_flag, get_u32, get_u64, get_value, put_flag, put_key, put_u8, put_u32, put_u64,
    put_value,
};
use coco_types::{Done, Dones, Key, MapRows, NoMemory, Sequence, Value};
use std::alloc::Global;

/// The most items of one entry of a base file.
pub const MOST_ITEMS: u32 = 1_024;

/// How many, in numbers.
pub fn limits()
    ensures { MOST_ITEMS ≡ 1024 }
{}

/// What a base file begins with: its epoch, the floor of the forgotten ids, and how many Dones and rows follow.
#[derive(Clone, Copy, Debug, PartialEq, Eq)]
pub struct BaseHead {
    pub epoch: u64,
    pub floor: Option<u64>,
    pub dones: u64,
    pub rows: u64,
}

/// What orders the Dones of a base file.
#[derive(Clone, Copy)]
pub struct Stamp {
    pub epoch: u64,
    pub time: u64,
    pub id: u64,
}

fn put_floor(out: &mut Vec<u8>, floor: Option<u64>) -> Result<(), NoMemory>
    ensures ok { OnOk result (out.new.items ≡ out.old.items ++ floor_bytes floor) }
    ensures fits { OnOk result (IsFloor floor) }
{
    match floor {
        None => {
            put_flag(out, false)?;
            put_u64(out, 0)
        }
        Some(floor) => {
            put_flag(out, true)?;
            put_u64(out, floor)
        }
    }
}

// The number of a floor at a place, 0 where there is none.
#[tactic(auto, unfolding(crate::specs::Bases::floor_number_at))]
fn get_floor_number(from: &[u8], at: usize, is: bool) -> Result<(u64, usize), FieldFault>
    requires { at ≤ length from.now }
    ensures read { result ≡ floor_number_at is from.now at }
    ensures within { IfOk result (λ r. r.1 ≤ length from.now) }
{
    let (floor, end) = get_u64(from, at)?;
    if is || floor == 0 {
        Ok((floor, end))
    } else {
        Err(FieldFault::Bad { at })
    }
}

#[tactic(auto, unfolding(crate::specs::Bases::floor_at))]
fn get_floor(from: &[u8], at: usize) -> Result<(Option<u64>, usize), FieldFault>
    requires { at ≤ length from.now }
    ensures read { result ≡ floor_at from.now at }
    ensures within { IfOk result (λ r. r.1 ≤ length from.now) }
{
    let (is, at) = get_flag(from, at)?;
    let (floor, end) = get_floor_number(from, at, is)?;
    let floor = if is { Some(floor) } else { None };
    Ok((floor, end))
}

#[tactic(auto, unfolding(crate::specs::Bases::head_at))]
fn get_head(from: &[u8], at: usize) -> Result<(BaseHead, usize), FieldFault>
    requires { at ≤ length from.now }
    ensures read { result ≡ head_at from.now at }
    ensures within { IfOk result (λ r. r.1 ≤ length from.now) }
{
    let (epoch, at) = get_u64(from, at)?;
    let (floor, at) = get_floor(from, at)?;
    let (dones, at) = get_u64(from, at)?;
    let (rows, end) = get_u64(from, at)?;
    let head = BaseHead {
        epoch,
        floor,
        dones,
        rows,
    };
    Ok((head, end))
}

// How many items follow: from 1 to 1,024.
#[tactic(auto, unfolding(crate::specs::Bases::items_count_at))]
fn get_items_count(from: &[u8], at: usize) -> Result<(u32, usize), FieldFault>
    requires { at ≤ length from.now }
    ensures read { result ≡ items_count_at from.now at }
    ensures within { IfOk result (λ r. r.1 ≤ length from.now) }
{
    let (count, end) = get_u32(from, at)?;
    if 1 <= count && count <= MOST_ITEMS {
        Ok((count, end))
    } else {
        Err(FieldFault::Bad { at })
    }
}

fn put_base_done(out: &mut Vec<u8>, done: &Done) -> Result<(), NoMemory>
    ensures ok { OnOk result (out.new.items ≡ out.old.items ++ base_done_bytes done.now) }
    ensures fits { OnOk result (IsBaseDone done.now) }
{
    put_u64(out, done.epoch)?;
    put_done(out, done)
}

fn put_each_done(out: &mut Vec<u8>, dones: &[Done]) -> Result<(), NoMemory>
    requires { length dones.now < 2 ^ 32 }
    ensures ok { OnOk result (out.new.items ≡ out.old.items ++ counted base_done_bytes dones.now) }
    ensures fit { OnOk result (All IsBaseDone dones.now) }
{
    put_u32(out, dones.len() as u32)?;
    for done in dones {
        put_base_done(out, done)?;
    }
    Ok(())
}

fn is_before(before: Stamp, stamp: Stamp) -> bool
    ensures { result ≡ comes_before before stamp }
{
    before.epoch < stamp.epoch
        || (before.epoch == stamp.epoch
            && (before.time < stamp.time || (before.time == stamp.time && before.id < stamp.id)))
}

fn rises(before: Option<Stamp>, stamp: Stamp) -> bool
    ensures { result ≡ stamp_rises before stamp }
{
    match before {
        Some(before) => is_before(before, stamp),
        None => true,
    }
}

// The epoch and what is timed at a place, which are to be above those before.
#[tactic(auto, unfolding(crate::specs::Bases::stamped_at))]
fn get_stamped(
    alloc: Global,
    from: &[u8],
    at: usize,
    before: Option<Stamp>,
) -> Result<((u64, Timed), usize), EntryFault>
    requires { at ≤ length from.now }
    ensures read { Answers result (stamped_at before from.now at) }
    ensures within { IfOk result (λ r. r.1 ≤ length from.now) }
{
    let (epoch, next) = get_u64(from, at)?;
    let (timed, end) = get_timed(alloc, from, next)?;
    let stamp = Stamp {
        epoch,
        time: timed.time,
        id: timed.id,
    };
    if rises(before, stamp) {
        Ok(((epoch, timed), end))
    } else {
        Err(EntryFault::Bad { at })
    }
}

#[tactic(auto, unfolding(crate::specs::Bases::base_done_at))]
fn get_base_done(
    alloc: Global,
    from: &[u8],
    at: usize,
    before: Option<Stamp>,
) -> Result<(Done, usize), EntryFault>
    requires { at ≤ length from.now }
    ensures read { Answers result (base_done_at before from.now at) }
    ensures within { IfOk result (λ r. r.1 ≤ length from.now) }
{
    let ((epoch, timed), at) = get_stamped(alloc, from, at, before)?;
    let (reply, end) = get_kept(alloc, from, at)?;
    Ok((done_of_parts(epoch, timed, reply), end))
}

// So many Dones, one behind another, rising.
fn get_each_done(
    alloc: Global,
    from: &[u8],
    at: usize,
    count: u32,
) -> Result<(Dones, usize), EntryFault>
    requires { at ≤ length from.now }
    ensures read { Answers result (items_at (λ before. base_done_at (option_map stamp_of before)) None count from.now at) }
    ensures within { IfOk result (λ r. r.1 ≤ length from.now) }
{
    let mut dones = Sequence::new(alloc);
    let mut before = None;
    let mut end = at;
    for _ in 0..count {
        let (done, after) = get_base_done(alloc, from, end, before)?;
        before = Some(Stamp {
            epoch: done.epoch,
            time: done.time,
            id: done.id,
        });
        dones.push(done)?;
        end = after;
    }
    Ok((dones, end))
}

#[tactic(auto, unfolding(crate::specs::Bases::base_dones_at))]
fn get_base_dones(alloc: Global, from: &[u8], at: usize) -> Result<(Dones, usize), EntryFault>
    requires { at ≤ length from.now }
    ensures read { Answers result (base_dones_at from.now at) }
    ensures within { IfOk result (λ r. r.1 ≤ length from.now) }
{
    let (count, at) = get_items_count(from, at)?;
    get_each_done(alloc, from, at, count)
}

// The value at a place, which is to be one.
#[tactic(auto, unfolding(crate::specs::Bases::present_at, crate::specs::Bases::present))]
fn get_present(from: &[u8], at: usize) -> Result<(Value, usize), FieldFault>
    requires { at ≤ length from.now }
    ensures read { result ≡ present_at from.now at }
    ensures within { IfOk result (λ r. r.1 ≤ length from.now) }
{
    let (value, end) = get_value(from, at)?;
    match value {
        Some(value) => Ok((value, end)),
        None => Err(FieldFault::Bad { at }),
    }
}

#[tactic(auto, unfolding(crate::specs::Bases::base_row_at))]
fn get_base_row(
    from: &[u8],
    at: usize,
    before: &Option<Key>,
) -> Result<((Key, Value), usize), EntryFault>
    requires { at ≤ length from.now }
    ensures read { Answers result (base_row_at before.now from.now at) }
    ensures within { IfOk result (λ r. r.1 ≤ length from.now) }
{
    let (key, at) = get_rising_key(from, at, before)?;
    let (value, end) = get_present(from, at)?;
    Ok(((key, value), end))
}

// So many rows, one behind another, rising by key.
fn get_each_row(
    alloc: Global,
    from: &[u8],
    at: usize,
    count: u32,
) -> Result<(MapRows, usize), EntryFault>
    requires { at ≤ length from.now }
    ensures read { Answers result (items_at (λ before. base_row_at (option_map (λ r. r.0) before)) None count from.now at) }
    ensures within { IfOk result (λ r. r.1 ≤ length from.now) }
{
    let mut rows = Sequence::new(alloc);
    let mut before = None;
    let mut end = at;
    for _ in 0..count {
        let (row, after) = get_base_row(from, end, &before)?;
        before = Some(row.0);
        rows.push(row)?;
        end = after;
    }
    Ok((rows, end))
}

#[tactic(auto, unfolding(crate::specs::Bases::base_rows_at))]
fn get_base_rows(alloc: Global, from: &[u8], at: usize) -> Result<(MapRows, usize), EntryFault>
    requires { at ≤ length from.now }
    ensures read { Answers result (base_rows_at from.now at) }
    ensures within { IfOk result (λ r. r.1 ≤ length from.now) }
{
    let (count, at) = get_items_count(from, at)?;
    get_each_row(alloc, from, at, count)
}

fn put_base_row(out: &mut Vec<u8>, row: &(Key, Value)) -> Result<(), NoMemory>
    ensures ok { OnOk result (out.new.items ≡ out.old.items ++ base_row_bytes row.now) }
    ensures fits { OnOk result (IsBaseRow row.now) }
{
    key_fits(&row.0);
    value_fits(&row.1);
    put_key(out, row.0)?;
    put_value(out, &Some(row.1))
}

// A number of 64 bits, or a text of at most 256 bytes.
fn value_fits(value: &Value)
    ensures { IsValue (Some value.now) }
{
    match value {
        Value::Int(number) => {
            let _number = *number;
        }
        Value::Text(text) => {
            let _bytes = text.as_bytes();
        }
    }
}

fn put_each_row(out: &mut Vec<u8>, rows: &[(Key, Value)]) -> Result<(), NoMemory>
    requires { length rows.now < 2 ^ 32 }
    ensures ok { OnOk result (out.new.items ≡ out.old.items ++ counted base_row_bytes rows.now) }
    ensures fit { OnOk result (All IsBaseRow rows.now) }
{
    put_u32(out, rows.len() as u32)?;
    for row in rows {
        put_base_row(out, row)?;
    }
    Ok(())
}

#[tactic(auto, unfolding(crate::specs::Grammar::tagged))]
fn get_whole_head(body: &[u8]) -> Result<BaseHead, EntryFault>
    ensures { Answers result (head_in body.now) }
{
    let (_tag, at) = get_tag(body, 4)?;
    let (head, end) = get_head(body, at)?;
    whole(body, head, end)
}

#[tactic(auto, unfolding(crate::specs::Grammar::tagged))]
fn get_whole_dones(alloc: Global, body: &[u8]) -> Result<Dones, EntryFault>
    ensures { Answers result (base_dones_in body.now) }
{
    let (_tag, at) = get_tag(body, 5)?;
    let (dones, end) = get_base_dones(alloc, body, at)?;
    whole(body, dones, end)
}

#[tactic(auto, unfolding(crate::specs::Grammar::tagged))]
fn get_whole_rows(alloc: Global, body: &[u8]) -> Result<MapRows, EntryFault>
    ensures { Answers result (base_rows_in body.now) }
{
    let (_tag, at) = get_tag(body, 6)?;
    let (rows, end) = get_base_rows(alloc, body, at)?;
    whole(body, rows, end)
}

/// The head of a base file that the body is, or the first field that can't stand.
pub fn read_head(body: &[u8]) -> Result<BaseHead, EntryFault>
    ensures { ReadsExactly body.now result (head_in body.now) head_bytes IsHead }
{
    get_whole_head(body)
}

/// The Dones of a base file that the body is, or the first field that can't stand.
pub fn read_base_dones(alloc: Global, body: &[u8]) -> Result<Dones, EntryFault>
    ensures { ReadsExactly body.now result (base_dones_in body.now) base_dones_bytes AreBaseDones }
{
    get_whole_dones(alloc, body)
}

/// The rows of a base file that the body is, or the first field that can't stand.
pub fn read_base_rows(alloc: Global, body: &[u8]) -> Result<MapRows, EntryFault>
    ensures { ReadsExactly body.now result (base_rows_in body.now) base_rows_bytes AreBaseRows }
{
    get_whole_rows(alloc, body)
}

fn put_whole_head(out: &mut Vec<u8>, head: &BaseHead) -> Result<(), NoMemory>
    ensures ok { OnOk result (out.new.items ≡ out.old.items ++ head_bytes head.now) }
    ensures entry { OnOk result (IsHead head.now) }
{
    put_u8(out, 4)?;
    put_u64(out, head.epoch)?;
    put_floor(out, head.floor)?;
    put_u64(out, head.dones)?;
    put_u64(out, head.rows)?;
    Ok(())
}

fn put_whole_dones(out: &mut Vec<u8>, dones: &[Done]) -> Result<(), NoMemory>
    requires count { AreItems (length dones.now) }
    requires rise { FitInTurn DoneRises None dones.now }
    ensures ok { OnOk result (out.new.items ≡ out.old.items ++ base_dones_bytes dones.now) }
    ensures entry { OnOk result (AreBaseDones dones.now) }
{
    put_u8(out, 5)?;
    put_each_done(out, dones)
}

fn put_whole_rows(out: &mut Vec<u8>, rows: &[(Key, Value)]) -> Result<(), NoMemory>
    requires count { AreItems (length rows.now) }
    requires rise { FitInTurn BaseRowRises None rows.now }
    ensures ok { OnOk result (out.new.items ≡ out.old.items ++ base_rows_bytes rows.now) }
    ensures entry { OnOk result (AreBaseRows rows.now) }
{
    put_u8(out, 6)?;
    put_each_row(out, rows)
}

/// Puts the head of a base file behind the bytes. Out of memory no bytes are left.
pub fn put_head(out: &mut Vec<u8>, head: &BaseHead) -> Result<(), NoMemory>
    ensures ok { OnOk result (out.new.items ≡ out.old.items ++ head_bytes head.now) }
    // It is read again.
    ensures entry { OnOk result (IsHead head.now) }
    ensures err { OnErr result (out.new.items ≡ []) }
{
    let put = put_whole_head(out, head);
    emptied(out, put)
}

/// Puts from 1 to 1,024 Dones of a base file, rising, behind the bytes. Out of memory no bytes are left.
pub fn put_base_dones(out: &mut Vec<u8>, dones: &[Done]) -> Result<(), NoMemory>
    requires count { AreItems (length dones.now) }
    requires rise { FitInTurn DoneRises None dones.now }
    ensures ok { OnOk result (out.new.items ≡ out.old.items ++ base_dones_bytes dones.now) }
    // They are read again.
    ensures entry { OnOk result (AreBaseDones dones.now) }
    ensures err { OnErr result (out.new.items ≡ []) }
{
    let put = put_whole_dones(out, dones);
    emptied(out, put)
}

/// Puts from 1 to 1,024 rows of a base file, rising by key, behind the bytes. Out of memory no bytes are left.
pub fn put_base_rows(out: &mut Vec<u8>, rows: &[(Key, Value)]) -> Result<(), NoMemory>
    requires count { AreItems (length rows.now) }
    requires rise { FitInTurn BaseRowRises None rows.now }
    ensures ok { OnOk result (out.new.items ≡ out.old.items ++ base_rows_bytes rows.now) }
    // They are read again.
    ensures entry { OnOk result (AreBaseRows rows.now) }
    ensures err { OnErr result (out.new.items ≡ []) }
{
    let put = put_whole_rows(out, rows);
    emptied(out, put)
}
