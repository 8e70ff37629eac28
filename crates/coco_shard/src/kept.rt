//! What an ask makes of a row, and the note whether its key is listed as touched.

ghost use Rattle.std.specs.Prelude.{◌≡◌, ◌||◌, true, false, Some, IsSome};
ghost use Rattle.coco_types.specs.RowKey.{RowKey};
ghost use Rattle.coco_types.specs.Packing.{IsText};
ghost use Rattle.coco_types.specs.declared.value.Value.TheVariants.{Int};
ghost use Rattle.coco_rows.specs.Versions.{at_rest, is_touched, newest_of};
ghost use Rattle.coco_shard.specs.declared.ops.Answer.TheVariants.{Got};
ghost use Rattle.coco_shard.specs.Kept.{Follows, IsSound, state_of};
ghost use Rattle.coco_shard.specs.Memory.{is_lock};
ghost use Rattle.coco_shard.specs.Table.{is_mark_of, extended, installed};

use crate::ops::{Answer, Ask, Op};
use coco_rows::{Mark, Newest, Room, Row};
use coco_types::{AttemptId, Lent, Value};

// Notes a row as touched where it was before, or isn't at rest. Says whether it is touched for the first time since the
// last promote or revert.
pub fn touch(row: &mut Row, was: bool) -> bool
    ensures state { state_of row.new ≡ state_of row.old }
    ensures touched { is_touched row.new ≡ was || result }
    ensures once { result ≡ true → was ≡ false }
    ensures sound { IsSound row.new }
{
    let touched = was || !is_at_rest(row);
    if touched && !row.is_touched() {
        row.newest = Newest::AsStable;
    }
    touched && !was
}

// Whether the row is as a promote or a revert leaves it.
fn is_at_rest(row: &Row) -> bool
    ensures rest { result ≡ true → row.now ≡ at_rest row.now.stable }
    ensures stands { result ≡ true → IsSome row.now.stable }
{
    matches!(row.newest, Newest::Untouched)
        && row.wts == 0
        && row.rts == 0
        && row.mark.holder().is_none()
        && row.stable.is_some()
}

// Answers an operation at a row, and changes it as the answer says. A lock needs a room, which it keeps; what room is
// left comes back. An answer is large, so it is made in its place.
#[inline(always)]
pub fn act(row: &mut Row, ask: &Ask, room: Option<Room>, answer: &mut Answer) -> Option<Room>
    requires { is_lock ask.now.op ≡ true → IsSome room }
    ensures { Follows row.old row.new ask.now.by ask.now.op answer.new }
{
    match &ask.op {
        Op::Read(_) => read_to(row, answer),
        Op::Lock(_) => return lock(row, ask.by, room, answer),
        Op::Extend { wts, time, .. } => extend(row, ask.by, *wts, *time, answer),
        Op::Install { time, value, .. } => return install(row, ask.by, *time, value, answer),
        Op::Release(_) => return release(row, ask.by, answer),
        Op::Past(_) => *answer = Answer::Stood(row.stable.get()),
    }
    room
}

// The newest value and its times.
pub fn read(row: &Row) -> Answer
    ensures { result ≡ Got row.now.wts row.now.rts (newest_of row.now) }
{
    let (wts, rts) = (row.wts, row.rts);
    match row.newest() {
        Some(Lent::Int(number)) => Answer::Got {
            wts,
            rts,
            value: Some(Value::Int(number)),
        },
        Some(Lent::Text(text)) => Answer::Got {
            wts,
            rts,
            value: Some(Value::Text(*text)),
        },
        None => Answer::Got {
            wts,
            rts,
            value: None,
        },
    }
}

// The same in its place, where one is copied over the last.
fn read_to(row: &Row, answer: &mut Answer)
    ensures { answer.new ≡ Got row.now.wts row.now.rts (newest_of row.now) }
{
    match answer {
        Answer::Got { wts, rts, value } => {
            *wts = row.wts;
            *rts = row.rts;
            copy_newest(row, value);
        }
        _ => *answer = read(row),
    }
}

// A number is written by itself, and no text's room is copied.
fn copy_newest(row: &Row, to: &mut Option<Value>)
    ensures { to.new ≡ newest_of row.now }
{
    match row.newest() {
        Some(Lent::Int(number)) => copy_number(number, to),
        Some(Lent::Text(text)) => *to = Some(Value::Text(*text)),
        None => *to = None,
    }
}

fn copy_number(number: i64, to: &mut Option<Value>)
    ensures { to.new ≡ Some (Int number) }
{
    match to {
        Some(Value::Int(place)) => *place = number,
        _ => *to = Some(Value::Int(number)),
    }
}

// Whether the mark is this attempt's.
fn is_mark_of(mark: Option<AttemptId>, by: AttemptId) -> bool
    ensures { result ≡ is_mark_of by mark }
{
    match mark {
        Some(holder) => holder == by,
        None => false,
    }
}

fn lock(row: &mut Row, by: AttemptId, room: Option<Room>, answer: &mut Answer) -> Option<Room>
    requires { IsSome room }
    ensures { (key : RowKey) → Follows row.old row.new by (Op.Lock key) answer.new }
{
    let found = row.mark.holder();
    if let Some(holder) = found
        && holder != by
    {
        *answer = Answer::Marked { holder };
        return room;
    }
    *answer = Answer::Locked {
        wts: row.wts,
        rts: row.rts,
    };
    if found.is_some() {
        return room;
    }
    match room {
        Some(room) => row.mark = Mark::of(by, room),
        None => unreachable!(),
    }
    None
}

fn extend(row: &mut Row, by: AttemptId, wts: u64, time: u64, answer: &mut Answer)
    ensures { (key : RowKey) → Follows row.old row.new by (Op.Extend key wts time) answer.new }
{
    if row.wts != wts {
        *answer = Answer::Changed { wts: row.wts };
        return;
    }
    if let Some(holder) = row.mark.holder()
        && holder != by
    {
        *answer = Answer::Marked { holder };
        return;
    }
    raise_read_time(row, time);
    *answer = Answer::Extended;
}

fn install(
    row: &mut Row,
    by: AttemptId,
    time: u64,
    value: &Option<Value>,
    answer: &mut Answer,
) -> Option<Room>
    ensures { (key : RowKey) → Follows row.old row.new by (Op.Install key time value.now) answer.new }
{
    let mark = row.mark.holder();
    if !is_mark_of(mark, by) {
        *answer = Answer::NotMine { mark };
        return None;
    }
    *answer = Answer::Installed;
    let room = row.mark.take();
    put(row, time, value, room)
}

fn release(row: &mut Row, by: AttemptId, answer: &mut Answer) -> Option<Room>
    ensures { (key : RowKey) → Follows row.old row.new by (Op.Release key) answer.new }
{
    let mark = row.mark.holder();
    if !is_mark_of(mark, by) {
        *answer = Answer::NotMine { mark };
        return None;
    }
    *answer = Answer::Released;
    row.mark.take()
}

// Writes the value at the time, its text in the room, and takes the mark away. What room is left comes back.
pub fn put(row: &mut Row, time: u64, value: &Option<Value>, room: Option<Room>) -> Option<Room>
    requires { IsText value.now → IsSome room }
    ensures row { state_of row.new ≡ installed time value.now (state_of row.old) }
{
    row.wts = time;
    row.rts = time;
    row.mark = Mark::none();
    row.newest.set(value, room)
}

// Makes the newest version valid until the time.
pub fn raise_read_time(row: &mut Row, time: u64)
    ensures row { state_of row.new ≡ extended time (state_of row.old) }
{
    row.rts = row.rts.max(time);
}
