//! A row's versions behind a promote and behind a revert.

use coco_rows::{Mark, Newest, Rooms, Row, Stored};
use coco_types::{AttemptId, NoMemory, Text, Value};
use std::test::Fail;

// A row that an attempt has marked, on its way. Its newest value is the stable one, which is 1, or this one.
fn written(rooms: &mut Rooms, newest: &Option<Option<Value>>) -> Result<Row, NoMemory> {
    let by = AttemptId {
        worker: 1,
        number: 7,
    };
    let mut row = Row {
        newest: Newest::AsStable,
        wts: 3,
        rts: 5,
        mark: Mark::of(by, rooms.take()?),
        stable: Stored::of_int(1),
    };
    if let Some(value) = newest {
        let room = rooms.take_for(value)?;
        let left = row.newest.set(value, room);
        rooms.give(left);
    }
    Ok(row)
}

// Whether the row is at rest with this value.
fn rests(row: &Row, value: &Option<Value>) -> bool {
    let has_value = row.stable.get() == *value && row.newest_value() == *value;
    has_value && row.wts == 0 && row.rts == 0 && row.mark.holder().is_none() && !row.is_touched()
}

#[test]
fn promote_keeps_the_newest_value_and_revert_the_stable_one(rt: HostRuntime) -> Result<(), Fail> {
    let mut rooms = Rooms::new(rt.alloc());
    let stable = Some(Value::Int(1));
    let text = Text::of("twelve").map(Value::Text);
    let cases = [
        (None, stable),
        (Some(Some(Value::Int(2))), Some(Value::Int(2))),
        (Some(text), text),
        (Some(None), None),
    ];
    for (newest, value) in cases {
        let mut row = written(&mut rooms, &newest)?;
        let is_there = row.newest_value() == value && row.promote() == value.is_some();
        assert!(rt; is_there && rests(&row, &value));
        let mut row = written(&mut rooms, &newest)?;
        assert!(rt; row.revert() && rests(&row, &stable));
    }
    let mut made = Row::without_value();
    assert!(rt; !made.revert() && rests(&made, &None));
    Ok(())
}
