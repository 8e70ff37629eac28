//! Messages as bytes.

ghost use Rattle.std.specs.Prelude.{◌≡◌, [], ◌∷◌, IfOk};
ghost use Rattle.coco_msg.specs.Bytes.{HasBytes};

use coco_msg::*;
use coco_types::{Key, NoMemory, PackedWrite, Sequence, Value, Write};
use std::alloc::Global;
use std::test::Fail;

const SHIP: [u8; 45] = [
    1, 0, 0, 0, 0, 0, 0, 0, 1, 2, 0, 0, 0, 3, 0, 0, 0, 0, 0, 0, 0, 4, 0, 0, 0, 1, 0, 0, 0, 0, 0, 0,
    0, 0, 0, 5, 1, 0, 0, 0, 0, 0, 0, 0, 70,
];

const TOTAL: [u8; 18] = [2, 0, 0, 0, 0, 0, 0, 0, 1, 0, 0, 0, 0, 1, 0, 0, 0, 0];

fn has_bytes(alloc: Global, message: &Message, bytes: &[u8]) -> Result<bool, NoMemory>
    requires { HasBytes message.now }
{
    Ok(message_bytes(alloc, message)?.as_slice() == bytes)
}

fn one_place(alloc: Global, place: u32) -> Result<Places, NoMemory>
    ensures { IfOk result (λ places. places ≡ place ∷ []) }
{
    let mut places = Sequence::new(alloc);
    places.push(place)?;
    Ok(places)
}

fn total_has_bytes(alloc: Global) -> Result<bool, NoMemory> {
    let total = Message::Total {
        epoch: 1,
        partition: 0,
        places: one_place(alloc, 0)?,
    };
    has_bytes(alloc, &total, &TOTAL)
}

#[test]
fn a_message_is_its_tag_its_epoch_and_its_fields(rt: HostRuntime) -> Result<(), Fail> {
    let prepare = Message::Prepare { epoch: 1 };
    let is_prepare = has_bytes(rt.alloc(), &prepare, &[5, 0, 0, 0, 0, 0, 0, 0, 1])?;
    let vote = Message::Vote {
        epoch: 1,
        yes: true,
    };
    let is_vote = has_bytes(rt.alloc(), &vote, &[6, 0, 0, 0, 0, 0, 0, 0, 1, 1])?;
    assert!(rt; is_prepare && is_vote && total_has_bytes(rt.alloc())?);
    Ok(())
}

fn ship_has_bytes(alloc: Global) -> Result<bool, NoMemory> {
    let write = Write {
        key: Key { table: 0, row: 5 },
        value: Some(Value::Int(70)),
    };
    let mut writes = Sequence::new(alloc);
    writes.push(PackedWrite::of(alloc, &write)?)?;
    let ship = Message::Ship {
        epoch: 1,
        partition: 2,
        place: 3,
        time: 4,
        writes,
    };
    has_bytes(alloc, &ship, &SHIP)
}

// Whether this is the Ship of those bytes.
fn is_ship(message: &Message) -> bool {
    match message {
        Message::Ship {
            epoch,
            partition,
            place,
            time,
            writes,
        } => (*epoch, *partition, *place, *time) == (1, 2, 3, 4) && writes.len() == 1,
        _ => false,
    }
}

#[test]
fn a_ship_is_read_as_it_was_written(rt: HostRuntime) -> Result<(), Fail> {
    let is_written = ship_has_bytes(rt.alloc())?;
    let message = read_message(rt.alloc(), &SHIP)?;
    assert!(rt; is_written && is_ship(&message));
    Ok(())
}

// Bytes that are no message, and the first place that can't stand: an unknown tag, a field that the bytes end within, a flag,
// a row and a value that there are not, places that don't rise, a byte that is left over.
const BAD: [(&str, &[u8], usize); 10] = [
    ("no byte", &[], 0),
    ("tag 0", &[0, 0, 0, 0, 0, 0, 0, 0, 1], 0),
    ("tag 12", &[12, 0, 0, 0, 0, 0, 0, 0, 1], 0),
    ("a cut epoch", &[5, 0, 0, 0, 0, 0, 0, 0], 1),
    ("a vote without a flag", &[6, 0, 0, 0, 0, 0, 0, 0, 1], 9),
    ("a vote that is neither", &[6, 0, 0, 0, 0, 0, 0, 0, 1, 2], 9),
    ("a byte more", &[5, 0, 0, 0, 0, 0, 0, 0, 1, 0], 9),
    (
        "a cut place",
        &[2, 0, 0, 0, 0, 0, 0, 0, 1, 0, 0, 0, 0, 1, 0, 0, 0],
        14,
    ),
    (
        "a place that stands twice",
        &[
            3, 0, 0, 0, 0, 0, 0, 0, 1, 0, 0, 0, 0, 2, 0, 0, 0, 7, 0, 0, 0, 7,
        ],
        18,
    ),
    (
        "a write of a text that has ended",
        &[
            1, 0, 0, 0, 0, 0, 0, 0, 1, 2, 0, 0, 0, 3, 0, 0, 0, 0, 0, 0, 0, 4, 0, 0, 0, 1, 0, 0, 0,
            0, 0, 0, 0, 0, 0, 5, 2, 0, 2, 104,
        ],
        37,
    ),
];

// Where the bytes are told to be bad.
fn bad_place(alloc: Global, bytes: &[u8]) -> Option<usize> {
    match read_message(alloc, bytes) {
        Err(MessageFault::Bad { at }) => Some(at),
        _ => None,
    }
}

#[test]
fn other_bytes_are_bad_at_their_first_field(rt: HostRuntime) -> Result<(), Fail> {
    for (name, bytes, at) in &BAD {
        let bad = bad_place(rt.alloc(), bytes);
        assert!(rt; bad == Some(*at), "{name}: {bad:?}");
    }
    Ok(())
}

#[test]
fn faults_are_readable(rt: HostRuntime) -> Result<(), Fail> {
    let said = format!(in rt.alloc();
        "{}; {}",
        MessageFault::Bad { at: 3 },
        MessageFault::NoMemory
    )?;
    assert_eq!(rt; said.as_str(), "no message: bad at byte 3; out of memory");
    Ok(())
}
