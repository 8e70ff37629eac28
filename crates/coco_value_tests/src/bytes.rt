//! Fields and values as bytes.

ghost use Rattle.std.specs.Prelude.{◌≤◌, length};

use coco_bytes::{
    FieldFault, get_bytes16, get_flag, get_i64, get_key, get_u8, get_u16, get_u32, get_u64,
    get_value, put_bytes16, put_flag, put_i64, put_key, put_u8, put_u16, put_u32, put_u64,
    put_value,
};
use coco_types::{Key, NoMemory, Text, Value};
use std::test::Fail;

// A field of each kind. Counted bytes are two.
#[derive(Clone, Copy)]
enum Field {
    Byte(u8),
    Two(u16),
    Four(u32),
    Eight(u64),
    Signed(i64),
    Counted(&'static [u8; 2]),
    Flag(bool),
    Key(Key),
    Value(Option<Value>),
}

fn put(out: &mut Vec<u8>, field: &Field) -> Result<(), NoMemory> {
    match field {
        Field::Byte(n) => put_u8(out, *n),
        Field::Two(n) => put_u16(out, *n),
        Field::Four(n) => put_u32(out, *n),
        Field::Eight(n) => put_u64(out, *n),
        Field::Signed(n) => put_i64(out, *n),
        Field::Counted(bytes) => put_bytes16(out, *bytes),
        Field::Flag(flag) => put_flag(out, *flag),
        Field::Key(key) => put_key(out, *key),
        Field::Value(value) => put_value(out, value),
    }
}

// The place behind what was read, where that is wanted.
fn place_of<T: PartialEq + Copy>(
    read: Result<(T, usize), FieldFault>,
    wanted: &T,
) -> Option<usize> {
    let (found, end) = read.ok()?;
    if found == *wanted { Some(end) } else { None }
}

fn place_of_counted(from: &[u8], at: usize, wanted: &[u8; 2]) -> Option<usize>
    requires { at ≤ length from.now }
{
    match get_bytes16(from, at, 2) {
        Ok((start, end)) if &from[start..end] == wanted.as_slice() => Some(end),
        _ => None,
    }
}

// The place behind a field, where it is read at a place.
fn behind(from: &[u8], at: usize, field: &Field) -> Option<usize>
    requires { at ≤ length from.now }
{
    match field {
        Field::Byte(n) => place_of(get_u8(from, at), n),
        Field::Two(n) => place_of(get_u16(from, at), n),
        Field::Four(n) => place_of(get_u32(from, at), n),
        Field::Eight(n) => place_of(get_u64(from, at), n),
        Field::Signed(n) => place_of(get_i64(from, at), n),
        Field::Counted(bytes) => place_of_counted(from, at, *bytes),
        Field::Flag(flag) => place_of(get_flag(from, at), flag),
        Field::Key(key) => place_of(get_key(from, at), key),
        Field::Value(value) => place_of(get_value(from, at), value),
    }
}

fn are_read(from: &[u8], fields: &[Field]) -> bool {
    let mut at = 0;
    for field in fields {
        if at > from.len() {
            return false;
        }
        match behind(from, at, field) {
            Some(end) => at = end,
            None => return false,
        }
    }
    at == from.len()
}

const BYTES: [u8; 54] = [
    7, 1, 2, 0, 0, 1, 0, 0, 0, 0, 0, 0, 0, 0, 70, 255, 255, 255, 255, 255, 255, 255, 254, 0, 2,
    104, 105, 1, 0, 0, 1, 0, 0, 0, 0, 0, 0, 0, 5, 0, 1, 255, 255, 255, 255, 255, 255, 255, 255, 2,
    0, 2, 104, 105,
];

#[test]
fn fields_have_their_highest_byte_first(rt: HostRuntime) -> Result<(), Fail> {
    let text = Text::of("hi").ok_or("too long")?;
    let fields = [
        Field::Byte(7),
        Field::Two(258),
        Field::Four(256),
        Field::Eight(70),
        Field::Signed(-2),
        Field::Counted(b"hi"),
        Field::Flag(true),
        Field::Flag(false),
        Field::Key(Key { table: 1, row: 5 }),
        Field::Value(None),
        Field::Value(Some(Value::Int(-1))),
        Field::Value(Some(Value::Text(text))),
    ];
    let mut out = Vec::new(rt.alloc());
    for field in &fields {
        put(&mut out, field)?;
    }
    assert!(rt; out.as_slice() == BYTES.as_slice() && are_read(&BYTES, &fields));
    Ok(())
}

// The kinds of fields. Counted bytes are at most two.
#[derive(Clone, Copy, Debug)]
enum Kind {
    Byte,
    Flag,
    Two,
    Four,
    Eight,
    Signed,
    Counted,
    Key,
    Value,
}

// What is wrong with a field at place 1: the bytes end within it, or there is no such one. A key's row and what stands
// behind a value's kind have places of their own.
const FAULTS: [(Kind, &[u8], FieldFault); 17] = [
    (Kind::Byte, &[9], FieldFault::Short { at: 1 }),
    (Kind::Flag, &[9], FieldFault::Short { at: 1 }),
    (Kind::Flag, &[9, 2], FieldFault::Bad { at: 1 }),
    (Kind::Two, &[9, 0], FieldFault::Short { at: 1 }),
    (Kind::Four, &[9, 0, 0, 0], FieldFault::Short { at: 1 }),
    (
        Kind::Eight,
        &[9, 0, 0, 0, 0, 0, 0, 0],
        FieldFault::Short { at: 1 },
    ),
    (
        Kind::Signed,
        &[9, 0, 0, 0, 0, 0, 0, 0],
        FieldFault::Short { at: 1 },
    ),
    (Kind::Counted, &[9, 0, 2, 104], FieldFault::Short { at: 1 }),
    (
        Kind::Counted,
        &[9, 0, 3, 104, 105, 106],
        FieldFault::Bad { at: 1 },
    ),
    (
        Kind::Key,
        &[9, 0, 1, 0, 0, 0, 0, 0, 0, 0],
        FieldFault::Short { at: 3 },
    ),
    (
        Kind::Key,
        &[9, 0, 1, 128, 0, 0, 0, 0, 0, 0, 0],
        FieldFault::Bad { at: 3 },
    ),
    (Kind::Value, &[9], FieldFault::Short { at: 1 }),
    (Kind::Value, &[9, 3], FieldFault::Bad { at: 1 }),
    (
        Kind::Value,
        &[9, 1, 0, 0, 0, 0, 0, 0, 0],
        FieldFault::Short { at: 2 },
    ),
    (Kind::Value, &[9, 2, 0, 2, 104], FieldFault::Short { at: 2 }),
    (Kind::Value, &[9, 2, 1, 1], FieldFault::Bad { at: 2 }),
    (Kind::Value, &[9, 2, 0, 1, 255], FieldFault::Bad { at: 2 }),
];

fn fault_at_one(from: &[u8], kind: Kind) -> Option<FieldFault> {
    let at = from.len().min(1);
    match kind {
        Kind::Byte => get_u8(from, at).err(),
        Kind::Flag => get_flag(from, at).err(),
        Kind::Two => get_u16(from, at).err(),
        Kind::Four => get_u32(from, at).err(),
        Kind::Eight => get_u64(from, at).err(),
        Kind::Signed => get_i64(from, at).err(),
        Kind::Counted => get_bytes16(from, at, 2).err(),
        Kind::Key => get_key(from, at).err(),
        Kind::Value => get_value(from, at).err(),
    }
}

#[test]
fn cut_and_wrong_fields_are_told_at_their_places(rt: HostRuntime) -> Result<(), Fail> {
    for (kind, from, fault) in &FAULTS {
        assert!(rt;
            fault_at_one(from, *kind) == Some(*fault),
            "{kind:?} {fault}"
        );
    }
    Ok(())
}

#[test]
fn faults_are_readable(rt: HostRuntime) -> Result<(), Fail> {
    let (short, bad) = (FieldFault::Short { at: 3 }, FieldFault::Bad { at: 4 });
    let said = format!(in rt.alloc(); "{short}; {bad}")?;
    let expected = "the bytes end within the field at 3; no such field can stand at 4";
    assert_eq!(rt; said.as_str(), expected);
    Ok(())
}
