//! Texts, arguments, Dones and packed writes on their happy paths, and the texts of errors.

use crate::made::done;
use coco_types::{
    Args, Failed, Key, NoMemory, OutFault, Packed, PackedWrite, Reply, Text, Value, Write,
};
use std::alloc::Global;
use std::test::Fail;

// A start, and then a letter again and again.
fn letters(alloc: Global, start: &str, letter: &str, times: usize) -> Result<String, NoMemory> {
    let mut all = String::new(alloc);
    all.push_str(start)?;
    for _ in 0..times {
        all.push_str(letter)?;
    }
    Ok(all)
}

#[test]
fn a_text_has_up_to_256_bytes(rt: HostRuntime) -> Result<(), Fail> {
    let cases = [
        ("", "x", 0, true),
        ("", "x", 256, true),
        ("", "x", 257, false),
        ("", "é", 128, true),
        ("x", "é", 127, true),
        ("x", "é", 128, false),
        ("", "🦀", 64, true),
        ("xxx", "🦀", 63, true),
        ("xxx", "🦀", 64, false),
    ];
    for (start, letter, times, fits) in cases {
        let s = letters(rt.alloc(), start, letter, times)?;
        let is_well = match Text::of(&s) {
            Some(text) => fits && text.as_str() == s.as_str() && text.as_bytes() == s.as_bytes(),
            None => !fits,
        };
        assert!(rt; is_well, "{letter} {times} times");
    }
    Ok(())
}

#[test]
fn sixteen_arguments_stand_in_order(rt: HostRuntime) -> Result<(), Fail> {
    let text = Text::of("seven").ok_or("too long")?;
    let kinds = [Some(Value::Int(i64::MIN)), None, Some(Value::Text(text))];
    let mut args = Args::new(rt.alloc());
    for place in 0..16 {
        assert!(rt; args.len() == place && args.is_empty() == (place == 0));
        args.push(kinds[place % 3])?;
    }
    let copy = args.try_clone()?;
    for place in 0..16 {
        let is_value = copy.get(place) == Some(kinds[place % 3]);
        assert!(rt; is_value && copy.int(place) == [Some(i64::MIN), None, None][place % 3]);
    }
    assert!(rt; copy == args && copy.get(16).is_none() && copy.int(16).is_none());
    Ok(())
}

#[test]
fn a_copied_done_is_equal_and_a_changed_one_is_not(rt: HostRuntime) -> Result<(), Fail> {
    let stored = Reply::Ok(Some(Value::Int(70)));
    let original = done(rt.alloc(), 1, 2, 3, &stored)?;
    let cases = [
        (1, 2, 3, stored, true),
        (4, 2, 3, stored, false),
        (1, 3, 3, stored, false),
        (1, 2, 2, stored, false),
        (1, 2, 3, Reply::Ok(None), false),
    ];
    for (id, epoch, time, reply, is_equal) in cases {
        let other = done(rt.alloc(), id, epoch, time, &reply)?.try_clone()?;
        assert!(rt; (other == original) == is_equal);
    }
    Ok(())
}

// Whether a packed write gives back the write, and so do its copy and its parts.
fn is_write(packed: PackedWrite, write: &Write) -> Result<bool, NoMemory> {
    let is_given = packed.get() == *write && packed.key() == write.key;
    let value = packed.value().try_clone()?;
    let is_valued = value.get() == write.value
        && PackedWrite::new(packed.key(), value).get() == *write;
    let is_copied = packed.try_clone()?.get() == *write;
    let (key, value) = packed.into_parts();
    let is_some = value.is_some() == write.value.is_some();
    Ok(
        is_given
            && is_valued
            && is_copied
            && is_some
            && PackedWrite::new(key, value).get() == *write,
    )
}

#[test]
fn a_packed_write_is_the_write(rt: HostRuntime) -> Result<(), Fail> {
    let text = Text::of("seven").ok_or("too long")?;
    let key = Key { table: 1, row: 7 };
    for value in [None, Some(Value::Int(-7)), Some(Value::Text(text))] {
        let write = Write { key, value };
        let packed = PackedWrite::of(rt.alloc(), &write)?;
        assert!(rt; is_write(packed, &write)?);
    }
    assert!(rt; Packed::none().get().is_none());
    Ok(())
}

#[test]
fn errors_and_texts_are_readable(rt: HostRuntime) -> Result<(), Fail> {
    let text = Text::of("a \"b\"").ok_or("too long")?;
    let said = format!(in rt.alloc();
        "{Failed}, {NoMemory}, {}, {}, {text:?}",
        OutFault::Failed,
        OutFault::NoMemory
    )?;
    let expected =
        "a read or a write failed, out of memory, a write failed, out of memory, \"a \\\"b\\\"\"";
    assert_eq!(rt; said.as_str(), expected);
    Ok(())
}
