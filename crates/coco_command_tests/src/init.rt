//! Stores that are made, texts that are refused, and each call that fails.

use coco_ending::{Ending, TextError};
use coco_host::{Host, MemoryHost};
use coco_init::init;
use coco_io::MemorySource;
use coco_types::NoMemory;
use std::alloc::Global;
use std::test::Fail;

// The command with one node and one partition, on an input of these bytes whose reads give 1,000 at most.
fn make(
    alloc: Global,
    host: &mut MemoryHost,
    bytes: Vec<u8>,
    fails: Vec<u64>,
) -> Result<(), Ending> {
    let mut input = MemorySource::new(bytes, fails);
    input.short_reads(1_000);
    init(alloc, host, &mut input, 1, 1, 0)
}

// The line of a text's ending on a new host.
fn line(alloc: Global, text: &[u8]) -> Result<String, NoMemory> {
    let mut host = MemoryHost::new(alloc, Vec::new(alloc));
    let bytes = Vec::from_slice(alloc, text)?;
    match make(alloc, &mut host, bytes, Vec::new(alloc)) {
        Ok(()) => Ok(String::new(alloc)),
        Err(ending) => Ok(ending.line(alloc)?),
    }
}

const TEXTS: [(&[u8], &str); 10] = [
    (b"", ""),
    (b"table t; proc f(a) { put t[a] = 1; reply a; }", ""),
    (b"proc f() { refuse 1 }", "unexpected at byte 20"),
    (b"proc f() { let x = 1; }", "no reply at item 1 statement 0"),
    (b"table main;", "twice at item 1 statement 0"),
    (
        b"proc f(a) { put t[a] = 1; reply a; }",
        "unknown name at item 1 statement 1",
    ),
    (
        b"proc f() { repeat 65 as i { } reply 1; }",
        "repeat bound at item 1 statement 1",
    ),
    (
        b"proc f() { reply 9223372036854775808; }",
        "wide number at byte 17",
    ),
    (b"# \xff", "utf8 at byte 2"),
    (b"\xef\xbb\xbf", "stray at byte 0"),
];

// Whether a text is refused in these words, or accepted where there are none.
fn is_answered(alloc: Global, text: &[u8], words: &str) -> Result<bool, NoMemory> {
    let line = line(alloc, text)?;
    let refusal = line.as_str().strip_prefix("coco: procedures refused: ");
    Ok(refusal.unwrap_or("").trim_end() == words)
}

#[test]
fn texts_are_accepted_or_refused(rt: HostRuntime) -> Result<(), Fail> {
    for (place, (text, words)) in TEXTS.iter().enumerate() {
        assert!(rt; is_answered(rt.alloc(), text, words)?, "text {place}");
    }
    Ok(())
}

#[test]
fn the_longest_text_is_accepted(rt: HostRuntime) -> Result<(), Fail> {
    let alloc = rt.alloc();
    for (count, fits) in [(262_144, true), (262_145, false), (300_000, false)] {
        let mut host = MemoryHost::new(alloc, Vec::new(alloc));
        let text = vec![in alloc; b' '; count]?;
        let made = if fits {
            Ok(())
        } else {
            Err(Ending::Refused(TextError::Long))
        };
        let answer = make(alloc, &mut host, text, Vec::new(alloc));
        assert!(rt; answer == made, "{count} spaces");
    }
    Ok(())
}

// The length of file 0, its sync, and ten calls of the making.
#[test]
fn each_call_that_fails_is_told(rt: HostRuntime) -> Result<(), Fail> {
    let alloc = rt.alloc();
    for call in 0..12 {
        let mut host = MemoryHost::new(alloc, vec![in alloc; call]?);
        let answer = make(alloc, &mut host, Vec::new(alloc), Vec::new(alloc));
        assert!(rt; answer == Err(Ending::DiskFault), "call {call}");
    }
    Ok(())
}

// Behind a failed read a store can be made, and only one.
#[test]
fn a_store_is_made_once(rt: HostRuntime) -> Result<(), Fail> {
    let alloc = rt.alloc();
    let mut host = MemoryHost::new(alloc, Vec::new(alloc));
    let answer = make(alloc, &mut host, Vec::new(alloc), vec![in alloc; 0]?);
    assert!(rt; answer == Err(Ending::ReadFault) && host.len(0) == Ok(0));
    let answer = make(alloc, &mut host, Vec::new(alloc), Vec::new(alloc));
    let again = make(alloc, &mut host, Vec::new(alloc), Vec::new(alloc));
    assert!(rt; answer == Ok(()) && again == Err(Ending::AlreadyThere { bytes: 39 }));
    Ok(())
}
