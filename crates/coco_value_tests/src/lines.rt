//! Lines, their requests, and the texts of answers.

ghost use Rattle.std.specs.Prelude.{◌<◌};

use crate::made::done;
use coco_check::built_in;
use coco_io::{MemorySource, Source};
use coco_lines::{
    Body, Line, LineError, LineFault, Reader, RequestFault, Scratch, asked_request, done_text,
    error_text, request, write_done, write_error,
};
use coco_types::{Args, Call, Cause, NoMemory, Reply, Request, Text, Value};
use std::alloc::Global;
use std::test::Fail;

// The first word of each row is the class of the line behind it.
const CLASSES: &str = r#"json 
json {
json {} {}
json {"args":["\ud800"],"call":"get","id":1}
json {"args":[1e999],"call":"get","id":1}
shape []
shape {}
shape {"args":[5],"call":"get"}
shape {"args":[5],"id":1}
shape {"call":"get","id":1}
shape {"args":5,"call":"get","id":1}
shape {"args":[5],"call":"get","id":-1}
shape {"args":[5],"call":"get","id":-0}
shape {"args":[5],"call":"get","id":1.0}
shape {"args":[5],"call":"get","id":1e3}
shape {"args":[5],"call":"get","id":18446744073709551616}
shape {"args":[5],"call":"get","id":1,"snapshot":null}
shape {"args":[5],"call":"get","id":1,"more":1}
name {"args":[],"call":"got","id":1}
args {"args":[],"call":"get","id":1}
args {"args":[true],"call":"get","id":1}
args {"args":[1.0],"call":"get","id":1}
args {"args":[9223372036854775808],"call":"get","id":1}
args {"args":[1],"call":"put","id":1,"snapshot":true}
snapshot {"args":[1,2],"call":"add","id":1,"snapshot":true}
request {"args":[1],"call":"get","id":1,"snapshot":true}
request {"args":[1],"call":"get","id":"x","id":1}
request {"args":["\ud83d\ude00"],"call":"get","id":18446744073709551615}
request  {"id":1, "call":"put", "args":[-9223372036854775808,null]} 
json {"args":[5],"call":"get","id":1}x
json {"args":["\ude00"],"call":"get","id":1}
json {"args":["\ud83d\u0061"],"call":"get","id":1}
json {"args":["\x61"],"call":"get","id":1}
json {"args":["\u00"],"call":"get","id":1}
json {"args":[05],"call":"get","id":1}
shape {"args":[5],"call":"get","id":null}
shape {"args":[5],"call":"get","id":"1"}
shape {"args":[5],"call":7,"id":1}
shape {"args":[5],"call":"get","id":1,"snapshot":1}
shape {"args":[5],"call":"get","id":1,"Snapshot":true}
shape {"args":[5],"call":"get","id":1,"id":"x"}
name {"args":[5],"call":"","id":1}
name {"args":[5],"call":"get","call":"Get","id":1}
args {"args":[5],"args":[],"call":"get","id":1}
args {"args":[1,2,3],"call":"add","id":1}
args {"args":[-0],"call":"get","id":1}
args {"args":[-9223372036854775809],"call":"get","id":1}
args {"args":[[5]],"call":"get","id":1}
request {"args":[],"args":[5],"call":"got","call":"get","id":1}
request {"\u0061rgs":[9223372036854775807],"call":"\u0067et","id":0}
request {"args":["\"\\\/\b\f\n\r\t\u0000"],"call":"get","id":1}
args {"args":[1e3],"call":"get","id":1}
args {"args":[18446744073709551615],"call":"get","id":1}
args {"args":[18446744073709551616],"call":"get","id":1}
shape {"args":[5],"call":"get","id":-9223372036854775808}
request {"args":[5],"call":"get","id":9223372036854775808}
shape {"args":[5],"call":"get","id":1,"snapshot":false,"snapshot":0}
"#;

// The request of a line by the built-in procedures.
fn request_of(alloc: Global, line: &[u8]) -> Result<Request, RequestFault> {
    let procs = built_in(alloc)?;
    request(alloc, &mut Scratch::new(alloc), &procs, line)
}

fn word_of(error: LineError) -> &'static str {
    match error {
        LineError::Json => "json",
        LineError::Shape => "shape",
        LineError::Name => "name",
        LineError::Args => "args",
        LineError::Snapshot => "snapshot",
        _ => "another",
    }
}

// Whether a line falls into the class of this word.
fn is_in_class(alloc: Global, line: &[u8], word: &str) -> Result<bool, NoMemory> {
    match request_of(alloc, line) {
        Ok(_) => Ok(word == "request"),
        Err(RequestFault::Line(error)) => Ok(word == word_of(error)),
        Err(RequestFault::NoMemory) => Err(NoMemory),
    }
}

// Whether the line behind the first word of a row is of the class of this word.
fn is_in_its_class(alloc: Global, row: &str) -> Result<bool, NoMemory> {
    match row.split_once(' ') {
        Some((word, line)) => is_in_class(alloc, line.as_bytes(), word),
        None => Ok(false),
    }
}

#[test]
fn lines_fall_into_the_first_class_that_fits(rt: HostRuntime) -> Result<(), Fail> {
    for row in CLASSES.lines() {
        assert!(rt; is_in_its_class(rt.alloc(), row)?, "{row}");
    }
    for line in [
        b"\xff".as_slice(),
        b"\"\xc3\"",
        b"[\xed\xa0\x80]",
        b"\xef\xbb\xbf{}",
        b"\0",
        b"\"a\tb\"",
    ] {
        assert!(rt; is_in_class(rt.alloc(), line, "json")?);
    }
    Ok(())
}

// A piece again and again, between a start and an end.
fn repeated(
    alloc: Global,
    start: &str,
    piece: &str,
    count: usize,
    end: &str,
) -> Result<Vec<u8>, NoMemory> {
    let mut line = Vec::from_slice(alloc, start.as_bytes())?;
    for _ in 0..count {
        line.extend_from_slice(piece.as_bytes())?;
    }
    line.extend_from_slice(end.as_bytes())?;
    Ok(line)
}

// Whether a line with a piece so many times is of the class of this word.
fn is_repeated(
    alloc: Global,
    start: &str,
    piece: &str,
    count: usize,
    end: &str,
    word: &str,
) -> Result<bool, NoMemory> {
    let line = repeated(alloc, start, piece, count, end)?;
    is_in_class(alloc, line.as_slice(), word)
}

fn are_texts_limited(alloc: Global) -> Result<bool, NoMemory> {
    let start = r#"{"call":"get","id":1,"args":["x"#;
    let end = r#""]}"#;
    Ok(
        is_repeated(alloc, start, "x", 255, end, "request")?
            && is_repeated(alloc, start, "x", 256, end, "args")?,
    )
}

fn are_lists_limited(alloc: Global) -> Result<bool, NoMemory> {
    let start = r#"{"call":"get","id":1,"args":"#;
    let list = r#"{"call":"get","id":1,"args":["#;
    Ok(
        is_repeated(alloc, "", "[", 127, "", "json")?
            && is_repeated(alloc, start, "[", 200, "", "json")?
            && is_repeated(alloc, list, "1,", 100, "1]}", "args")?,
    )
}

#[test]
fn texts_have_256_bytes_and_lists_127_levels(rt: HostRuntime) -> Result<(), Fail> {
    assert!(rt; are_texts_limited(rt.alloc())?);
    assert!(rt; are_lists_limited(rt.alloc())?);
    Ok(())
}

// A call of `put` with the least number and none.
fn least_put(alloc: Global) -> Result<Call, NoMemory> {
    let mut args = Args::new(alloc);
    args.push(Some(Value::Int(i64::MIN)))?;
    args.push(None)?;
    Ok(Call {
        proc_no: 1,
        args,
        snapshot: false,
    })
}

#[test]
fn a_line_asks_for_its_request(rt: HostRuntime) -> Result<(), Fail> {
    let line =
        r#"{"args":[-9223372036854775808,null],"call":"get","c\u0061ll":"\u0070ut","id":4,"id":18446744073709551615}"#;
    let call = least_put(rt.alloc())?;
    let request = request_of(rt.alloc(), line.as_bytes());
    assert!(rt; request == Ok(Request { id: u64::MAX, call }));
    Ok(())
}

#[test]
fn a_snapshot_call_of_any_procedure_may_be_asked_for(rt: HostRuntime) -> Result<(), Fail> {
    let procs = built_in(rt.alloc())?;
    let line = br#"{"args":[1,2],"call":"put","id":7,"snapshot":true}"#;
    let asked = asked_request(rt.alloc(), &mut Scratch::new(rt.alloc()), &procs, line);
    assert!(rt; asked.is_ok_and(|request| request.call.snapshot && request.call.proc_no == 1));
    Ok(())
}

fn put_said(out: &mut Vec<u8>, reply: &Reply) -> Result<(), NoMemory> {
    let alloc = *out.allocator();
    let said = done_text(alloc, &done(alloc, 2, 1, 3, reply)?)?;
    out.extend_from_slice(said.as_slice())?;
    Ok(())
}

fn put_answered(out: &mut Vec<u8>, text: Text) -> Result<(), NoMemory> {
    put_said(out, &Reply::Ok(Some(Value::Int(-5))))?;
    put_said(out, &Reply::Ok(None))?;
    put_said(out, &Reply::Ok(Some(Value::Text(text))))
}

fn put_refused(out: &mut Vec<u8>) -> Result<(), NoMemory> {
    for cause in [
        Cause::User(2),
        Cause::Overflow,
        Cause::ZeroDivide,
        Cause::Kind,
        Cause::BadRow,
    ] {
        put_said(out, &Reply::Refused(cause))?;
    }
    Ok(())
}

#[test]
fn a_done_is_said_as_compact_json(rt: HostRuntime) -> Result<(), Fail> {
    let Some(text) = Text::of("a\"\\\n\u{1}é") else {
        return Err(Fail::new("too long"));
    };
    let mut out = Vec::new(rt.alloc());
    put_answered(&mut out, text)?;
    put_refused(&mut out)?;
    let lines = r#"{"epoch":1,"id":2,"ok":-5,"time":3}
{"epoch":1,"id":2,"ok":null,"time":3}
{"epoch":1,"id":2,"ok":"a\"\\\n\u0001é","time":3}
{"epoch":1,"id":2,"refused":"user 2","time":3}
{"epoch":1,"id":2,"refused":"overflow","time":3}
{"epoch":1,"id":2,"refused":"zero divide","time":3}
{"epoch":1,"id":2,"refused":"kind","time":3}
{"epoch":1,"id":2,"refused":"bad row","time":3}
"#;
    assert!(rt; out.as_slice() == lines.as_bytes());
    Ok(())
}

fn put_errors(out: &mut Vec<u8>) -> Result<(), NoMemory> {
    for (error, number) in [
        (LineError::Json, 2),
        (LineError::Shape, 3),
        (LineError::Name, 4),
        (LineError::Args, 5),
        (LineError::Snapshot, 6),
        (LineError::Reused, 7),
        (LineError::Full, 8),
        (LineError::Old, u64::MAX),
    ] {
        write_error(out, error, number)?;
    }
    Ok(())
}

fn put_done(out: &mut Vec<u8>, time: u64, reply: &Reply) -> Result<(), NoMemory> {
    let done = done(*out.allocator(), 2, 1, time, reply)?;
    write_done(out, &done)
}

#[test]
fn texts_stand_one_behind_the_other(rt: HostRuntime) -> Result<(), Fail> {
    let mut out = error_text(rt.alloc(), LineError::Long, 1)?;
    put_errors(&mut out)?;
    put_done(&mut out, 0, &Reply::Ok(None))?;
    let all = r#"{"error":"long","line":1}
{"error":"json","line":2}
{"error":"shape","line":3}
{"error":"name","line":4}
{"error":"args","line":5}
{"error":"snapshot","line":6}
{"error":"reused","line":7}
{"error":"full","line":8}
{"error":"old","line":18446744073709551615}
{"epoch":1,"id":2,"ok":null,"time":0}
"#;
    assert!(rt; out.as_slice() == all.as_bytes());
    Ok(())
}

// Puts a line with a bar behind it, a long one as `L`.
fn put_line(out: &mut Vec<u8>, line: &Line) -> Result<(), NoMemory> {
    match &line.body {
        Body::Whole(bytes) => out.extend_from_slice(bytes.as_slice())?,
        Body::Long => out.push(b'L')?,
    }
    out.push(b'|')?;
    Ok(())
}

// Puts the lines of a source up to its end, which has to come before the hundredth.
fn put_lines<S: Source>(
    out: &mut Vec<u8>,
    reader: &mut Reader,
    source: &mut S,
) -> Result<(), LineFault> {
    for _ in 0..100 {
        let Some(line) = reader.next(source)? else {
            return Ok(());
        };
        put_line(out, &line)?;
    }
    Err(LineFault::TooMuch)
}

// What a reader gives; behind the lines a full stop stands for the end, and `!` for a read fault.
fn given<S: Source>(alloc: Global, source: &mut S) -> Result<Vec<u8>, NoMemory> {
    let mut out = Vec::new(alloc);
    let end = match put_lines(&mut out, &mut Reader::new(alloc), source) {
        Ok(()) => b'.',
        Err(LineFault::Failed) => b'!',
        Err(LineFault::TooMuch) => b'?',
        Err(LineFault::NoMemory) => return Err(NoMemory),
    };
    out.push(end)?;
    Ok(out)
}

// Whether these are the lines of a text whose reads give at most so many bytes, and of which these fail.
fn are_lines(
    alloc: Global,
    text: &[u8],
    most: usize,
    fails: &[u64],
    lines: &[u8],
) -> Result<bool, NoMemory>
    requires { 0 < most }
{
    let text = Vec::from_slice(alloc, text)?;
    let mut source = MemorySource::new(text, Vec::from_slice(alloc, fails)?);
    source.short_reads(most);
    Ok(given(alloc, &mut source)?.as_slice() == lines)
}

#[test]
fn lines_end_before_a_line_feed_or_at_the_end(rt: HostRuntime) -> Result<(), Fail> {
    let cases: [(&str, &str); 7] = [
        ("", "."),
        ("\n", "|."),
        ("a", "a|."),
        ("a\n", "a|."),
        ("a\nbc", "a|bc|."),
        ("\n\na\r\n", "||a\r|."),
        ("a\nbc\n\nd", "a|bc||d|."),
    ];
    for (text, lines) in cases {
        for most in [1usize, 2, 3, 100] {
            assert!(rt; are_lines(rt.alloc(), text.as_bytes(), most, &[], lines.as_bytes())?);
        }
    }
    Ok(())
}

#[test]
fn whole_lines_are_given_before_a_read_fault(rt: HostRuntime) -> Result<(), Fail> {
    for (call, lines) in [
        (0, "!"),
        (1, "!"),
        (2, "a|!"),
        (3, "a|!"),
        (4, "a|b|!"),
        (5, "a|b|."),
    ] {
        assert!(rt;
            are_lines(rt.alloc(), b"a\nb\n", 1, &[call], lines.as_bytes())?,
            "{call}"
        );
    }
    Ok(())
}

#[test]
fn a_line_of_more_than_65536_bytes_is_long(rt: HostRuntime) -> Result<(), Fail> {
    // The bytes of the first line, how many a read gives, and then what is given: so many bytes, and an end.
    let cases = [
        (65_537, usize::MAX, 0, "L|a|."),
        (200_000, 1_000, 0, "L|a|."),
        (65_536, usize::MAX, 65_536, "|a|."),
    ];
    for (count, most, given, end) in cases {
        let text = repeated(rt.alloc(), "", "x", count, "\na")?;
        let lines = repeated(rt.alloc(), "", "x", given, end)?;
        let are_lines = are_lines(rt.alloc(), text.as_slice(), most, &[], lines.as_slice())?;
        assert!(rt; are_lines, "{count}");
    }
    Ok(())
}
