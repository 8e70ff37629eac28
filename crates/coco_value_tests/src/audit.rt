//! Dumps and verdicts, line by line.

ghost use Rattle.std.specs.Prelude.{IfOk, OnOk};
ghost use Rattle.coco_ast.specs.Fitting.{Fits};
ghost use Rattle.coco_audit.specs.Differing.{AllFit};

use coco_ast::Checked;
use coco_audit::{
    Dump, NotSerial, PIECE_BYTES, verify_of, write_dump_done, write_dump_row, write_not_serial,
    write_serial,
};
use coco_check::built_in;
use coco_kept::{Found, Kept};
use coco_lines::{LineError, RequestFault, Scratch, request};
use coco_load::{PackedRows, packed_rows};
use coco_shard::Shard;
use coco_types::{Cause, Done, KeptReply, Key, MapRows, NoMemory, Reply, Text, Value};
use std::alloc::Global;
use std::test::Fail;

// A table, a row and a number.
type Row = (u16, u32, i64);

// The number that a call answers, or why it is refused.
type Answer = Result<i64, Cause>;

// The Done of a request line of the built-in procedures.
fn done_of(
    alloc: Global,
    procs: &Checked,
    line: &str,
    epoch: u64,
    time: u64,
    reply: &Reply,
) -> Result<Done, RequestFault>
    ensures { IfOk result (λ done. Fits procs.now done.call) }
{
    let request = request(alloc, &mut Scratch::new(alloc), procs, line.as_bytes())?;
    let reply = KeptReply::of(alloc, reply)?;
    Ok(Done {
        id: request.id,
        call: request.call,
        epoch,
        time,
        reply,
    })
}

fn put_done(
    out: &mut Vec<u8>,
    procs: &Checked,
    line: &str,
    epoch: u64,
    time: u64,
    reply: &Reply,
) -> Result<(), RequestFault> {
    let done = done_of(*out.allocator(), procs, line, epoch, time, reply)?;
    write_dump_done(out, procs, &done)?;
    Ok(())
}

fn put_lines(out: &mut Vec<u8>, procs: &Checked, text: Value) -> Result<(), RequestFault> {
    let put = r#"{"args":[-1,null],"call":"put","id":3}"#;
    put_done(out, procs, put, 1, 2, &Reply::Refused(Cause::User(3)))?;
    let put = r#"{"args":[2,"a\"b\\\n"],"call":"put","id":5}"#;
    put_done(out, procs, put, 1, 4, &Reply::Ok(Some(text)))?;
    let get = r#"{"args":[9],"call":"get","id":18446744073709551615,"snapshot":true}"#;
    put_done(out, procs, get, 3, 0, &Reply::Ok(None))?;
    write_dump_row(out, procs, Key { table: 0, row: 2 }, &text)?;
    Ok(())
}

#[test]
fn dones_and_rows_are_said_by_their_members(rt: HostRuntime) -> Result<(), Fail> {
    let Some(text) = Text::of("a\"b\\\n") else {
        return Err(Fail::new("too long"));
    };
    let procs = built_in(rt.alloc())?;
    let mut said = Vec::new(rt.alloc());
    put_lines(&mut said, &procs, Value::Text(text))?;
    let lines =
        r#"{"args":[-1,null],"call":"put","epoch":1,"id":3,"refused":"user 3","snapshot":false,"time":2}
{"args":[2,"a\"b\\\n"],"call":"put","epoch":1,"id":5,"ok":"a\"b\\\n","snapshot":false,"time":4}
{"args":[9],"call":"get","epoch":3,"id":18446744073709551615,"ok":null,"snapshot":true,"time":0}
{"row":2,"table":"main","value":"a\"b\\\n"}
"#;
    assert!(rt; said.as_slice() == lines.as_bytes());
    Ok(())
}

// Keeps one more Done. One that is known already, or of an epoch that is too low, is refused.
fn keep(procs: &Checked, kept: &mut Kept, done: Done) -> Result<(), RequestFault>
    requires fits { Fits procs.now done.call }
    requires all { AllFit procs.now kept.old.dones }
    ensures { OnOk result (AllFit procs.now kept.new.dones) }
{
    kept.reserve(&[done.id])?;
    if kept.find(done.id, &done.call) != Found::New || done.epoch < kept.newest_epoch() {
        return Err(RequestFault::Line(LineError::Reused));
    }
    kept.add(done);
    Ok(())
}

fn reply(answer: Answer) -> Reply {
    match answer {
        Ok(number) => Reply::Ok(Some(Value::Int(number))),
        Err(cause) => Reply::Refused(cause),
    }
}

// A put and a get in the next epoch, with these replies.
fn kept_of(alloc: Global, procs: &Checked, put: &Reply, get: &Reply) -> Result<Kept, RequestFault>
    ensures { IfOk result (λ kept. AllFit procs.now kept.dones) }
{
    let mut kept = Kept::new(alloc, None, None);
    let line = r#"{"args":[5,70],"call":"put","id":1}"#;
    let put = done_of(alloc, procs, line, 1, 1, put)?;
    keep(procs, &mut kept, put)?;
    let line = r#"{"args":[5],"call":"get","id":2}"#;
    let get = done_of(alloc, procs, line, 2, 1, get)?;
    keep(procs, &mut kept, get)?;
    Ok(kept)
}

fn rows_of(alloc: Global, rows: &[Row]) -> Result<MapRows, NoMemory> {
    let mut list = MapRows::new(alloc);
    for (table, row, number) in rows {
        let key = Key {
            table: *table,
            row: u64::from(*row),
        };
        list.push((key, Value::Int(*number)))?;
    }
    Ok(list)
}

fn lists_of(alloc: Global, lists: &[&[Row]]) -> Result<Vec<MapRows>, NoMemory> {
    let mut rows = Vec::new(alloc);
    for list in lists {
        rows.push(rows_of(alloc, list)?)?;
    }
    Ok(rows)
}

// The lists as a store keeps them.
fn packed(alloc: Global, lists: Vec<MapRows>) -> Result<Vec<PackedRows>, NoMemory> {
    let mut packed = Vec::new(alloc);
    for rows in lists {
        packed.push(packed_rows(alloc, rows)?)?;
    }
    Ok(packed)
}

// How many partitions the rows of a dump are in.
const PARTITIONS: u32 = 3;

// A shard with those of the rows that are of this partition.
fn shard_of(alloc: Global, partition: u32, rows: &[Row]) -> Result<Shard, NoMemory> {
    let mut shard = Shard::new(alloc);
    for (table, row, number) in rows {
        let key = Key {
            table: *table,
            row: u64::from(*row),
        };
        if *row % PARTITIONS == partition {
            shard.load(key, Some(Value::Int(*number)))?;
        }
    }
    Ok(shard)
}

fn shards_of(alloc: Global, rows: &[Row]) -> Result<Vec<Shard>, NoMemory> {
    let mut shards = Vec::new(alloc);
    for partition in 0..PARTITIONS {
        shards.push(shard_of(alloc, partition, rows)?)?;
    }
    Ok(shards)
}

// The first four pieces of a dump.
fn pieces_of(alloc: Global, mut dump: Dump<'_>) -> Result<Vec<Vec<u8>>, NoMemory> {
    let mut pieces = Vec::new(alloc);
    for _ in 0..4 {
        let mut piece = Vec::new(alloc);
        dump.next(&mut piece)?;
        pieces.push(piece)?;
    }
    Ok(pieces)
}

fn dump_with(
    alloc: Global,
    procs: &Checked,
    answer: &Reply,
    shards: &[Shard],
) -> Result<Vec<Vec<u8>>, RequestFault> {
    let kept = kept_of(alloc, procs, answer, answer)?;
    let dump = Dump::new(alloc, procs, &kept, shards)?;
    Ok(pieces_of(alloc, dump)?)
}

// The first pieces of the dump of a put and a get that answered 70, and of these rows.
fn dump(alloc: Global, rows: &[Row]) -> Result<Vec<Vec<u8>>, RequestFault> {
    let procs = built_in(alloc)?;
    let shards = shards_of(alloc, rows)?;
    dump_with(alloc, &procs, &reply(Ok(70)), shards.as_slice())
}

#[test]
fn dones_are_said_in_order_and_then_rows(rt: HostRuntime) -> Result<(), Fail> {
    let rows: [Row; 5] = [(1, 4, -6), (0, 7, 7), (0, 5, 70), (1, 1, 990), (0, 11, 0)];
    let pieces = dump(rt.alloc(), &rows)?;
    let lines = r#"{"args":[5,70],"call":"put","epoch":1,"id":1,"ok":70,"snapshot":false,"time":1}
{"args":[5],"call":"get","epoch":2,"id":2,"ok":70,"snapshot":false,"time":1}
{"row":5,"table":"main","value":70}
{"row":7,"table":"main","value":7}
{"row":11,"table":"main","value":0}
{"row":1,"table":"","value":990}
{"row":4,"table":"","value":-6}
"#;
    let said = pieces.first().map(|piece| piece.as_slice());
    assert!(rt; said == Some(lines.as_bytes()));
    assert!(rt; pieces.iter().skip(1).all(|piece| piece.is_empty()));
    Ok(())
}

// So many rows of the first table.
fn many_rows(alloc: Global, count: u32) -> Result<Vec<Row>, NoMemory> {
    let mut rows = Vec::new(alloc);
    for row in 0..count {
        rows.push((0, row, -1))?;
    }
    Ok(rows)
}

#[test]
fn a_dump_comes_in_whole_lines(rt: HostRuntime) -> Result<(), Fail> {
    let rows = many_rows(rt.alloc(), 3000)?;
    let pieces = dump(rt.alloc(), rows.as_slice())?;
    let mut lengths = Vec::new(rt.alloc());
    for piece in &pieces {
        assert!(rt; matches!(piece.last(), None | Some(b'\n')));
        lengths.push(piece.len())?;
    }
    assert!(rt; lengths.as_slice() == [65_542, 50_505, 0, 0].as_slice());
    assert!(rt; PIECE_BYTES <= 65_542);
    Ok(())
}

// The line that says what was found among so many replies.
fn line_of(alloc: Global, found: Option<NotSerial>, count: u64) -> Result<Vec<u8>, NoMemory> {
    let mut line = Vec::new(alloc);
    match found {
        Some(found) => write_not_serial(&mut line, &found)?,
        None => write_serial(&mut line, count)?,
    }
    Ok(line)
}

fn verdict_with(
    alloc: Global,
    procs: &Checked,
    base: Vec<MapRows>,
    put: &Reply,
    get: &Reply,
    first: u64,
) -> Result<Vec<u8>, RequestFault> {
    let kept = kept_of(alloc, procs, put, get)?;
    let base = packed(alloc, base)?;
    let found = verify_of(alloc, procs, base.as_slice(), &kept, first)?;
    Ok(line_of(alloc, found, kept.len().saturating_sub(first))?)
}

// The verdict on a put and a get with these replies, from a place on, as a line.
fn verdict(
    alloc: Global,
    base: &[&[Row]],
    put: Answer,
    get: Answer,
    first: u64,
) -> Result<Vec<u8>, RequestFault> {
    let procs = built_in(alloc)?;
    let base = lists_of(alloc, base)?;
    let (put, get) = (reply(put), reply(get));
    verdict_with(alloc, &procs, base, &put, &get, first)
}

#[test]
fn the_first_unlike_reply_is_told(rt: HostRuntime) -> Result<(), Fail> {
    let stored: &[&[Row]] = &[&[(0, 5, 70)]];
    let in_lists: &[&[Row]] = &[&[(0, 5, 1), (0, 6, 2)], &[], &[(0, 5, 70)]];
    let cases: [(&[&[Row]], Answer, Answer, u64, &str); 7] = [
        (&[], Ok(70), Ok(70), 0, "serial 2\n"),
        (
            &[],
            Ok(70),
            Ok(71),
            0,
            "{\"computed\":{\"ok\":70},\"id\":2,\"kept\":{\"ok\":71},\"place\":2}\n",
        ),
        (
            &[],
            Err(Cause::Kind),
            Ok(71),
            0,
            "{\"computed\":{\"ok\":70},\"id\":1,\"kept\":{\"refused\":\"kind\"},\"place\":1}\n",
        ),
        (
            &[],
            Ok(70),
            Ok(70),
            1,
            "{\"computed\":{\"ok\":null},\"id\":2,\"kept\":{\"ok\":70},\"place\":1}\n",
        ),
        (stored, Ok(70), Ok(70), 1, "serial 1\n"),
        (in_lists, Ok(70), Ok(70), 1, "serial 1\n"),
        (stored, Ok(70), Ok(70), 3, "serial 0\n"),
    ];
    for (base, put, get, first, line) in cases {
        let said = verdict(rt.alloc(), base, put, get, first)?;
        assert!(rt; said.as_slice() == line.as_bytes(), "{line}");
    }
    Ok(())
}
