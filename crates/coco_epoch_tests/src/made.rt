//! Shards without rows, tables of copies, and requests of built-in procedures; and what Dones and pieces are compared
//! with.

ghost use Rattle.std.specs.Prelude.{◌≡◌, length, map, IfOk, IfSome};
ghost use Rattle.coco_ast.specs.Fitting.{Fits};
ghost use Rattle.coco_tail.specs.Running.{FitAll};
ghost use Rattle.coco_tail.specs.Shards.{AreOfPartitions, AreQuietAfter, AreSettled};

use coco_ast::Checked;
use coco_check::built_in;
use coco_copy::CopyTable;
use coco_shard::Shard;
use coco_types::limits::MOST_ARGUMENTS;
use coco_types::{Args, Call, Done, NoMemory, Piece, Request, Value};
use std::alloc::Global;
use std::test::Fail;

// A number of a built-in procedure, its arguments, and whether it is a snapshot call.
pub type Line<'a> = (u16, &'a [i64], bool);

// Of row 5, and of 70 into it.
pub const GET: Line<'static> = (0, &[5], false);

pub const PUT: Line<'static> = (1, &[5, 70], false);

pub fn two_shards(alloc: Global) -> Result<Vec<Shard>, NoMemory>
    ensures two { IfOk result (λ shards. length shards.items ≡ 2) }
    ensures partitions { IfOk result (λ shards. AreOfPartitions shards.items) }
    ensures settled { IfOk result (λ shards. AreSettled shards.items) }
    ensures quiet { IfOk result (λ shards. AreQuietAfter 3 shards.items) }
{
    let mut shards = Vec::with_capacity(alloc, 2)?;
    shards.push(Shard::new(alloc))?;
    shards.push(Shard::new(alloc))?;
    Ok(shards)
}

pub fn three_shards(alloc: Global) -> Result<Vec<Shard>, NoMemory>
    ensures three { IfOk result (λ shards. length shards.items ≡ 3) }
    ensures settled { IfOk result (λ shards. AreSettled shards.items) }
    ensures partitions { IfOk result (λ shards. AreOfPartitions shards.items) }
{
    let mut shards = Vec::with_capacity(alloc, 3)?;
    shards.push(Shard::new(alloc))?;
    shards.push(Shard::new(alloc))?;
    shards.push(Shard::new(alloc))?;
    Ok(shards)
}

// Two copies of three partitions.
pub fn tables(alloc: Global) -> Result<Vec<CopyTable>, NoMemory>
    ensures { IfOk result (λ tables. length tables.items ≡ 6) }
{
    let mut tables = Vec::with_capacity(alloc, 6)?;
    for _ in 0..6u8 {
        tables.push(CopyTable::new(alloc))?;
    }
    Ok(tables)
}

// Procedures, and requests that they take.
#[derive(Drop)]
pub struct Work {
    pub procs: Checked,
    pub requests: Vec<Request>,
}

// The built-in procedures, and requests of these ids with the calls of these lines.
pub fn work_of(alloc: Global, lines: &[(u64, Line<'_>)]) -> Result<Work, Fail>
    ensures ids { IfOk result (λ work. map (λ r. r.id) work.requests.items ≡ map (λ l. l.0) lines.now) }
    ensures fit { IfOk result (λ work. FitAll work.procs work.requests.items) }
{
    let procs = built_in(alloc)?;
    let requests = requests_of(alloc, &procs, lines)?;
    Ok(Work { procs, requests })
}

fn requests_of(
    alloc: Global,
    procs: &Checked,
    lines: &[(u64, Line<'_>)],
) -> Result<Vec<Request>, Fail>
    ensures ids { IfOk result (λ requests. map (λ r. r.id) requests.items ≡ map (λ l. l.0) lines.now) }
    ensures fit { IfOk result (λ requests. FitAll procs.now requests.items) }
{
    let mut requests = Vec::new(alloc);
    for line in lines {
        let call = call_of(alloc, procs, line.1)?;
        requests.push(Request { id: line.0, call })?;
    }
    Ok(requests)
}

fn call_of(alloc: Global, procs: &Checked, line: Line<'_>) -> Result<Call, Fail>
    ensures { IfOk result (λ call. Fits procs.now call) }
{
    let (proc_no, numbers, snapshot) = line;
    let args = args_of(alloc, numbers)?;
    match fitting(procs, proc_no, snapshot, args) {
        Some(call) => Ok(call),
        None => Err("no such call".into()),
    }
}

fn args_of(alloc: Global, numbers: &[i64]) -> Result<Args, NoMemory> {
    let mut args = Args::new(alloc);
    for number in numbers {
        if args.len() < MOST_ARGUMENTS {
            args.push(Some(Value::Int(*number)))?;
        }
    }
    Ok(args)
}

fn fitting(procs: &Checked, proc_no: u16, snapshot: bool, args: Args) -> Option<Call>
    ensures { IfSome result (Fits procs.now) }
{
    match (procs.params(proc_no), procs.writes(proc_no)) {
        (Some(params), Some(writes))
            if usize::from(params) == args.len() && !(snapshot && writes) => {
            Some(Call {
                proc_no,
                args,
                snapshot,
            })
        }
        _ => None,
    }
}

// Whether a Done answers this number, or none.
pub fn answers(done: &Done, number: Option<i64>) -> bool {
    match done.reply.answer() {
        Ok(value) => value.int() == number,
        Err(_) => false,
    }
}

// Whether the pieces have these places, partitions and times.
pub fn are_pieces(pieces: &[Piece], wanted: &[(u32, u8, u64)]) -> bool {
    pieces.len() == wanted.len()
        && pieces.iter().zip(wanted).all(|(piece, wanted)| (
            piece.place,
            piece.partition,
            piece.time,
        ) == *wanted)
}
