//! Calls and rows from lines of words.
ghost use Rattle.std.specs.Prelude.{IfOk, IfSome};
ghost use Rattle.std.specs.List.{All};
ghost use Rattle.coco_ast.specs.Fitting.{Fits};

use coco_ast::Checked;
use coco_types::limits::MOST_ARGUMENTS;
use coco_types::{Args, Call, Key, NoMemory, Request, Text, Value};
use std::alloc::Global;

/// The requests of calls that stand between semicolons, with ids from 1 on. None where one fits no procedure.
pub fn requests_of(
    alloc: Global,
    procs: &Checked,
    calls: &str,
) -> Result<Option<Vec<Request>>, NoMemory>
    ensures { IfOk result (λ found. IfSome found (λ requests. All (λ r. Fits procs.now r.call) requests.items)) }
{
    let mut requests = Vec::new(alloc);
    let mut id: u64 = 0;
    for words in calls.split(';') {
        if words.trim().is_empty() {
            continue;
        }
        let Some(call) = call_of(alloc, procs, words)? else {
            return Ok(None);
        };
        id = id.saturating_add(1);
        requests.push(Request { id, call })?;
    }
    Ok(Some(requests))
}

/// The call of a procedure's name and its arguments; behind the word `past` a snapshot call. None where it fits none.
pub fn call_of(alloc: Global, procs: &Checked, line: &str) -> Result<Option<Call>, NoMemory>
    ensures { IfOk result (λ call. IfSome call (Fits procs.now)) }
{
    let line = line.trim();
    let (snapshot, line) = match line.strip_prefix("past ") {
        Some(rest) => (true, rest),
        None => (false, line),
    };
    let mut words = line.split_whitespace();
    let Some(name) = words.next() else {
        return Ok(None);
    };
    let Some(proc_no) = procs.proc_no(name) else {
        return Ok(None);
    };
    let mut args = Args::new(alloc);
    for word in words {
        if args.len() >= MOST_ARGUMENTS {
            return Ok(None);
        }
        args.push(value_of(word))?;
    }
    Ok(fitting(procs, proc_no, snapshot, args))
}

fn fitting(procs: &Checked, proc_no: u16, snapshot: bool, args: Args) -> Option<Call>
    ensures { IfSome result (Fits procs.now) }
{
    let count = args.len();
    let call = Call {
        proc_no,
        snapshot,
        args,
    };
    let params = procs.params(proc_no)?;
    let writes = procs.writes(proc_no)?;
    if usize::from(params) == count && !(snapshot && writes) {
        Some(call)
    } else {
        None
    }
}

/// The row that a line loads: the word `load`, a table's number, a row's and a value. None for any other line.
pub fn row_of(line: &str) -> Option<(Key, Value)> {
    let mut words = line.split_whitespace();
    if words.next()? != "load" {
        return None;
    }
    let table = words.next()?.parse::<u16>().ok()?;
    let row = words.next()?.parse::<i64>().ok()?;
    let row = u64::try_from(row).ok()?;
    let value = value_of(words.next()?)?;
    Some((Key { table, row }, value))
}

// A whole number, a text behind a quote, or none for any other word.
fn value_of(word: &str) -> Option<Value> {
    if let Some(text) = word.strip_prefix("'") {
        return Text::of(text).map(Value::Text);
    }
    match word.parse::<i64>() {
        Ok(number) => Some(Value::Int(number)),
        Err(_) => None,
    }
}
