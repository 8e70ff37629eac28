//! Calls that are run one after another on one map.
ghost use Rattle.coco_ast.specs.Fitting.{Fits};

use crate::calls::{call_of, row_of};
use crate::say::say_reply;
use crate::texts::{accepted, out_of_memory};
use coco_ast::Checked;
use coco_serial::Executor;
use coco_types::{Call, Key, NoMemory, Reply, Value};
use std::alloc::Global;
use std::io;

/// Says of each line its call's reply and how many keys it wrote, or what a row has that it loads.
pub fn say_calls(rt: &impl Print, alloc: Global, text: &str, calls: &str) -> io::Result<()> {
    let Some(procs) = accepted(alloc, text) else {
        return println!(rt; "refused");
    };
    let mut executor = Executor::new(alloc);
    for line in calls.lines() {
        match row_of(line) {
            Some((key, value)) => say_row(rt, &mut executor, line, key, value)?,
            None => say_call(rt, alloc, &procs, &mut executor, line)?,
        }
    }
    Ok(())
}

// Loads a row, and says what it has then.
fn say_row(
    rt: &impl Print,
    executor: &mut Executor,
    line: &str,
    key: Key,
    value: Value,
) -> io::Result<()> {
    executor.load(key, value).map_err(out_of_memory)?;
    say_line(rt, line, &Reply::Ok(executor.get(key)), 0)
}

fn say_call(
    rt: &impl Print,
    alloc: Global,
    procs: &Checked,
    executor: &mut Executor,
    line: &str,
) -> io::Result<()> {
    match call_of(alloc, procs, line) {
        Ok(Some(call)) => run_call(rt, procs, executor, &call, line),
        Ok(None) => println!(rt; "no call: {line}"),
        Err(NoMemory) => Err(out_of_memory(NoMemory)),
    }
}

fn run_call(
    rt: &impl Print,
    procs: &Checked,
    executor: &mut Executor,
    call: &Call,
    line: &str,
) -> io::Result<()>
    requires { Fits procs.now call.now }
{
    let reply = executor.apply(procs, call).map_err(out_of_memory)?;
    say_line(rt, line, &reply, executor.writes().len())
}

fn say_line(rt: &impl Print, line: &str, reply: &Reply, written: usize) -> io::Result<()> {
    print!(rt; "{line} -> ")?;
    say_reply(rt, reply)?;
    println!(rt; ", {written} written")
}
