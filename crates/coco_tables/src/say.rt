//! Steps, ends and replies as text.
use coco_ast::Checked;
use coco_occ::{Move, Step, Why};
use coco_shard::{Answer, Op};
use coco_types::{Cause, Key, Reply, Value};
use std::io;

/// Prints a step: whose it is, what was asked of which shard, and what was answered.
pub fn say_step(rt: &impl Print, procs: &Checked, who: u32, step: &Step) -> io::Result<()> {
    print!(rt; "{who} {} ", verb_of(&step.ask.op))?;
    say_key(rt, procs, step.ask.op.key())?;
    say_rest(rt, &step.ask.op)?;
    print!(rt; " (shard {}): ", step.shard)?;
    say_answer(rt, &step.answer)
}

fn verb_of(op: &Op) -> &'static str {
    match op {
        Op::Read(_) => "reads",
        Op::Lock(_) => "locks",
        Op::Extend { .. } => "extends",
        Op::Install { .. } => "installs",
        Op::Release(_) => "releases",
        Op::Past(_) => "looks back at",
    }
}

// What stands behind the key.
fn say_rest(rt: &impl Print, op: &Op) -> io::Result<()> {
    match op {
        Op::Extend { wts, time, .. } => print!(rt; " of time {wts} to {time}"),
        Op::Install { time, value, .. } => {
            print!(rt; " = ")?;
            say_value(rt, value)?;
            print!(rt; " at time {time}")
        }
        _ => Ok(()),
    }
}

fn say_answer(rt: &impl Print, answer: &Answer) -> io::Result<()> {
    match answer {
        Answer::Got { wts, rts, value } => {
            say_value(rt, value)?;
            println!(rt; ", times {wts} and {rts}")
        }
        Answer::Locked { wts, rts } => println!(rt; "locked, times {wts} and {rts}"),
        Answer::Marked { holder } => println!(rt; "marked by {}", holder.worker),
        Answer::Changed { wts } => println!(rt; "changed at {wts}"),
        Answer::Extended => println!(rt; "extended"),
        Answer::Installed => println!(rt; "installed"),
        Answer::Released => println!(rt; "released"),
        Answer::NotMine { .. } => println!(rt; "not mine"),
        Answer::Stood(value) => {
            say_value(rt, value)?;
            println!(rt; "")
        }
    }
}

/// Prints how an attempt ends.
pub fn say_end(rt: &impl Print, procs: &Checked, who: u32, end: &Move) -> io::Result<()> {
    match end {
        Move::Ask { .. } => println!(rt; "{who} asks"),
        Move::Committed { time, reply } => {
            print!(rt; "{who} commits at {time}: ")?;
            say_reply(rt, reply)?;
            println!(rt; "")
        }
        Move::Conflict(why) => {
            print!(rt; "{who} conflicts: ")?;
            say_why(rt, procs, why)
        }
        Move::OverTime => println!(rt; "{who} is over time"),
    }
}

fn say_why(rt: &impl Print, procs: &Checked, why: &Why) -> io::Result<()> {
    match why {
        Why::Marked { key, holder } => {
            say_key(rt, procs, *key)?;
            println!(rt; " is marked by {}", holder.worker)
        }
        Why::Changed { key, read, found } => {
            say_key(rt, procs, *key)?;
            println!(rt; " was read of time {read}, and is of time {found}")
        }
    }
}

fn say_key(rt: &impl Print, procs: &Checked, key: Key) -> io::Result<()> {
    match procs.table_name(key.table) {
        Some(table) => print!(rt; "{table}[{}]", key.row),
        None => print!(rt; "{}[{}]", key.table, key.row),
    }
}

fn say_value(rt: &impl Print, value: &Option<Value>) -> io::Result<()> {
    match value {
        None => print!(rt; "none"),
        Some(Value::Int(number)) => print!(rt; "{number}"),
        Some(Value::Text(text)) => print!(rt; "'{}", text.as_str()),
    }
}

/// Prints a reply: its value, or its cause.
pub fn say_reply(rt: &impl Print, reply: &Reply) -> io::Result<()> {
    match reply {
        Reply::Ok(value) => say_value(rt, value),
        Reply::Refused(Cause::User(number)) => print!(rt; "user {number}"),
        Reply::Refused(cause) => print!(rt; "{}", name_of(*cause)),
    }
}

fn name_of(cause: Cause) -> &'static str {
    match cause {
        Cause::User(_) => "user",
        Cause::Overflow => "overflow",
        Cause::ZeroDivide => "zero divide",
        Cause::Kind => "kind",
        Cause::BadRow => "bad row",
    }
}
