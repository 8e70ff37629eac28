//! Committed requests as fields: calls, replies, and what orders them.

ghost use Rattle.std.specs.Prelude.{◌≡◌, None, ◌≤◌, ◌++◌, length, IfOk, OnOk};
ghost use Rattle.coco_bytes.specs.Lists.{items_at};
ghost use Rattle.coco_bytes.specs.Values.{value_bytes, IsValue, value_at};
ghost use Rattle.coco_entry.specs.Grammar.{Answers};
ghost use Rattle.coco_entry.specs.Calls.{args_bytes, AreArgs, args_count_at, args_at, call_bytes, IsCall, call_at, cause_bytes, IsCause, cause_of_kind, cause_at, reply_bytes, IsReply, reply_of_kind, reply_at, timed_bytes, timed_at, done_bytes, IsDone, done_of, done_at};

use crate::EntryFault;
use crate::fields::{get_any, put_any};
use coco_bytes::{
    FieldFault, get_flag, get_u8, get_u16, get_u64, put_flag, put_u8, put_u16, put_u64,
};
use coco_types::limits::MOST_ARGUMENTS;
use coco_types::{Args, Call, Cause, Done, KeptReply, NoMemory, Packed};
use std::alloc::Global;

/// A call with its id and its time.
#[derive(Drop)]
pub struct Timed {
    pub id: u64,
    pub call: Call,
    pub time: u64,
}

fn put_args(out: &mut Vec<u8>, args: &[Packed]) -> Result<(), NoMemory>
    requires { length args.now ≤ MOST_ARGUMENTS }
    ensures ok { OnOk result (out.new.items ≡ out.old.items ++ args_bytes args.now) }
    ensures fits { OnOk result (AreArgs args.now) }
{
    put_u8(out, args.len() as u8)?;
    for argument in args {
        put_any(out, argument)?;
    }
    Ok(())
}

fn put_call(out: &mut Vec<u8>, call: &Call) -> Result<(), NoMemory>
    ensures ok { OnOk result (out.new.items ≡ out.old.items ++ call_bytes call.now) }
    ensures fits { OnOk result (IsCall call.now) }
{
    put_u16(out, call.proc_no)?;
    put_flag(out, call.snapshot)?;
    put_args(out, call.args.as_slice())
}

fn put_cause(out: &mut Vec<u8>, cause: Cause) -> Result<(), NoMemory>
    ensures ok { OnOk result (out.new.items ≡ out.old.items ++ cause_bytes cause) }
    ensures fits { OnOk result (IsCause cause) }
{
    match cause {
        Cause::User(number) => {
            put_u8(out, 1)?;
            put_u16(out, number)
        }
        Cause::Overflow => put_u8(out, 2),
        Cause::ZeroDivide => put_u8(out, 3),
        Cause::Kind => put_u8(out, 4),
        Cause::BadRow => put_u8(out, 5),
    }
}

fn put_reply(out: &mut Vec<u8>, reply: &KeptReply) -> Result<(), NoMemory>
    ensures ok { OnOk result (out.new.items ≡ out.old.items ++ reply_bytes reply.now) }
    ensures fits { OnOk result (IsReply reply.now) }
{
    match reply.answer() {
        Ok(value) => {
            put_u8(out, 0)?;
            put_any(out, value)
        }
        Err(cause) => {
            put_u8(out, 1)?;
            put_cause(out, cause)
        }
    }
}

/// Puts a Done without its epoch behind the bytes.
pub fn put_done(out: &mut Vec<u8>, done: &Done) -> Result<(), NoMemory>
    ensures ok { OnOk result (out.new.items ≡ out.old.items ++ done_bytes done.now) }
    ensures fits { OnOk result (IsDone done.now) }
{
    put_u64(out, done.id)?;
    put_call(out, &done.call)?;
    put_u64(out, done.time)?;
    put_reply(out, &done.reply)
}

// So many arguments, one behind another.
fn get_each_arg(
    alloc: Global,
    from: &[u8],
    at: usize,
    count: u8,
) -> Result<(Args, usize), EntryFault>
    requires start { at ≤ length from.now }
    requires most { count ≤ MOST_ARGUMENTS }
    ensures read { Answers result (items_at (λ _. value_at) None count from.now at) }
    ensures within { IfOk result (λ r. r.1 ≤ length from.now) }
{
    let mut args = Args::with_room(alloc, count as usize)?;
    let mut end = at;
    for _ in 0..count {
        let (value, after) = get_any(alloc, from, end)?;
        args.push_packed(value)?;
        end = after;
    }
    Ok((args, end))
}

#[tactic(auto, unfolding(crate::specs::Calls::args_count_at))]
fn get_args_count(from: &[u8], at: usize) -> Result<(u8, usize), FieldFault>
    requires { at ≤ length from.now }
    ensures read { result ≡ args_count_at from.now at }
    ensures most { IfOk result (λ r. r.0 ≤ MOST_ARGUMENTS) }
    ensures within { IfOk result (λ r. r.1 ≤ length from.now) }
{
    let (count, end) = get_u8(from, at)?;
    if count as usize <= MOST_ARGUMENTS {
        Ok((count, end))
    } else {
        Err(FieldFault::Bad { at })
    }
}

#[tactic(auto, unfolding(crate::specs::Calls::args_at))]
fn get_args(alloc: Global, from: &[u8], at: usize) -> Result<(Args, usize), EntryFault>
    requires { at ≤ length from.now }
    ensures read { Answers result (args_at from.now at) }
    ensures within { IfOk result (λ r. r.1 ≤ length from.now) }
{
    let (count, at) = get_args_count(from, at)?;
    get_each_arg(alloc, from, at, count)
}

#[tactic(auto, unfolding(crate::specs::Calls::call_at))]
fn get_call(alloc: Global, from: &[u8], at: usize) -> Result<(Call, usize), EntryFault>
    requires { at ≤ length from.now }
    ensures read { Answers result (call_at from.now at) }
    ensures within { IfOk result (λ r. r.1 ≤ length from.now) }
{
    let (proc_no, at) = get_u16(from, at)?;
    let (snapshot, at) = get_flag(from, at)?;
    let (args, end) = get_args(alloc, from, at)?;
    let call = Call {
        proc_no,
        snapshot,
        args,
    };
    Ok((call, end))
}

#[tactic(auto, unfolding(crate::specs::Calls::cause_at, crate::specs::Calls::cause_of_kind))]
fn get_cause(from: &[u8], at: usize) -> Result<(Cause, usize), FieldFault>
    requires { at ≤ length from.now }
    ensures read { result ≡ cause_at from.now at }
    ensures within { IfOk result (λ r. r.1 ≤ length from.now) }
{
    let (kind, next) = get_u8(from, at)?;
    match kind {
        1 => {
            let (number, end) = get_u16(from, next)?;
            Ok((Cause::User(number), end))
        }
        2 => Ok((Cause::Overflow, next)),
        3 => Ok((Cause::ZeroDivide, next)),
        4 => Ok((Cause::Kind, next)),
        5 => Ok((Cause::BadRow, next)),
        _ => Err(FieldFault::Bad { at }),
    }
}

/// The reply at a place, as it is kept.
#[tactic(auto, unfolding(crate::specs::Calls::reply_at, crate::specs::Calls::reply_of_kind))]
pub fn get_kept(alloc: Global, from: &[u8], at: usize) -> Result<(KeptReply, usize), EntryFault>
    requires { at ≤ length from.now }
    ensures read { Answers result (reply_at from.now at) }
    ensures within { IfOk result (λ r. r.1 ≤ length from.now) }
{
    let (kind, next) = get_u8(from, at)?;
    if kind == 0 {
        let (value, end) = get_any(alloc, from, next)?;
        return Ok((KeptReply::answered(value), end));
    }
    if kind == 1 {
        let (cause, end) = get_cause(from, next)?;
        return Ok((KeptReply::refused(cause), end));
    }
    Err(EntryFault::Bad { at })
}

/// The id, the call and the time at a place.
#[tactic(auto, unfolding(crate::specs::Calls::timed_at))]
pub fn get_timed(alloc: Global, from: &[u8], at: usize) -> Result<(Timed, usize), EntryFault>
    requires { at ≤ length from.now }
    ensures read { Answers result (timed_at from.now at) }
    ensures within { IfOk result (λ r. r.1 ≤ length from.now) }
{
    let (id, at) = get_u64(from, at)?;
    let (call, at) = get_call(alloc, from, at)?;
    let (time, end) = get_u64(from, at)?;
    Ok((Timed { id, call, time }, end))
}

/// A Done of its parts.
pub fn done_of_parts(epoch: u64, timed: Timed, reply: KeptReply) -> Done
    ensures { result ≡ done_of epoch timed reply }
{
    let Timed { id, call, time } = timed;
    Done {
        id,
        call,
        epoch,
        time,
        reply,
    }
}

/// The Done of an epoch at a place.
#[tactic(auto, unfolding(crate::specs::Calls::done_at))]
pub fn get_done(
    alloc: Global,
    from: &[u8],
    at: usize,
    epoch: u64,
) -> Result<(Done, usize), EntryFault>
    requires { at ≤ length from.now }
    ensures read { Answers result (done_at epoch from.now at) }
    ensures within { IfOk result (λ r. r.1 ≤ length from.now) }
{
    let (timed, at) = get_timed(alloc, from, at)?;
    let (reply, end) = get_kept(alloc, from, at)?;
    Ok((done_of_parts(epoch, timed, reply), end))
}
