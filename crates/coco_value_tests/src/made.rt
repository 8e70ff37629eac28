//! A call of one argument or none, and its Done.

use coco_types::{Args, Call, Done, KeptReply, NoMemory, Reply, Value};
use std::alloc::Global;

/// A call of the first procedure.
pub fn call(alloc: Global, argument: Option<i64>) -> Result<Call, NoMemory> {
    let mut args = Args::with_room(alloc, 1)?;
    if let Some(number) = argument {
        args.push(Some(Value::Int(number)))?;
    }
    Ok(Call {
        proc_no: 0,
        args,
        snapshot: false,
    })
}

/// A Done of such a call.
pub fn done(
    alloc: Global,
    id: u64,
    epoch: u64,
    time: u64,
    reply: &Reply,
) -> Result<Done, NoMemory> {
    Ok(Done {
        id,
        call: call(alloc, Some(5))?,
        epoch,
        time,
        reply: KeptReply::of(alloc, reply)?,
    })
}
