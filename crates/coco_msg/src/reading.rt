//! Bytes to messages.

ghost use Rattle.std.specs.Prelude.{◌≡◌, ◌≤◌, length, Ok, IfOk};
ghost use Rattle.coco_msg.specs.Bytes.{bytes_of, IsMessage};
ghost use Rattle.coco_msg.specs.declared.message.Message.{Message as Letter};
ghost use Rattle.coco_msg.specs.Reading.{ship_at, listed_at, total_at, missing_at, all_at, decision_of, decision_at, fields_at, message_in, Answers};

use crate::MessageFault;
use crate::lists::{get_places, get_writes};
use crate::message::{Message, Places};
use coco_bytes::{get_flag, get_u8, get_u32, get_u64};
use coco_types::PackedWrite;
use std::alloc::Global;

#[tactic(auto, unfolding(crate::specs::Reading::ship_at))]
fn get_ship(
    room: Vec<PackedWrite>,
    from: &[u8],
    at: usize,
) -> Result<(Message, usize), MessageFault>
    requires { at ≤ length from.now }
    ensures read { Answers result (ship_at from.now at) }
    ensures within { IfOk result (λ r. r.1 ≤ length from.now) }
{
    let (epoch, at) = get_u64(from, at)?;
    let (partition, at) = get_u8(from, at)?;
    let (place, at) = get_u32(from, at)?;
    let (time, at) = get_u64(from, at)?;
    let (writes, end) = get_writes(room, from, at)?;
    let ship = Message::Ship {
        epoch,
        partition,
        place,
        time,
        writes,
    };
    Ok((ship, end))
}

// Epoch, partition and counted places.
#[tactic(auto, unfolding(crate::specs::Reading::listed_at))]
fn get_listed(
    alloc: Global,
    from: &[u8],
    at: usize,
) -> Result<((u64, u8, Places), usize), MessageFault>
    requires { at ≤ length from.now }
    ensures read { Answers result (listed_at from.now at) }
    ensures within { IfOk result (λ r. r.1 ≤ length from.now) }
{
    let (epoch, at) = get_u64(from, at)?;
    let (partition, at) = get_u8(from, at)?;
    let (places, end) = get_places(alloc, from, at)?;
    Ok(((epoch, partition, places), end))
}

#[tactic(auto, unfolding(crate::specs::Reading::total_at))]
fn get_total(alloc: Global, from: &[u8], at: usize) -> Result<(Message, usize), MessageFault>
    requires { at ≤ length from.now }
    ensures read { Answers result (total_at from.now at) }
    ensures within { IfOk result (λ r. r.1 ≤ length from.now) }
{
    let ((epoch, partition, places), end) = get_listed(alloc, from, at)?;
    let total = Message::Total {
        epoch,
        partition,
        places,
    };
    Ok((total, end))
}

#[tactic(auto, unfolding(crate::specs::Reading::missing_at))]
fn get_missing(alloc: Global, from: &[u8], at: usize) -> Result<(Message, usize), MessageFault>
    requires { at ≤ length from.now }
    ensures read { Answers result (missing_at from.now at) }
    ensures within { IfOk result (λ r. r.1 ≤ length from.now) }
{
    let ((epoch, partition, places), end) = get_listed(alloc, from, at)?;
    let missing = Message::Missing {
        epoch,
        partition,
        places,
    };
    Ok((missing, end))
}

#[tactic(auto, unfolding(crate::specs::Reading::all_at))]
fn get_all(from: &[u8], at: usize) -> Result<(Message, usize), MessageFault>
    requires { at ≤ length from.now }
    ensures read { Answers result (all_at from.now at) }
    ensures within { IfOk result (λ r. r.1 ≤ length from.now) }
{
    let (epoch, at) = get_u64(from, at)?;
    let (partition, end) = get_u8(from, at)?;
    Ok((Message::All { epoch, partition }, end))
}

// What follows the epoch in the messages of nodes and coordinator.
#[tactic(auto, unfolding(crate::specs::Reading::decision_of))]
fn get_decision_of(
    from: &[u8],
    at: usize,
    tag: u8,
    epoch: u64,
) -> Result<(Message, usize), MessageFault>
    requires { at ≤ length from.now }
    ensures read { Answers result (decision_of tag epoch from.now at) }
    ensures within { IfOk result (λ r. r.1 ≤ length from.now) }
{
    match tag {
        5 => Ok((Message::Prepare { epoch }, at)),
        6 => {
            let (yes, end) = get_flag(from, at)?;
            Ok((Message::Vote { epoch, yes }, end))
        }
        7 => Ok((Message::Commit { epoch }, at)),
        8 => Ok((Message::Finished { epoch }, at)),
        9 => Ok((Message::Abort { epoch }, at)),
        10 => Ok((Message::Query { epoch }, at)),
        _ => {
            let (committed, end) = get_flag(from, at)?;
            Ok((Message::Tell { epoch, committed }, end))
        }
    }
}

#[tactic(auto, unfolding(crate::specs::Reading::decision_at))]
fn get_decision(from: &[u8], at: usize, tag: u8) -> Result<(Message, usize), MessageFault>
    requires { at ≤ length from.now }
    ensures read { Answers result (decision_at tag from.now at) }
    ensures within { IfOk result (λ r. r.1 ≤ length from.now) }
{
    let (epoch, at) = get_u64(from, at)?;
    get_decision_of(from, at, tag, epoch)
}

#[tactic(auto, unfolding(crate::specs::Reading::fields_at))]
fn get_fields(
    room: Vec<PackedWrite>,
    from: &[u8],
    at: usize,
    tag: u8,
) -> Result<(Message, usize), MessageFault>
    requires { at ≤ length from.now }
    ensures read { Answers result (fields_at tag from.now at) }
    ensures within { IfOk result (λ r. r.1 ≤ length from.now) }
{
    if tag == 0 || tag > 11 {
        return Err(MessageFault::Bad { at: 0 });
    }
    let alloc = *room.allocator();
    match tag {
        1 => get_ship(room, from, at),
        2 => get_total(alloc, from, at),
        3 => get_missing(alloc, from, at),
        4 => get_all(from, at),
        _ => get_decision(from, at, tag),
    }
}

// The message that all of the bytes are.
#[tactic(auto, unfolding(crate::specs::Reading::message_in))]
fn get_message(room: Vec<PackedWrite>, bytes: &[u8]) -> Result<Message, MessageFault>
    ensures { Answers result (message_in bytes.now) }
{
    let (tag, at) = get_u8(bytes, 0)?;
    let (message, end) = get_fields(room, bytes, at, tag)?;
    if bytes.len() == end {
        Ok(message)
    } else {
        Err(MessageFault::Bad { at: end })
    }
}

/// The message that the bytes are, or the first field that can't stand.
pub fn read_message(alloc: Global, bytes: &[u8]) -> Result<Message, MessageFault>
    // What is read is a message, and the bytes are its bytes.
    ensures found { IfOk result (λ message. IsMessage message × (bytes.now ≡ bytes_of message)) }
    // The bytes of a message are read, unless memory runs out.
    ensures only { (message : Letter) → IsMessage message → bytes.now ≡ bytes_of message
        → Answers result (Ok message) }
    // Other bytes are bad at the first field that can't stand, or at the first byte that is left over.
    ensures read { Answers result (message_in bytes.now) }
{
    read_message_in(Vec::new(alloc), bytes)
}

/// The same. The writes of a Ship take the room of this list, whose items go.
pub fn read_message_in(room: Vec<PackedWrite>, bytes: &[u8]) -> Result<Message, MessageFault>
    ensures found { IfOk result (λ message. IsMessage message × (bytes.now ≡ bytes_of message)) }
    ensures only { (message : Letter) → IsMessage message → bytes.now ≡ bytes_of message
        → Answers result (Ok message) }
    ensures read { Answers result (message_in bytes.now) }
{
    get_message(room, bytes)
}
