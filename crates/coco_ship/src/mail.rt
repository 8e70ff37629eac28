//! Letters in hand: written, sent and taken.

ghost use Rattle.std.specs.Prelude.{◌≡◌, ◌≢◌, ◌≤◌, ℕ, List, Some, [], ◌∷◌, ◌++◌, IfOk, IfSome, OnOk};
ghost use Rattle.coco_msg.specs.Bytes.{bytes_of, IsMessage};
ghost use Rattle.coco_msg.specs.declared.message.Message.{Message as Told};
ghost use Rattle.coco_net.specs.declared.letter.Posted.{Posted as Sent};
ghost use Rattle.coco_ship.specs.Letters.{posted_of, AreInside};

use coco_msg::{Message, MessageFault, message_bytes, read_message_in};
use coco_net::{Letter, Net, Posted};
use coco_types::{Bytes, NoMemory, PackedWrite};
use std::alloc::Global;
use std::collections::VecDeque;
use std::mem;

// Adds a letter of these bytes.
pub(crate) fn add_letter(
    letters: &mut VecDeque<Posted>,
    from: u8,
    to: u8,
    bytes: Vec<u8>,
) -> Result<(), NoMemory>
    ensures { OnOk result (letters.new.items ≡ letters.old.items ++ record { to = to; letter = record { from = from; bytes = bytes.items } } ∷ []) }
{
    let bytes = Bytes::from_vec(bytes);
    letters.push_back(Posted {
        to,
        letter: Letter { from, bytes },
    })?;
    Ok(())
}

// Writes a letter.
pub(crate) fn write_letter(
    alloc: Global,
    letters: &mut VecDeque<Posted>,
    from: u8,
    to: u8,
    message: &Message,
) -> Result<(), NoMemory>
    requires { IsMessage message.now }
    ensures { OnOk result (letters.new.items ≡ letters.old.items ++ posted_of from to message.now ∷ []) }
{
    let bytes = message_bytes(alloc, message)?;
    add_letter(letters, from, to, bytes)
}

// Sends letters in order.
pub(crate) fn send_all<N: Net>(net: &mut N, letters: VecDeque<Posted>) -> Result<(), NoMemory>
    requires { AreInside letters.items }
    ensures sent { OnOk result (N.sent net.new ≡ N.sent net.old ++ letters.items) }
    ensures some { (xs : List Sent) × (ys : List Sent) × (N.sent net.new ≡ N.sent net.old ++ xs) × (xs ++ ys ≡ letters.items) }
    ensures given { N.given net.new ≡ N.given net.old }
    ensures fresh { OnOk result (N.fresh net.new ≡ N.fresh net.old ++ letters.items) }
    ensures faults { N.faults net.new ≡ N.faults net.old }
    ensures seed { N.last_seed net.new ≡ N.last_seed net.old }
{
    let mut letters = letters;
    while let Some(posted) = letters.pop_front() {
        let Posted { to, letter } = posted;
        net.send(letter.from, to, letter.bytes.into_vec())?;
    }
    Ok(())
}

// Takes all letters that wait at a place.
pub(crate) fn take_all<N: Net>(
    alloc: Global,
    net: &mut N,
    place: u8,
) -> Result<Vec<Letter>, NoMemory>
    requires { place ≤ 8 }
    ensures letters { IfOk result (λ letters. letters.items ≡ N.waiting net.old place) }
    ensures others { (p : ℕ) → p ≢ place → N.waiting net.new p ≡ N.waiting net.old p }
    ensures sent { N.sent net.new ≡ N.sent net.old }
    ensures given { N.given net.new ≡ N.given net.old }
    ensures faults { N.faults net.new ≡ N.faults net.old }
    ensures seed { N.last_seed net.new ≡ N.last_seed net.old }
{
    let mut letters = Vec::new(alloc);
    for _letter in 0..net.waiting(place) {
        if let Some(letter) = net.next(place) {
            letters.push(letter)?;
        }
    }
    Ok(letters)
}

// The message of a letter, none where it is no message. The writes of a Ship take the room's list.
pub(crate) fn message_of(
    room: &mut Vec<PackedWrite>,
    letter: &Letter,
) -> Result<Option<Message>, NoMemory>
    ensures found { IfOk result (λ found. IfSome found (λ m. IsMessage m × (letter.now.bytes ≡ bytes_of m))) }
    ensures only { IfOk result (λ found. (m : Told) → IsMessage m → letter.now.bytes ≡ bytes_of m → found ≡ Some m) }
{
    let none = Vec::new(*room.allocator());
    match read_message_in(mem::replace(room, none), letter.bytes.as_slice()) {
        Ok(message) => Ok(Some(message)),
        Err(MessageFault::Bad { .. }) => Ok(None),
        Err(MessageFault::NoMemory) => Err(NoMemory),
    }
}
