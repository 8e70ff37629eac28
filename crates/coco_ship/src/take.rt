//! What nodes do with the letters that they are given: as the holder of a copy, and as a primary.

ghost use Rattle.std.specs.Prelude.{◌≡◌, ◌≢◌, ℕ, Some, [], ◌∷◌, true, IfOk, IfSome, MatchOption, OnOk};
ghost use Rattle.coco_msg.specs.Bytes.{bytes_of, epoch_of, IsMessage};
ghost use Rattle.coco_msg.specs.declared.message.Message.{Message as Told};
ghost use Rattle.coco_ship.specs.Letters.{letter_of};
ghost use Rattle.coco_ship.specs.Pieces.{covers};
ghost use Rattle.coco_ship.specs.Placing.{holder_of, primary_of, table_of, IsCopy, IsRing};
ghost use Rattle.coco_ship.specs.Rounds.{FitRing};
ghost use Rattle.coco_ship.specs.Taking.{at_node, Brings, Hears, IsPut, OfBoth, OfTables, Puts, Speaks, Takes, TakesAt, TakesMissing, TakesShip};

use crate::Ring;
use crate::line::Line;
use crate::mail::message_of;
use crate::places::{add, kept};
use coco_copy::CopyTable;
use coco_msg::{Message, Places};
use coco_net::Letter;
use coco_types::{NoMemory, PackedWrite, PackedWrites};
use std::alloc::Global;

// Puts the writes of a piece.
pub(crate) fn put_all(
    table: &mut CopyTable,
    epoch: u64,
    time: u64,
    writes: &[PackedWrite],
) -> Result<(), NoMemory>
    requires { table.old.epoch ≡ epoch }
    ensures puts { Puts time writes.now table.old table.new }
    ensures pend { OnOk result (covers table.new time writes.now ≡ true) }
{
    for write in writes {
        table.put(epoch, time, write.try_clone()?)?;
    }
    Ok(())
}

// A copy takes a piece.
fn take_ship(
    line: &mut Line,
    table: &mut CopyTable,
    epoch: u64,
    place: u32,
    time: u64,
    writes: &PackedWrites,
) -> Result<(), NoMemory>
    requires { table.old.epoch ≡ epoch }
    ensures ok { OnOk result (TakesShip place time writes.now line.old table.old line.new table.new) }
    ensures puts { Puts time writes.now table.old table.new }
{
    put_all(table, epoch, time, writes.as_slice())?;
    add(&mut line.there, place)?;
    line.is_asked = true;
    Ok(())
}

// A copy takes the places of all pieces.
fn take_total(line: &mut Line, places: Places)
    ensures { line.new ≡ record line.old { total = Some places; is_asked = true } }
{
    line.total = Some(places);
    line.is_asked = true;
}

// A primary takes the places that a copy lacks, and knows the others to be there.
fn take_missing(alloc: Global, line: &mut Line, places: &Places) -> Result<(), NoMemory>
    ensures { OnOk result (TakesMissing places.now line.old line.new) }
{
    line.lacking = kept(alloc, &line.lacking, places.as_slice())?;
    Ok(())
}

// The number of the copy whose primary this node is and that the sender holds.
fn table_of_sender(ring: Ring, partition: u8, node: u8, from: u8) -> Option<usize>
    requires { IsRing ring }
    ensures { MatchOption result ((j : ℕ) → IsCopy ring partition j → primary_of ring partition ≡ node → holder_of ring partition j ≢ from)
        (λ t. (j : ℕ) × IsCopy ring partition j × (primary_of ring partition ≡ node) × (holder_of ring partition j ≡ from) × (t ≡ table_of ring partition j)) }
{
    if ring.primary(partition) == node {
        ring.table_on(partition, from)
    } else {
        None
    }
}

// The number of the copy whose line a message speaks of.
fn spoken_of(ring: Ring, node: u8, from: u8, message: &Message) -> Option<usize>
    requires { IsRing ring }
    ensures { MatchOption result ((p j : ℕ) → IsCopy ring p j → Speaks ring node from message.now p j → ⊥)
        (λ t. (p : ℕ) × (j : ℕ) × IsCopy ring p j × Speaks ring node from message.now p j × (t ≡ table_of ring p j)) }
{
    match message {
        Message::Ship { partition, .. } => ring.table_on(*partition, node),
        Message::Total { partition, .. } => ring.table_on(*partition, node),
        Message::Missing { partition, .. } => table_of_sender(ring, *partition, node, from),
        Message::All { partition, .. } => table_of_sender(ring, *partition, node, from),
        _ => None,
    }
}

// A line and its table take a message. The list of a Ship's writes goes back to the room.
fn take_at(
    alloc: Global,
    room: &mut Vec<PackedWrite>,
    line: &mut Line,
    table: &mut CopyTable,
    message: Message,
) -> Result<(), NoMemory>
    requires { table.old.epoch ≡ epoch_of message }
    ensures ok { OnOk result (Takes message line.old table.old line.new table.new) }
    ensures puts { IsPut message table.old table.new }
{
    match message {
        Message::Ship {
            epoch,
            place,
            time,
            writes,
            ..
        } => {
            take_ship(line, table, epoch, place, time, &writes)?;
            *room = writes.into_vec();
            Ok(())
        }
        Message::Total { places, .. } => {
            take_total(line, places);
            Ok(())
        }
        Message::Missing { places, .. } => take_missing(alloc, line, &places),
        Message::All { .. } => {
            line.is_done = true;
            Ok(())
        }
        _ => Ok(()),
    }
}

// What a node does with a message of this epoch.
fn take_message(
    alloc: Global,
    room: &mut Vec<PackedWrite>,
    ring: Ring,
    node: u8,
    from: u8,
    message: Message,
    lines: &mut [Line],
    copies: &mut [CopyTable],
) -> Result<(), NoMemory>
    requires fit { FitRing ring (epoch_of message) lines.old copies.old }
    requires readable { IsMessage message }
    ensures ok { OnOk result (OfBoth ring (TakesAt ring node from message) lines.old copies.old lines.new copies.new) }
    ensures tables { OfTables ring (Brings ring (epoch_of message) (at_node node (letter_of from message ∷ []))) copies.old copies.new }
    ensures fit { FitRing ring (epoch_of message) lines.new copies.new }
{
    match spoken_of(ring, node, from, &message) {
        Some(t) => take_at(alloc, room, &mut lines[t], &mut copies[t], message),
        None => Ok(()),
    }
}

// The message of a letter, none where it is none of this epoch.
fn message_now(
    room: &mut Vec<PackedWrite>,
    epoch: u64,
    letter: &Letter,
) -> Result<Option<Message>, NoMemory>
    ensures found { IfOk result (λ found. IfSome found (λ m. IsMessage m × (letter.now.bytes ≡ bytes_of m) × (epoch_of m ≡ epoch))) }
    ensures only { IfOk result (λ found. (m : Told) → IsMessage m → letter.now.bytes ≡ bytes_of m → epoch_of m ≡ epoch → found ≡ Some m) }
{
    match message_of(room, letter)? {
        Some(message) if message.epoch() == epoch => Ok(Some(message)),
        _ => Ok(None),
    }
}

// What a node does with a letter. One that is no message, or of another epoch, changes nothing.
fn take_letter(
    alloc: Global,
    room: &mut Vec<PackedWrite>,
    ring: Ring,
    epoch: u64,
    node: u8,
    letter: &Letter,
    lines: &mut [Line],
    copies: &mut [CopyTable],
) -> Result<(), NoMemory>
    requires fit { FitRing ring epoch lines.old copies.old }
    ensures ok { OnOk result (OfBoth ring (Hears ring epoch (at_node node (letter.now ∷ []))) lines.old copies.old lines.new copies.new) }
    ensures tables { OfTables ring (Brings ring epoch (at_node node (letter.now ∷ []))) copies.old copies.new }
    ensures fit { FitRing ring epoch lines.new copies.new }
{
    match message_now(room, epoch, letter)? {
        Some(message) => take_message(alloc, room, ring, node, letter.from, message, lines, copies),
        None => Ok(()),
    }
}

// What a node does with its letters.
pub(crate) fn take_letters(
    alloc: Global,
    ring: Ring,
    epoch: u64,
    node: u8,
    letters: &[Letter],
    lines: &mut [Line],
    copies: &mut [CopyTable],
) -> Result<(), NoMemory>
    requires fit { FitRing ring epoch lines.old copies.old }
    ensures ok { OnOk result (OfBoth ring (Hears ring epoch (at_node node (letters.now))) lines.old copies.old lines.new copies.new) }
    ensures tables { OfTables ring (Brings ring epoch (at_node node (letters.now))) copies.old copies.new }
    ensures fit { FitRing ring epoch lines.new copies.new }
{
    let mut room = Vec::new(alloc);
    for letter in letters {
        take_letter(alloc, &mut room, ring, epoch, node, letter, lines, copies)?;
    }
    Ok(())
}
