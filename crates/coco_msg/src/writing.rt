//! Messages to bytes.

ghost use Rattle.std.specs.Prelude.{◌≡◌, ◌∷◌, ◌++◌, ◌<◌, ◌^◌, length, IfOk, OnOk, Bool};
ghost use Rattle.coco_bytes.specs.Fields.{u8_bytes, flag_bytes, u32_bytes, u64_bytes};
ghost use Rattle.coco_msg.specs.declared.message.Message.TheVariants.{Ship};
ghost use Rattle.coco_msg.specs.Bytes.{bytes_of, HasBytes, listed_bytes, piece_bytes};

use crate::lists::{put_places, put_writes};
use crate::message::{Message, Places};
use coco_bytes::{put_flag, put_u8, put_u32, put_u64};
use coco_types::{NoMemory, PackedWrites, Piece};
use std::alloc::Global;

// Puts a tag and an epoch behind the bytes.
fn put_head(out: &mut Vec<u8>, tag: u8, epoch: u64) -> Result<(), NoMemory>
    ensures { OnOk result (out.new.items ≡ out.old.items ++ tag ∷ u64_bytes epoch) }
{
    put_u8(out, tag)?;
    put_u64(out, epoch)
}

fn put_flagged(out: &mut Vec<u8>, tag: u8, epoch: u64, flag: bool) -> Result<(), NoMemory>
    ensures { OnOk result (out.new.items ≡ out.old.items ++ tag ∷ (u64_bytes epoch ++ flag_bytes flag)) }
{
    put_head(out, tag, epoch)?;
    put_flag(out, flag)
}

fn put_listed(
    out: &mut Vec<u8>,
    tag: u8,
    epoch: u64,
    partition: u8,
    places: &Places,
) -> Result<(), NoMemory>
    requires { length places.now < 2 ^ 32 }
    ensures { OnOk result (out.new.items ≡ out.old.items ++ tag ∷ listed_bytes epoch partition places.now) }
{
    put_head(out, tag, epoch)?;
    put_u8(out, partition)?;
    put_places(out, places.as_slice())
}

// What one request wrote in a partition.
fn put_piece(
    out: &mut Vec<u8>,
    partition: u8,
    place: u32,
    time: u64,
    writes: &PackedWrites,
) -> Result<(), NoMemory>
    requires { length writes.now < 2 ^ 32 }
    ensures { OnOk result (out.new.items ≡ out.old.items ++ piece_bytes partition place time writes.now) }
{
    put_u8(out, partition)?;
    put_u32(out, place)?;
    put_u64(out, time)?;
    put_writes(out, writes.as_slice())
}

fn put_message(out: &mut Vec<u8>, message: &Message) -> Result<(), NoMemory>
    requires { HasBytes message.now }
    ensures { OnOk result (out.new.items ≡ out.old.items ++ bytes_of message.now) }
{
    match message {
        Message::Ship {
            epoch,
            partition,
            place,
            time,
            writes,
        } => {
            put_head(out, 1, *epoch)?;
            put_piece(out, *partition, *place, *time, writes)
        }
        Message::Total {
            epoch,
            partition,
            places,
        } => put_listed(out, 2, *epoch, *partition, places),
        Message::Missing {
            epoch,
            partition,
            places,
        } => put_listed(out, 3, *epoch, *partition, places),
        Message::All { epoch, partition } => {
            put_head(out, 4, *epoch)?;
            put_u8(out, *partition)
        }
        Message::Prepare { epoch } => put_head(out, 5, *epoch),
        Message::Vote { epoch, yes } => put_flagged(out, 6, *epoch, *yes),
        Message::Commit { epoch } => put_head(out, 7, *epoch),
        Message::Finished { epoch } => put_head(out, 8, *epoch),
        Message::Abort { epoch } => put_head(out, 9, *epoch),
        Message::Query { epoch } => put_head(out, 10, *epoch),
        Message::Tell { epoch, committed } => put_flagged(out, 11, *epoch, *committed),
    }
}

// The bytes of a message's fields but for its list, at most.
const FIELDS: usize = 26;

// Those of a place.
const PLACE: usize = 4;

// Those of a write of a number.
const WRITE: usize = 19;

// Room for a message, so that its bytes needn't grow but for texts.
fn room(message: &Message) -> usize
    requires { HasBytes message.now }
{
    match message {
        Message::Ship { writes, .. } => FIELDS + WRITE * writes.len(),
        Message::Total { places, .. } | Message::Missing { places, .. } => {
            FIELDS + PLACE * places.len()
        }
        _ => FIELDS,
    }
}

/// The bytes of a message. Its places are to rise, and its lists to have fewer than 2^32 items.
pub fn message_bytes(alloc: Global, message: &Message) -> Result<Vec<u8>, NoMemory>
    requires { HasBytes message.now }
    ensures { IfOk result (λ bytes. bytes.items ≡ bytes_of message.now) }
{
    let mut out = Vec::with_capacity(alloc, room(message))?;
    put_message(&mut out, message)?;
    Ok(out)
}

// The bytes of a Ship in front of its writes.
fn ship_head(epoch: u64, partition: u8, place: u32, time: u64) -> [u8; 22]
    ensures { result ≡ 1 ∷ (u64_bytes epoch ++ (u8_bytes partition ++ (u32_bytes place ++ u64_bytes time))) }
{
    let [a, b, c, d, e, f, g, h] = epoch.to_be_bytes();
    let [i, j, k, l] = place.to_be_bytes();
    let [m, n, o, p, q, r, s, t] = time.to_be_bytes();
    [
        1, a, b, c, d, e, f, g, h, partition, i, j, k, l, m, n, o, p, q, r, s, t,
    ]
}

/// The bytes of the Ship of a piece, whose writes are to be fewer than 2^32.
pub fn ship_bytes(alloc: Global, epoch: u64, piece: &Piece) -> Result<Vec<u8>, NoMemory>
    requires { length piece.now.writes < 2 ^ 32 }
    ensures { IfOk result (λ bytes. bytes.items ≡ bytes_of (Ship epoch piece.now.partition piece.now.place piece.now.time piece.now.writes)) }
{
    let mut out = Vec::with_capacity(alloc, FIELDS + WRITE * piece.writes.len())?;
    let head = ship_head(epoch, piece.partition, piece.place, piece.time);
    out.extend_from_slice(&head)?;
    put_writes(&mut out, piece.writes.as_slice())?;
    Ok(out)
}
