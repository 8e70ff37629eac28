//! What primaries send: the pieces that a copy may lack, and the places of all.

ghost use Rattle.std.specs.Prelude.{◌≡◌, ◌*◌, ◌<◌, ◌^◌, ◌⊎◌, [], ◌∷◌, ◌++◌, All, length, IfOk, OnOk};
ghost use Rattle.coco_bytes.specs.Values.{IsKey};
ghost use Rattle.coco_msg.specs.Bytes.{bytes_of, IsMessage, IsWrite};
ghost use Rattle.coco_msg.specs.declared.message.Message.TheVariants.{Total as Told};
ghost use Rattle.coco_ship.specs.Letters.{ship_of};
ghost use Rattle.coco_ship.specs.Placing.{IsRing};
ghost use Rattle.coco_ship.specs.Sending.{ask_of, AreAsks, AreNoneOr, ShipsPiece, TellsTotals};

use crate::Ring;
use crate::line::Line;
use crate::mail::{add_letter, write_letter};
use coco_bytes::packed_fits;
use coco_msg::{Message, Places, ship_bytes};
use coco_net::Posted;
use coco_types::{Key, NoMemory, PackedWrite, Piece};
use std::alloc::Global;
use std::collections::VecDeque;
use std::mem;

// A key's numbers are those of its fields.
fn key_fits(key: &Key)
    ensures { IsKey key.now }
{
    let _table = key.table;
    let _row = key.row;
}

// A key and a value that fit.
fn write_fits(write: &PackedWrite)
    ensures { IsWrite write.now }
{
    key_fits(&write.key());
    packed_fits(write.value());
}

// Each write fits.
fn writes_fit(writes: &[PackedWrite])
    ensures { All IsWrite writes.now }
{
    for write in writes {
        write_fits(write);
    }
}

// A piece's numbers are those of its fields, and its writes fit.
fn piece_fits(piece: &Piece)
    ensures partition { piece.now.partition < 2 ^ 8 }
    ensures place { piece.now.place < 2 ^ 32 }
    ensures time { piece.now.time < 2 ^ 64 }
    ensures writes { All IsWrite piece.now.writes }
{
    let _partition = piece.partition;
    let _place = piece.place;
    let _time = piece.time;
    writes_fit(piece.writes.as_slice());
}

// Writes the bytes of a piece's Ship where they aren't yet.
fn write_ship(alloc: Global, epoch: u64, piece: &Piece, bytes: &mut Vec<u8>) -> Result<(), NoMemory>
    requires few { length piece.now.writes < 2 ^ 32 }
    requires bytes { AreNoneOr (ship_of epoch piece.now) bytes.old.items }
    ensures { OnOk result (bytes.new.items ≡ bytes_of (ship_of epoch piece.now)) }
{
    if bytes.is_empty() {
        *bytes = ship_bytes(alloc, epoch, piece)?;
    }
    Ok(())
}

// The bytes, or a copy of them where they are needed again.
fn taken_or_copied(alloc: Global, bytes: &mut Vec<u8>, again: bool) -> Result<Vec<u8>, NoMemory>
    ensures taken { IfOk result (λ taken. taken.items ≡ bytes.old.items) }
    ensures left { (bytes.new.items ≡ []) ⊎ (bytes.new.items ≡ bytes.old.items) }
{
    if again {
        Ok(bytes.as_slice().to_vec(alloc)?)
    } else {
        Ok(mem::replace(bytes, Vec::new(alloc)))
    }
}

// Ships a piece to a copy. The bytes are those of its Ship, for all copies.
fn ship(
    alloc: Global,
    ring: Ring,
    epoch: u64,
    piece: &Piece,
    copy: u8,
    bytes: &mut Vec<u8>,
    letters: &mut VecDeque<Posted>,
) -> Result<(), NoMemory>
    requires ring { IsRing ring }
    requires few { length piece.now.writes < 2 ^ 32 }
    requires bytes { AreNoneOr (ship_of epoch piece.now) bytes.old.items }
    ensures letters { OnOk result (letters.new.items ≡ letters.old.items ++ ask_of ring piece.now.partition copy (ship_of epoch piece.now) ∷ []) }
    ensures bytes { OnOk result (AreNoneOr (ship_of epoch piece.now) bytes.new.items) }
{
    write_ship(alloc, epoch, piece, bytes)?;
    let from = ring.primary(piece.partition);
    let to = ring.holder(piece.partition, copy);
    let again = u16::from(copy) + 1 < u16::from(ring.copies);
    let taken = taken_or_copied(alloc, bytes, again)?;
    add_letter(letters, from, to, taken)
}

// Ships a piece to each copy of which its primary doesn't know that it is there.
fn ship_piece(
    alloc: Global,
    ring: Ring,
    epoch: u64,
    piece: &Piece,
    lines: &[Line],
    letters: &mut VecDeque<Posted>,
) -> Result<(), NoMemory>
    requires ring { IsRing ring }
    requires partition { piece.now.partition < ring.partitions }
    requires lines { length lines.now ≡ ring.partitions * ring.copies }
    ensures { OnOk result (ShipsPiece ring epoch piece.now lines.now ring.copies letters.old.items letters.new.items) }
{
    if piece.writes.len() > u32::MAX as usize {
        return Err(NoMemory);
    }
    piece_fits(piece);
    let mut bytes = Vec::new(alloc);
    for copy in 0..ring.copies {
        let line = &lines[ring.table(piece.partition, copy)];
        if !line.is_done && line.lacking.has(piece.place) {
            ship(alloc, ring, epoch, piece, copy, &mut bytes, letters)?;
        }
    }
    Ok(())
}

// Tells a copy the places of all pieces of its partition.
fn tell(
    alloc: Global,
    ring: Ring,
    epoch: u64,
    partition: u8,
    copy: u8,
    line: &Line,
    letters: &mut VecDeque<Posted>,
) -> Result<(), NoMemory>
    requires { IsRing ring }
    ensures letters { OnOk result (letters.new.items ≡ letters.old.items ++ ask_of ring partition copy (Told epoch partition line.now.all) ∷ []) }
    ensures readable { OnOk result (IsMessage (Told epoch partition line.now.all)) }
{
    let places = Places::from_vec(line.all.listed(alloc)?);
    let message = Message::Total {
        epoch,
        partition,
        places,
    };
    let to = ring.holder(partition, copy);
    write_letter(alloc, letters, ring.primary(partition), to, &message)
}

// Tells each copy of a partition the places of its pieces, unless the primary has the copy's All.
fn tell_totals(
    alloc: Global,
    ring: Ring,
    epoch: u64,
    partition: u8,
    lines: &[Line],
    letters: &mut VecDeque<Posted>,
) -> Result<(), NoMemory>
    requires ring { IsRing ring }
    requires partition { partition < ring.partitions }
    requires lines { length lines.now ≡ ring.partitions * ring.copies }
    ensures { OnOk result (TellsTotals ring epoch partition lines.now ring.copies letters.old.items letters.new.items) }
{
    for copy in 0..ring.copies {
        let line = &lines[ring.table(partition, copy)];
        if !line.is_done {
            tell(alloc, ring, epoch, partition, copy, line, letters)?;
        }
    }
    Ok(())
}

// All that primaries send in an exchange.
pub(crate) fn asks(
    alloc: Global,
    ring: Ring,
    epoch: u64,
    pieces: &[Piece],
    lines: &[Line],
) -> Result<VecDeque<Posted>, NoMemory>
    requires ring { IsRing ring }
    requires partitions { All (λ x. x.partition < ring.partitions) pieces.now }
    requires lines { length lines.now ≡ ring.partitions * ring.copies }
    ensures { IfOk result (λ letters. AreAsks ring epoch pieces.now lines.now letters.items) }
{
    let mut letters = VecDeque::new(alloc);
    for piece in pieces {
        ship_piece(alloc, ring, epoch, piece, lines, &mut letters)?;
    }
    for partition in 0..ring.partitions {
        tell_totals(alloc, ring, epoch, partition, lines, &mut letters)?;
    }
    Ok(letters)
}
