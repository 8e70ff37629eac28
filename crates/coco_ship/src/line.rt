//! What a primary and a copy know of each other.

ghost use Rattle.std.specs.Prelude.{◌≡◌, ◌*◌, ◌<◌, All, length, IfOk, OnOk};
ghost use Rattle.std.specs.FinMap.{get};
ghost use Rattle.coco_ship.specs.Lines.{none_noted, AllBegin, AreFirst, AreNoted, Begins, Notes, NotesPiece};
ghost use Rattle.coco_ship.specs.Pieces.{covers, covers_at, AreShippable};

use crate::Ring;
use crate::places::{Arrivals, PlaceSet, add};
use coco_copy::CopyTable;
use coco_msg::Places;
use coco_types::{NoMemory, PackedWrite, Piece};
use std::alloc::Global;

/// Between a primary and a copy.
#[derive(Drop)]
pub(crate) struct Line {
    /// The places of all pieces of the partition.
    pub all: PlaceSet,
    /// Those of which the primary doesn't know that they are there.
    pub lacking: PlaceSet,
    /// Whether the primary was given the copy's All.
    pub is_done: bool,
    /// The places that are there.
    pub there: Arrivals,
    /// The places that a Total told the copy.
    pub total: Option<Places>,
    /// Whether the copy was told anything since its last answer.
    pub is_asked: bool,
}

/// The pieces of a copy's partition, as they are noted one after another.
#[derive(Drop)]
struct Noted {
    /// The places of all.
    all: Arrivals,
    /// Those that are there already.
    there: Arrivals,
}

// So many copies without pieces.
fn unnoted(alloc: Global, count: usize) -> Result<Vec<Noted>, NoMemory>
    ensures count { IfOk result (λ notes. length notes.items ≡ count) }
    ensures none { IfOk result (λ notes. All (λ noted. noted ≡ none_noted) notes.items) }
{
    let mut notes = Vec::new(alloc);
    for _copy in 0..count {
        notes.push(Noted {
            all: Arrivals::new(alloc),
            there: Arrivals::new(alloc),
        })?;
    }
    Ok(notes)
}

// Whether what pends for the write's key has at least this time.
fn is_covered(table: &CopyTable, time: u64, write: &PackedWrite) -> bool
    ensures { result ≡ covers_at (get table.now.pending write.now.key) time }
{
    match table.pending(write.key()) {
        Some((pending, _)) => time <= pending,
        None => false,
    }
}

// Whether that holds of each write of the piece.
pub(crate) fn is_there(table: &CopyTable, piece: &Piece) -> bool
    ensures { result ≡ covers table.now piece.now.time piece.now.writes }
{
    piece
        .writes
        .as_slice()
        .iter()
        .all(|write| is_covered(table, piece.time, write))
}

// Notes a piece.
fn note(noted: &mut Noted, table: &CopyTable, piece: &Piece) -> Result<(), NoMemory>
    ensures { OnOk result (Notes noted.old table.now piece.now noted.new) }
{
    add(&mut noted.all, piece.place)?;
    if is_there(table, piece) {
        add(&mut noted.there, piece.place)?;
    }
    Ok(())
}

// Notes a piece for each copy of its partition.
fn note_all(
    ring: Ring,
    piece: &Piece,
    notes: &mut [Noted],
    copies: &[CopyTable],
) -> Result<(), NoMemory>
    requires partition { piece.now.partition < ring.partitions }
    requires notes { length notes.old ≡ ring.partitions * ring.copies }
    requires copies { length copies.now ≡ ring.partitions * ring.copies }
    ensures { OnOk result (NotesPiece ring piece.now ring.copies notes.old copies.now notes.new) }
{
    for copy in 0..ring.copies {
        let table = ring.table(piece.partition, copy);
        note(&mut notes[table], &copies[table], piece)?;
    }
    Ok(())
}

// The pieces noted for each copy.
fn notes_of(
    alloc: Global,
    ring: Ring,
    pieces: &[Piece],
    copies: &[CopyTable],
) -> Result<Vec<Noted>, NoMemory>
    requires pieces { AreShippable ring pieces.now }
    requires copies { length copies.now ≡ ring.partitions * ring.copies }
    ensures count { IfOk result (λ notes. length notes.items ≡ ring.partitions * ring.copies) }
    ensures noted { IfOk result (λ notes. AreNoted ring pieces.now pieces.now notes.items copies.now) }
{
    let mut notes = unnoted(alloc, ring.tables())?;
    for piece in pieces {
        note_all(ring, piece, &mut notes, copies)?;
    }
    Ok(notes)
}

// The line on which these pieces are to be sent: its primary doesn't know of any that it is there.
fn line_for(alloc: Global, noted: &Noted) -> Result<Line, NoMemory>
    ensures { IfOk result (λ line. Begins noted.now line) }
{
    let all = PlaceSet::of(noted.all.as_slice().to_vec(alloc)?);
    let lacking = all.copied(alloc)?;
    Ok(Line {
        all,
        lacking,
        is_done: false,
        there: Arrivals::from_vec(noted.there.as_slice().to_vec(alloc)?),
        total: None,
        is_asked: false,
    })
}

// The lines on which these pieces are to be sent.
fn lines_for(alloc: Global, notes: &[Noted]) -> Result<Vec<Line>, NoMemory>
    ensures count { IfOk result (λ lines. length lines.items ≡ length notes.now) }
    ensures begun { IfOk result (λ lines. AllBegin notes.now lines.items) }
{
    let mut lines = Vec::new(alloc);
    for noted in notes {
        let line = line_for(alloc, noted)?;
        lines.push(line)?;
    }
    Ok(lines)
}

// The line of each copy, as the phase begins.
pub(crate) fn lines_of(
    alloc: Global,
    ring: Ring,
    pieces: &[Piece],
    copies: &[CopyTable],
) -> Result<Vec<Line>, NoMemory>
    requires pieces { AreShippable ring pieces.now }
    requires copies { length copies.now ≡ ring.partitions * ring.copies }
    ensures { IfOk result (λ lines. AreFirst ring pieces.now lines.items copies.now) }
{
    let notes = notes_of(alloc, ring, pieces, copies)?;
    let lines = lines_for(alloc, notes.as_slice())?;
    Ok(lines)
}
