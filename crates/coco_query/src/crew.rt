//! The readers of a query: made, let run, and taken apart.

ghost use Rattle.std.specs.Prelude.{◌≡◌, ◌<◌, ◌^◌, List, All, true, map, length, vec_len, IfOk};
ghost use Rattle.std.specs.List.{AllByRecursion};
ghost use Rattle.coco_ast.specs.Fitting.{Fits};
ghost use Rattle.coco_claim.specs.Seats.{new_seats};
ghost use Rattle.coco_desks.specs.Desks.{AreDealt, HasRoom};
ghost use Rattle.coco_query.specs.Crews.{HaveLeft, IsCrew, LeavesEach, readers_of};
ghost use Rattle.coco_query.specs.Readers.{IsSeated};
ghost use Rattle.coco_query.specs.declared.frozen.Frozen.{Frozen as Table};
ghost use Rattle.coco_query.specs.declared.readers.Reader.{Reader as Seated};

use crate::frozen::Frozen;
use crate::readers::{Reader, Replied, Transcript};
use coco_ast::Checked;
use coco_claim::{ClaimSeat, Claims};
use coco_gate::{Gate, Passes};
use coco_journaled::{Journaled, Pass};
use coco_types::{NoMemory, Request, Sequence};
use std::alloc::Global;
use std::sync::Wait;
use std::thread;
use std::thread::Threads;

/// What readers leave besides their passes and seats, reader after reader.
#[derive(Drop)]
pub struct Left {
    pub transcripts: Vec<Transcript>,
    pub replies: Vec<Sequence<Replied>>,
}

/// The claims with their seats, and the room for readers and for what they leave.
#[derive(Drop)]
pub struct Crew {
    pub claims: Claims,
    pub seats: Vec<ClaimSeat>,
    pub back: Vec<ClaimSeat>,
    pub readers: Vec<Reader>,
    pub left: Left,
}

impl Crew {
    /// Claims of so many requests for so many readers.
    pub fn of(alloc: Global, requests: u32, readers: u32) -> Result<Crew, NoMemory>
        requires { 0 < readers }
        ensures { IfOk result (IsCrew requests readers) }
    {
        let (claims, seats) = Claims::make(alloc, requests, readers)?;
        let count = readers as usize;
        let back = Vec::with_capacity(alloc, count)?;
        let readers = Vec::with_capacity(alloc, count)?;
        let left = Left {
            transcripts: Vec::with_capacity(alloc, count)?,
            replies: Vec::with_capacity(alloc, count)?,
        };
        Ok(Crew {
            claims,
            seats,
            back,
            readers,
            left,
        })
    }
}

/// Seats a reader for each row of passes, and lets all of them run beside each other.
pub fn seat_and_run<R: Threads + Wait + Sync, G: Gate + Sync>(
    rt: &R,
    alloc: Global,
    tables: &[Journaled<Frozen>],
    claims: &Claims,
    rows: Vec<Vec<Pass<Frozen>>>,
    seats: Vec<ClaimSeat>,
    readers: Vec<Reader>,
    procs: &Checked,
    requests: &[Request],
    gate: &G,
) -> Vec<Reader>
    requires some { 0 < length tables.now }
    requires readers { 0 < claims.now.seats }
    requires few { claims.now.seats < 2 ^ 32 }
    requires numbers { claims.now.n ≡ length requests.now }
    requires fit { AllByRecursion (λ r. Fits procs.now r.call) requests.now }
    requires dealt { (of : List Table) × AreDealt claims.now.seats of tables.now rows.items }
    requires seats { seats.items ≡ new_seats claims.now }
    requires room { HasRoom claims.now.seats readers }
    ensures { HaveLeft procs.now requests.now (length tables.now) (G.named gate.now) rows.items claims.now result.items }
{
    let mut readers = seated(alloc, rows, seats, readers);
    run_all(
        rt,
        alloc,
        tables,
        claims,
        procs,
        requests,
        gate,
        readers.as_mut_slice(),
    );
    readers
}

// A reader for each row of passes and its seat. There is room for them, and no memory is taken.
fn seated(
    alloc: Global,
    rows: Vec<Vec<Pass<Frozen>>>,
    seats: Vec<ClaimSeat>,
    mut readers: Vec<Reader>,
) -> Vec<Reader>
    requires rows { vec_len rows ≡ vec_len seats }
    requires few { vec_len seats < 2 ^ 32 }
    requires room { HasRoom (vec_len seats) readers }
    ensures { result.items ≡ readers_of 0 rows.items seats.items }
{
    let mut rows = rows.into_iter();
    let mut reader = 0;
    for seat in seats {
        let Some(passes) = rows.next() else {
            unreachable!()
        };
        readers.push_reserved(Reader {
            reader,
            passes,
            seat,
            transcript: Transcript {
                readings: Sequence::new(alloc),
                passed: Passes::new(),
            },
            replies: Sequence::new(alloc),
            is_done: false,
        });
        reader += 1;
    }
    readers
}

// Lets each reader run in a thread of its own; a single one runs on this thread.
fn run_all<R: Threads + Wait + Sync, G: Gate + Sync>(
    rt: &R,
    alloc: Global,
    tables: &[Journaled<Frozen>],
    claims: &Claims,
    procs: &Checked,
    requests: &[Request],
    gate: &G,
    readers: &mut [Reader],
)
    requires some { 0 < length tables.now }
    requires numbers { claims.now.n ≡ length requests.now }
    requires fit { AllByRecursion (λ r. Fits procs.now r.call) requests.now }
    requires readers { 0 < length readers.old }
    requires seated { All (IsSeated tables.now claims.now) readers.old }
    ensures count { length readers.new ≡ length readers.old }
    ensures each { LeavesEach procs.now requests.now (length tables.now) (G.named gate.now) readers.old readers.new }
{
    let threads = readers.len();
    if threads == 1 {
        readers[0].work_off(rt, alloc, tables, claims, procs, requests, gate);
        return;
    }
    thread::for_each_mut(
        rt,
        readers,
        threads,
        &|_, reader| {
            reader.work_off(rt, alloc, tables, claims, procs, requests, gate);
        },
    );
}

/// Whether each reader has read for all that it drew.
pub fn all_done(readers: &[Reader]) -> bool
    ensures { result ≡ true → All (λ (r : Seated). r.is_done ≡ true) readers.now }
{
    readers.iter().all(|reader| reader.is_done)
}

/// Takes the readers apart. There is room for all that is in them, and no memory is taken.
pub fn dismiss(
    readers: Vec<Reader>,
    rows: &mut Vec<Vec<Pass<Frozen>>>,
    seats: &mut Vec<ClaimSeat>,
    left: &mut Left,
)
    requires rows { HasRoom (vec_len readers) rows.old }
    requires seats { HasRoom (vec_len readers) seats.old }
    requires transcripts { HasRoom (vec_len readers) left.old.transcripts }
    requires replies { HasRoom (vec_len readers) left.old.replies }
    ensures rows { rows.new.items ≡ map (λ (r : Seated). r.passes) readers.items }
    ensures seats { seats.new.items ≡ map (λ (r : Seated). r.seat) readers.items }
    ensures transcripts { left.new.transcripts.items ≡ map (λ (r : Seated). r.transcript) readers.items }
    ensures replies { left.new.replies.items ≡ map (λ (r : Seated). r.replies) readers.items }
{
    for reader in readers {
        let Reader {
            reader: _,
            passes,
            seat,
            transcript,
            replies,
            is_done: _,
        } = reader;
        rows.push_reserved(passes);
        seats.push_reserved(seat);
        left.transcripts.push_reserved(transcript);
        left.replies.push_reserved(replies);
    }
}
