//! The answers of a batch of calls, by several readers on the same tables.

ghost use Rattle.std.specs.Prelude.{◌≡◌, ◌<◌, ◌^◌, List, true, length, IfOk, IfErr};
ghost use Rattle.std.specs.List.{AllByRecursion};
ghost use Rattle.coco_ast.specs.Fitting.{Fits};
ghost use Rattle.coco_desks.specs.Desks.{AreDealt, IsOpen};
ghost use Rattle.coco_query.specs.Answers.{HaveRead};
ghost use Rattle.coco_query.specs.Crews.{IsCrew};
ghost use Rattle.coco_query.specs.Frozen.{after_ask, answer_in};
ghost use Rattle.coco_query.specs.Placing.{HaveRun, blanks, put_lists};
ghost use Rattle.coco_query.specs.declared.frozen.Frozen.{Frozen as Table};

use crate::crew::{Crew, all_done, dismiss, seat_and_run};
use crate::frozen::Frozen;
use crate::readers::{Replied, Transcript};
use coco_ast::Checked;
use coco_desks::desks::{Desk, close, open};
use coco_gate::Gate;
use coco_journaled::{Journal, Pass};
use coco_types::{KeptReply, NoMemory, Packed, Request, Sequence};
use std::alloc::Global;
use std::sync::Wait;
use std::thread::Threads;

/// What readers came to: the tables, the journals of their locks, what each reader did, and each request's reply.
#[derive(Drop)]
pub struct Answered {
    pub tables: Vec<Frozen>,
    pub journals: Vec<Journal<Frozen>>,
    pub transcripts: Vec<Transcript>,
    pub replies: Vec<KeptReply>,
}

/// What readers came to, their replies as they left them.
#[derive(Drop)]
pub struct ReadersEnd {
    pub tables: Vec<Frozen>,
    pub journals: Vec<Journal<Frozen>>,
    pub transcripts: Vec<Transcript>,
    pub replies: Vec<Sequence<Replied>>,
}

/// Runs each request's call on tables that never change, by readers side by side. Each reader draws requests until none
/// is left, and passes the gate's point 1 before each and point 2 behind it. A single one runs on this thread. The
/// replies stand in the requests' order, and the tables come back as they were, out of memory too.
pub fn answers<R: Threads + Wait + Sync, G: Gate + Sync>(
    rt: &R,
    alloc: Global,
    tables: Vec<Frozen>,
    procs: &Checked,
    requests: &[Request],
    readers: u8,
    gate: &G,
) -> Result<Answered, (Vec<Frozen>, NoMemory)>
    requires some { 0 < length tables.items }
    requires readers { 0 < readers }
    requires few { length requests.now < 2 ^ 32 }
    requires fit { AllByRecursion (λ r. Fits procs.now r.call) requests.now }
    ensures read { IfOk result (HaveRead procs.now requests.now (G.named gate.now) readers tables.items) }
    ensures back { IfErr result (λ e. e.0.items ≡ tables.items) }
{
    let readers = u32::from(readers);
    let Ok(crew) = Crew::of(alloc, requests.len() as u32, readers) else {
        return Err((tables, NoMemory));
    };
    let mut rooms = Vec::new(alloc);
    let (desk, rows) = match open(alloc, tables, readers, &mut rooms) {
        Ok(opened) => opened,
        Err(tables) => return Err((tables, NoMemory)),
    };
    let (ran, done) = run_crew(rt, alloc, desk, rows, crew, procs, requests, gate);
    let ReadersEnd {
        tables,
        journals,
        transcripts,
        replies,
    } = ran;
    if !done {
        return Err((tables, NoMemory));
    }
    match in_order(alloc, requests.len(), replies) {
        Ok(replies) => Ok(Answered {
            tables,
            journals,
            transcripts,
            replies,
        }),
        Err(NoMemory) => Err((tables, NoMemory)),
    }
}

// Lets the readers run at the tables' locks, closes these, and says whether all is done.
fn run_crew<R: Threads + Wait + Sync, G: Gate + Sync>(
    rt: &R,
    alloc: Global,
    mut desk: Desk<Frozen>,
    rows: Vec<Vec<Pass<Frozen>>>,
    crew: Crew,
    procs: &Checked,
    requests: &[Request],
    gate: &G,
) -> (ReadersEnd, bool)
    requires open { (tables : List Table) × IsOpen crew.claims.seats tables desk.locks desk.trays desk.back desk.ended.machines desk.ended.journals rows.items }
    requires crew { IsCrew (length requests.now) crew.claims.seats crew }
    requires some { 0 < length desk.locks.items }
    requires readers { 0 < crew.claims.seats }
    requires fit { AllByRecursion (λ r. Fits procs.now r.call) requests.now }
    ensures ran { (tables : List Table) → AreDealt crew.claims.seats tables desk.locks.items rows.items → result.1 ≡ true
        → HaveRun procs.now requests.now (G.named gate.now) crew.claims.seats tables result.0 }
    ensures back { (tables : List Table) → AreDealt crew.claims.seats tables desk.locks.items rows.items → result.0.tables.items ≡ tables }
{
    let Crew {
        claims,
        seats,
        mut back,
        readers,
        mut left,
    } = crew;
    let readers = seat_and_run(
        rt,
        alloc,
        &desk.locks,
        &claims,
        rows,
        seats,
        readers,
        procs,
        requests,
        gate,
    );
    let done = all_done(&readers);
    dismiss(readers, &mut desk.back, &mut back, &mut left);
    if done {
        claims.close(back);
    }
    let ended = close(desk);
    let ran = ReadersEnd {
        tables: ended.machines,
        journals: ended.journals,
        transcripts: left.transcripts,
        replies: left.replies,
    };
    (ran, done)
}

// The replies of so many requests, each at its place.
fn in_order(
    alloc: Global,
    count: usize,
    replies: Vec<Sequence<Replied>>,
) -> Result<Vec<KeptReply>, NoMemory>
    ensures { IfOk result (λ ordered. ordered.items ≡ put_lists (blanks count) replies.items) }
{
    let mut ordered = Vec::with_capacity(alloc, count)?;
    for _ in 0..count {
        ordered.push_reserved(KeptReply::answered(Packed::none()));
    }
    for list in replies {
        for replied in list.into_vec() {
            let Replied { place, reply } = replied;
            let place = place as usize;
            if place < ordered.len() {
                ordered[place] = reply;
            }
        }
    }
    Ok(ordered)
}
