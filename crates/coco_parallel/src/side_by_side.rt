//! The requests of an epoch, worked off by workers side by side.

ghost use Rattle.std.specs.Prelude.{◌≡◌, ◌*◌, ◌<◌, ◌≤◌, List, true, length, vec_len, IfOk, IfErr};
ghost use Rattle.std.specs.List.{AllByRecursion};
ghost use Rattle.coco_ast.specs.Fitting.{Fits};
ghost use Rattle.coco_ast.specs.Keyed.{Rows};
ghost use Rattle.coco_copy.specs.CopyState.{CopyState};
ghost use Rattle.coco_desks.specs.Desks.{AreBackBy, AreDealt, IsOpen};
ghost use Rattle.coco_tail.specs.Shards.{AreSettled, SettleOn};
ghost use Rattle.coco_shard.specs.RowState.{ShardState, stable_at};
ghost use Rattle.coco_parallel.specs.Closing.{HasAllBack};
ghost use Rattle.coco_parallel.specs.Stations.{IsCrew};
ghost use Rattle.coco_parallel.specs.Worked.{HaveWorked, KeepValues, begun_all, emptied, start_of};

use crate::rooms::Rooms;
use crate::stations::{Left, all_done, dismiss, man};
use crate::workers::{Station, run_all};
use coco_ast::Checked;
use coco_claim::{ClaimSeat, Claims};
use coco_copy::CopyTable;
use coco_desks::desks::{Desk, close, open};
use coco_desks::locks::EndedLocks;
use coco_gate::Gate;
use coco_journaled::{Journal, Pass};
use coco_net::Net;
use coco_occ::Transcript;
use coco_order::laws::closed_journals_are_lawful;
use coco_packs::Packs;
use coco_shard::Shard;
use coco_tail::revert_all;
use coco_types::limits::{MOST_BATCH_LINES, MOST_PARTITIONS};
use coco_types::{NoMemory, Pieces, Request};
use coco_worker::EpochConfig;
use std::alloc::Global;
use std::sync::Wait;
use std::thread::Threads;

/// What workers came to: the shards and the copies with the journals of their locks, and what each worker kept.
#[derive(Drop)]
pub struct WorkersEnd {
    pub shards: Vec<Shard>,
    pub journals: Vec<Journal<Shard>>,
    pub copies: Vec<CopyTable>,
    pub copy_journals: Vec<Journal<CopyTable>>,
    pub transcripts: Vec<Transcript>,
    pub pieces: Vec<Pieces>,
}

/// The shards and the copies of an epoch for which there was no memory.
#[derive(Drop)]
pub struct EpochRefused {
    pub shards: Vec<Shard>,
    pub copies: Vec<CopyTable>,
}

// The locks of the shards and of the copies, and their passes by workers.
#[derive(Drop)]
struct Desks {
    shards: Desk<Shard>,
    copies: Desk<CopyTable>,
    rows: Vec<Vec<Pass<Shard>>>,
    copy_rows: Vec<Vec<Pass<CopyTable>>>,
}

// The claims with their seats, and the room for stations and for what workers leave.
#[derive(Drop)]
struct Crew {
    claims: Claims,
    seats: Vec<ClaimSeat>,
    back: Vec<ClaimSeat>,
    stations: Vec<Station>,
    left: Left,
}

/// Lets the workers that are started work off the requests of an epoch side by side, each in a thread of its own. The
/// copies begin the epoch. Out of memory, the shards are as they were handed in, and so are the copies but for what
/// pended in them.
pub fn run_workers<R: Threads + Wait + Sync, G: Gate + Sync, N: Net + Sync>(
    rt: &R,
    alloc: Global,
    shards: Vec<Shard>,
    mut copies: Vec<CopyTable>,
    procs: &Checked,
    requests: &[Request],
    config: EpochConfig,
    gate: &G,
    net: &N,
    rooms: &mut Rooms,
) -> Result<WorkersEnd, EpochRefused>
    requires some { 0 < length shards.items }
    requires most { length shards.items ≤ MOST_PARTITIONS }
    requires tables { length copies.items ≡ length shards.items * config.copies }
    requires settled { AreSettled shards.items }
    requires workers { 0 < config.started }
    requires attempts { 0 < config.attempts }
    requires nodes { 0 < config.nodes }
    requires few { length requests.now ≤ MOST_BATCH_LINES }
    requires fit { AllByRecursion (λ r. Fits procs.now r.call) requests.now }
    ensures worked { IfOk result (λ w. (opening : Rows) →
        HaveWorked (start_of procs.now opening requests.now shards.items config (N.carries net.now)) (begun_all config.epoch copies.items)
        w.shards.items w.journals.items w.copies.items w.copy_journals.items w.transcripts.items w.pieces.items) }
    ensures shards { IfErr result (λ refused. refused.shards.items ≡ shards.items) }
    ensures copies { IfErr result (λ refused. refused.copies.items ≡ begun_all config.epoch copies.items) }
{
    begin_all(copies.as_mut_slice(), config.epoch);
    let workers = config.started as u32;
    let Ok(crew) = Crew::of(alloc, requests.len() as u32, workers) else {
        return Err(taken_back(shards, copies));
    };
    let desks = match open_both(alloc, shards, copies, workers, rooms) {
        Ok(desks) => desks,
        Err(EpochRefused { shards, copies }) => return Err(taken_back(shards, copies)),
    };
    let (worked, done) = run_crew(
        rt, alloc, desks, crew, procs, requests, config, gate, net, rooms,
    );
    if done {
        Ok(worked)
    } else {
        Err(taken_back(worked.shards, worked.copies))
    }
}

// Lets the workers run at their locks, closes these, and says whether all is done.
fn run_crew<R: Threads + Wait + Sync, G: Gate + Sync, N: Net + Sync>(
    rt: &R,
    alloc: Global,
    desks: Desks,
    crew: Crew,
    procs: &Checked,
    requests: &[Request],
    config: EpochConfig,
    gate: &G,
    net: &N,
    rooms: &mut Rooms,
) -> (WorkersEnd, bool)
    requires shards { (machines : List ShardState) × IsOpen config.started machines desks.shards.locks desks.shards.trays desks.shards.back desks.shards.ended.machines desks.shards.ended.journals desks.rows.items }
    requires copies { (tables : List CopyState) × IsOpen config.started tables desks.copies.locks desks.copies.trays desks.copies.back desks.copies.ended.machines desks.copies.ended.journals desks.copy_rows.items }
    requires crew { IsCrew (length requests.now) config.started crew.claims crew.seats crew.back crew.stations crew.left }
    requires some { 0 < length desks.shards.locks.items }
    requires most { length desks.shards.locks.items ≤ MOST_PARTITIONS }
    requires tables { length desks.copies.locks.items ≡ length desks.shards.locks.items * config.copies }
    requires workers { 0 < config.started }
    requires attempts { 0 < config.attempts }
    requires nodes { 0 < config.nodes }
    requires fit { AllByRecursion (λ r. Fits procs.now r.call) requests.now }
    ensures worked { (machines : List ShardState) (tables : List CopyState) → AreDealt config.started machines desks.shards.locks.items desks.rows.items → AreDealt config.started tables desks.copies.locks.items desks.copy_rows.items
        → result.1 ≡ true → (opening : Rows) →
        HaveWorked (start_of procs.now opening requests.now machines config (N.carries net.now)) tables
        result.0.shards.items result.0.journals.items result.0.copies.items result.0.copy_journals.items result.0.transcripts.items result.0.pieces.items }
    ensures shards { (machines : List ShardState) → AreDealt config.started machines desks.shards.locks.items desks.rows.items → AreSettled machines → KeepValues machines result.0.shards.items }
    ensures copies { (tables : List CopyState) → AreDealt config.started tables desks.copies.locks.items desks.copy_rows.items → emptied result.0.copies.items ≡ emptied tables }
{
    let Desks {
        mut shards,
        mut copies,
        rows,
        copy_rows,
    } = desks;
    let Crew {
        claims,
        seats,
        mut back,
        stations,
        mut left,
    } = crew;
    let mut stations = man(alloc, rows, copy_rows, seats, stations, rooms);
    run_all(
        rt,
        alloc,
        &shards.locks,
        &copies.locks,
        &claims,
        procs,
        requests,
        config,
        gate,
        net,
        stations.as_mut_slice(),
    );
    let done = all_done(&stations);
    dismiss(
        stations,
        &mut shards.back,
        &mut copies.back,
        &mut back,
        &mut left,
    );
    if done {
        claims.close(back);
    }
    closed_journals_are_lawful();
    (worked_of(closed(shards), closed(copies), left, rooms), done)
}

// What the locks of a desk leave whose rows are all back.
fn closed<M: Packs + Drop>(desk: Desk<M>) -> EndedLocks<M>
    requires { HasAllBack desk.locks desk.trays desk.back desk.ended.machines desk.ended.journals }
    ensures { AreBackBy M.answer_to M.state_after desk.back.items (vec_len desk.locks) result.machines.items result.journals.items }
{
    close(desk)
}

// What the workers came to. The lists of the locks and what is left of the scripts' rooms are left to the rooms.
fn worked_of(
    shards: EndedLocks<Shard>,
    copies: EndedLocks<CopyTable>,
    left: Left,
    rooms: &mut Rooms,
) -> WorkersEnd
    ensures { result ≡ record { shards = shards.machines; journals = shards.journals; copies = copies.machines; copy_journals = copies.journals; transcripts = left.transcripts; pieces = left.pieces } }
{
    let Left {
        scripts,
        transcripts,
        pieces,
    } = left;
    rooms.scripts = scripts;
    rooms.shard_lists = shards.lists;
    rooms.copy_lists = copies.lists;
    WorkersEnd {
        shards: shards.machines,
        journals: shards.journals,
        copies: copies.machines,
        copy_journals: copies.journals,
        transcripts,
        pieces,
    }
}

impl Crew {
    fn of(alloc: Global, requests: u32, workers: u32) -> Result<Crew, NoMemory>
        requires { 0 < workers }
        ensures { IfOk result (λ crew. IsCrew requests workers crew.claims crew.seats crew.back crew.stations crew.left) }
    {
        let (claims, seats) = Claims::make(alloc, requests, workers)?;
        let count = workers as usize;
        let back = Vec::with_capacity(alloc, count)?;
        let stations = Vec::with_capacity(alloc, count)?;
        let left = Left {
            scripts: Vec::with_capacity(alloc, count)?,
            transcripts: Vec::with_capacity(alloc, count)?,
            pieces: Vec::with_capacity(alloc, count)?,
        };
        Ok(Crew {
            claims,
            seats,
            back,
            stations,
            left,
        })
    }
}

// Puts the shards and the copies behind their locks, or gives them back where there is no memory.
fn open_both(
    alloc: Global,
    shards: Vec<Shard>,
    copies: Vec<CopyTable>,
    workers: u32,
    rooms: &mut Rooms,
) -> Result<Desks, EpochRefused>
    requires workers { 0 < workers }
    requires settled { AreSettled shards.items }
    ensures shards { IfOk result (λ d. IsOpen workers shards.items d.shards.locks d.shards.trays d.shards.back d.shards.ended.machines d.shards.ended.journals d.rows.items) }
    ensures copies { IfOk result (λ d. IsOpen workers copies.items d.copies.locks d.copies.trays d.copies.back d.copies.ended.machines d.copies.ended.journals d.copy_rows.items) }
    ensures shards_back { IfErr result (λ refused. KeepValues shards.items refused.shards.items) }
    ensures copies_back { IfErr result (λ refused. refused.copies.items ≡ copies.items) }
{
    let (shards, rows) = match open(alloc, shards, workers, &mut rooms.shards) {
        Ok(opened) => opened,
        Err(shards) => return Err(EpochRefused { shards, copies }),
    };
    match open(alloc, copies, workers, &mut rooms.copies) {
        Ok((copies, copy_rows)) => Ok(Desks {
            shards,
            copies,
            rows,
            copy_rows,
        }),
        Err(copies) => Err(EpochRefused {
            shards: close_unused(shards, rows),
            copies,
        }),
    }
}

// The shards of locks by which nothing was done.
fn close_unused(desk: Desk<Shard>, rows: Vec<Vec<Pass<Shard>>>) -> Vec<Shard>
    requires { (machines : List ShardState) × IsOpen (vec_len rows) machines desk.locks desk.trays desk.back desk.ended.machines desk.ended.journals rows.items × (0 < vec_len rows) }
    ensures { (machines : List ShardState) → AreDealt (vec_len rows) machines desk.locks.items rows.items → AreSettled machines → KeepValues machines result.items }
{
    let Desk {
        locks,
        trays,
        back: _,
        ended,
    } = desk;
    let desk = Desk {
        locks,
        trays,
        back: rows,
        ended,
    };
    closed_journals_are_lawful();
    closed(desk).machines
}

// Begins an epoch on each copy.
pub(crate) fn begin_all(copies: &mut [CopyTable], epoch: u64)
    ensures { copies.new ≡ begun_all epoch copies.old }
{
    for place in 0..copies.len() {
        copies[place].begin(epoch);
    }
}

// Takes back all that was done to the shards and to the copies.
pub(crate) fn taken_back(mut shards: Vec<Shard>, mut copies: Vec<CopyTable>) -> EpochRefused
    ensures shards { SettleOn stable_at shards.items result.shards.items }
    ensures copies { result.copies.items ≡ emptied copies.items }
{
    revert_all(shards.as_mut_slice());
    revert_copies(copies.as_mut_slice());
    EpochRefused { shards, copies }
}

fn revert_copies(copies: &mut [CopyTable])
    ensures { copies.new ≡ emptied copies.old }
{
    for place in 0..copies.len() {
        copies[place].revert();
    }
}
