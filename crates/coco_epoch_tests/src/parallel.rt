//! Items that are turned, shards that go behind locks and come back, and whole epochs.

ghost use Rattle.std.specs.Prelude.{◌≡◌, ◌<◌, ◌≤◌, length, map, nat_eq, vec_len, IfOk};
ghost use Rattle.std.specs.List.{IsDistinct};
ghost use Rattle.coco_desks.specs.Desks.{HasRoom};
ghost use Rattle.coco_tail.specs.Running.{FitAll};

use crate::made::{Line, PUT, Work, answers, are_pieces, tables, three_shards, work_of};
use coco_ast::Checked;
use coco_copy::CopyTable;
use coco_desks::locks::{EndedLocks, close_all, start_all};
use coco_desks::rows::turn;
use coco_gate::{Gate, HoldGate, OpenGate};
use coco_journaled::Journal;
use coco_net::{Lose, Net, QuietNet, ScriptNet};
use coco_occ::{Transcript, Tried};
use coco_parallel::epoch::{EpochDone, run_epoch};
use coco_parallel::rooms::Rooms;
use coco_parallel::trace::Trace;
use coco_shard::Shard;
use coco_types::limits::MOST_BATCH_LINES;
use coco_types::{Done, Key, NoMemory, Request, Value};
use coco_worker::EpochConfig;
use std::alloc::Global;
use std::sync::Wait;
use std::test::Fail;
use std::thread::Threads;

const KEY: Key = Key { table: 0, row: 4 };

const FIVE: Key = Key { table: 0, row: 5 };

// Two workers on three nodes with two copies, who try each request once.
const ONE_ATTEMPT: EpochConfig = EpochConfig {
    epoch: 7,
    workers: 2,
    started: 2,
    attempts: 1,
    nodes: 3,
    copies: 2,
};

// A shard with this value.
fn shard_with(alloc: Global, value: i64) -> Result<Shard, NoMemory> {
    let mut shard = Shard::new(alloc);
    shard.load(KEY, Some(Value::Int(value)))?;
    Ok(shard)
}

// Puts into rows 4 to 7, of falling ids.
fn puts(alloc: Global) -> Result<Work, Fail>
    ensures few { IfOk result (λ work. length work.requests.items ≤ MOST_BATCH_LINES) }
    ensures distinct { IfOk result (λ work. IsDistinct nat_eq (map (λ r. r.id) work.requests.items)) }
    ensures fit { IfOk result (λ work. FitAll work.procs work.requests.items) }
{
    let lines: [(u64, Line<'_>); 4] = [
        (9, (1, &[4, 40], false)),
        (8, (1, &[5, 50], false)),
        (3, (1, &[6, 60], false)),
        (2, (1, &[7, 70], false)),
    ];
    work_of(alloc, &lines)
}

// Puts of four numbers into row 5.
fn puts_into_one_row(alloc: Global) -> Result<Work, Fail>
    ensures few { IfOk result (λ work. length work.requests.items ≤ MOST_BATCH_LINES) }
    ensures distinct { IfOk result (λ work. IsDistinct nat_eq (map (λ r. r.id) work.requests.items)) }
    ensures fit { IfOk result (λ work. FitAll work.procs work.requests.items) }
{
    let lines: [(u64, Line<'_>); 4] = [
        (9, (1, &[5, 40], false)),
        (8, (1, &[5, 50], false)),
        (3, (1, &[5, 60], false)),
        (2, (1, &[5, 70], false)),
    ];
    work_of(alloc, &lines)
}

// A put of 70 into row 5.
fn one_put(alloc: Global) -> Result<Work, Fail>
    ensures few { IfOk result (λ work. length work.requests.items ≤ MOST_BATCH_LINES) }
    ensures distinct { IfOk result (λ work. IsDistinct nat_eq (map (λ r. r.id) work.requests.items)) }
    ensures fit { IfOk result (λ work. FitAll work.procs work.requests.items) }
{
    work_of(alloc, &[(1, PUT)])
}

// An epoch of this number on three nodes with two copies, of whose workers so many are started.
fn config_of(epoch: u64, workers: u8, started: u8) -> EpochConfig
    ensures { result ≡ record { epoch = epoch; workers = workers; started = started; attempts = 3; nodes = 3; copies = 2 } }
{
    EpochConfig {
        epoch,
        workers,
        started,
        attempts: 3,
        nodes: 3,
        copies: 2,
    }
}

// The requests, run so through this gate, over this net and in these rooms.
fn ran<R: Threads + Wait + Sync, G: Gate + Sync, N: Net + Sync>(
    rt: &R,
    alloc: Global,
    procs: &Checked,
    requests: &mut [Request],
    config: EpochConfig,
    gate: &G,
    net: &N,
    rooms: &mut Rooms,
) -> Result<EpochDone, NoMemory>
    requires started { 0 < config.started }
    requires allowed { config.started ≤ config.workers }
    requires attempts { 0 < config.attempts }
    requires nodes { 0 < config.nodes }
    requires copies { config.copies ≡ 2 }
    requires few { length requests.old ≤ MOST_BATCH_LINES }
    requires fit { FitAll procs.now requests.old }
    requires distinct { IsDistinct nat_eq (map (λ r. r.id) requests.old) }
{
    let shards = three_shards(alloc)?;
    let tables = tables(alloc)?;
    match run_epoch(
        rt, alloc, shards, tables, procs, requests, config, gate, net, rooms,
    ) {
        Ok(done) => Ok(done),
        Err(_) => Err(NoMemory),
    }
}

// The puts, run by so many workers, of whom so many are started, through this gate and in these rooms.
fn ran_puts<R: Threads + Wait + Sync, G: Gate + Sync>(
    rt: &R,
    alloc: Global,
    workers: u8,
    started: u8,
    gate: &G,
    rooms: &mut Rooms,
) -> Result<EpochDone, Fail>
    requires some { 0 < started }
    requires allowed { started ≤ workers }
{
    let mut work = puts(alloc)?;
    let net = QuietNet::new(alloc);
    let requests = work.requests.as_mut_slice();
    let config = config_of(7, workers, started);
    let epoch = ran(rt, alloc, &work.procs, requests, config, gate, &net, rooms)?;
    Ok(epoch)
}

// The one put, run by one worker over this net.
fn ran_one_put<R: Threads + Wait + Sync, N: Net + Sync>(
    rt: &R,
    alloc: Global,
    net: &N,
) -> Result<EpochDone, Fail> {
    let mut work = one_put(alloc)?;
    let mut rooms = Rooms::new(alloc);
    let requests = work.requests.as_mut_slice();
    let config = config_of(1, 1, 1);
    let epoch = ran(
        rt,
        alloc,
        &work.procs,
        requests,
        config,
        &OpenGate,
        net,
        &mut rooms,
    )?;
    Ok(epoch)
}

// Whether four puts of different rows stand at time 1, by id, with their pieces and with what copies have of row 5.
fn stands(epoch: &EpochDone) -> bool {
    are_done(epoch.dones.as_slice())
        && are_pieces(
            epoch.pieces.as_slice(),
            &[(3, 1, 1), (2, 0, 1), (1, 2, 1), (0, 1, 1)],
        )
        && have_early(epoch.copies.as_slice(), Some(50))
}

fn are_done(dones: &[Done]) -> bool {
    let ids = [2, 3, 8, 9];
    dones.len() == ids.len()
        && dones.iter().zip(&ids).all(|(done, id)| done.id == *id
            && done.epoch == 7
            && done.time == 1)
}

// Whether one put of 70 was answered, at time 1 of epoch 1.
fn is_answered(dones: &[Done]) -> bool {
    match dones {
        [put] => (put.id, put.epoch, put.time) == (1, 1, 1) && answers(put, Some(70)),
        _ => false,
    }
}

// Whether the copies of partition 2 alone have row 5 as this number, at time 1; or no copy has it.
fn have_early(copies: &[CopyTable], number: Option<i64>) -> bool {
    copies.len() == 6
        && copies.iter().enumerate().all(|(table, copy)| has_early(
            copy,
            number.filter(|_| table >= 4),
        ))
}

fn has_early(copy: &CopyTable, number: Option<i64>) -> bool {
    match copy.pending(FIVE) {
        Some((time, Some(Value::Int(found)))) => time == 1 && number == Some(found),
        Some(_) => false,
        None => number.is_none(),
    }
}

// Whether the journals of the locks of partition 2 have so many entries each, and the others none.
fn are_as_long(journals: &[Journal<CopyTable>], count: usize) -> bool {
    journals.len() == 6
        && journals.iter().enumerate().all(|(table, journal)| journal.len()
            == if table >= 4 { count } else { 0 })
}

// Whether two rows of two items are turned into these columns.
fn is_turned(alloc: Global) -> Result<bool, NoMemory> {
    let mut rows = [vec![in alloc; 1, 2]?, vec![in alloc; 3, 4]?];
    let mut columns = [Vec::with_capacity(alloc, 2)?, Vec::with_capacity(alloc, 2)?];
    turn(rows.as_mut_slice(), columns.as_mut_slice());
    Ok(
        rows[0].is_empty()
            && rows[1].is_empty()
            && columns[0].as_slice() == [1, 3].as_slice()
            && columns[1].as_slice() == [2, 4].as_slice(),
    )
}

#[test]
fn each_column_gets_its_items_row_after_row(rt: HostRuntime) -> Result<(), Fail> {
    let is_well = is_turned(rt.alloc())?;
    assert!(rt; is_well);
    Ok(())
}

// Two shards with the values 7 and 8.
fn loaded(alloc: Global) -> Result<Vec<Shard>, NoMemory>
    ensures { IfOk result (λ shards. vec_len shards ≡ 2) }
{
    let mut shards = Vec::with_capacity(alloc, 2)?;
    shards.push(shard_with(alloc, 7)?)?;
    shards.push(shard_with(alloc, 8)?)?;
    Ok(shards)
}

// Room for what two locks leave.
fn room_for_two(alloc: Global) -> Result<EndedLocks<Shard>, NoMemory>
    ensures machines { IfOk result (λ room. HasRoom 2 room.machines) }
    ensures journals { IfOk result (λ room. HasRoom 2 room.journals) }
{
    Ok(EndedLocks {
        machines: Vec::with_capacity(alloc, 2)?,
        journals: Vec::with_capacity(alloc, 2)?,
        lists: Vec::with_capacity(alloc, 2)?,
    })
}

// What two shards leave that went behind locks of three passes.
fn come_back(alloc: Global, shards: Vec<Shard>) -> Result<EndedLocks<Shard>, NoMemory>
    requires { vec_len shards ≡ 2 }
{
    let mut ended = room_for_two(alloc)?;
    let Ok(started) = start_all(alloc, shards, 3, &mut Vec::new(alloc)) else {
        return Err(NoMemory);
    };
    close_all(started.locks, started.trays, &mut ended);
    Ok(ended)
}

fn has_value(shard: &Shard, value: i64) -> bool {
    shard.stable(KEY) == Some(Value::Int(value))
}

fn are_in_order(alloc: Global) -> Result<bool, NoMemory> {
    let ended = come_back(alloc, loaded(alloc)?)?;
    let are_same = match ended.machines.as_slice() {
        [first, second] => has_value(first, 7) && has_value(second, 8),
        _ => false,
    };
    Ok(are_same && ended.journals.len() == 2)
}

#[test]
fn shards_come_back_from_their_locks_in_order(rt: HostRuntime) -> Result<(), Fail> {
    let is_well = are_in_order(rt.alloc())?;
    assert!(rt; is_well);
    Ok(())
}

// Whether the puts stand that so many of these workers run in new rooms, and the others leave nothing.
fn stand_by<R: Threads + Wait + Sync>(
    rt: &R,
    alloc: Global,
    workers: u8,
    started: u8,
) -> Result<bool, Fail>
    requires some { 0 < started }
    requires allowed { started ≤ workers }
{
    let mut rooms = Rooms::new(alloc);
    let epoch = ran_puts(rt, alloc, workers, started, &OpenGate, &mut rooms)?;
    let transcripts = epoch.trace.transcripts.as_slice();
    Ok(
        stands(&epoch)
            && epoch.trace.tail.is_empty()
            && transcripts.len() == usize::from(workers)
            && transcripts
                .iter()
                .skip(usize::from(started))
                .all(|transcript| transcript.is_empty()),
    )
}

#[test]
fn workers_commit_puts_into_four_rows_at_time_1(rt: HostRuntime) -> Result<(), Fail> {
    let alone = stand_by(&rt, rt.alloc(), 1, 1)?;
    let both = stand_by(&rt, rt.alloc(), 2, 2)?;
    let one_of_four = stand_by(&rt, rt.alloc(), 4, 1)?;
    assert!(rt; alone && both && one_of_four);
    Ok(())
}

fn keep(rooms: &mut Rooms, epoch: EpochDone) {
    rooms.keep(epoch.trace, epoch.copy_journals);
}

// Whether the puts stand by two workers in these rooms, who met at their first attempts.
fn meet<R: Threads + Wait + Sync>(rt: &R, alloc: Global, rooms: &mut Rooms) -> Result<bool, Fail> {
    let gate = HoldGate::new(10_000_000);
    let epoch = ran_puts(rt, alloc, 2, 2, &gate, rooms)?;
    let is_well = stands(&epoch) && gate.met();
    keep(rooms, epoch);
    Ok(is_well)
}

// Whether they stand by one of two.
fn goes_alone<R: Threads + Wait + Sync>(
    rt: &R,
    alloc: Global,
    rooms: &mut Rooms,
) -> Result<bool, Fail> {
    let epoch = ran_puts(rt, alloc, 2, 1, &OpenGate, rooms)?;
    let is_well = stands(&epoch);
    keep(rooms, epoch);
    Ok(is_well)
}

#[test]
fn workers_meet_in_each_epoch_whoever_left_the_rooms(rt: HostRuntime) -> Result<(), Fail> {
    let alloc = rt.alloc();
    let mut rooms = Rooms::new(alloc);
    let first = meet(&rt, alloc, &mut rooms)?;
    let left = rooms.of_locks();
    let second = meet(&rt, alloc, &mut rooms)?;
    let third = meet(&rt, alloc, &mut rooms)?;
    let alone = goes_alone(&rt, alloc, &mut rooms)?;
    let last = meet(&rt, alloc, &mut rooms)?;
    assert!(rt; first && second && third && alone && last);
    assert!(rt; left == (3, 6) && rooms.of_locks() == left);
    Ok(())
}

// Whether a script of this place committed.
fn is_committed(transcripts: &[Transcript], place: u32) -> bool {
    transcripts
        .iter()
        .any(|transcript| has_commit(transcript.as_slice(), place))
}

fn has_commit(scripts: &[Tried], place: u32) -> bool {
    scripts.iter().any(|tried| tried.place == place && tried.outcome.commit().is_some())
}

// Whether the tail has, of four puts, those that no script committed, in order, each with the end of its one attempt.
fn tells_tail(trace: &Trace) -> bool {
    let mut entries = trace.tail.as_slice().iter();
    for (place, id) in [(0, 9), (1, 8), (2, 3), (3, 2)] {
        if !is_committed(trace.transcripts.as_slice(), place) {
            match entries.next() {
                Some(entry) if entry.id == id && entry.ends.len() == 1 => {}
                _ => return false,
            }
        }
    }
    entries.next().is_none()
}

// Whether two workers who try each of the puts into one row once, and meet, tell their tail, whatever it has.
fn is_tail_told<R: Threads + Wait + Sync>(
    rt: &R,
    alloc: Global,
    rooms: &mut Rooms,
) -> Result<bool, Fail> {
    let mut work = puts_into_one_row(alloc)?;
    let requests = work.requests.as_mut_slice();
    let gate = HoldGate::new(10_000_000);
    let net = QuietNet::new(alloc);
    let epoch = ran(
        rt,
        alloc,
        &work.procs,
        requests,
        ONE_ATTEMPT,
        &gate,
        &net,
        rooms,
    )?;
    let is_well = epoch.dones.len() == 4 && tells_tail(&epoch.trace);
    keep(rooms, epoch);
    Ok(is_well)
}

#[test]
fn requests_that_no_attempt_committed_are_the_tail(rt: HostRuntime) -> Result<(), Fail> {
    let mut rooms = Rooms::new(rt.alloc());
    for _ in 0..20u8 {
        let is_well = is_tail_told(&rt, rt.alloc(), &mut rooms)?;
        assert!(rt; is_well);
    }
    Ok(())
}

// Whether the one put is answered over this net, and the copies have early this number of it.
fn is_put<R: Threads + Wait + Sync, N: Net + Sync>(
    rt: &R,
    alloc: Global,
    net: &N,
    number: Option<i64>,
) -> Result<bool, Fail> {
    let epoch = ran_one_put(rt, alloc, net)?;
    let count = usize::from(number.is_some());
    Ok(
        is_answered(epoch.dones.as_slice())
            && have_early(epoch.copies.as_slice(), number)
            && are_as_long(epoch.copy_journals.as_slice(), count),
    )
}

#[test]
fn copies_have_early_what_the_net_carries_and_the_answer_is_the_same(
    rt: HostRuntime,
) -> Result<(), Fail> {
    let alloc = rt.alloc();
    let lossy = ScriptNet::new(alloc, Lose::FirstSend, true, 2);
    let carried = is_put(&rt, alloc, &QuietNet::new(alloc), Some(70))?;
    let lost = is_put(&rt, alloc, &lossy, None)?;
    assert!(rt; carried && lost);
    Ok(())
}
