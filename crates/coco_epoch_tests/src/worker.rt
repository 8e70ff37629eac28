//! Worker 0 alone, in one attempt for each request, over three partitions with two copies each.

ghost use Rattle.std.specs.Prelude.{◌≡◌, ◌<◌, length, vec_len, IfOk};
ghost use Rattle.coco_desks.specs.Gains.{AreOf};
ghost use Rattle.coco_tail.specs.Running.{FitAll};

use crate::made::{Line, PUT, are_pieces, tables, three_shards, work_of};
use coco_ast::Checked;
use coco_claim::{ClaimSeat, Claims};
use coco_copy::CopyTable;
use coco_desks::desks::open;
use coco_gate::{OpenGate, Passes};
use coco_journaled::{Journaled, Pass};
use coco_net::{Lose, Net, QuietNet, ScriptNet};
use coco_occ::{Ended, Outcome, ScriptRooms, Tailed, Transcript, Tried, Why};
use coco_packs::Packs;
use coco_shard::{Ask, Op, Shard};
use coco_types::{AttemptId, Key, NoMemory, Pieces, Request};
use coco_worker::{EpochConfig, Slot, Tail, work};
use std::alloc::Global;
use std::sync::Wait;
use std::test::Fail;

const EPOCH: EpochConfig = EpochConfig {
    epoch: 7,
    workers: 1,
    started: 1,
    attempts: 1,
    nodes: 3,
    copies: 2,
};

// An attempt of another worker.
const OTHER: AttemptId = AttemptId {
    worker: 1,
    number: 0,
};

const GET_FOUR: Line<'static> = (0, &[4], false);

// Machines behind locks, and two passes of each.
#[derive(Drop)]
struct Desk<M: Packs + Drop> {
    locks: Vec<Journaled<M>>,
    passes: Vec<Pass<M>>,
    others: Vec<Pass<M>>,
}

fn opened<M: Packs + Drop>(alloc: Global, machines: Vec<M>) -> Result<Desk<M>, NoMemory>
    ensures of { IfOk result (λ desk. AreOf desk.locks.items desk.passes.items) }
    ensures others { IfOk result (λ desk. AreOf desk.locks.items desk.others.items) }
    ensures count { IfOk result (λ desk. vec_len desk.locks ≡ vec_len machines) }
{
    let Ok((desk, mut rows)) = open(alloc, machines, 2, &mut Vec::new(alloc)) else {
        return Err(NoMemory);
    };
    let (Some(others), Some(passes)) = (rows.pop(), rows.pop()) else {
        unreachable!()
    };
    Ok(Desk {
        locks: desk.locks,
        passes,
        others,
    })
}

fn begun_tables(alloc: Global) -> Result<Vec<CopyTable>, NoMemory>
    ensures { IfOk result (λ tables. length tables.items ≡ 6) }
{
    let mut tables = tables(alloc)?;
    for table in 0..tables.len() {
        tables[table].begin(EPOCH.epoch);
    }
    Ok(tables)
}

// A mark of the other worker on the row, by another pass of its shard.
fn mark(
    rt: &impl Wait,
    locks: &[Journaled<Shard>],
    passes: &mut [Pass<Shard>],
    key: Key,
) -> Result<(), NoMemory>
    requires of { AreOf locks.now passes.old }
    requires some { 0 < length locks.now }
{
    let ask = Ask {
        by: OTHER,
        op: Op::Lock(key),
    };
    let place = key.partition(locks.len());
    locks[place].step(rt, &mut passes[place], ask)?;
    Ok(())
}

// Claims of the requests, and their only seat.
fn claims_of(alloc: Global, requests: &[Request]) -> Result<(Claims, ClaimSeat), Fail>
    ensures count { IfOk result (λ made. made.0.n ≡ length requests.now) }
    ensures seat { IfOk result (λ made. made.1.claims ≡ made.0) }
{
    let Ok(count) = u32::try_from(requests.len()) else {
        return Err("too many".into());
    };
    let (claims, mut seats) = Claims::make(alloc, count, 1)?;
    let Some(seat) = seats.pop() else {
        unreachable!()
    };
    Ok((claims, seat))
}

fn slot(
    alloc: Global,
    passes: Vec<Pass<Shard>>,
    copy_passes: Vec<Pass<CopyTable>>,
    seat: ClaimSeat,
) -> Slot
    ensures passes { result.passes ≡ passes }
    ensures copies { result.copy_passes ≡ copy_passes }
    ensures seat { result.seat ≡ seat }
{
    Slot {
        worker: 0,
        passes,
        copy_passes,
        seat,
        rooms: ScriptRooms::new(alloc),
        transcript: Transcript::new(alloc),
        pieces: Pieces::new(alloc),
        tail: Tail::new(alloc),
        passed: Passes::new(),
    }
}

// What the worker did for the lines. The other attempt's mark stands on the row, if one is given.
fn worked<N: Net>(rt: &impl Wait, alloc: Global, net: &N, case: &Case<'_>) -> Result<Slot, Fail> {
    let work = work_of(alloc, case.lines)?;
    worked_off(rt, alloc, net, &work.procs, &work.requests, case.marked)
}

fn worked_off<N: Net>(
    rt: &impl Wait,
    alloc: Global,
    net: &N,
    procs: &Checked,
    requests: &[Request],
    marked: Option<Key>,
) -> Result<Slot, Fail>
    requires { FitAll procs.now requests.now }
{
    let mut shards = opened(alloc, three_shards(alloc)?)?;
    if let Some(key) = marked {
        mark(rt, &shards.locks, shards.others.as_mut_slice(), key)?;
    }
    let copies = opened(alloc, begun_tables(alloc)?)?;
    worked_at(rt, alloc, net, procs, requests, shards, copies)
}

fn worked_at<N: Net>(
    rt: &impl Wait,
    alloc: Global,
    net: &N,
    procs: &Checked,
    requests: &[Request],
    shards: Desk<Shard>,
    copies: Desk<CopyTable>,
) -> Result<Slot, Fail>
    requires fit { FitAll procs.now requests.now }
    requires shards { AreOf shards.locks.items shards.passes.items }
    requires copies { AreOf copies.locks.items copies.passes.items }
    requires three { vec_len shards.locks ≡ 3 }
    requires six { vec_len copies.locks ≡ 6 }
{
    let (claims, seat) = claims_of(alloc, requests)?;
    let mut slot = slot(alloc, shards.passes, copies.passes, seat);
    let (locks, tables) = (&shards.locks, &copies.locks);
    work(
        rt, alloc, locks, tables, &claims, procs, requests, EPOCH, &mut slot, &OpenGate, net,
    )?;
    Ok(slot)
}

// Whether the first attempts took two steps each and committed at time 1.
fn have_committed(transcript: &[Tried], count: usize) -> bool {
    transcript.len() >= count && transcript.iter().take(count).all(is_at_1)
}

fn is_at_1(tried: &Tried) -> bool {
    match tried.outcome.get() {
        Outcome::Committed { time, .. } => time == 1 && tried.script.len() == 2,
        _ => false,
    }
}

// Whether the tail has this request alone, whose only attempt met a mark of this holder.
fn is_only_marked(tail: &[Tailed], id: u64, by: AttemptId) -> bool {
    let [tailed] = tail else {
        return false;
    };
    match tailed.ends.as_slice() {
        [Ended::Conflict(Why::Marked { holder, .. })] => tailed.id == id && *holder == by,
        _ => false,
    }
}

// Whether the last two tables were asked for so many puts together, and the others for none.
fn has_put(passes: &[Pass<CopyTable>], wanted: usize) -> bool {
    let mut last: usize = 0;
    for (table, pass) in passes.iter().enumerate() {
        let count = pass.places().len();
        if table >= 4 {
            last = last.saturating_add(count);
        } else if count > 0 {
            return false;
        }
    }
    last == wanted
}

// What there is for the worker, and what comes of it: the commits that it begins with, its pieces, the puts into the last
// two tables, and the request that is left to the tail, since it met the mark.
#[derive(Drop)]
struct Case<'a> {
    lines: &'a [(u64, Line<'a>)],
    marked: Option<Key>,
    commits: usize,
    pieces: &'a [(u32, u8, u64)],
    puts: usize,
    tailed: Option<u64>,
}

fn comes_to(slot: &Slot, case: &Case<'_>) -> bool {
    let tail = slot.tail.as_slice();
    let is_tail = match case.tailed {
        Some(id) => is_only_marked(tail, id, OTHER),
        None => tail.is_empty(),
    };
    is_tail
        && have_committed(slot.transcript.as_slice(), case.commits)
        && are_pieces(slot.pieces.as_slice(), case.pieces)
        && has_put(slot.copy_passes.as_slice(), case.puts)
}

fn is_worked<N: Net>(
    rt: &impl Wait,
    alloc: Global,
    net: &N,
    case: &Case<'_>,
) -> Result<bool, Fail> {
    let slot = worked(rt, alloc, net, case)?;
    Ok(comes_to(&slot, case))
}

#[test]
fn a_put_and_a_get_are_worked_off(rt: HostRuntime) -> Result<(), Fail> {
    let case = Case {
        lines: &[(0, PUT), (1, GET_FOUR)],
        marked: None,
        commits: 2,
        pieces: &[(0, 2, 1)],
        puts: 2,
        tailed: None,
    };
    let is_well = is_worked(&rt, rt.alloc(), &QuietNet::new(rt.alloc()), &case)?;
    assert!(rt; is_well);
    Ok(())
}

#[test]
fn what_the_net_loses_is_not_put(rt: HostRuntime) -> Result<(), Fail> {
    let case = Case {
        lines: &[(0, PUT)],
        marked: None,
        commits: 1,
        pieces: &[(0, 2, 1)],
        puts: 0,
        tailed: None,
    };
    let net = ScriptNet::new(rt.alloc(), Lose::FirstSend, false, 1);
    let is_well = is_worked(&rt, rt.alloc(), &net, &case)?;
    assert!(rt; is_well);
    Ok(())
}

#[test]
fn a_request_that_meets_a_mark_is_in_the_tail(rt: HostRuntime) -> Result<(), Fail> {
    let case = Case {
        lines: &[(0, GET_FOUR), (1, PUT)],
        marked: Some(Key { table: 0, row: 5 }),
        commits: 1,
        pieces: &[],
        puts: 0,
        tailed: Some(1),
    };
    let is_well = is_worked(&rt, rt.alloc(), &QuietNet::new(rt.alloc()), &case)?;
    assert!(rt; is_well);
    Ok(())
}
