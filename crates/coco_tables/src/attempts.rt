//! Attempts at calls that take turns on shards.
ghost use Rattle.std.specs.Prelude.{◌≡◌, ◌≤◌, ◌<◌, IfOk, IfSome, vec_len, length};
ghost use Rattle.std.specs.List.{All};
ghost use Rattle.coco_ast.specs.Fitting.{Fits};
ghost use Rattle.coco_occ.specs.Interleaving.{MayPlay};
ghost use Rattle.coco_tables.specs.Cases.{IsCase};

use coco_ast::Checked;
use coco_occ::{Attempt, Move, run_steps};
use coco_shard::Shard;
use coco_types::{AttemptId, NoMemory, Request};
use std::alloc::Global;

/// Calls, and whose turn it is, by their places.
#[derive(Drop)]
pub struct Case {
    pub requests: Vec<Request>,
    pub order: Vec<u32>,
}

/// Attempts that took turns, and their moves, each with whose it is.
#[derive(Drop)]
pub struct Played {
    pub attempts: Vec<Attempt>,
    pub moves: Vec<(u32, Move)>,
}

/// Lets the calls of a case take turns.
pub fn play(
    alloc: Global,
    procs: &Checked,
    shards: &mut [Shard],
    partitions: u8,
    case: &Case,
) -> Result<Played, NoMemory>
    requires is { IsCase procs.now case.now }
    requires some_shards { 1 ≤ partitions }
    requires shards { length shards.old ≡ partitions }
{
    let mut attempts = attempts_at(alloc, procs, partitions, &case.requests)?;
    let moves = run_steps(alloc, procs, shards, &mut attempts, &case.order)?;
    Ok(Played { attempts, moves })
}

// An attempt at each request, by a worker of its own.
fn attempts_at(
    alloc: Global,
    procs: &Checked,
    partitions: u8,
    requests: &[Request],
) -> Result<Vec<Attempt>, NoMemory>
    requires fit { All (λ r. Fits procs.now r.call) requests.now }
    requires some_shards { 1 ≤ partitions }
    ensures len { IfOk result (λ attempts. vec_len attempts ≡ length requests.now) }
    ensures ready { IfOk result (λ attempts. All (MayPlay procs.now partitions) attempts.items) }
{
    let mut attempts = Vec::new(alloc);
    let mut worker: u32 = 0;
    for request in requests {
        let by = AttemptId { worker, number: 1 };
        let attempt = attempt_at(alloc, procs, request, by, partitions)?;
        attempts.push(attempt)?;
        worker = worker.saturating_add(1);
    }
    Ok(attempts)
}

fn attempt_at(
    alloc: Global,
    procs: &Checked,
    request: &Request,
    by: AttemptId,
    partitions: u8,
) -> Result<Attempt, NoMemory>
    requires fits { Fits procs.now request.now.call }
    requires some_shards { 1 ≤ partitions }
    ensures { IfOk result (MayPlay procs.now partitions) }
{
    let attempt = Attempt::start(alloc, procs, request, by, partitions)?;
    Ok(attempt)
}

/// Shards without rows, one for each partition.
pub fn empty_shards(alloc: Global, partitions: u8) -> Result<Vec<Shard>, NoMemory>
    ensures { IfOk result (λ shards. vec_len shards ≡ partitions) }
{
    let mut shards = Vec::new(alloc);
    for _ in 0..partitions {
        shards.push(Shard::new(alloc))?;
    }
    Ok(shards)
}

/// The numbers of an order, each below so many. None where a word is no such number.
pub fn order_of(alloc: Global, words: &str, count: usize) -> Result<Option<Vec<u32>>, NoMemory>
    ensures { IfOk result (λ found. IfSome found (λ order. All (λ who. who < count) order.items)) }
{
    let mut order = Vec::new(alloc);
    for word in words.split_whitespace() {
        match word.parse::<u32>() {
            Ok(who) if (who as usize) < count => order.push(who)?,
            _ => return Ok(None),
        }
    }
    Ok(Some(order))
}

// A call has at most 64 keys, each read, locked, extended and installed, and then ends.
const MOST_MOVES: u32 = 257;

/// Each place below so many, one behind another, with turns enough to end.
pub fn one_by_one(alloc: Global, count: usize) -> Result<Vec<u32>, NoMemory>
    ensures { IfOk result (λ order. All (λ who. who < count) order.items) }
{
    let mut order = Vec::new(alloc);
    for who in 0..u32::MAX {
        if who as usize >= count {
            break;
        }
        for _ in 0..MOST_MOVES {
            order.push(who)?;
        }
    }
    Ok(order)
}
