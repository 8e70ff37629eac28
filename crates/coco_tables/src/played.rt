//! Lines of attempts that take turns, shown move by move.
ghost use Rattle.std.specs.Prelude.{◌≡◌, ◌≤◌, IfOk, IfSome, length};
ghost use Rattle.coco_tables.specs.Cases.{IsCase};

use crate::attempts::{Case, Played, empty_shards, one_by_one, order_of, play};
use crate::calls::requests_of;
use crate::lines::{Line, line_of};
use crate::say::{say_end, say_step};
use crate::texts::{accepted, out_of_memory};
use coco_ast::Checked;
use coco_occ::Move;
use coco_shard::Shard;
use coco_types::NoMemory;
use std::alloc::Global;
use std::io;

/// Says of each line what it shows, and then each move, an ask with its answer.
pub fn say_lines(rt: &impl Print, alloc: Global, text: &str, lines: &str) -> io::Result<()> {
    let Some(procs) = accepted(alloc, text) else {
        return println!(rt; "refused");
    };
    for text in lines.lines() {
        match line_of(text) {
            Some(line) => say_line(rt, alloc, &procs, &line)?,
            None => println!(rt; "no line: {text}")?,
        }
    }
    Ok(())
}

fn say_line(rt: &impl Print, alloc: Global, procs: &Checked, line: &Line) -> io::Result<()>
    requires { 1 ≤ line.now.partitions }
{
    println!(rt; "{}", line.shows)?;
    match played(alloc, procs, line) {
        Ok(Some(played)) => say_moves(rt, alloc, procs, &played),
        Ok(None) => println!(rt; "no calls"),
        Err(NoMemory) => Err(out_of_memory(NoMemory)),
    }
}

// The moves of the calls that are tried, on shards behind those that are given. None where a line has no such calls.
fn played(alloc: Global, procs: &Checked, line: &Line) -> Result<Option<Played>, NoMemory>
    requires { 1 ≤ line.now.partitions }
{
    let partitions = line.partitions;
    let Some(given) = given_of(alloc, procs, line.given)? else {
        return Ok(None);
    };
    let Some(tried) = tried_of(alloc, procs, line)? else {
        return Ok(None);
    };
    let mut shards = empty_shards(alloc, partitions)?;
    give(alloc, procs, &mut shards, partitions, &given)?;
    let played = play(alloc, procs, &mut shards, partitions, &tried)?;
    Ok(Some(played))
}

// Calls that are run one behind another.
fn given_of(alloc: Global, procs: &Checked, calls: &str) -> Result<Option<Case>, NoMemory>
    ensures { IfOk result (λ found. IfSome found (IsCase procs.now)) }
{
    let Some(requests) = requests_of(alloc, procs, calls)? else {
        return Ok(None);
    };
    let order = one_by_one(alloc, requests.len())?;
    Ok(Some(Case { requests, order }))
}

// Calls that take turns as the line says.
fn tried_of(alloc: Global, procs: &Checked, line: &Line) -> Result<Option<Case>, NoMemory>
    ensures { IfOk result (λ found. IfSome found (IsCase procs.now)) }
{
    let Some(requests) = requests_of(alloc, procs, line.tried)? else {
        return Ok(None);
    };
    let Some(order) = order_of(alloc, line.how, requests.len())? else {
        return Ok(None);
    };
    Ok(Some(Case { requests, order }))
}

// What the calls wrote is stable then.
fn give(
    alloc: Global,
    procs: &Checked,
    shards: &mut [Shard],
    partitions: u8,
    given: &Case,
) -> Result<(), NoMemory>
    requires is { IsCase procs.now given.now }
    requires some_shards { 1 ≤ partitions }
    requires shards { length shards.old ≡ partitions }
{
    play(alloc, procs, shards, partitions, given)?;
    for shard in shards {
        shard.promote();
    }
    Ok(())
}

fn say_moves(rt: &impl Print, alloc: Global, procs: &Checked, played: &Played) -> io::Result<()> {
    let mut shown = vec![in alloc; 0; played.attempts.len()]?;
    for (who, made) in &played.moves {
        match made {
            Move::Ask { .. } => say_next(rt, procs, *who, played, &mut shown)?,
            end => say_end(rt, procs, *who, end)?,
        }
    }
    Ok(())
}

// Says the next step of an attempt. How many steps of each are shown stands in a list.
fn say_next(
    rt: &impl Print,
    procs: &Checked,
    who: u32,
    played: &Played,
    shown: &mut [usize],
) -> io::Result<()> {
    let place = who as usize;
    if let Some(attempt) = played.attempts.get(place)
        && let Some(count) = shown.get_mut(place)
        && let Some(step) = attempt.script().get(*count)
    {
        *count = count.saturating_add(1);
        say_step(rt, procs, who, &step)?;
    }
    Ok(())
}
