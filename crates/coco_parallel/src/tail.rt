//! The tail of an epoch: the requests that no script committed, to be run, and as the epoch's trace tells them.

ghost use Rattle.std.specs.Prelude.{◌≡◌, ℕ, ◌<◌, ◌≤◌, ◌||◌, ◌++◌, ◌∷◌, [], List, Bool, All, true, false, length, map, nat_eq, slice_index_or, vec_len, IfOk, OnOk};
ghost use Rattle.std.specs.List.{IsDistinct};
ghost use Rattle.coco_tail.specs.Running.{AreAtTheirPlaces, requests_of};
ghost use Rattle.coco_order.specs.Execution.{Execution, Journal, concat};
ghost use Rattle.coco_order.specs.Outcome.{uncommitted};
ghost use Rattle.coco_parallel.specs.Ends.{AreCommitted, ends_at, has_commit};
ghost use Rattle.coco_parallel.specs.Epochs.{execution_with};
ghost use Rattle.coco_parallel.specs.Tails.{tail_from};
ghost use Rattle.coco_worker.specs.Trying.{ends_of};

use coco_occ::{Ended, Ends, Outcome, Tailed, Transcript, Tried};
use coco_tail::PlacedRequest;
use coco_types::limits::MOST_BATCH_LINES;
use coco_types::{NoMemory, Request};
use coco_worker::Tail;
use std::alloc::Global;
use std::mem;

/// The requests at whose places nothing committed, with their places, and their ids with the ends of the attempts at
/// them, both in input order.
pub(crate) fn left_over(
    alloc: Global,
    requests: &[Request],
    transcripts: &[Transcript],
) -> Result<(Vec<PlacedRequest>, Tail), NoMemory>
    requires few { length requests.now ≤ MOST_BATCH_LINES }
    requires distinct { IsDistinct nat_eq (map (λ r. r.id) requests.now) }
    ensures requests { IfOk result (λ r. (journals : List Journal) → requests_of r.0.items ≡ uncommitted (execution_with journals transcripts.now) 0 requests.now) }
    ensures places { IfOk result (λ r. AreAtTheirPlaces requests.now r.0.items) }
    ensures told { IfOk result (λ r. (journals : List Journal) → r.1 ≡ tail_from (execution_with journals transcripts.now) 0 requests.now) }
{
    let committed = committed_places(alloc, requests.len(), transcripts)?;
    let flags = committed.as_slice();
    let tail = tail_of(alloc, requests, flags)?;
    let told = told_tail(alloc, requests, flags, transcripts)?;
    Ok((tail, told))
}

// The requests at whose places nothing committed, with their places, in input order.
fn tail_of(
    alloc: Global,
    requests: &[Request],
    committed: &[bool],
) -> Result<Vec<PlacedRequest>, NoMemory>
    requires few { length requests.now ≤ MOST_BATCH_LINES }
    requires distinct { IsDistinct nat_eq (map (λ r. r.id) requests.now) }
    requires count { length committed.now ≡ length requests.now }
    ensures requests { IfOk result (λ tail. (x : Execution) → AreCommitted x committed.now → requests_of tail.items ≡ uncommitted x 0 requests.now) }
    ensures places { IfOk result (λ tail. AreAtTheirPlaces requests.now tail.items) }
{
    let mut tail = Vec::new(alloc);
    for place in 0..requests.len() {
        if !committed[place] {
            tail.push(placed(requests, place)?)?;
        }
    }
    Ok(tail)
}

// The request of a place.
fn placed(requests: &[Request], place: usize) -> Result<PlacedRequest, NoMemory>
    requires within { place < length requests.now }
    requires few { length requests.now ≤ MOST_BATCH_LINES }
    ensures place { IfOk result (λ p. p.place ≡ place) }
    ensures request { IfOk result (λ p. p.request ≡ slice_index_or requests.now place p.request) }
{
    let request = &requests[place];
    Ok(PlacedRequest {
        place: place as u32,
        request: Request {
            id: request.id,
            call: request.call.try_clone()?,
        },
    })
}

// For each of so many places whether a script of it committed.
fn committed_places(
    alloc: Global,
    count: usize,
    transcripts: &[Transcript],
) -> Result<Vec<bool>, NoMemory>
    ensures count { IfOk result (λ places. vec_len places ≡ count) }
    ensures each { IfOk result (λ places. (place : ℕ) → place < count → slice_index_or places.items place false ≡ has_commit (concat transcripts.now) place) }
{
    let mut places = Vec::with_capacity(alloc, count)?;
    for _ in 0..count {
        places.push_reserved(false);
    }
    for transcript in transcripts {
        mark(transcript.as_slice(), places.as_mut_slice());
    }
    Ok(places)
}

// Marks the places of the scripts that committed.
fn mark(tried: &[Tried], places: &mut [bool])
    ensures count { length places.new ≡ length places.old }
    ensures each { (place : ℕ) → place < length places.old → slice_index_or places.new place false ≡ (slice_index_or places.old place false || has_commit tried.now place) }
{
    for script in tried {
        let place = script.place as usize;
        if script.outcome.commit().is_some() && place < places.len() {
            places[place] = true;
        }
    }
}

// The ids of the requests at whose places nothing committed, with the ends of the attempts at them, in input order.
fn told_tail(
    alloc: Global,
    requests: &[Request],
    committed: &[bool],
    transcripts: &[Transcript],
) -> Result<Tail, NoMemory>
    requires count { length committed.now ≡ length requests.now }
    ensures { IfOk result (λ tail. (journals : List Journal) → AreCommitted (execution_with journals transcripts.now) committed.now → tail ≡ tail_from (execution_with journals transcripts.now) 0 requests.now) }
{
    let mut tail = Tail::new(alloc);
    // Most epochs have no tail, and then no script is looked at.
    if are_all(committed) {
        return Ok(tail);
    }
    let mut ends = ends_by_place(alloc, requests.len(), transcripts)?;
    for place in 0..requests.len() {
        if !committed[place] {
            tail.push(Tailed {
                id: requests[place].id,
                ends: mem::replace(&mut ends[place], Ends::new(alloc)),
            })?;
        }
    }
    Ok(tail)
}

fn are_all(flags: &[bool]) -> bool
    ensures { result ≡ true → All (λ (flag : Bool). flag ≡ true) flags.now }
{
    flags.iter().all(|flag| *flag)
}

// For each of so many places the ends of the attempts at it that didn't commit.
fn ends_by_place(
    alloc: Global,
    count: usize,
    transcripts: &[Transcript],
) -> Result<Vec<Ends>, NoMemory>
    ensures count { IfOk result (λ ends. vec_len ends ≡ count) }
    ensures each { IfOk result (λ ends. (place : ℕ) → place < count → slice_index_or ends.items place [] ≡ ends_at place (concat transcripts.now)) }
{
    let mut ends = Vec::with_capacity(alloc, count)?;
    for _ in 0..count {
        ends.push_reserved(Ends::new(alloc));
    }
    for transcript in transcripts {
        add_ends(transcript.as_slice(), ends.as_mut_slice())?;
    }
    Ok(ends)
}

// Adds the ends of these attempts, each to those of its place.
fn add_ends(tried: &[Tried], ends: &mut [Ends]) -> Result<(), NoMemory>
    ensures count { length ends.new ≡ length ends.old }
    ensures each { OnOk result ((place : ℕ) → place < length ends.old → slice_index_or ends.new place [] ≡ slice_index_or ends.old place [] ++ ends_at place tried.now) }
{
    for script in tried {
        let place = script.place as usize;
        if place < ends.len() {
            add_end(script, &mut ends[place])?;
        }
    }
    Ok(())
}

// Adds the end of an attempt that didn't commit.
fn add_end(tried: &Tried, ends: &mut Ends) -> Result<(), NoMemory>
    ensures { OnOk result (ends.new ≡ ends.old ++ ends_of (tried.now ∷ [])) }
{
    match tried.outcome.get() {
        Outcome::Committed { .. } => Ok(()),
        Outcome::Conflict(why) => ends.push(Ended::Conflict(why)),
        Outcome::OverTime => ends.push(Ended::OverTime),
    }
}
