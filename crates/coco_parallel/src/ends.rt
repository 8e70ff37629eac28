//! The end of an epoch: the Dones of its commits, and behind them the tail of the requests that no script committed.

ghost use Rattle.std.specs.Prelude.{◌≡◌, ◌<◌, ◌≤◌, ◌++◌, ◌∷◌, [], List, length, map, nat_eq, IfOk, OnOk};
ghost use Rattle.std.specs.List.{IsDistinct};
ghost use Rattle.std.specs.List.Sorted.{IsPermutation};
ghost use Rattle.coco_ast.specs.Keyed.{Rows};
ghost use Rattle.coco_tail.specs.Running.{FitAll, IsOver, requests_of};
ghost use Rattle.coco_tail.specs.Shards.{AreOfPartitions, KeepStable};
ghost use Rattle.coco_order.specs.Execution.{Journal, concat};
ghost use Rattle.coco_order.specs.Order.{AreInOrder};
ghost use Rattle.coco_order.specs.Outcome.{AreOnce};
ghost use Rattle.coco_parallel.specs.Ends.{AreLeft, IsEnd, MayRunTail, RanTail, dones_of};
ghost use Rattle.coco_parallel.specs.Epochs.{execution_with, started_with};
ghost use Rattle.coco_parallel.specs.Laws.{IsGreatestIn};
ghost use Rattle.coco_parallel.specs.Tails.{tail_from};

use crate::pieces::in_done_order;
use crate::tail::left_over;
use coco_ast::Checked;
use coco_occ::{Transcript, Tried};
use coco_order::ordered;
use coco_shard::Shard;
use coco_tail::{PlacedRequest, Progress};
use coco_types::limits::MOST_BATCH_LINES;
use coco_types::{Args, Call, Done, Dones, NoMemory, Pieces, Request};
use coco_worker::{EpochConfig, Tail};
use std::alloc::Global;
use std::mem;

/// Runs the tail behind the commits of these transcripts, and puts all Dones in the order of commit, and all pieces in
/// that of their Dones. The calls of the requests that committed go into their Dones. The tail is also told, in input
/// order.
pub(crate) fn end_epoch(
    alloc: Global,
    shards: &mut [Shard],
    procs: &Checked,
    requests: &mut [Request],
    config: EpochConfig,
    transcripts: &[Transcript],
    lists: Vec<Pieces>,
) -> Result<(Dones, Pieces, Tail), NoMemory>
    requires fit { FitAll procs.now requests.old }
    requires few { length requests.old ≤ MOST_BATCH_LINES }
    requires distinct { IsDistinct nat_eq (map (λ r. r.id) requests.old) }
    requires once { AreOnce (concat transcripts.now) }
    requires shards { MayRunTail shards.old }
    ensures end { IfOk result (λ r. (opening : Rows) (journals : List Journal) →
        IsEnd (started_with procs.now opening requests.old shards.old config) config.epoch (execution_with journals transcripts.now) lists.items shards.old shards.new r.0 r.1) }
    ensures tail { IfOk result (λ r. (journals : List Journal) → r.2 ≡ tail_from (execution_with journals transcripts.now) 0 requests.old) }
    ensures kept { KeepStable shards.old shards.new }
{
    let (tail, told) = left_over(alloc, requests, transcripts)?;
    let mut progress = take_all(alloc, requests, config.epoch, transcripts, lists)?;
    run_left(&mut progress, procs, shards, tail)?;
    let Progress { dones, pieces, .. } = progress;
    let pieces = in_done_order(pieces.into_vec(), requests);
    Ok((
        Dones::from_vec(ordered(dones)),
        Pieces::from_vec(pieces),
        told,
    ))
}

// The Dones of the scripts that committed, in order, with the calls of their requests, and all pieces.
fn take_all(
    alloc: Global,
    requests: &mut [Request],
    epoch: u64,
    transcripts: &[Transcript],
    lists: Vec<Pieces>,
) -> Result<Progress, NoMemory>
    requires { AreOnce (concat transcripts.now) }
    ensures epoch { IfOk result (λ progress. progress.epoch ≡ epoch) }
    ensures over { IfOk result (λ progress. IsOver progress.running) }
    ensures same { IfOk result (λ progress. IsPermutation (dones_of epoch requests.old (concat transcripts.now)) progress.dones.items) }
    ensures order { IfOk result (λ progress. AreInOrder progress.dones.items) }
    ensures pieces { IfOk result (λ progress. progress.pieces ≡ concat lists.items) }
    ensures left { OnOk result (AreLeft (concat transcripts.now) requests.old requests.new) }
{
    let mut progress = Progress::start(alloc, epoch, requests.len())?;
    let dones = &mut progress.dones;
    take_commits(alloc, requests, epoch, transcripts, dones)?;
    progress.pieces = all_pieces(alloc, lists)?;
    progress.dones = ordered(progress.dones);
    Ok(progress)
}

// Adds the Dones of the scripts that committed, in the order of the transcripts, with the calls of their requests.
fn take_commits(
    alloc: Global,
    requests: &mut [Request],
    epoch: u64,
    transcripts: &[Transcript],
    dones: &mut Vec<Done>,
) -> Result<(), NoMemory>
    requires once { AreOnce (concat transcripts.now) }
    ensures dones { OnOk result (dones.new.items ≡ dones.old.items ++ dones_of epoch requests.old (concat transcripts.now)) }
    ensures left { OnOk result (AreLeft (concat transcripts.now) requests.old requests.new) }
{
    for transcript in transcripts {
        take_from(alloc, requests, epoch, transcript.as_slice(), dones)?;
    }
    Ok(())
}

// Adds the Dones of one transcript.
fn take_from(
    alloc: Global,
    requests: &mut [Request],
    epoch: u64,
    tried: &[Tried],
    dones: &mut Vec<Done>,
) -> Result<(), NoMemory>
    requires once { AreOnce tried.now }
    ensures dones { OnOk result (dones.new.items ≡ dones.old.items ++ dones_of epoch requests.old tried.now) }
    ensures left { OnOk result (AreLeft tried.now requests.old requests.new) }
{
    for script in tried {
        take_commit(alloc, requests, epoch, script, dones)?;
    }
    Ok(())
}

// Adds the Done of a script, if it committed.
fn take_commit(
    alloc: Global,
    requests: &mut [Request],
    epoch: u64,
    tried: &Tried,
    dones: &mut Vec<Done>,
) -> Result<(), NoMemory>
    ensures dones { OnOk result (dones.new.items ≡ dones.old.items ++ dones_of epoch requests.old (tried.now ∷ [])) }
    ensures left { OnOk result (AreLeft (tried.now ∷ []) requests.old requests.new) }
{
    let Some((time, reply)) = tried.outcome.commit() else {
        return Ok(());
    };
    let reply = reply.try_clone()?;
    let place = tried.place as usize;
    if place < requests.len() {
        let request = &mut requests[place];
        dones.push(Done {
            id: request.id,
            call: mem::replace(&mut request.call, no_call(alloc)),
            epoch,
            time,
            reply,
        })?;
    }
    Ok(())
}

// What is left of a call that was taken.
fn no_call(alloc: Global) -> Call {
    Call {
        proc_no: 0,
        snapshot: false,
        args: Args::new(alloc),
    }
}

// Runs the requests that no script committed, at the times above each read time.
fn run_left(
    progress: &mut Progress,
    procs: &Checked,
    shards: &mut [Shard],
    tail: Vec<PlacedRequest>,
) -> Result<(), NoMemory>
    requires fit { FitAll procs.now (requests_of tail.items) }
    requires few { length tail.items ≤ MOST_BATCH_LINES }
    requires over { IsOver progress.old.running }
    requires shards { MayRunTail shards.old }
    ensures ran { OnOk result (RanTail procs.now progress.old.epoch tail.items shards.old shards.new progress.old.dones.items progress.new.dones.items progress.old.pieces progress.new.pieces) }
    ensures kept { KeepStable shards.old shards.new }
{
    // Most epochs have no tail, and then no row is looked at.
    if tail.is_empty() {
        return Ok(());
    }
    let after = greatest_read(shards);
    progress.run_tail(procs, shards, tail, after)
}

// The greatest read time of any row.
fn greatest_read(shards: &[Shard]) -> u64
    requires some { 0 < length shards.now }
    requires partitions { AreOfPartitions shards.now }
    ensures { IsGreatestIn shards.now result }
{
    let mut most = 0;
    for shard in shards {
        most = most.max(shard.greatest_time());
    }
    most
}

// All pieces, one list behind another.
fn all_pieces(alloc: Global, lists: Vec<Pieces>) -> Result<Pieces, NoMemory>
    ensures { IfOk result (λ all. all ≡ concat lists.items) }
{
    let mut all = Pieces::new(alloc);
    for list in lists {
        for piece in list.into_vec() {
            all.push(piece)?;
        }
    }
    Ok(all)
}
