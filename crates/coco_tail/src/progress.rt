//! The tail of an epoch, which one thread runs call after call.

ghost use Rattle.std.specs.Prelude.{◌≡◌, ◌<◌, ◌≤◌, ◌++◌, ◌∷◌, [], List, length, IfOk, OnOk};
ghost use Rattle.coco_types.specs.declared.call.Request.{Request as Asked};
ghost use Rattle.coco_ast.specs.Fitting.{Fits};
ghost use Rattle.coco_ast.specs.Keyed.{Rows, put_over};
ghost use Rattle.coco_ast.specs.Meaning.{Run as Ran, run};
ghost use Rattle.coco_order.specs.Outcome.{tail_dones, tail_rows};
ghost use Rattle.coco_tail.specs.Pieces.{pieces_of};
ghost use Rattle.coco_pieces.specs.Pieces.{request_pieces};
ghost use Rattle.coco_tail.specs.Running.{AreAtTheirPlaces, CameTo, FitAll, IsOver, IsThere, requests_of};
ghost use Rattle.coco_tail.specs.Shards.{AreOfPartitions, AreQuietAfter, HaveNewest, KeepStable};

use crate::calls::run_newest;
use crate::placed::PlacedRequest;
use coco_ast::Checked;
use coco_eval::Run;
use coco_pieces::add_pieces;
use coco_shard::Shard;
use coco_types::limits::{MOST_BATCH_LINES, MOST_PARTITIONS, MOST_TIME};
use coco_types::{Done, KeptReply, NoMemory, Pieces, Request};
use std::alloc::Global;

/// What an epoch has come to so far, and the run of its last call, whose room the next one uses.
#[derive(Drop)]
pub struct Progress {
    pub alloc: Global,
    pub epoch: u64,
    pub running: Option<Run>,
    pub dones: Vec<Done>,
    pub pieces: Pieces,
}

impl Progress {
    /// An epoch of this number of which nothing is run, with room for so many requests.
    pub fn start(alloc: Global, epoch: u64, requests: usize) -> Result<Progress, NoMemory>
        ensures epoch { IfOk result (λ progress. progress.epoch ≡ epoch) }
        ensures over { IfOk result (λ progress. IsOver progress.running) }
        ensures dones { IfOk result (λ progress. progress.dones.items ≡ []) }
        ensures pieces { IfOk result (λ progress. progress.pieces ≡ []) }
    {
        Ok(Progress {
            alloc,
            epoch,
            running: None,
            dones: Vec::with_capacity(alloc, requests)?,
            pieces: Pieces::from_vec(Vec::with_capacity(alloc, requests)?),
        })
    }

    /// Runs requests on the newest values, in this order, at the times that follow this one: the tail of an epoch.
    pub fn run_tail(
        &mut self,
        procs: &Checked,
        shards: &mut [Shard],
        tail: Vec<PlacedRequest>,
        after: u64,
    ) -> Result<(), NoMemory>
        requires fit { FitAll procs.now (requests_of tail.items) }
        requires few { length tail.items ≤ MOST_BATCH_LINES }
        requires early { after ≤ MOST_TIME }
        requires over { IsOver self.old.running }
        requires some { 0 < length shards.old }
        requires most { length shards.old ≤ MOST_PARTITIONS }
        requires partitions { AreOfPartitions shards.old }
        requires quiet { AreQuietAfter after shards.old }
        ensures dones { OnOk result ((m : Rows) → HaveNewest m shards.old →
            self.new.dones.items ≡ self.old.dones.items ++ tail_dones procs.now self.old.epoch m after (requests_of tail.items)) }
        ensures pieces { OnOk result ((m : Rows) (all : List Asked) → HaveNewest m shards.old → AreAtTheirPlaces all tail.items →
            self.new.pieces ≡ self.old.pieces ++ pieces_of procs.now (length shards.old) all m (tail_dones procs.now self.old.epoch m after (requests_of tail.items))) }
        ensures newest { OnOk result ((m : Rows) → HaveNewest m shards.old → HaveNewest (tail_rows procs.now m (requests_of tail.items)) shards.new) }
        ensures kept { KeepStable shards.old shards.new }
    {
        let mut time = after;
        for placed in tail {
            time += 1;
            self.run_at(procs, shards, placed, time)?;
        }
        Ok(())
    }

    // One request of the tail.
    fn run_at(
        &mut self,
        procs: &Checked,
        shards: &mut [Shard],
        placed: PlacedRequest,
        time: u64,
    ) -> Result<(), NoMemory>
        requires fits { Fits procs.now placed.request.call }
        requires over { IsOver self.old.running }
        requires some { 0 < length shards.old }
        requires most { length shards.old ≤ MOST_PARTITIONS }
        requires partitions { AreOfPartitions shards.old }
        requires quiet { AreQuietAfter time shards.old }
        ensures over { OnOk result (IsOver self.new.running) }
        ensures dones { OnOk result ((m : Rows) → HaveNewest m shards.old →
            self.new.dones.items ≡ self.old.dones.items
            ++ record { id = placed.request.id; call = placed.request.call; epoch = self.old.epoch; time = time; reply = (run procs.now placed.request.call m).reply } ∷ []) }
        ensures pieces { OnOk result ((m : Rows) → HaveNewest m shards.old →
            self.new.pieces ≡ self.old.pieces ++ request_pieces (length shards.old) placed.place time (run procs.now placed.request.call m).writes) }
        ensures newest { OnOk result ((m : Rows) → HaveNewest m shards.old → HaveNewest (put_over m (run procs.now placed.request.call m).writes) shards.new) }
        ensures quiet { OnOk result (AreQuietAfter time shards.new) }
        ensures kept { KeepStable shards.old shards.new }
        ensures epoch { OnOk result (self.new.epoch ≡ self.old.epoch) }
    {
        let PlacedRequest { place, request } = placed;
        run_newest(
            self.alloc,
            &mut self.running,
            procs,
            &request.call,
            shards,
            time,
        )?;
        self.add_pieces(shards.len(), place, time)?;
        self.add_done(request, time)
    }

    // Adds the pieces of the request that was run last.
    fn add_pieces(&mut self, count: usize, place: u32, time: u64) -> Result<(), NoMemory>
        requires there { IsThere self.old.running }
        requires some { 0 < count }
        requires most { count ≤ MOST_PARTITIONS }
        ensures pieces { OnOk result ((ran : Ran) → CameTo ran self.old.running →
            self.new.pieces ≡ self.old.pieces ++ request_pieces count place time ran.writes) }
        ensures others { self.new ≡ record self.old { pieces = self.new.pieces } }
    {
        let Some(running) = &self.running else {
            unreachable!()
        };
        let writes = running.writes().as_slice();
        add_pieces(self.alloc, &mut self.pieces, count, place, time, writes)
    }

    // Adds the Done of the request that was run last.
    fn add_done(&mut self, request: Request, time: u64) -> Result<(), NoMemory>
        requires there { IsThere self.old.running }
        ensures dones { OnOk result ((ran : Ran) → CameTo ran self.old.running →
            self.new.dones.items ≡ self.old.dones.items
            ++ record { id = request.id; call = request.call; epoch = self.old.epoch; time = time; reply = ran.reply } ∷ []) }
        ensures others { self.new ≡ record self.old { dones = self.new.dones } }
    {
        let Some(running) = &self.running else {
            unreachable!()
        };
        let Request { id, call } = request;
        self.dones.push(Done {
            id,
            call,
            epoch: self.epoch,
            time,
            reply: KeptReply::of(self.alloc, running.reply())?,
        })?;
        Ok(())
    }
}
