//! Readers beside each other: each draws requests, and reads in the tables what their calls ask for.

ghost use Rattle.std.specs.Prelude.{◌≡◌, ◌<◌, ◌++◌, ◌∷◌, [], Some, List, length, OnOk};
ghost use Rattle.std.specs.List.{AllByRecursion};
ghost use Rattle.coco_ast.specs.Fitting.{Fits};
ghost use Rattle.coco_desks.specs.Gains.{AreOf, AreSame};
ghost use Rattle.coco_eval.specs.Standing.{Ready};
ghost use Rattle.coco_serial.specs.Applied.{HasEnded};
ghost use Rattle.coco_query.specs.Readers.{HasDrawn, HasRead, IsSeated, Leaves, Served};

use crate::frozen::Frozen;
use crate::reading::{Had, read_all};
use coco_ast::Checked;
use coco_claim::{ClaimSeat, Claims};
use coco_eval::Run;
use coco_gate::{Gate, Passes};
use coco_journaled::{Journaled, Pass};
use coco_types::{Call, KeptReply, NoMemory, Request, Sequence};
use std::alloc::Global;
use std::sync::Wait;

/// What a reader did for a request: the request's place, and what its call asked for and got.
#[derive(Debug, Drop)]
pub struct Reading {
    pub place: u32,
    pub had: Had,
}

/// What a reader did: its readings, in order. Contracts alone see which points it passed.
#[derive(Drop)]
pub struct Transcript {
    pub readings: Sequence<Reading>,
    pub passed: Passes,
}

/// The reply of the request at a place.
#[derive(Debug, Drop)]
pub struct Replied {
    pub place: u32,
    pub reply: KeptReply,
}

/// A reader: a pass of each table, the seat that it draws by, what it did and the replies, and whether it has read for
/// all that it drew.
#[derive(Drop)]
pub struct Reader {
    pub reader: u32,
    pub passes: Vec<Pass<Frozen>>,
    pub seat: ClaimSeat,
    pub transcript: Transcript,
    pub replies: Sequence<Replied>,
    pub is_done: bool,
}

impl Reader {
    /// Reads for requests until none is left; out of memory it isn't done.
    pub fn work_off<G: Gate>(
        &mut self,
        rt: &impl Wait,
        alloc: Global,
        tables: &[Journaled<Frozen>],
        claims: &Claims,
        procs: &Checked,
        requests: &[Request],
        gate: &G,
    )
        requires some { 0 < length tables.now }
        requires numbers { claims.now.n ≡ length requests.now }
        requires fit { AllByRecursion (λ r. Fits procs.now r.call) requests.now }
        requires seated { IsSeated tables.now claims.now self.old }
        ensures { Leaves procs.now requests.now (length tables.now) (G.named gate.now) self.old self.new }
    {
        let done = self.read_on(rt, alloc, tables, claims, procs, requests, gate);
        self.is_done = done.is_ok();
    }

    fn read_on<G: Gate>(
        &mut self,
        rt: &impl Wait,
        alloc: Global,
        tables: &[Journaled<Frozen>],
        claims: &Claims,
        procs: &Checked,
        requests: &[Request],
        gate: &G,
    ) -> Result<(), NoMemory>
        requires some { 0 < length tables.now }
        requires numbers { claims.now.n ≡ length requests.now }
        requires fit { AllByRecursion (λ r. Fits procs.now r.call) requests.now }
        requires seated { IsSeated tables.now claims.now self.old }
        ensures same { AreSame self.old.passes.items self.new.passes.items }
        ensures reader { self.new.reader ≡ self.old.reader }
        ensures read { OnOk result ((served : List Served) × HasRead procs.now requests.now (length tables.now) (G.named gate.now) self.old self.new served
            × HasDrawn (length requests.now) self.old.seat self.new.seat served) }
    {
        let mut room = None;
        while let Some(place) = claims.next(&mut self.seat) {
            self.read_for(rt, alloc, tables, procs, requests, place, gate, &mut room)?;
        }
        Ok(())
    }

    // Reads for the request at a place.
    fn read_for<G: Gate>(
        &mut self,
        rt: &impl Wait,
        alloc: Global,
        tables: &[Journaled<Frozen>],
        procs: &Checked,
        requests: &[Request],
        place: u32,
        gate: &G,
        room: &mut Option<Run>,
    ) -> Result<(), NoMemory>
        requires some { 0 < length tables.now }
        requires there { place < length requests.now }
        requires fit { AllByRecursion (λ r. Fits procs.now r.call) requests.now }
        requires locks { AreOf tables.now self.old.passes.items }
        requires over { HasEnded room.old }
        ensures same { AreSame self.old.passes.items self.new.passes.items }
        ensures reader { self.new.reader ≡ self.old.reader }
        ensures seat { self.new.seat ≡ self.old.seat }
        ensures over { OnOk result (HasEnded room.new) }
        ensures read { OnOk result ((one : Served) × (one.reading.place ≡ place)
            × HasRead procs.now requests.now (length tables.now) (G.named gate.now) self.old self.new (one ∷ [])) }
    {
        self.transcript.passed.pass(gate, self.reader, 1);
        make_ready(alloc, room, procs, &requests[place as usize].call)?;
        let Some(running) = room else { unreachable!() };
        let passes = self.passes.as_mut_slice();
        let had = read_all(rt, alloc, tables, passes, procs, running)?;
        let reply = KeptReply::of(alloc, running.reply())?;
        self.keep(place, had, reply)?;
        self.transcript.passed.pass(gate, self.reader, 2);
        Ok(())
    }

    fn keep(&mut self, place: u32, had: Had, reply: KeptReply) -> Result<(), NoMemory>
        ensures others { self.new ≡ record self.old { transcript = record self.old.transcript { readings = self.new.transcript.readings }; replies = self.new.replies } }
        ensures readings { OnOk result (self.new.transcript.readings ≡ self.old.transcript.readings ++ record { place = place; had = had } ∷ []) }
        ensures replies { OnOk result (self.new.replies ≡ self.old.replies ++ record { place = place; reply = reply } ∷ []) }
    {
        self.transcript.readings.push(Reading { place, had })?;
        self.replies.push(Replied { place, reply })?;
        Ok(())
    }
}

// A run of the call at its start, in the place of the last one.
fn make_ready(
    alloc: Global,
    room: &mut Option<Run>,
    procs: &Checked,
    call: &Call,
) -> Result<(), NoMemory>
    requires fits { Fits procs.now call.now }
    requires over { HasEnded room.old }
    ensures { OnOk result (room.new ≡ Some (record { procs = procs.now; call = call.now; given = []; standing = Ready })) }
{
    match room {
        Some(last) => last.restart(procs, call)?,
        None => *room = Some(Run::start(alloc, procs, call)?),
    }
    Ok(())
}
