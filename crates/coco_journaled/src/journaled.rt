//! The journaled lock: steps of a machine under a lock, each entered once and at its place.

ghost use Rattle.std.specs.Prelude.{◌≡◌, ℕ, ◌<◌, ◌≤◌, List, [], ◌∷◌, ◌++◌, map, length, true, false, All, Some, slice_get, IfOk, IfErr, OnOk, OnErr, sum_by, vec_len, vec_capacity};
ghost use Rattle.coco_seen.specs.Rules.{numbers, how_often, once_below};
ghost use Rattle.coco_journaled.specs.Holding.{HasRoom, HasStepped, Holds, IsHeld, SeesMore};
ghost use Rattle.coco_journaled.specs.declared.entry.Entry.{Entry as Logged};
ghost use Rattle.coco_journaled.specs.Passes.{HasPasses, placed, entry, entry_of, places, Rises, new_pass, pass_at, Steps, Looks};
ghost use Rattle.coco_journaled.specs.Replay.{Replays};

use crate::entry::Entry;
use crate::guarded::{Guarded, make_room};
use crate::journal::Journal;
use crate::pass::Pass;
use crate::room::{Closed, Room};
use coco_packs::{AnswersInPlace, Packs};
use coco_seen::{Note, Seen};
use coco_types::NoMemory;
use std::alloc::Global;
use std::marker::Model;
use std::mem;
use std::sync::Wait;

/// A machine behind a lock that keeps a journal of its calls. To a contract it is its identity and the number of its passes.
#[derive(Drop)]
pub struct Journaled<M: Packs> {
    seen: Seen<Guarded<M>>,
    /// Takes the lists of the passes in at the end, for which it has room.
    lists: Vec<Vec<u64>>,
    /// It has one pass. Nobody else waits for the machine, so that pass keeps it between its steps.
    alone: bool,
}

impl<M: Packs> Model for Journaled<M> {
    ghost use Rattle.coco_seen.specs.Notes.{Lock};

    ghost Value = { Lock };

    ghost view = { λ j. j.seen };
}

impl<M: Packs> Journaled<M> {
    /// A machine behind a lock, and `passes` passes for it. The journal and the passes begin with this room. Out of memory, the machine comes back, and the room is let go.
    pub fn start(
        alloc: Global,
        machine: M,
        passes: u32,
        room: Room<M>,
    ) -> Result<(Journaled<M>, Vec<Pass<M>>), (M, NoMemory)>
        requires { 0 < passes }
        ensures lock { IfOk result (λ r. r.0.notes ≡ passes) }
        ensures count { IfOk result (λ r. vec_len r.1 ≡ passes) }
        ensures passes { IfOk result (λ r. r.1.items ≡ map (new_pass r.0.id machine) (numbers 0 passes)) }
        ensures err { IfErr result (λ e. e.0 ≡ machine) }
    {
        let Room { journal, mut lists } = room;
        let more = (passes as usize).saturating_sub(lists.len());
        if lists.reserve(more).is_err() {
            return Err((machine, NoMemory));
        }
        let Ok(list) = Vec::with_capacity(alloc, passes as usize) else {
            return Err((machine, NoMemory));
        };
        let alone = passes == 1;
        let guarded = Guarded {
            machine,
            journal: journal.into_room(),
        };
        match Seen::make(alloc, guarded, passes) {
            Ok((seen, notes)) => {
                let list = passes_of(alloc, notes, list, &mut lists);
                Ok((Journaled { seen, lists, alone }, list))
            }
            Err((guarded, NoMemory)) => {
                list.destroy_empty();
                let Guarded {
                    machine,
                    journal: _,
                } = guarded;
                Err((machine, NoMemory))
            }
        }
    }

    /// Asks the machine, and answers what it answered. Out of memory, nothing is entered, and the machine is as it was found.
    pub fn step(
        &self,
        rt: &impl Wait,
        pass: &mut Pass<M>,
        ask: M::Ask,
    ) -> Result<M::Answer, NoMemory>
        requires { pass.old.lock ≡ self.now.id }
        ensures ok { IfOk result (λ answer. Steps M.answer_to M.state_after pass.old ask answer pass.new) }
        ensures err { IfErr result (λ _. Looks pass.old pass.new) }
    {
        let (packed, spare) = prepared::<M>(&mut pass.places, &mut pass.spare, &ask)?;
        self.hold(rt, &mut pass.note, &mut pass.held)?;
        let Some(guarded) = &mut pass.held else {
            unreachable!()
        };
        let Ok(answer) = guarded.apply(pass.number, ask, packed, spare, &mut pass.spare) else {
            self.let_go(&mut pass.note, &mut pass.held);
            return Err(NoMemory);
        };
        let entry = Entry {
            pass: pass.number,
            ask,
            answer,
        };
        self.enter(&mut pass.note, &mut pass.places, &mut pass.held, entry);
        Ok(answer)
    }

    /// Ends the lock, once all its passes are back. The journal has each call of each pass at its place, and no other entry, and the machine is the one at the start after the journal's asks. It takes no memory.
    pub fn close(self, passes: Vec<Pass<M>>) -> Closed<M>
        requires lock { All (λ pass. pass.lock ≡ self.id) passes.items }
        requires all { vec_len passes ≡ self.notes }
        ensures machine { All (λ pass. (root : M) × (pass.root ≡ Some root) × Replays M.answer_to M.state_after root result.journal result.machine) passes.items }
        ensures placed { All (λ pass. All (λ call. slice_get result.journal call.place ≡ Some (entry_of pass.number call)) pass.calls) passes.items }
        ensures rises { All (λ pass. Rises pass.calls) passes.items }
        ensures once { (place : ℕ) → sum_by (λ pass. how_often place (places pass.calls)) passes.items ≡ once_below place (length result.journal) }
        ensures passes { map (λ pass. pass.number) passes.items ≡ numbers 0 (length passes.items) → HasPasses passes.items result.journal }
        ensures sized { length result.journal ≡ sum_by (λ pass. length pass.calls) passes.items }
    {
        let Journaled {
            seen,
            mut lists,
            alone: _,
        } = self;
        let Guarded { machine, journal } = seen.close_of(passes, &mut lists);
        Closed {
            machine,
            journal: Journal::of(journal),
            lists,
        }
    }

    // Has the note hold the machine, with room in its journal for one more entry.
    #[inline(always)]
    fn hold(
        &self,
        rt: &impl Wait,
        note: &mut Note<Guarded<M>>,
        held: &mut Option<Guarded<M>>,
    ) -> Result<(), NoMemory>
        requires lock { note.old.lock ≡ self.now.id }
        requires held { IsHeld M.ask_of M.answer_of M.answer_to M.state_after note.old held.old }
        ensures holds { OnOk result (Holds M.ask_of M.answer_of M.answer_to M.state_after note.old note.new held.new) }
        ensures room { OnOk result (HasRoom held.new) }
        ensures sees { OnErr result (SeesMore note.old note.new) }
        ensures held { OnErr result (IsHeld M.ask_of M.answer_of M.answer_to M.state_after note.new held.new) }
    {
        self.reach(rt, note, held);
        let Some(guarded) = held else { unreachable!() };
        let Ok(()) = guarded.make_room() else {
            self.let_go(note, held);
            return Err(NoMemory);
        };
        Ok(())
    }

    // Waits for the machine, unless the note holds it.
    #[inline(always)]
    fn reach(&self, rt: &impl Wait, note: &mut Note<Guarded<M>>, held: &mut Option<Guarded<M>>)
        requires lock { note.old.lock ≡ self.now.id }
        requires held { IsHeld M.ask_of M.answer_of M.answer_to M.state_after note.old held.old }
        ensures { Holds M.ask_of M.answer_of M.answer_to M.state_after note.old note.new held.new }
    {
        if let Some(_) = held {
            return;
        }
        let guarded = self.seen.take(rt, note);
        match mem::replace(held, Some(guarded)) {
            None => {}
            Some(_) => unreachable!(),
        }
    }

    // Gives the machine back, but for the only pass of the lock, which keeps it.
    #[inline(always)]
    fn let_go(&self, note: &mut Note<Guarded<M>>, held: &mut Option<Guarded<M>>)
        requires lock { note.old.lock ≡ self.now.id }
        requires held { IsHeld M.ask_of M.answer_of M.answer_to M.state_after note.old held.old }
        ensures note { note.new ≡ record note.old { holds = note.new.holds } }
        ensures held { IsHeld M.ask_of M.answer_of M.answer_to M.state_after note.new held.new }
    {
        if self.alone {
            return;
        }
        if let Some(guarded) = held.take() {
            self.seen.give(note, guarded);
        }
    }

    // Enters the entry that the machine's journal has got, lets the machine go, and notes the entry's place, for which there is room. Inlined, it doesn't build the entry, which proofs alone want.
    #[inline(always)]
    fn enter(
        &self,
        note: &mut Note<Guarded<M>>,
        places: &mut Vec<u64>,
        held: &mut Option<Guarded<M>>,
        entry: Entry<M::Ask, M::Answer>,
    )
        requires lock { note.old.lock ≡ self.now.id }
        requires stepped { HasStepped M.ask_of M.answer_of M.answer_to M.state_after entry note.old held.old }
        requires places { vec_len places.old < vec_capacity places.old }
        ensures note { note.new ≡ record note.old { list = note.old.list ++ entry ∷ []; calls = note.old.calls ++ (length note.old.list, entry) ∷ []; holds = note.new.holds } }
        ensures held { IsHeld M.ask_of M.answer_of M.answer_to M.state_after note.new held.new }
        ensures places { places.new.items ≡ places.old.items ++ length note.old.list ∷ [] }
    {
        let place = self.seen.append(note, entry);
        self.let_go(note, held);
        places.push_reserved(place);
    }
}

impl<M: AnswersInPlace> Journaled<M> {
    /// The same, where the ask stays where it is and the answer is made where it is to stand.
    #[inline(always)]
    pub fn step_lent(
        &self,
        rt: &impl Wait,
        pass: &mut Pass<M>,
        ask: &M::Ask,
        answer: &mut M::Answer,
    ) -> Result<(), NoMemory>
        requires { pass.old.lock ≡ self.now.id }
        ensures ok { OnOk result (Steps M.answer_to M.state_after pass.old ask.now answer.new pass.new) }
        ensures err { OnErr result (Looks pass.old pass.new) }
    {
        let (packed, spare) = prepared::<M>(&mut pass.places, &mut pass.spare, ask)?;
        self.hold(rt, &mut pass.note, &mut pass.held)?;
        let Some(guarded) = &mut pass.held else {
            unreachable!()
        };
        let Ok(()) = guarded.answer(pass.number, ask, answer, packed, spare, &mut pass.spare) else {
            self.let_go(&mut pass.note, &mut pass.held);
            return Err(NoMemory);
        };
        let entry = Entry {
            pass: pass.number,
            ask: *ask,
            answer: *answer,
        };
        self.enter(&mut pass.note, &mut pass.places, &mut pass.held, entry);
        Ok(())
    }
}

// Makes room for one more place, packs the ask, and takes memory for its answer.
#[inline(always)]
fn prepared<M: Packs>(
    places: &mut Vec<u64>,
    spare: &mut Option<M::Spare>,
    ask: &M::Ask,
) -> Result<(M::PackedAsk, M::Spare), NoMemory>
    ensures places { places.new.items ≡ places.old.items }
    ensures room { OnOk result (vec_len places.new < vec_capacity places.new) }
    ensures ask { IfOk result (λ r. M.ask_of r.0 ≡ ask.now) }
{
    make_room(places)?;
    let alloc = *places.allocator();
    let packed = M::pack_ask(alloc, ask)?;
    Ok((packed, spare_of::<M>(alloc, spare)?))
}

// Takes the spare memory, or makes some where there is none.
fn spare_of<M: Packs>(alloc: Global, spare: &mut Option<M::Spare>) -> Result<M::Spare, NoMemory> {
    match spare.take() {
        Some(spare) => Ok(spare),
        None => M::spare(alloc),
    }
}

// A pass for each note, in their order. There is room for them.
fn passes_of<M: Packs>(
    alloc: Global,
    notes: Vec<Note<Guarded<M>>>,
    mut list: Vec<Pass<M>>,
    lists: &mut Vec<Vec<u64>>,
) -> Vec<Pass<M>>
    requires empty { list.items ≡ [] }
    requires room { vec_len notes ≤ vec_capacity list }
    requires new { All (λ note. (note.calls ≡ []) × (note.holds ≡ false)) notes.items }
    ensures count { vec_len result ≡ vec_len notes }
    ensures passes { result.items ≡ map pass_at notes.items }
{
    for note in notes {
        list.push_reserved(pass_of(note, empty_list(alloc, lists)));
    }
    list
}

// A pass that has done nothing.
fn pass_of<M: Packs>(note: Note<Guarded<M>>, places: Vec<u64>) -> Pass<M>
    requires new { (note.calls ≡ []) × (note.holds ≡ false) }
    requires empty { places.items ≡ [] }
    ensures { result ≡ pass_at note }
{
    Pass {
        number: note.number(),
        note,
        places,
        spare: None,
        held: None,
    }
}

// One of the lists, emptied, or a new one where none is left.
fn empty_list(alloc: Global, lists: &mut Vec<Vec<u64>>) -> Vec<u64>
    ensures { result.items ≡ [] }
{
    match lists.pop() {
        Some(mut list) => {
            list.clear();
            list
        }
        None => Vec::new(alloc),
    }
}
