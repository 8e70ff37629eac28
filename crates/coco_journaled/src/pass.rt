//! A pass: the right to step a journaled machine, with the places of the calls that were made by it.

ghost use Rattle.std.specs.Prelude.{◌≡◌};
ghost use Rattle.coco_journaled.specs.Passes.{places};

use crate::guarded::Guarded;
use coco_packs::Packs;
use coco_seen::{HoldsNote, Note, Seen};
use std::marker::Model;

/// What one caller knows of a journaled lock and has done under it. To a contract it is its number, the machine at the start, the entries that it has seen, and its own calls with their places.
pub struct Pass<M: Packs> {
    pub(crate) number: u32,
    pub(crate) note: Note<Guarded<M>>,
    pub(crate) places: Vec<u64>,
    /// Memory for the packing of the next answer.
    pub(crate) spare: Option<M::Spare>,
    /// The machine, which the only pass of a lock keeps from its first step on.
    pub(crate) held: Option<Guarded<M>>,
}

impl<M: Packs> Model for Pass<M> {
    ghost use Rattle.coco_journaled.specs.Holding.{IsHeld};
    ghost use Rattle.coco_journaled.specs.Passes.{Passing, passing, IsPassOf};

    ghost Value = { Passing M M.Ask M.Answer };

    ghost view = { λ p. passing p.number p.note };

    ghost invariant = { λ p. IsPassOf p.number p.note p.places.items × IsHeld M.ask_of M.answer_of M.answer_to M.state_after p.note p.held };
}

impl<M: Packs + Drop> Drop for Pass<M> {
    fn drop(self) {
        let Pass {
            number: _,
            note: _,
            places: _,
            spare: _,
            held: _,
        } = self;
    }
}

impl<M: Packs> Pass<M> {
    /// The places of its calls, in the order in which it made them.
    pub fn places(&self) -> &[u64]
        ensures { result.now ≡ places self.now.calls }
    {
        self.places.as_slice()
    }
}

impl<M: Packs> HoldsNote<Guarded<M>> for Pass<M> {
    ghost use Rattle.coco_journaled.specs.Passes.{note_of, Rises};

    ghost note = { note_of };

    ghost fact = { λ p. Rises p.calls };

    type Rests = Vec<Vec<u64>>;

    // The list is kept where there is room for it.
    fn into_note(self, lock: &Seen<Guarded<M>>, lists: &mut Vec<Vec<u64>>) -> Note<Guarded<M>> {
        let Self {
            number: _,
            mut note,
            mut places,
            spare: _,
            held,
        } = self;
        if let Some(guarded) = held {
            lock.give(&mut note, guarded);
        }
        places.clear();
        if lists.len() < lists.capacity() {
            lists.push_reserved(places);
        }
        note
    }
}
