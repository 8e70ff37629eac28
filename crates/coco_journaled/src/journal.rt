//! The journal: the entries of a machine's calls, each kept packed.

ghost use Rattle.std.specs.Prelude.{◌≡◌, ◌==◌, [], length, slice_get, IfOk};
ghost use Rattle.coco_journaled.specs.Packing.{unpacked};

use crate::entry::Entry;
use coco_packs::Packs;
use coco_types::NoMemory;
use std::alloc::Global;
use std::marker::Model;

/// An entry as it is kept.
#[derive(Drop)]
pub struct KeptEntry<P, B> {
    pub(crate) pass: u32,
    pub(crate) ask: P,
    pub(crate) answer: B,
}

/// A list of packed entries.
pub(crate) type KeptOf<M> = Vec<KeptEntry<<M as Packs>::PackedAsk, <M as Packs>::PackedAnswer>>;

/// The calls of a machine, in order. Contracts see the list of their entries.
#[derive(Drop)]
pub struct Journal<M: Packs> {
    items: KeptOf<M>,
}

impl<M: Packs> Model for Journal<M> {
    ghost use Rattle.std.specs.Prelude.{List};
    ghost use Rattle.coco_journaled.specs.declared.entry.Entry.{Entry as Logged};
    ghost use Rattle.coco_journaled.specs.Packing.{unpacked};

    ghost Value = { List (Logged M.Ask M.Answer) };

    ghost view = { λ j. unpacked M.ask_of M.answer_of j.items.items };
}

impl<M: Packs> Journal<M> {
    /// A journal without entries, with room for so many.
    pub fn with_room(alloc: Global, entries: usize) -> Result<Journal<M>, NoMemory>
        ensures { IfOk result (λ journal. journal ≡ []) }
    {
        let items = Vec::with_capacity(alloc, entries)?;
        Ok(Journal { items })
    }

    pub(crate) fn of(items: KeptOf<M>) -> Journal<M>
        ensures { result ≡ unpacked M.ask_of M.answer_of items.items }
    {
        Journal { items }
    }

    // The room of its entries, which are let go.
    pub(crate) fn into_room(self) -> KeptOf<M>
        ensures { result.items ≡ [] }
    {
        let Journal { mut items } = self;
        items.clear();
        items
    }

    /// How many entries it has.
    pub fn len(&self) -> usize
        ensures { result ≡ length self.now }
    {
        self.items.len()
    }

    pub fn is_empty(&self) -> bool
        ensures { result ≡ (length self.now == 0) }
    {
        self.items.is_empty()
    }

    /// The entry at a place counted from 0, or None where there are fewer.
    pub fn get(&self, place: usize) -> Option<Entry<M::Ask, M::Answer>>
        ensures { result ≡ slice_get self.now place }
    {
        let kept = self.items.get(place)?;
        Some(Entry {
            pass: kept.pass,
            ask: M::unpack_ask(&kept.ask),
            answer: M::unpack_answer(&kept.answer),
        })
    }
}
