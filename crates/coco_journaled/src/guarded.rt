//! What stands behind the lock: the machine with its journal.

ghost use Rattle.std.specs.Prelude.{◌≡◌, ◌<◌, IfOk, OnOk, OnErr, vec_len, vec_capacity};
ghost use Rattle.coco_journaled.specs.Holding.{HasAnswered};
ghost use Rattle.coco_journaled.specs.Packing.{unpacked_entry};
ghost use Rattle.coco_journaled.specs.Passes.{entry};

use crate::entry::Entry;
use crate::journal::{KeptEntry, KeptOf};
use coco_packs::{AnswersInPlace, Packs};
use coco_seen::Stores;
use coco_types::NoMemory;

/// A machine with the journal of its calls.
#[derive(Drop)]
pub struct Guarded<M: Packs> {
    pub machine: M,
    pub journal: KeptOf<M>,
}

impl<M: Packs> Stores for Guarded<M> {
    ghost use Rattle.coco_journaled.specs.Packing.{unpacked};
    ghost use Rattle.coco_journaled.specs.Replay.{Replays};

    type Entry = Entry<M::Ask, M::Answer>;

    type Root = M;

    ghost entries = { λ g. unpacked M.ask_of M.answer_of g.journal.items };

    ghost comes_from = { λ root g. Replays M.answer_to M.state_after root (unpacked M.ask_of M.answer_of g.journal.items) g.machine };
}

impl<M: Packs> Guarded<M> {
    // Makes room in the journal for one more entry.
    #[inline(always)]
    pub(crate) fn make_room(&mut self) -> Result<(), NoMemory>
        ensures machine { self.new.machine ≡ self.old.machine }
        ensures journal { self.new.journal.items ≡ self.old.journal.items }
        ensures room { OnOk result (vec_len self.new.journal < vec_capacity self.new.journal) }
    {
        make_room(&mut self.journal)
    }

    // Asks the machine for a pass, and adds the entry to its journal, for which there is room. The spare memory is left where it wasn't needed. Out of memory, nothing has changed.
    #[inline(always)]
    pub(crate) fn apply(
        &mut self,
        pass: u32,
        ask: M::Ask,
        packed: M::PackedAsk,
        spare: M::Spare,
        left: &mut Option<M::Spare>,
    ) -> Result<M::Answer, NoMemory>
        requires room { vec_len self.old.journal < vec_capacity self.old.journal }
        requires packed { M.ask_of packed ≡ ask }
        ensures ok { IfOk result (λ answer. HasAnswered M.ask_of M.answer_of M.answer_to M.state_after pass ask answer self.old self.new) }
        ensures err { OnErr result (self.new ≡ self.old) }
    {
        let answer = self.machine.apply(ask)?;
        let (kept, spare) = kept_of::<M>(pass, packed, &answer, spare);
        *left = spare;
        self.journal.push_reserved(kept);
        Ok(answer)
    }
}

impl<M: AnswersInPlace> Guarded<M> {
    // The same, where the ask stays where it is and the answer is made where it is to stand.
    #[inline(always)]
    pub(crate) fn answer(
        &mut self,
        pass: u32,
        ask: &M::Ask,
        answer: &mut M::Answer,
        packed: M::PackedAsk,
        spare: M::Spare,
        left: &mut Option<M::Spare>,
    ) -> Result<(), NoMemory>
        requires room { vec_len self.old.journal < vec_capacity self.old.journal }
        requires packed { M.ask_of packed ≡ ask.now }
        ensures ok { OnOk result (HasAnswered M.ask_of M.answer_of M.answer_to M.state_after pass ask.now answer.new self.old self.new) }
        ensures err { OnErr result (self.new ≡ self.old) }
    {
        self.machine.answer(ask, answer)?;
        let (kept, spare) = kept_of::<M>(pass, packed, answer, spare);
        *left = spare;
        self.journal.push_reserved(kept);
        Ok(())
    }
}

// A call as it is kept, and the spare memory where it wasn't needed.
#[inline(always)]
fn kept_of<M: Packs>(
    pass: u32,
    ask: M::PackedAsk,
    answer: &M::Answer,
    spare: M::Spare,
) -> (KeptEntry<M::PackedAsk, M::PackedAnswer>, Option<M::Spare>)
    ensures { unpacked_entry M.ask_of M.answer_of result.0 ≡ entry pass (M.ask_of ask) answer.now }
{
    let (answer, spare) = M::pack_answer(answer, spare);
    (KeptEntry { pass, ask, answer }, spare)
}

// Takes the room for one more item. Items are copied where a list grows, so a full list becomes four times as long, or one longer where memory is short.
pub(crate) fn make_room<T>(items: &mut Vec<T>) -> Result<(), NoMemory>
    ensures items { items.new.items ≡ items.old.items }
    ensures room { OnOk result (vec_len items.new < vec_capacity items.new) }
{
    if items.len() < items.capacity() {
        return Ok(());
    }
    let more = items.len().saturating_mul(3).max(1);
    if items.reserve(more).is_err() {
        items.reserve(1)?;
    }
    Ok(())
}
