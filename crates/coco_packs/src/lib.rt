//! How a machine's asks and answers are kept where there are many of them.
#![tactic(auto)]

ghost use Rattle.std.specs.Prelude.{◌≡◌, IfOk, OnOk, OnErr};

use coco_types::{Machine, NoMemory};
use std::alloc::Global;

/// A machine whose asks and answers can be kept packed, each in as little room as what it holds needs, and read back as they were.
pub trait Packs: Machine {
    /// An ask as it is kept.
    type PackedAsk: Drop;

    /// An answer as it is kept.
    type PackedAnswer: Drop;

    /// Memory that any one answer can be packed with.
    type Spare: Drop;

    /// The ask that is packed so.
    ghost ask_of: { Self.PackedAsk → Self.Ask };

    /// The answer that is packed so.
    ghost answer_of: { Self.PackedAnswer → Self.Answer };

    fn pack_ask(alloc: Global, ask: &Self::Ask) -> Result<Self::PackedAsk, NoMemory>
        ensures { IfOk result (λ packed. ask_of packed ≡ ask.now) };

    fn spare(alloc: Global) -> Result<Self::Spare, NoMemory>;

    /// The answer, packed, and the spare memory where it wasn't needed. It takes no other memory.
    fn pack_answer(
        answer: &Self::Answer,
        spare: Self::Spare,
    ) -> (Self::PackedAnswer, Option<Self::Spare>)
        ensures { answer_of result.0 ≡ answer.now };

    fn unpack_ask(packed: &Self::PackedAsk) -> Self::Ask
        ensures { result ≡ ask_of packed.now };

    fn unpack_answer(packed: &Self::PackedAnswer) -> Self::Answer
        ensures { result ≡ answer_of packed.now };
}

/// A machine that answers a lent ask where the answer is to stand, so that neither is copied.
pub trait AnswersInPlace: Packs {
    /// Answers an ask. Out of memory, the machine is as it was found.
    fn answer(&mut self, ask: &Self::Ask, answer: &mut Self::Answer) -> Result<(), NoMemory>
        ensures answer { OnOk result (answer.new ≡ Self.answer_to self.old ask.now) }
        ensures state { OnOk result (self.new ≡ Self.state_after self.old ask.now) }
        ensures err { OnErr result (self.new ≡ self.old) };
}
