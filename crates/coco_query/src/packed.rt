//! A table's answers as they are kept: numbers in place, a text on the heap.

ghost use Rattle.std.specs.Prelude.{◌≡◌};
ghost use Rattle.coco_query.specs.Packed.{answer_of};
ghost use Rattle.coco_query.specs.declared.frozen.FrozenAnswer.TheVariants.{Had};

use crate::frozen::{Frozen, FrozenAnswer, FrozenAsk};
use coco_packs::{AnswersInPlace, Packs};
use coco_types::{NoMemory, Text, Value};
use std::alloc::Global;

/// An answer, packed.
#[derive(Debug, Drop)]
pub enum PackedAnswer {
    HadNone,
    HadInt(i64),
    HadText(Box<Text>),
}

impl PackedAnswer {
    // The answer, and the box where it has no text to put into it.
    fn of(value: &Option<Value>, mut room: Box<Text>) -> (PackedAnswer, Option<Box<Text>>)
        ensures { answer_of result.0 ≡ Had value.now }
    {
        match value {
            None => (PackedAnswer::HadNone, Some(room)),
            Some(Value::Int(number)) => (PackedAnswer::HadInt(*number), Some(room)),
            Some(Value::Text(text)) => {
                *room = *text;
                (PackedAnswer::HadText(room), None)
            }
        }
    }
}

impl Packs for Frozen {
    ghost use Rattle.coco_query.specs.Packed.{answer_of};

    type PackedAsk = FrozenAsk;

    type PackedAnswer = PackedAnswer;

    /// Room for a text.
    type Spare = Box<Text>;

    ghost ask_of = { λ ask. ask };

    ghost answer_of = { answer_of };

    fn pack_ask(_alloc: Global, ask: &FrozenAsk) -> Result<FrozenAsk, NoMemory> {
        Ok(*ask)
    }

    fn spare(alloc: Global) -> Result<Box<Text>, NoMemory> {
        match Text::of("") {
            Some(empty) => Ok(Box::new(alloc, empty)?),
            None => unreachable!(),
        }
    }

    fn pack_answer(answer: &FrozenAnswer, spare: Box<Text>) -> (PackedAnswer, Option<Box<Text>>) {
        let FrozenAnswer::Had(value) = answer;
        PackedAnswer::of(value, spare)
    }

    fn unpack_ask(packed: &FrozenAsk) -> FrozenAsk {
        *packed
    }

    fn unpack_answer(packed: &PackedAnswer) -> FrozenAnswer {
        FrozenAnswer::Had(match packed {
            PackedAnswer::HadNone => None,
            PackedAnswer::HadInt(number) => Some(Value::Int(*number)),
            PackedAnswer::HadText(text) => Some(Value::Text(*text.as_ref())),
        })
    }
}

impl AnswersInPlace for Frozen {
    fn answer(&mut self, ask: &FrozenAsk, answer: &mut FrozenAnswer) -> Result<(), NoMemory> {
        let FrozenAsk::Get(key) = ask;
        *answer = FrozenAnswer::Had(self.had(*key));
        Ok(())
    }
}
