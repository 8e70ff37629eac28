//! Puts as they are kept: numbers in place, a text on the heap.

use crate::ops::{CopyAnswer, CopyAsk};
use crate::table::CopyTable;
use coco_packs::Packs;
use coco_types::{Key, NoMemory, Packed, Write};
use std::alloc::Global;

/// A put, its value packed.
#[derive(Debug, Drop)]
pub struct PackedPut {
    pub epoch: u64,
    pub time: u64,
    pub key: Key,
    pub value: Packed,
}

impl Packs for CopyTable {
    ghost use Rattle.coco_copy.specs.Packed.{put_of};

    type PackedAsk = PackedPut;

    type PackedAnswer = CopyAnswer;

    type Spare = ();

    ghost ask_of = { put_of };

    ghost answer_of = { λ answer. answer };

    fn pack_ask(alloc: Global, ask: &CopyAsk) -> Result<PackedPut, NoMemory> {
        let CopyAsk::Put { epoch, time, write } = ask;
        Ok(PackedPut {
            epoch: *epoch,
            time: *time,
            key: write.key,
            value: Packed::of(alloc, &write.value)?,
        })
    }

    fn spare(_alloc: Global) -> Result<(), NoMemory> {
        Ok(())
    }

    fn pack_answer(answer: &CopyAnswer, _spare: ()) -> (CopyAnswer, Option<()>) {
        (*answer, None)
    }

    fn unpack_ask(packed: &PackedPut) -> CopyAsk {
        CopyAsk::Put {
            epoch: packed.epoch,
            time: packed.time,
            write: Write {
                key: packed.key,
                value: packed.value.get(),
            },
        }
    }

    fn unpack_answer(packed: &CopyAnswer) -> CopyAnswer {
        *packed
    }
}
