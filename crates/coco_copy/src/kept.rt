//! A row of a copy: its two versions, and what a put and an epoch's end make of them.

ghost use Rattle.std.specs.Prelude.{◌≡◌, Some, true, is_some};
ghost use Rattle.coco_copy.specs.Puts.{by_time};
ghost use Rattle.coco_copy.specs.declared.ops.CopyAnswer.TheVariants.{Applied as Took};

use crate::ops::CopyAnswer;
use coco_rows::EpochRow;
use coco_types::{Packed, Value};
use std::mem;

// A key's row: its stable value, and the time and value that pend for it.
#[derive(Debug, Drop)]
pub struct Kept {
    pub stable: Packed,
    pub pending: Option<(u64, Packed)>,
}

impl Kept {
    // Takes a write of the current epoch, unless one of an equal or a greater time pends.
    pub fn put(&mut self, time: u64, value: Packed) -> CopyAnswer
        ensures answer { result ≡ by_time self.old.pending time }
        ensures stable { self.new.stable ≡ self.old.stable }
        ensures applied { result ≡ Took → self.new.pending ≡ Some (time, value) }
        ensures unchanged { (result ≡ Took → ⊥) → self.new ≡ self.old }
        ensures pends { is_some self.new.pending ≡ true }
    {
        if let Some((greatest, _)) = &self.pending
            && time <= *greatest
        {
            return CopyAnswer::Older { time: *greatest };
        }
        self.pending = Some((time, value));
        CopyAnswer::Applied
    }

    // What pends for it.
    pub fn what_pends(&self) -> Option<(u64, Option<Value>)>
        ensures { result ≡ self.now.pending }
    {
        match &self.pending {
            Some((time, value)) => Some((*time, value.get())),
            None => None,
        }
    }
}

impl EpochRow for Kept {
    ghost use Rattle.coco_copy.specs.Kept.{row_kind};

    ghost kind = { row_kind };

    fn is_noted(&self) -> bool {
        self.pending.is_some()
    }

    fn rest(&mut self, promotes: bool) -> bool {
        if promotes && let Some((_, value)) = &mut self.pending {
            mem::swap(&mut self.stable, value);
        }
        self.pending = None;
        self.stable.is_some()
    }
}
