//! A write whose value is packed.
ghost use Rattle.std.specs.Prelude.{◌≡◌, IfOk, OnErr};
ghost use Rattle.coco_types.specs.Packing.{IsText};

use crate::{Key, NoMemory, Packed, Sequence, Write};
use std::alloc::Global;
use std::marker::Model;

/// A write, kept so that one without a text takes little room. Contracts see just the write.
#[derive(Debug, Drop)]
pub struct PackedWrite {
    key: Key,
    value: Packed,
}

/// Writes as they are kept.
pub type PackedWrites = Sequence<PackedWrite>;

impl Model for PackedWrite {
    ghost use Rattle.coco_types.specs.declared.call.Write.{Write as Written};

    ghost Value = { Written };

    ghost view = { λ w. record { key = w.key; value = w.value } };
}

impl PackedWrite {
    /// The write, its text on this heap. Only a text takes memory.
    pub fn of(alloc: Global, write: &Write) -> Result<PackedWrite, NoMemory>
        ensures packed { IfOk result (λ packed. packed ≡ write.now) }
        ensures missing { OnErr result (IsText write.now.value) }
    {
        let value = Packed::of(alloc, &write.value)?;
        Ok(PackedWrite::new(write.key, value))
    }

    /// The write of this value.
    pub fn new(key: Key, value: Packed) -> PackedWrite
        ensures { result ≡ record { key = key; value = value } }
    {
        PackedWrite { key, value }
    }

    /// Its key and its value.
    pub fn into_parts(self) -> (Key, Packed)
        ensures { result ≡ (self.key, self.value) }
    {
        let PackedWrite { key, value } = self;
        (key, value)
    }

    pub fn key(&self) -> Key
        ensures { result ≡ self.now.key }
    {
        self.key
    }

    /// The value where it is kept.
    pub fn value(&self) -> &Packed
        ensures { result.now ≡ self.now.value }
    {
        &self.value
    }

    /// The same once more.
    pub fn try_clone(&self) -> Result<PackedWrite, NoMemory>
        ensures { IfOk result (λ copy. copy ≡ self.now) }
    {
        let value = self.value.try_clone()?;
        Ok(PackedWrite::new(self.key, value))
    }

    pub fn get(&self) -> Write
        ensures { result ≡ self.now }
    {
        Write {
            key: self.key,
            value: self.value.get(),
        }
    }
}
