//! The slots of a procedure's variables, as they are given out.
ghost use Rattle.std.specs.Prelude.{◌≡◌, ◌∷◌, ◌++◌, [], false, true, length, Some, IfOk, IfSome, OnOk, OnErr};
ghost use Rattle.coco_ast.specs.Meaning.{place_of};
ghost use Rattle.coco_ast.specs.Planning.{HasOwnNames, slot_for};
ghost use Rattle.coco_ast.specs.Plans.{AreSlots, has_slot, with_name, with_names};
ghost use Rattle.coco_ast.specs.Words.{is_word};

use crate::{Name, Names};
use coco_types::NoMemory;
use std::alloc::Global;
use std::collections::BTreeMap;
use std::marker::Model;

/// Names, each at a slot of its own, the slot of each, and the slot that was asked for last. Contracts see the names.
#[derive(Drop)]
pub struct Slots {
    numbers: BTreeMap<Name, usize>,
    names: Vec<Name>,
    last: usize,
}

impl Model for Slots {
    ghost use Rattle.std.specs.Prelude.{List, ℕ};
    ghost use Rattle.coco_ast.specs.Planning.{AreIndexed};

    ghost Value = { List (List ℕ) };

    ghost view = { λ s. s.names.items };

    ghost invariant = { λ s. AreIndexed s.names.items s.numbers };
}

impl Slots {
    /// The slots of a procedure's parameters, each at its place.
    pub fn of(alloc: Global, params: &[Name]) -> Result<Slots, NoMemory>
        requires { HasOwnNames params.now }
        ensures own { IfOk result (λ s. s ≡ params.now) }
        ensures named { IfOk result (λ s. s ≡ with_names [] params.now) }
    {
        let mut slots = Slots::new(alloc);
        for name in params {
            slots.slot(name)?;
        }
        Ok(slots)
    }

    fn new(alloc: Global) -> Slots
        ensures { result ≡ [] }
    {
        Slots {
            numbers: BTreeMap::new(alloc),
            names: Vec::new(alloc),
            last: 0,
        }
    }

    /// The slot of a name, which is added behind the others where it has none yet.
    pub fn slot(&mut self, name: &Name) -> Result<usize, NoMemory>
        ensures names { OnOk result (self.new ≡ with_name self.old name.now) }
        ensures slot { IfOk result (λ n. n ≡ place_of self.old name.now) }
        ensures err { OnErr result (self.new ≡ self.old) }
    {
        match self.found(name) {
            Some(slot) => {
                self.last = slot;
                Ok(slot)
            }
            None => self.add(name.copied()),
        }
    }

    fn found(&self, name: &Name) -> Option<usize>
        ensures { result ≡ slot_for self.now name.now }
    {
        match self.found_last(name) {
            Some(slot) => Some(slot),
            None => self.numbers.get(name).copied(),
        }
    }

    // The same name is often asked for many times in a row, and needs no search then.
    fn found_last(&self, name: &Name) -> Option<usize>
        ensures { IfSome result (λ n. slot_for self.now name.now ≡ Some n) }
    {
        match self.names.get(self.last) {
            Some(last) if last == name => Some(self.last),
            _ => None,
        }
    }

    fn add(&mut self, name: Name) -> Result<usize, NoMemory>
        requires new { has_slot self.old name ≡ false }
        requires word { is_word name ≡ true }
        ensures names { OnOk result (self.new ≡ self.old ++ name ∷ []) }
        ensures slot { IfOk result (λ n. n ≡ length self.old) }
        ensures err { OnErr result (self.new ≡ self.old) }
    {
        let slot = self.names.len();
        self.names.push(name)?;
        match self.numbers.insert(name, slot) {
            Ok(_) => {
                self.last = slot;
                Ok(slot)
            }
            Err(_) => {
                self.names.pop();
                Err(NoMemory)
            }
        }
    }

    /// The name of each slot.
    pub fn into_names(self) -> Names
        ensures value { result ≡ self }
        ensures slots { AreSlots result }
    {
        let Slots { names, .. } = self;
        Names::from_vec(names)
    }
}
