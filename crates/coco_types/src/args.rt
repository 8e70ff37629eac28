//! The arguments of a call.
ghost use Rattle.std.specs.Prelude.{◌≡◌, ◌<◌, ◌≤◌, ◌==◌, [], ◌∷◌, ◌++◌, length, slice_get, option_and_then, IfOk, OnOk, OnErr};
ghost use Rattle.coco_types.specs.Arguments.{int_of};

use crate::limits::MOST_ARGUMENTS;
use crate::{NoMemory, Packed, Value};
use std::alloc::Global;
use std::marker::Model;

/// The arguments of a call, at most 16. Contracts see their list.
#[derive(Debug, Drop)]
pub struct Args {
    items: Vec<Packed>,
}

impl Model for Args {
    ghost use Rattle.std.specs.Prelude.{List, ◌≤◌, length, Option};
    ghost use Rattle.coco_types.specs.declared.value.Value.{Value as Datum};
    ghost use Rattle.coco_types.specs.Limits.{most_arguments};

    ghost Value = { List (Option Datum) };

    ghost view = { λ a. a.items.items };

    ghost invariant = { λ a. length a.items.items ≤ most_arguments };
}

impl Args {
    /// No arguments.
    pub fn new(alloc: Global) -> Self
        ensures { result ≡ [] }
    {
        Args {
            items: Vec::new(alloc),
        }
    }

    /// No arguments, with room for so many.
    pub fn with_room(alloc: Global, count: usize) -> Result<Self, NoMemory>
        ensures { IfOk result (λ args. args ≡ []) }
    {
        let items = Vec::with_capacity(alloc, count)?;
        Ok(Args { items })
    }

    /// Adds an argument at the end.
    pub fn push(&mut self, argument: Option<Value>) -> Result<(), NoMemory>
        requires { length self.old < MOST_ARGUMENTS }
        ensures ok { OnOk result (self.new ≡ self.old ++ argument ∷ []) }
        ensures err { OnErr result (self.new ≡ self.old) }
    {
        let alloc = *self.items.allocator();
        self.items.push(Packed::of(alloc, &argument)?)?;
        Ok(())
    }

    /// Adds a packed argument at the end.
    pub fn push_packed(&mut self, argument: Packed) -> Result<(), NoMemory>
        requires { length self.old < MOST_ARGUMENTS }
        ensures ok { OnOk result (self.new ≡ self.old ++ argument ∷ []) }
        ensures err { OnErr result (self.new ≡ self.old) }
    {
        self.items.push(argument)?;
        Ok(())
    }

    /// The arguments, in place.
    pub fn as_slice(&self) -> &[Packed]
        ensures items { result.now ≡ self.now }
        ensures most { length result.now ≤ MOST_ARGUMENTS }
    {
        self.items.as_slice()
    }

    /// How many there are.
    pub fn len(&self) -> usize
        ensures len { result ≡ length self.now }
        ensures most { length self.now ≤ MOST_ARGUMENTS }
    {
        self.items.len()
    }

    pub fn is_empty(&self) -> bool
        ensures { result ≡ (length self.now == 0) }
    {
        self.items.is_empty()
    }

    /// The argument at a place counted from 0, or None where there are fewer.
    pub fn get(&self, place: usize) -> Option<Option<Value>>
        ensures { result ≡ slice_get self.now place }
    {
        let argument = self.items.get(place)?;
        Some(argument.get())
    }

    /// The whole number at a place. None where the argument is none or a text, or where there are fewer.
    pub fn int(&self, place: usize) -> Option<i64>
        ensures { result ≡ option_and_then int_of (slice_get self.now place) }
    {
        let argument = self.items.get(place)?;
        argument.int()
    }

    /// The same arguments once more.
    pub fn try_clone(&self) -> Result<Args, NoMemory>
        ensures { IfOk result (λ copy. copy ≡ self.now) }
    {
        let mut items = Vec::with_capacity(*self.items.allocator(), self.items.len())?;
        for argument in &self.items {
            items.push(argument.try_clone()?)?;
        }
        Ok(Args { items })
    }
}

impl PartialEq for Args {
    ghost use Rattle.std.specs.Cmp.{partial_equiv_from_equiv};
    ghost use Rattle.std.specs.Cmp.Lexicographic.{pointwise, lists_equiv, options_equiv};
    ghost use Rattle.coco_types.specs.contracts.value.ValueEq.TheImpl.Laws.{laws-law};

    ghost eq = { λ a b. pointwise ⟦<Option<Value> as PartialEq>⟧.eq a b };

    ghost laws = { partial_equiv_from_equiv (lists_equiv (options_equiv laws-law)) };

    fn eq(&self, other: &Self) -> bool {
        self.items == other.items
    }
}

impl Eq for Args {
    ghost use Rattle.std.specs.Cmp.Lexicographic.{lists_equiv, options_equiv};
    ghost use Rattle.coco_types.specs.contracts.value.ValueEq.TheImpl.Laws.{laws-law};

    ghost laws = { lists_equiv (options_equiv laws-law) };
}
