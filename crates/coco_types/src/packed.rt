//! A value or none, packed: a number in place, a text on the heap.
ghost use Rattle.std.specs.Prelude.{◌≡◌, None, Some, is_some, IfOk, OnErr};
ghost use Rattle.std.specs.Option.{option_map};
ghost use Rattle.coco_types.specs.Arguments.{int_of};
ghost use Rattle.coco_types.specs.declared.value.Value.TheVariants as datum;
ghost use Rattle.coco_types.specs.Packing.{unpacked, lent_value, IsText};

use crate::{NoMemory, Text, Value};
use std::alloc::Global;
use std::marker::Model;

#[derive(Debug, PartialEq, Eq, Drop)]
enum Kind {
    Absent,
    Int(i64),
    Text(Box<Text>),
}

/// A value or none, kept so that one without a text takes little room. Contracts see just that.
#[derive(Debug, Drop)]
pub struct Packed {
    kind: Kind,
}

/// A packed value where it is kept.
pub enum Lent<'a> {
    Int(i64),
    Text(&'a Text),
}

impl Model for Packed {
    ghost use Rattle.std.specs.Prelude.{Option};
    ghost use Rattle.coco_types.specs.declared.value.Value.{Value as Datum};
    ghost use Rattle.coco_types.specs.Packing.{unpacked};

    ghost Value = { Option Datum };

    ghost view = { λ p. unpacked p.kind };
}

impl Packed {
    /// The value, its text on this heap. Only a text takes memory.
    pub fn of(alloc: Global, value: &Option<Value>) -> Result<Packed, NoMemory>
        ensures packed { IfOk result (λ packed. packed ≡ value.now) }
        ensures missing { OnErr result (IsText value.now) }
    {
        let kind = match value {
            None => Kind::Absent,
            Some(Value::Int(number)) => Kind::Int(*number),
            Some(Value::Text(text)) => Kind::Text(boxed(alloc, text)?),
        };
        Ok(Packed { kind })
    }

    /// A whole number. It takes no memory.
    pub fn of_int(number: i64) -> Packed
        ensures { result ≡ Some (datum.Int number) }
    {
        Packed {
            kind: Kind::Int(number),
        }
    }

    /// No value. It takes no memory.
    pub fn none() -> Packed
        ensures { result ≡ None }
    {
        Packed { kind: Kind::Absent }
    }

    /// Whether it is a value.
    pub fn is_some(&self) -> bool
        ensures { result ≡ is_some self.now }
    {
        match self.kind {
            Kind::Absent => false,
            Kind::Int(_) | Kind::Text(_) => true,
        }
    }

    pub fn get(&self) -> Option<Value>
        ensures { result ≡ self.now }
    {
        match &self.kind {
            Kind::Absent => None,
            Kind::Int(number) => Some(Value::Int(*number)),
            Kind::Text(text) => Some(Value::Text(*text.as_ref())),
        }
    }

    /// The value where it is kept.
    pub fn lend(&self) -> Option<Lent<'_>>
        ensures { option_map lent_value result ≡ self.now }
    {
        match &self.kind {
            Kind::Absent => None,
            Kind::Int(number) => Some(Lent::Int(*number)),
            Kind::Text(text) => Some(Lent::Text(text.as_ref())),
        }
    }

    /// The whole number that it is, if it is one.
    pub fn int(&self) -> Option<i64>
        ensures { result ≡ int_of self.now }
    {
        match self.kind {
            Kind::Int(number) => Some(number),
            Kind::Absent | Kind::Text(_) => None,
        }
    }

    /// The same once more.
    pub fn try_clone(&self) -> Result<Packed, NoMemory>
        ensures { IfOk result (λ copy. copy ≡ self.now) }
    {
        let kind = match &self.kind {
            Kind::Absent => Kind::Absent,
            Kind::Int(number) => Kind::Int(*number),
            Kind::Text(text) => Kind::Text(text.clone()?),
        };
        Ok(Packed { kind })
    }
}

fn boxed(alloc: Global, text: &Text) -> Result<Box<Text>, NoMemory>
    ensures { IfOk result (λ boxed. boxed.value ≡ text.now) }
{
    Ok(Box::new(alloc, *text)?)
}

impl PartialEq for Packed {
    ghost use Rattle.std.specs.Cmp.{partial_equiv_from_equiv};
    ghost use Rattle.std.specs.Cmp.Lexicographic.{options_equiv};
    ghost use Rattle.coco_types.specs.contracts.value.ValueEq.TheImpl.Laws.{laws-law};

    ghost eq = { ⟦<Option<Value> as PartialEq>⟧.eq };

    ghost laws = { partial_equiv_from_equiv (options_equiv laws-law) };

    fn eq(&self, other: &Self) -> bool {
        self.kind == other.kind
    }
}

impl Eq for Packed {
    ghost use Rattle.std.specs.Cmp.Lexicographic.{options_equiv};
    ghost use Rattle.coco_types.specs.contracts.value.ValueEq.TheImpl.Laws.{laws-law};

    ghost laws = { options_equiv laws-law };
}
