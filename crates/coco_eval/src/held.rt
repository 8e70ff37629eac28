//! Values that variables hold, of which none is written by a mark alone.
ghost use Rattle.std.specs.Prelude.{◌≡◌, None, Some};
ghost use Rattle.coco_types.specs.declared.value.Value.TheVariants.{Int, Text as Quoted};
ghost use Rattle.coco_eval.specs.Lending.{datum_of};

use crate::operand::Operand;
use coco_ast::Literal;
use coco_types::{Text, Value};
use std::marker::Model;

/// A value or none. Contracts see just that. An earlier value stays behind none, and lends its room.
#[derive(Debug, Drop)]
pub struct Held {
    is_set: bool,
    value: Value,
}

impl Model for Held {
    ghost use Rattle.std.specs.Prelude.{Option};
    ghost use Rattle.coco_types.specs.declared.value.Value.{Value as Datum};
    ghost use Rattle.coco_eval.specs.Holding.{held};

    ghost Value = { Option Datum };

    ghost view = { λ h. held h.is_set h.value };
}

impl Held {
    /// None.
    pub fn none() -> Held
        ensures { result ≡ None }
    {
        Held {
            is_set: false,
            value: Value::Int(0),
        }
    }

    /// The value, lent.
    pub fn lend(&self) -> Operand<'_>
        ensures { datum_of result ≡ self.now }
    {
        if !self.is_set {
            return Operand::None;
        }
        match &self.value {
            Value::Int(number) => Operand::Int(*number),
            Value::Text(text) => Operand::Text(text),
        }
    }

    /// Takes the value away.
    pub fn clear(&mut self)
        ensures { self.new ≡ None }
    {
        self.is_set = false;
    }

    /// Puts a value into its place, of which only what changes is written.
    pub fn store(&mut self, value: &Operand<'_>)
        ensures { self.new ≡ datum_of value.now }
    {
        match value {
            Operand::None => self.is_set = false,
            Operand::Int(number) => self.store_number(*number),
            Operand::Text(text) => {
                store_text(&mut self.value, text);
                self.is_set = true;
            }
            Operand::Literal(literal) => {
                store_literal(&mut self.value, literal);
                self.is_set = true;
            }
        }
    }

    /// The same for a whole number.
    pub fn store_number(&mut self, number: i64)
        ensures { self.new ≡ Some (Int number) }
    {
        set_number(&mut self.value, number);
        self.is_set = true;
    }
}

fn set_number(place: &mut Value, number: i64)
    ensures { place.new ≡ Int number }
{
    match place {
        Value::Int(old) => *old = number,
        Value::Text(_) => *place = Value::Int(number),
    }
}

// It stands apart, as `store_literal` does, so that a number needs no room of a text.
#[inline(never)]
fn store_text(place: &mut Value, text: &Text)
    ensures { place.new ≡ Quoted text.now }
{
    *place = Value::Text(*text);
}

#[inline(never)]
fn store_literal(place: &mut Value, literal: &Literal)
    ensures { place.new ≡ Quoted literal.now }
{
    *place = Value::Text(literal.text());
}
