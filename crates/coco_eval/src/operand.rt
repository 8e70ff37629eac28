//! Values that are lent where they stand.
ghost use Rattle.std.specs.Prelude.{◌≡◌, Some, nat_eq};
ghost use Rattle.std.specs.Cmp.Lexicographic.{pointwise};
ghost use Rattle.coco_eval.specs.Lending.{datum_of};
ghost use Rattle.coco_ast.specs.Meaning.{number_of, same};
ghost use Rattle.coco_types.specs.declared.value.Value.TheVariants.{Int, Text as Quoted};

use coco_ast::Literal;
use coco_types::{Cause, Text, Value};

/// A value, or none. Its text stays where it stands: in a value, or in a procedure.
#[derive(Clone, Copy)]
pub enum Operand<'a> {
    None,
    Int(i64),
    Text(&'a Text),
    Literal(&'a Literal),
}

/// A value, lent.
pub fn lend(value: &Option<Value>) -> Operand<'_>
    ensures { datum_of result ≡ value.now }
{
    match value {
        None => Operand::None,
        Some(Value::Int(number)) => Operand::Int(*number),
        Some(Value::Text(text)) => Operand::Text(text),
    }
}

/// The value once more.
pub fn owned(value: &Operand<'_>) -> Option<Value>
    ensures { result ≡ datum_of value.now }
{
    match value {
        Operand::None => None,
        Operand::Int(number) => Some(Value::Int(*number)),
        Operand::Text(text) => Some(Value::Text(**text)),
        Operand::Literal(literal) => quoted(literal),
    }
}

// It stands apart, as `store_literal` does, so that a number needs no room of a text.
#[inline(never)]
fn quoted(literal: &Literal) -> Option<Value>
    ensures { result ≡ Some (Quoted literal.now) }
{
    Some(Value::Text(literal.text()))
}

/// Puts the value into a place, of which only what changes is written.
pub fn store(slot: &mut Option<Value>, value: &Operand<'_>)
    ensures { slot.new ≡ datum_of value.now }
{
    match value {
        Operand::None => *slot = None,
        Operand::Int(number) => store_number(slot, *number),
        Operand::Text(text) => *slot = Some(Value::Text(**text)),
        Operand::Literal(literal) => store_literal(slot, literal),
    }
}

#[inline(never)]
fn store_literal(slot: &mut Option<Value>, literal: &Literal)
    ensures { slot.new ≡ Some (Quoted literal.now) }
{
    *slot = Some(Value::Text(literal.text()));
}

fn store_number(slot: &mut Option<Value>, number: i64)
    ensures { slot.new ≡ Some (Int number) }
{
    match slot {
        Some(Value::Int(place)) => *place = number,
        _ => *slot = Some(Value::Int(number)),
    }
}

pub fn number(value: &Operand<'_>) -> Result<i64, Cause>
    ensures { result ≡ number_of (datum_of value.now) }
{
    match value {
        Operand::Int(number) => Ok(*number),
        Operand::None | Operand::Text(_) | Operand::Literal(_) => Err(Cause::Kind),
    }
}

#[inline(always)]
pub fn are_same(left: &Operand<'_>, right: &Operand<'_>) -> bool
    ensures { result ≡ same (datum_of left.now) (datum_of right.now) }
{
    match (left, right) {
        (Operand::None, Operand::None) => true,
        (Operand::Int(left), Operand::Int(right)) => left == right,
        (Operand::Text(left), Operand::Text(right)) => {
            are_same_text(left.as_str(), right.as_str())
        }
        (Operand::Text(left), Operand::Literal(right)) => {
            are_same_text(left.as_str(), right.as_str())
        }
        (Operand::Literal(left), Operand::Text(right)) => {
            are_same_text(left.as_str(), right.as_str())
        }
        (Operand::Literal(left), Operand::Literal(right)) => {
            are_same_text(left.as_str(), right.as_str())
        }
        _ => false,
    }
}

fn are_same_text(left: &str, right: &str) -> bool
    ensures { result ≡ pointwise nat_eq left.now right.now }
{
    left == right
}
