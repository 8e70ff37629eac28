//! A token without its place.

ghost use Rattle.std.specs.Prelude.{◌≡◌};
ghost use Rattle.coco_parse.specs.Counting.{name_in, number_in, operator_in};

use crate::quoted::Quoted;
use crate::spelled::Spelled;
use coco_ast::{Name, TwoOp};

/// A token without its place. `Two` is an operator with two operands; `Two(TwoOp::Subtract)` also
/// stands for the minus before one operand.
#[derive(Drop)]
pub enum Word<'a> {
    Table,
    Proc,
    Let,
    Get,
    Put,
    Delete,
    If,
    Else,
    Repeat,
    As,
    Refuse,
    Reply,
    None,
    Not,
    Name(Spelled<'a>),
    Number(u64),
    Text(Quoted<'a>),
    Two(TwoOp),
    OpenParen,
    CloseParen,
    OpenBrace,
    CloseBrace,
    OpenBracket,
    CloseBracket,
    Comma,
    Semicolon,
    Assign,
}

impl<'a> Word<'a> {
    pub(crate) fn name(&self) -> Option<Name>
        ensures { result ≡ name_in self.now }
    {
        match self {
            Word::Name(name) => Some(name.name()),
            _ => None,
        }
    }

    pub(crate) fn number(&self) -> Option<u64>
        ensures { result ≡ number_in self.now }
    {
        match self {
            Word::Number(number) => Some(*number),
            _ => None,
        }
    }

    pub(crate) fn operator(&self) -> Option<TwoOp>
        ensures { result ≡ operator_in self.now }
    {
        match self {
            Word::Two(op) => Some(*op),
            _ => None,
        }
    }
}
