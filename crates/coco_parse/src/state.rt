//! What is parsed, and how far the words have been read.

ghost use Rattle.std.specs.Prelude.{◌≡◌, ◌≤◌, [], length};
ghost use Rattle.coco_lex.specs.Tokens.{AreTokens};
ghost use Rattle.coco_types.specs.declared.limits.TheConstants.{MOST_PROCEDURE_BYTES};
ghost use Rattle.coco_parse.specs.Counting.{Counts};

use crate::counter::Counter;
use coco_lex::Token;
use coco_types::limits::MOST_PROCEDURE_BYTES;
use std::alloc::Global;

// What is parsed, and where its tree is made.
#[derive(Clone, Copy)]
pub(crate) struct Parser<'a> {
    pub(crate) alloc: Global,
    pub(crate) text: &'a [u8],
    pub(crate) tokens: &'a [Token],
    ghost are_tokens: { ∥ AreTokens text.now tokens.now ∥₁ },
    ghost short: { length text.now ≤ MOST_PROCEDURE_BYTES },
    ghost few: { length tokens.now ≤ MOST_PROCEDURE_BYTES },
}

// How many words have been read, with what the limits count over them.
#[derive(Clone, Copy)]
pub(crate) struct Cursor {
    pub(crate) at: usize,
    pub(crate) counter: Counter,
}

// A word that stands alone at a place of the grammar.
#[derive(Clone, Copy)]
pub(crate) enum Mark {
    Paren,
    Brace,
    Bracket,
    EndBracket,
    Semicolon,
    Assign,
    As,
}

impl<'a> Parser<'a> {
    pub(crate) fn new(alloc: Global, text: &'a [u8], tokens: &'a [Token]) -> Parser<'a>
        requires tokens { AreTokens text.now tokens.now }
        requires short { length text.now ≤ MOST_PROCEDURE_BYTES }
        ensures { (result.text.now ≡ text.now) × (result.tokens.now ≡ tokens.now) }
    {
        Parser {
            alloc,
            text,
            tokens,
        }
    }
}

impl Cursor {
    // Before the first word.
    pub(crate) fn new() -> Cursor
        ensures at { result.at ≡ 0 }
        ensures counter { Counts result.counter [] }
    {
        Cursor {
            at: 0,
            counter: Counter::new(),
        }
    }
}
