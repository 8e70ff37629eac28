//! The next word, and the words that stand alone.

ghost use Rattle.std.specs.Prelude.{◌≡◌, ℕ, ◌<◌, ◌≤◌, true, false, List, Some, OnOk, IfOk};
ghost use Rattle.coco_parse.specs.Counting.{is_refuse, is_wide};
ghost use Rattle.coco_parse.specs.Machine.{Goal, Fixed, Named, Numbered, step, marks};
ghost use Rattle.coco_parse.specs.Refusal.{place_of};
ghost use Rattle.coco_parse.specs.Steps.{Stands, Stops, IsRefusal, next_word, mark_of, GoesOn, ReadsWords};
ghost use Rattle.coco_parse.specs.declared.word.Word.{Word};

use crate::error::{ParseError, ParseKind};
use crate::limits::MOST_CODE;
use crate::spelling::word_of;
use crate::state::{Cursor, Mark, Parser};
use crate::word::Word;
use coco_ast::Name;
use coco_lex::MOST_NUMBER;

impl<'a> Parser<'a> {
    // The next word, and None at the end of the text.
    pub(crate) fn peek(&self, cursor: &Cursor) -> Option<Word<'a>>
        ensures word { result ≡ next_word self.now cursor.now }
        ensures least { (n : ℕ) → result ≡ Some (Word.Number n) → n ≤ MOST_NUMBER }
    {
        match self.tokens.get(cursor.at) {
            Some(token) => Some(word_of(self.text, *token)),
            None => None,
        }
    }

    // Goes over the next word, unless it passes a limit.
    pub(crate) fn advance(&self, cursor: &mut Cursor, word: &Word) -> Result<(), ParseError>
        requires { next_word self.now cursor.old ≡ Some word.now }
        ensures onward { GoesOn self.now cursor.old cursor.new result }
        ensures refuses { OnOk result (cursor.new.counter.refuses ≡ is_refuse word.now) }
        ensures narrow { OnOk result (cursor.old.counter.refuses ≡ true → is_wide word.now ≡ false) }
        ensures reads { (g h : Goal) → step g word.now ≡ Some h → ReadsWords self.now cursor.old cursor.new g result (λ _. h) }
    {
        if let Some(kind) = cursor.counter.count(word) {
            return Err(self.refusal(cursor, kind));
        }
        cursor.at += 1;
        Ok(())
    }

    // The refusal where the grammar doesn't go on.
    pub(crate) fn unexpected(&self, cursor: &Cursor) -> ParseError
        ensures { (g : Goal) → Stands self.now cursor.now g → Stops g (next_word self.now cursor.now) → IsRefusal self.now result }
    {
        self.refusal(cursor, ParseKind::Unexpected)
    }

    fn refusal(&self, cursor: &Cursor, kind: ParseKind) -> ParseError
        ensures place { result.at ≡ place_of self.now.text.now self.now.tokens.now cursor.now.at }
        ensures kind { result.kind ≡ kind }
    {
        let at = match self.tokens.get(cursor.at) {
            Some(token) => token.start,
            None => self.text.len() as u32,
        };
        ParseError { at, kind }
    }

    pub(crate) fn mark(&self, cursor: &mut Cursor, mark: Mark) -> Result<(), ParseError>
        ensures onward { GoesOn self.now cursor.old cursor.new result }
        ensures reads { (g : Goal) → ReadsWords self.now cursor.old cursor.new (Fixed (mark_of mark) g) result (λ _. g) }
    {
        let Some(word) = self.peek(cursor) else {
            return Err(self.unexpected(cursor));
        };
        if !mark.fits(&word) {
            return Err(self.unexpected(cursor));
        }
        self.advance(cursor, &word)
    }

    pub(crate) fn name(&self, cursor: &mut Cursor) -> Result<Name, ParseError>
        ensures onward { GoesOn self.now cursor.old cursor.new result }
        ensures reads { (k : List ℕ → Goal) → ReadsWords self.now cursor.old cursor.new (Named k) result (λ name. k name) }
    {
        let Some(word) = self.peek(cursor) else {
            return Err(self.unexpected(cursor));
        };
        let Some(name) = word.name() else {
            return Err(self.unexpected(cursor));
        };
        self.advance(cursor, &word)?;
        Ok(name)
    }

    pub(crate) fn number(&self, cursor: &mut Cursor) -> Result<u64, ParseError>
        ensures onward { GoesOn self.now cursor.old cursor.new result }
        ensures narrow { cursor.old.counter.refuses ≡ true → IfOk result (λ n. n ≤ MOST_CODE) }
        ensures reads { (k : ℕ → Goal) → ReadsWords self.now cursor.old cursor.new (Numbered k) result (λ n. k n) }
    {
        let Some(word) = self.peek(cursor) else {
            return Err(self.unexpected(cursor));
        };
        let Some(number) = word.number() else {
            return Err(self.unexpected(cursor));
        };
        self.advance(cursor, &word)?;
        Ok(number)
    }
}

impl Mark {
    pub(crate) fn fits(self, word: &Word) -> bool
        ensures { result ≡ marks (mark_of self) word.now }
    {
        match self {
            Mark::Paren => matches!(word, Word::OpenParen),
            Mark::Brace => matches!(word, Word::OpenBrace),
            Mark::Bracket => matches!(word, Word::OpenBracket),
            Mark::EndBracket => matches!(word, Word::CloseBracket),
            Mark::Semicolon => matches!(word, Word::Semicolon),
            Mark::Assign => matches!(word, Word::Assign),
            Mark::As => matches!(word, Word::As),
        }
    }
}
