//! Expressions and places.

ghost use Rattle.std.specs.Prelude.{◌≡◌, ℕ, ◌<◌, ◌≤◌, true, false, List, [], None, Some, IfOk};
ghost use Rattle.coco_ast.specs.Tree.{Expression, RowPlace};
ghost use Rattle.coco_ast.specs.Views.{expression_of, place_of};
ghost use Rattle.std.specs.Option.{option_map};
ghost use Rattle.coco_parse.specs.Limits.{closes_list};
ghost use Rattle.coco_parse.specs.Counting.{operator_in};
ghost use Rattle.coco_parse.specs.declared.word.Word.{Word};
ghost use Rattle.coco_parse.specs.Machine.{Goal, Operand, Operator, at_place};
ghost use Rattle.coco_parse.specs.Machine as machine;
ghost use Rattle.coco_parse.specs.Steps.{next_word, mark_of, frames_of, atom_in, Opens, GoesOn, Reads};

use crate::class::closes_list;
use crate::error::ParseFault;
use crate::frames::{Frame, collapse, operate, takes_not};
use crate::quoted::Quoted;
use crate::state::{Cursor, Mark, Parser};
use crate::word::Word;
use coco_ast::{Expr, Place, TwoOp};
use coco_lex::MOST_NUMBER;
use coco_types::NoMemory;
use std::alloc::Global;

impl<'a> Parser<'a> {
    pub(crate) fn place(&self, cursor: &mut Cursor) -> Result<Place, ParseFault>
        ensures onward { GoesOn self.now cursor.old cursor.new result }
        ensures reads { (k : RowPlace → Goal) → Reads self.now cursor.old cursor.new (at_place k) result (λ p. k (place_of p)) }
    {
        let table = self.name(cursor)?;
        self.mark(cursor, Mark::Bracket)?;
        let row = self.expression(cursor, Mark::EndBracket)?;
        Ok(Place { table, row })
    }

    // An expression and the mark behind it.
    pub(crate) fn expression(&self, cursor: &mut Cursor, end: Mark) -> Result<Expr, ParseFault>
        ensures onward { GoesOn self.now cursor.old cursor.new result }
        ensures reads { (k : Expression → Goal) → Reads self.now cursor.old cursor.new (Operand [] (mark_of end) k) result (λ e. k (expression_of e)) }
    {
        let mut frames = Vec::new(self.alloc);
        let mut operand = self.operand(cursor, &mut frames)?;
        loop {
            let Some(word) = self.peek(cursor) else {
                return Err(self.unexpected(cursor).into());
            };
            if let Some(op) = word.operator() {
                operand = self.behind_operator(cursor, &mut frames, operand, op)?;
            } else if closes_list(&word) {
                operand = self.behind_paren(cursor, &mut frames, operand, &word)?;
            } else {
                return self.behind_whole(cursor, &mut frames, operand, end, &word);
            }
        }
    }

    // The next operand that is a single word. What waits for it joins the frames.
    fn operand(&self, cursor: &mut Cursor, frames: &mut Vec<Frame>) -> Result<Expr, ParseFault>
        ensures onward { GoesOn self.now cursor.old cursor.new result }
        ensures reads { (m : machine.Mark) (k : Expression → Goal) → Reads self.now cursor.old cursor.new (Operand (frames_of frames.old.items) m k) result (λ e. Operator (expression_of e) (frames_of frames.new.items) m k) }
    {
        loop {
            let Some(word) = self.peek(cursor) else {
                return Err(self.unexpected(cursor).into());
            };
            let Some(frame) = opened_by(&word, frames) else {
                return self.atom(cursor, &word);
            };
            self.advance(cursor, &word)?;
            frames.push(frame)?;
        }
    }

    // The operand that the next word is.
    fn atom(&self, cursor: &mut Cursor, word: &Word) -> Result<Expr, ParseFault>
        requires next { next_word self.now cursor.old ≡ Some word.now }
        requires least { (n : ℕ) → word.now ≡ Word.Number n → n ≤ MOST_NUMBER }
        ensures onward { GoesOn self.now cursor.old cursor.new result }
        ensures reads { (fs : List machine.Frame) (m : machine.Mark) (k : Expression → Goal) → Opens None fs word.now
            → Reads self.now cursor.old cursor.new (Operand fs m k) result (λ e. Operator (expression_of e) fs m k) }
    {
        let Some(operand) = atom_of(self.alloc, word)? else {
            return Err(self.unexpected(cursor).into());
        };
        self.advance(cursor, word)?;
        Ok(operand)
    }

    // The operand behind an operator that follows one.
    fn behind_operator(
        &self,
        cursor: &mut Cursor,
        frames: &mut Vec<Frame>,
        operand: Expr,
        op: TwoOp,
    ) -> Result<Expr, ParseFault>
        requires { next_word self.now cursor.old ≡ Some (Word.Two op) }
        ensures onward { GoesOn self.now cursor.old cursor.new result }
        ensures reads { (m : machine.Mark) (k : Expression → Goal) → Reads self.now cursor.old cursor.new (Operator (expression_of operand) (frames_of frames.old.items) m k) result (λ e. Operator (expression_of e) (frames_of frames.new.items) m k) }
    {
        let follows = operate(self.alloc, operand, frames, op)?;
        if !follows {
            return Err(self.unexpected(cursor).into());
        }
        self.advance(cursor, &Word::Two(op))?;
        self.operand(cursor, frames)
    }

    // The operand that a closing parenthesis makes.
    fn behind_paren(
        &self,
        cursor: &mut Cursor,
        frames: &mut Vec<Frame>,
        operand: Expr,
        word: &Word,
    ) -> Result<Expr, ParseFault>
        requires next { next_word self.now cursor.old ≡ Some word.now }
        requires closes { closes_list word.now ≡ true }
        ensures onward { GoesOn self.now cursor.old cursor.new result }
        ensures reads { (m : machine.Mark) (k : Expression → Goal) → Reads self.now cursor.old cursor.new (Operator (expression_of operand) (frames_of frames.old.items) m k) result (λ e. Operator (expression_of e) (frames_of frames.new.items) m k) }
    {
        let ends = collapse(self.alloc, operand, frames)?;
        if !ends.opened {
            return Err(self.unexpected(cursor).into());
        }
        self.advance(cursor, word)?;
        Ok(ends.operand)
    }

    // The expression that a mark ends.
    fn behind_whole(
        &self,
        cursor: &mut Cursor,
        frames: &mut Vec<Frame>,
        operand: Expr,
        end: Mark,
        word: &Word,
    ) -> Result<Expr, ParseFault>
        requires next { next_word self.now cursor.old ≡ Some word.now }
        requires no_operator { operator_in word.now ≡ None }
        requires no_paren { closes_list word.now ≡ false }
        ensures onward { GoesOn self.now cursor.old cursor.new result }
        ensures reads { (k : Expression → Goal) → Reads self.now cursor.old cursor.new (Operator (expression_of operand) (frames_of frames.old.items) (mark_of end) k) result (λ e. k (expression_of e)) }
    {
        let ends = collapse(self.alloc, operand, frames)?;
        if ends.opened {
            return Err(self.unexpected(cursor).into());
        }
        if !end.fits(word) {
            return Err(self.unexpected(cursor).into());
        }
        self.advance(cursor, word)?;
        Ok(ends.operand)
    }
}

// The operand that a word is, and None where it is none.
fn atom_of(alloc: Global, word: &Word) -> Result<Option<Expr>, NoMemory>
    requires { (n : ℕ) → word.now ≡ Word.Number n → n ≤ MOST_NUMBER }
    ensures { IfOk result (λ atom. option_map expression_of atom ≡ atom_in word.now) }
{
    match word {
        Word::Number(n) => Ok(Some(Expr::Number(*n as i64))),
        Word::Text(text) => text_atom(alloc, text),
        Word::None => Ok(Some(Expr::None)),
        Word::Name(name) => Ok(Some(Expr::Var(name.name()))),
        _ => Ok(None),
    }
}

fn text_atom(alloc: Global, text: &Quoted) -> Result<Option<Expr>, NoMemory>
    ensures { IfOk result (λ atom. option_map expression_of atom ≡ atom_in (Word.Text text.now)) }
{
    let text = Expr::text(alloc, text.text())?;
    Ok(Some(text))
}

// The frame that a word opens before an operand, and None where it opens none.
fn opened_by(word: &Word, frames: &[Frame]) -> Option<Frame>
    ensures { Opens result (frames_of frames.now) word.now }
{
    match word {
        Word::OpenParen => Some(Frame::Opened),
        Word::Two(op) => opened_by_sign(*op),
        Word::Not => opened_by_not(frames),
        _ => None,
    }
}

fn opened_by_sign(op: TwoOp) -> Option<Frame>
    ensures { (fs : List machine.Frame) → Opens result fs (Word.Two op) }
{
    match op {
        TwoOp::Subtract => Some(Frame::Negated),
        _ => None,
    }
}

fn opened_by_not(frames: &[Frame]) -> Option<Frame>
    ensures { Opens result (frames_of frames.now) Word.Not }
{
    if takes_not(frames) {
        Some(Frame::Inverted)
    } else {
        None
    }
}
