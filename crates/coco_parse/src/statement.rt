//! Statements and blocks.

ghost use Rattle.std.specs.Prelude.{◌≡◌, ◌≤◌, true, false, List, [], Some, OnOk, IfOk};
ghost use Rattle.coco_ast.specs.Tree.{RowPlace, Statement, Statements};
ghost use Rattle.coco_ast.specs.Views.{expression_of, place_of, statement_of, statements_of};
ghost use Rattle.coco_parse.specs.Counting.{is_refuse};
ghost use Rattle.coco_parse.specs.Machine.{Goal, Fixed, SemicolonMark, Tested, Within, at_place, with_statement, in_braces};
ghost use Rattle.coco_parse.specs.Steps.{GoesOn, Reads, ReadsWords, ReadsStatement, left, behind_head, set_or_get, Heads, closes_block};

use crate::choice::Optional;
use crate::error::{ParseError, ParseFault};
use crate::state::{Cursor, Mark, Parser};
use crate::word::Word;
use coco_ast::{Block, Expr, Name, Place, Stmt};

// What a statement's first word says.
#[derive(Clone, Copy)]
pub(crate) enum Head {
    Let,
    Put,
    Delete,
    If,
    Repeat,
    Refuse,
    Reply,
}

impl<'a> Parser<'a> {
    // Statements and the brace behind them.
    #[cycle(blocks)]
    pub(crate) fn statements(&self, cursor: &mut Cursor) -> Result<Block, ParseFault>
        ensures onward { GoesOn self.now cursor.old cursor.new result }
        ensures reads { (k : Statements → Goal) → Reads self.now cursor.old cursor.new (Within [] k) result (λ b. k (statements_of b.items)) }
    {
        let mut block = Vec::new(self.alloc);
        while let Some(head) = self.head(cursor)? {
            let statement = self.statement(cursor, head)?;
            block.push(statement)?;
        }
        Ok(block)
    }

    // The first word of the next statement, and None behind the closing brace.
    fn head(&self, cursor: &mut Cursor) -> Result<Option<Head>, ParseError>
        ensures onward { GoesOn self.now cursor.old cursor.new result }
        ensures refuses { IfOk result (λ h. h ≡ Some Head.Refuse → cursor.new.counter.refuses ≡ true) }
        ensures reads { (ss : List Statement) (k : Statements → Goal) → ReadsWords self.now cursor.old cursor.new (Within ss k) result (λ h. behind_head h ss k) }
    {
        let Some(word) = self.peek(cursor) else {
            return Err(self.unexpected(cursor));
        };
        if closes_block(&word) {
            self.advance(cursor, &word)?;
            return Ok(None);
        }
        let Some(head) = head_of(&word) else {
            return Err(self.unexpected(cursor));
        };
        self.advance(cursor, &word)?;
        Ok(Some(head))
    }

    // The statement behind its first word.
    #[cycle(blocks)]
    fn statement(&self, cursor: &mut Cursor, head: Head) -> Result<Stmt, ParseFault>
        requires { head ≡ Head.Refuse → cursor.old.counter.refuses ≡ true }
        ensures onward { GoesOn self.now cursor.old cursor.new result }
        ensures reads { ReadsStatement self.now cursor.old cursor.new head result }
    {
        match head {
            Head::Let => self.behind_let(cursor),
            Head::Put => self.behind_put(cursor),
            Head::Delete => self.behind_delete(cursor),
            Head::If => self.behind_if(cursor),
            Head::Repeat => self.behind_repeat(cursor),
            Head::Refuse => self.behind_refuse(cursor),
            Head::Reply => self.behind_reply(cursor),
        }
    }

    fn behind_let(&self, cursor: &mut Cursor) -> Result<Stmt, ParseFault>
        ensures onward { GoesOn self.now cursor.old cursor.new result }
        ensures reads { ReadsStatement self.now cursor.old cursor.new Head.Let result }
    {
        let name = self.name(cursor)?;
        self.mark(cursor, Mark::Assign)?;
        self.behind_assign(cursor, name)
    }

    // What a name is set to, and a semicolon.
    fn behind_assign(&self, cursor: &mut Cursor, name: Name) -> Result<Stmt, ParseFault>
        ensures onward { GoesOn self.now cursor.old cursor.new result }
        ensures reads { (ss : List Statement) (k : Statements → Goal) → Reads self.now cursor.old cursor.new (set_or_get name ss k) result (λ s. with_statement ss k (statement_of s)) }
    {
        let gets = self.takes(cursor, Optional::Get)?;
        if gets {
            let place = self.ended_place(cursor)?;
            return Ok(Stmt::Get { name, place });
        }
        let value = self.expression(cursor, Mark::Semicolon)?;
        Ok(Stmt::Let { name, value })
    }

    // A place and a semicolon.
    fn ended_place(&self, cursor: &mut Cursor) -> Result<Place, ParseFault>
        ensures onward { GoesOn self.now cursor.old cursor.new result }
        ensures reads { (k : RowPlace → Goal) → Reads self.now cursor.old cursor.new (at_place (λ p. Fixed SemicolonMark (k p))) result (λ p. k (place_of p)) }
    {
        let place = self.place(cursor)?;
        self.mark(cursor, Mark::Semicolon)?;
        Ok(place)
    }

    fn behind_put(&self, cursor: &mut Cursor) -> Result<Stmt, ParseFault>
        ensures onward { GoesOn self.now cursor.old cursor.new result }
        ensures reads { ReadsStatement self.now cursor.old cursor.new Head.Put result }
    {
        let place = self.place(cursor)?;
        self.mark(cursor, Mark::Assign)?;
        let value = self.expression(cursor, Mark::Semicolon)?;
        Ok(Stmt::Put { place, value })
    }

    fn behind_delete(&self, cursor: &mut Cursor) -> Result<Stmt, ParseFault>
        ensures onward { GoesOn self.now cursor.old cursor.new result }
        ensures reads { ReadsStatement self.now cursor.old cursor.new Head.Delete result }
    {
        let place = self.ended_place(cursor)?;
        Ok(Stmt::Delete { place })
    }

    #[cycle(blocks)]
    fn behind_if(&self, cursor: &mut Cursor) -> Result<Stmt, ParseFault>
        ensures onward { GoesOn self.now cursor.old cursor.new result }
        ensures reads { ReadsStatement self.now cursor.old cursor.new Head.If result }
    {
        let test = self.expression(cursor, Mark::Brace)?;
        let yes = self.statements(cursor)?;
        self.behind_block(cursor, test, yes)
    }

    // The second block of an `if`, where there is one.
    #[cycle(blocks)]
    fn behind_block(&self, cursor: &mut Cursor, test: Expr, yes: Block) -> Result<Stmt, ParseFault>
        ensures onward { OnOk result (left self.now cursor.new ≤ left self.now cursor.old) }
        ensures reads { (ss : List Statement) (k : Statements → Goal) → Reads self.now cursor.old cursor.new (Tested (expression_of test) (statements_of yes.items) ss k) result (λ s. with_statement ss k (statement_of s)) }
    {
        let has_other = self.takes(cursor, Optional::Else)?;
        if has_other {
            let other = self.block(cursor)?;
            let no = Some(other);
            return Ok(Stmt::If { test, yes, no });
        }
        let no = None;
        Ok(Stmt::If { test, yes, no })
    }

    #[cycle(blocks)]
    fn behind_repeat(&self, cursor: &mut Cursor) -> Result<Stmt, ParseFault>
        ensures onward { GoesOn self.now cursor.old cursor.new result }
        ensures reads { ReadsStatement self.now cursor.old cursor.new Head.Repeat result }
    {
        let bound = self.number(cursor)?;
        self.mark(cursor, Mark::As)?;
        let name = self.name(cursor)?;
        let block = self.block(cursor)?;
        Ok(Stmt::Repeat { bound, name, block })
    }

    #[cycle(blocks)]
    pub(crate) fn block(&self, cursor: &mut Cursor) -> Result<Block, ParseFault>
        ensures onward { GoesOn self.now cursor.old cursor.new result }
        ensures reads { (k : Statements → Goal) → Reads self.now cursor.old cursor.new (in_braces k) result (λ b. k (statements_of b.items)) }
    {
        self.mark(cursor, Mark::Brace)?;
        self.statements(cursor)
    }

    fn behind_refuse(&self, cursor: &mut Cursor) -> Result<Stmt, ParseFault>
        requires { cursor.old.counter.refuses ≡ true }
        ensures onward { GoesOn self.now cursor.old cursor.new result }
        ensures reads { ReadsStatement self.now cursor.old cursor.new Head.Refuse result }
    {
        let code = self.number(cursor)?;
        self.mark(cursor, Mark::Semicolon)?;
        Ok(Stmt::Refuse(code as u16))
    }

    fn behind_reply(&self, cursor: &mut Cursor) -> Result<Stmt, ParseFault>
        ensures onward { GoesOn self.now cursor.old cursor.new result }
        ensures reads { ReadsStatement self.now cursor.old cursor.new Head.Reply result }
    {
        let value = self.expression(cursor, Mark::Semicolon)?;
        Ok(Stmt::Reply(value))
    }
}

fn closes_block(word: &Word) -> bool
    ensures { result ≡ closes_block word.now }
{
    matches!(word, Word::CloseBrace)
}

// What the word says as a statement's first, and None where it can't be that.
fn head_of(word: &Word) -> Option<Head>
    requires { closes_block word.now ≡ false }
    ensures heads { Heads result word.now }
    ensures refuse { result ≡ Some Head.Refuse → is_refuse word.now ≡ true }
{
    match word {
        Word::Let => Some(Head::Let),
        Word::Put => Some(Head::Put),
        Word::Delete => Some(Head::Delete),
        Word::If => Some(Head::If),
        Word::Repeat => Some(Head::Repeat),
        Word::Refuse => Some(Head::Refuse),
        Word::Reply => Some(Head::Reply),
        _ => None,
    }
}
