//! Tables and procedures, in the order of the text.

ghost use Rattle.std.specs.Prelude.{◌≡◌, ℕ, ◌<◌, ◌≤◌, List, [], ◌∷◌, ◌++◌, Some, OnOk, MatchResult};
ghost use Rattle.coco_ast.specs.Tree.{Procedure};
ghost use Rattle.coco_ast.specs.Views.{procedure_of, procedures_of};
ghost use Rattle.coco_parse.specs.Machine.{Goal, Items, Params};
ghost use Rattle.coco_parse.specs.Refusal.{IsTreeOf};
ghost use Rattle.coco_parse.specs.Steps.{IsFault, left, words, next_word, behind_item, StartsItem, GoesOn, Reads, ReadsWords};

use crate::choice::Optional;
use crate::error::{ParseError, ParseFault};
use crate::state::{Cursor, Mark, Parser};
use crate::word::Word;
use coco_ast::{Name, Names, Proc, ProcList, Procs};

// What an item's first word says.
#[derive(Clone, Copy)]
pub(crate) enum Item {
    Table,
    Proc,
}

impl<'a> Parser<'a> {
    pub(crate) fn file(&self) -> Result<Procs, ParseFault>
        ensures { MatchResult result (λ procs. IsTreeOf (words self.now) (procedures_of procs)) (IsFault self.now) }
    {
        let mut cursor = Cursor::new();
        let mut tables = Vec::new(self.alloc);
        let mut procs = Vec::new(self.alloc);
        while let Some(word) = self.peek(&cursor) {
            let item = self.item(&mut cursor, &word)?;
            match item {
                Item::Table => {
                    let table = self.table(&mut cursor)?;
                    tables.push(table)?;
                }
                Item::Proc => {
                    let procedure = self.procedure(&mut cursor)?;
                    procs.push(procedure)?;
                }
            }
        }
        Ok(Procs {
            tables: Names::from_vec(tables),
            procs: ProcList::from_vec(procs),
        })
    }

    fn item(&self, cursor: &mut Cursor, word: &Word) -> Result<Item, ParseError>
        requires { next_word self.now cursor.old ≡ Some word.now }
        ensures onward { GoesOn self.now cursor.old cursor.new result }
        ensures reads { (ts : List (List ℕ)) (ps : List Procedure) → ReadsWords self.now cursor.old cursor.new (Items ts ps) result (λ i. behind_item i ts ps) }
    {
        let Some(item) = item_of(word) else {
            return Err(self.unexpected(cursor));
        };
        self.advance(cursor, word)?;
        Ok(item)
    }

    fn table(&self, cursor: &mut Cursor) -> Result<Name, ParseError>
        ensures onward { GoesOn self.now cursor.old cursor.new result }
        ensures reads { (ts : List (List ℕ)) (ps : List Procedure) → ReadsWords self.now cursor.old cursor.new (behind_item Item.Table ts ps) result (λ name. Items (ts ++ name ∷ []) ps) }
    {
        let name = self.name(cursor)?;
        self.mark(cursor, Mark::Semicolon)?;
        Ok(name)
    }

    fn procedure(&self, cursor: &mut Cursor) -> Result<Proc, ParseFault>
        ensures onward { GoesOn self.now cursor.old cursor.new result }
        ensures reads { (ts : List (List ℕ)) (ps : List Procedure) → Reads self.now cursor.old cursor.new (behind_item Item.Proc ts ps) result (λ p. Items ts (ps ++ procedure_of p ∷ [])) }
    {
        let name = self.name(cursor)?;
        self.mark(cursor, Mark::Paren)?;
        let params = self.params(cursor)?;
        let body = self.block(cursor)?;
        Ok(Proc {
            name,
            params: Names::from_vec(params),
            body,
        })
    }

    // Parameters and the parenthesis behind them.
    fn params(&self, cursor: &mut Cursor) -> Result<Vec<Name>, ParseFault>
        ensures onward { OnOk result (left self.now cursor.new ≤ left self.now cursor.old) }
        ensures reads { (k : List (List ℕ) → Goal) → Reads self.now cursor.old cursor.new (Params k) result (λ names. k names.items) }
    {
        let mut names = Vec::new(self.alloc);
        let closes = self.takes(cursor, Optional::CloseParen)?;
        let mut more = !closes;
        while more {
            let name = self.name(cursor)?;
            names.push(name)?;
            more = self.has_more(cursor)?;
        }
        Ok(names)
    }
}

fn item_of(word: &Word) -> Option<Item>
    ensures { StartsItem result word.now }
{
    match word {
        Word::Table => Some(Item::Table),
        Word::Proc => Some(Item::Proc),
        _ => None,
    }
}
