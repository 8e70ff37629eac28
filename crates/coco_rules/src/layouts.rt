//! Layouts: their numbers, and their text of procedures.

ghost use Rattle.std.specs.Prelude.{◌≡◌, ◌≤◌, ◌<◌, ◌+◌, ◌*◌, ◌↔◌, List, length, IfOk, IsTrue, MatchOption, MatchResult};
ghost use Rattle.coco_types.specs.Limits.{most_procedure_bytes};
ghost use Rattle.coco_ast.specs.Checks.{HasNoError, behind_builtins, IsWithinLimits as HasFewItems};
ghost use Rattle.coco_ast.specs.Tree.{Procedures};
ghost use Rattle.coco_ast.specs.Views.{procedures_of};
ghost use Rattle.coco_check.specs.Accepting.{HasFewStatements};
ghost use Rattle.coco_lex.specs.Tokens.{AreTokens};
ghost use Rattle.coco_lex.specs.declared.token.Token.{Token as Lexeme};
ghost use Rattle.coco_parse.specs.Refusal.{IsTreeOf};
ghost use Rattle.coco_parse.specs.Wording.{words_of};
ghost use Rattle.coco_store.specs.Refusals.{IsFirst, LayoutBreaks};
ghost use Rattle.coco_store.specs.Rules.{IsKeep, IsWithinLimits};
ghost use Rattle.coco_store.specs.Texts.{IsAcceptedText};
ghost use Rattle.coco_rules.specs.Sizes.{FindsSize};

use coco_ast::{Checked, Procs};
use coco_check::{CheckFault, check};
use coco_entry::{Layout, LayoutEntry};
use coco_lex::{LexFault, Token, lex};
use coco_parse::{ParseFault, parse};
use coco_types::NoMemory;
use coco_types::limits::{
    EPOCHS_END, MOST_KEEP, MOST_NODES, MOST_PARTITIONS, MOST_PROCEDURE_BYTES,
};
use std::alloc::Global;

fn is_keep(keep: Option<u16>) -> bool
    ensures { IsTrue result ↔ IsKeep keep }
{
    match keep {
        None => true,
        Some(keep) => 1 <= keep && keep <= MOST_KEEP,
    }
}

// The place of the first number that is out of its limits, the keep number aside.
fn size_fault(layout: &Layout) -> Option<usize>
    ensures { FindsSize layout.now result }
{
    if layout.nodes < 1 || MOST_NODES < layout.nodes {
        return Some(2);
    }
    if layout.partitions < 1 || MOST_PARTITIONS < layout.partitions {
        return Some(3);
    }
    if layout.copies >= layout.nodes {
        return Some(4);
    }
    if layout.base_epoch >= EPOCHS_END {
        return Some(9 + 4 * layout.nodes as usize);
    }
    None
}

// The tokens of a text, or None where it has none.
fn tokens_of(alloc: Global, text: &[u8]) -> Result<Option<Vec<Token>>, NoMemory>
    requires { length text.now ≤ most_procedure_bytes }
    ensures { IfOk result (λ tokens. MatchOption tokens
        ((ts : List Lexeme) → ¬ (AreTokens text.now ts))
        (λ v. AreTokens text.now v.items × ((ts : List Lexeme) → AreTokens text.now ts → v.items ≡ ts))) }
{
    match lex(alloc, text) {
        Ok(tokens) => Ok(Some(tokens)),
        Err(LexFault::Refused(_)) => Ok(None),
        Err(LexFault::NoMemory) => Err(NoMemory),
    }
}

// The tree of a text's tokens, or None where they have none.
fn tree_of(alloc: Global, text: &[u8], tokens: &[Token]) -> Result<Option<Procs>, NoMemory>
    requires short { length text.now ≤ most_procedure_bytes }
    requires tokens { AreTokens text.now tokens.now }
    ensures tree { IfOk result (λ tree. MatchOption tree
        ((t : Procedures) → ¬ (IsTreeOf (words_of text.now tokens.now) t))
        (λ procs. IsTreeOf (words_of text.now tokens.now) (procedures_of procs)
        × ((t : Procedures) → IsTreeOf (words_of text.now tokens.now) t → procedures_of procs ≡ t))) }
    ensures limits { IfOk result (λ tree. MatchOption tree (Unit {0})
        (λ procs. HasFewItems (procedures_of procs) × HasFewStatements (procedures_of procs))) }
{
    match parse(alloc, text, tokens) {
        Ok(procs) => Ok(Some(procs)),
        Err(ParseFault::Refused(_)) => Ok(None),
        Err(ParseFault::NoMemory) => Err(NoMemory),
    }
}

// The tree with the built-in procedures in front, or None where it has an error.
fn checked_of(alloc: Global, procs: Procs) -> Result<Option<Checked>, NoMemory>
    requires limits { HasFewItems (procedures_of procs) }
    requires statements { HasFewStatements (procedures_of procs) }
    ensures { IfOk result (λ checked. MatchOption checked
        (¬ (HasNoError (procedures_of procs)))
        (λ c. HasNoError (procedures_of procs) × (c ≡ behind_builtins (procedures_of procs)))) }
{
    match check(alloc, procs) {
        Ok(checked) => Ok(Some(checked)),
        Err(CheckFault::Refused(_)) => Ok(None),
        Err(CheckFault::NoMemory) => Err(NoMemory),
    }
}

// The tree of a text that is accepted, or None for any other text.
fn accepted(alloc: Global, text: &[u8]) -> Result<Option<Checked>, NoMemory>
    ensures { IfOk result (λ tree. MatchOption tree
        ((t : Procedures) → ¬ (IsAcceptedText text.now t))
        (λ c. IsAcceptedText text.now c)) }
{
    if text.len() > MOST_PROCEDURE_BYTES {
        return Ok(None);
    }
    let Some(tokens) = tokens_of(alloc, text)? else {
        return Ok(None);
    };
    let Some(tree) = tree_of(alloc, text, &tokens)? else {
        return Ok(None);
    };
    checked_of(alloc, tree)
}

/// The tree of a layout's text, where its numbers are within their limits and the text is accepted;
/// else the first byte of its body at which one isn't.
pub fn layout_tree(alloc: Global, entry: &LayoutEntry) -> Result<Result<Checked, usize>, NoMemory>
    ensures { IfOk result (λ tree. MatchResult tree
        (λ c. IsWithinLimits entry.now × IsAcceptedText entry.now.layout.text c)
        (λ at. IsFirst (LayoutBreaks entry.now) at)) }
{
    let layout = &entry.layout;
    if let Some(at) = size_fault(layout) {
        return Ok(Err(at));
    }
    let files = 4 * layout.nodes as usize;
    let Some(tree) = accepted(alloc, layout.text.as_slice())? else {
        return Ok(Err(17 + files));
    };
    if is_keep(entry.keep) {
        Ok(Ok(tree))
    } else {
        Ok(Err(21 + (files + layout.text.len())))
    }
}
