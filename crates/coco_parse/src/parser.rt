//! The tree of a text's tokens, or their first refusal.

ghost use Rattle.std.specs.Prelude.{◌≡◌, ◌≤◌, ◌<◌, ◌^◌, ◌⊎◌, ℕ, List, length, Result, IfOk, IfErr, IsErrAnd, MatchResult};
ghost use Rattle.std.specs.List.{All};
ghost use Rattle.coco_ast.specs.Checks.{IsWithinLimits, statements_in};
ghost use Rattle.coco_ast.specs.Tree.{Procedures};
ghost use Rattle.coco_ast.specs.Views.{procedures_of};
ghost use Rattle.coco_lex.specs.Tokens.{AreTokens};
ghost use Rattle.coco_lex.specs.declared.token.Token.{Token};
ghost use Rattle.coco_parse.specs.Refusal.{IsTreeOf, IsRefused, ParsesAs, OnRefused};
ghost use Rattle.coco_parse.specs.Wording.{words_of};
ghost use Rattle.coco_parse.specs.declared.error.ParseError.{ParseError};

use crate::error::{ParseError, ParseFault};
use crate::state::Parser;
use coco_ast::Procs;
use coco_lex::Token;
use coco_types::limits::MOST_PROCEDURE_BYTES;
use std::alloc::Global;

/// The tree of a text's tokens, or their first refusal.
pub fn parse(alloc: Global, text: &[u8], tokens: &[Token]) -> Result<Procs, ParseFault>
    requires short { length text.now ≤ MOST_PROCEDURE_BYTES }
    requires tokens { AreTokens text.now tokens.now }
    ensures tree { IfOk result (λ procs. IsTreeOf (words_of text.now tokens.now) (procedures_of procs)) }
    ensures refused { IfErr result (λ fault. OnRefused fault (IsRefused text.now tokens.now)) }

    // A tree of a text has no more than a check of it may be handed.
    ensures limits { IfOk result (λ procs. IsWithinLimits (procedures_of procs)) }
    ensures statements { IfOk result (λ procs. All (λ p. length (statements_in p) < 2 ^ 32) (procedures_of procs).procs) }

    // Only want of memory comes in the place of what the tokens are read as.
    ensures only_tree { (t : Procedures) → IsTreeOf (words_of text.now tokens.now) t
        → MatchResult result (λ procs. procedures_of procs ≡ t) (λ fault. fault ≡ ParseFault.NoMemory) }
    ensures only_refusal { (e : ParseError) → IsRefused text.now tokens.now e
        → IsErrAnd result (λ fault. (fault ≡ ParseFault.Refused e) ⊎ (fault ≡ ParseFault.NoMemory)) }
{
    let parser = Parser::new(alloc, text, tokens);
    parser.file()
}

/// Tokens are read in one way: they have one tree, or one first refusal, and never both.
pub fn one_reading()
    ensures { (text : List ℕ) (ts : List Token) (a b : Result Procedures ParseError) → ParsesAs text ts a → ParsesAs text ts b → a ≡ b }
{}
