//! All tokens of a text, in order, or its first refusal.

ghost use Rattle.std.specs.Prelude.{◌≡◌, ℕ, ◌<◌, ◌≤◌, ◌⊎◌, List, length, Result, Err, IfOk, IfErr, IsErrAnd, MatchResult, IsUtf8};
ghost use Rattle.coco_lex.specs.Tokens.{AreTokens, IsToken};
ghost use Rattle.coco_lex.specs.Refusal.{IsRefused, IsFaultAt, ReadsAs, OnRefused};
ghost use Rattle.coco_lex.specs.declared.error.LexError.{LexError};
ghost use Rattle.coco_lex.specs.declared.token.Token.{Token};

use crate::error::{LexError, LexFault, LexKind};
use crate::front::front_of;
use crate::gap::gap_end;
use crate::token::Token;
use coco_types::limits::MOST_PROCEDURE_BYTES;
use std::alloc::Global;
use std::str::from_utf8;

/// The tokens of a text, in order, or its first refusal.
pub fn lex(alloc: Global, text: &[u8]) -> Result<Vec<Token>, LexFault>
    requires { length text.now ≤ MOST_PROCEDURE_BYTES }
    ensures tokens { IfOk result (λ v. AreTokens text.now v.items) }
    ensures refused { IfErr result (λ fault. OnRefused fault (IsRefused text.now)) }

    // Only want of memory comes in the place of what the text is read as.
    ensures only_tokens { (ts : List Token) → AreTokens text.now ts
        → MatchResult result (λ v. v.items ≡ ts) (λ fault. fault ≡ LexFault.NoMemory) }
    ensures only_refusal { (e : LexError) → IsRefused text.now e
        → IsErrAnd result (λ fault. (fault ≡ LexFault.Refused e) ⊎ (fault ≡ LexFault.NoMemory)) }
{
    match from_utf8(text) {
        Ok(_) => tokens_of(alloc, text),
        Err(error) => Err(LexFault::Refused(LexError {
            at: error.valid_up_to() as u32,
            kind: LexKind::Utf8,
        })),
    }
}

fn tokens_of(alloc: Global, text: &[u8]) -> Result<Vec<Token>, LexFault>
    requires short { length text.now ≤ MOST_PROCEDURE_BYTES }
    requires utf8 { IsUtf8 text.now }
    ensures tokens { IfOk result (λ v. AreTokens text.now v.items) }
    ensures refused { IfErr result (λ fault. OnRefused fault (IsRefused text.now)) }
{
    let mut tokens = Vec::new(alloc);
    let mut at = gap_end(text, 0);
    while at < text.len() {
        let token = token_at(text, at)?;
        tokens.push(token)?;
        at = gap_end(text, token.end as usize);
    }
    Ok(tokens)
}

fn token_at(text: &[u8], at: usize) -> Result<Token, LexError>
    requires short { length text.now ≤ MOST_PROCEDURE_BYTES }
    requires within { at < length text.now }
    ensures { MatchResult result (λ t. (t.start ≡ at) × IsToken text.now t) (λ e. IsFaultAt text.now at e) }
{
    match front_of(&text[at..]) {
        Ok(front) => Ok(Token {
            start: at as u32,
            end: (at + front.len) as u32,
            kind: front.kind,
        }),
        Err(fault) => Err(LexError {
            at: (at + fault.offset) as u32,
            kind: fault.kind,
        }),
    }
}

/// A text is read in one way: it has one list of tokens, or one first refusal, and never both.
pub fn one_reading()
    ensures { (text : List ℕ) (a b : Result (List Token) LexError) → ReadsAs text a → ReadsAs text b → a ≡ b }
{}
