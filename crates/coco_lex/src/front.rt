//! The token at the front of a rest of the text, or what is wrong there.

ghost use Rattle.std.specs.Prelude.{◌≡◌, ◌≢◌, ℕ, ◌<◌, ◌≤◌, ◌↔◌, length, nat_eq, slice_index, take, IsTrue, IsFalse, MatchResult, Contains, codes};
ghost use Rattle.std.specs.Char.{is_ascii_digit};
ghost use Rattle.std.specs.Cmp.Lexicographic.{pointwise};
ghost use Rattle.std.specs.List.{list_any, prefix_len};
ghost use Rattle.std.specs.Str.Parse.{digits_value};
ghost use Rattle.coco_ast.specs.Words.{is_word_start, is_word_byte};
ghost use Rattle.coco_lex.specs.Bytes.{quote};
ghost use Rattle.coco_lex.specs.Lexeme.{IsDigits, IsSymbol, keywords};
ghost use Rattle.coco_lex.specs.Tokens.{IsFront};
ghost use Rattle.coco_lex.specs.Refusal.{IsFault};

use crate::error::LexKind;
use crate::limits::MOST_NUMBER;
use crate::quoted::quoted_front;
use crate::token::TokenKind;
use coco_ast::{MOST_NAME_BYTES, continues_word, starts_word};
use std::str::from_utf8;

// What stands at the front of a rest of the text: a token of this kind and length in bytes.
#[derive(Clone, Copy, Debug)]
pub(crate) struct Front {
    pub(crate) kind: TokenKind,
    pub(crate) len: usize,
}

// What is wrong there, and how many bytes behind the front its place is.
#[derive(Clone, Copy, Debug)]
pub(crate) struct Fault {
    pub(crate) kind: LexKind,
    pub(crate) offset: usize,
}

const SINGLES: &[u8] = b"(){}[],;=<>+-*/%";

const BEFORE_EQUALS: &[u8] = b"=!<>";

pub(crate) fn front_of(rest: &[u8]) -> Result<Front, Fault>
    requires { 0 < length rest.now }
    ensures { MatchResult result (λ f. IsFront rest.now f.kind f.len) (λ f. IsFault rest.now f.kind f.offset) }
{
    let first = rest[0];
    if starts_word(first) {
        word(rest)
    } else if first.is_ascii_digit() {
        number(rest)
    } else if first == b'"' {
        quoted_front(rest)
    } else {
        symbol(rest)
    }
}

fn word(rest: &[u8]) -> Result<Front, Fault>
    requires { IsTrue (is_word_start (slice_index rest.now 0)) }
    ensures { MatchResult result (λ f. IsFront rest.now f.kind f.len) (λ f. IsFault rest.now f.kind f.offset) }
{
    let len = word_len(rest);
    if len > MOST_NAME_BYTES {
        return Err(Fault {
            kind: LexKind::LongName,
            offset: 0,
        });
    }
    let kind = if is_keyword(&rest[..len]) {
        TokenKind::Keyword
    } else {
        TokenKind::Name
    };
    Ok(Front { kind, len })
}

fn number(rest: &[u8]) -> Result<Front, Fault>
    requires { IsTrue (is_ascii_digit (slice_index rest.now 0)) }
    ensures { MatchResult result (λ f. IsFront rest.now f.kind f.len) (λ f. IsFault rest.now f.kind f.offset) }
{
    let len = digits_len(rest);
    if is_wide(&rest[..len]) {
        return Err(Fault {
            kind: LexKind::WideNumber,
            offset: 0,
        });
    }
    Ok(Front {
        kind: TokenKind::Number,
        len,
    })
}

fn symbol(rest: &[u8]) -> Result<Front, Fault>
    requires nonempty { 0 < length rest.now }
    requires no_word { IsFalse (is_word_start (slice_index rest.now 0)) }
    requires no_digit { IsFalse (is_ascii_digit (slice_index rest.now 0)) }
    requires no_quote { slice_index rest.now 0 ≢ quote }
    ensures { MatchResult result (λ f. IsFront rest.now f.kind f.len) (λ f. IsFault rest.now f.kind f.offset) }
{
    let len = symbol_len(rest);
    if len == 0 {
        return Err(Fault {
            kind: LexKind::Stray,
            offset: 0,
        });
    }
    Ok(Front {
        kind: TokenKind::Symbol,
        len,
    })
}

fn word_len(rest: &[u8]) -> usize
    ensures { result ≡ prefix_len is_word_byte rest.now }
{
    rest.iter().take_while(|b| continues_word(**b)).count()
}

fn digits_len(rest: &[u8]) -> usize
    ensures { result ≡ prefix_len is_ascii_digit rest.now }
{
    rest.iter().take_while(|b| b.is_ascii_digit()).count()
}

fn is_keyword(word: &[u8]) -> bool
    ensures { result ≡ list_any (λ keyword. pointwise nat_eq keyword word.now) keywords }
{
    matches!(
        word,
        b"table"
            | b"proc"
            | b"let"
            | b"get"
            | b"put"
            | b"delete"
            | b"if"
            | b"else"
            | b"repeat"
            | b"as"
            | b"refuse"
            | b"reply"
            | b"none"
            | b"not"
            | b"and"
            | b"or"
    )
}

// Whether the digits stand for a greater number than a token may.
fn is_wide(digits: &[u8]) -> bool
    requires { IsDigits digits.now }
    ensures { IsTrue result ↔ (MOST_NUMBER < digits_value 10 digits.now) }
{
    let Ok(digits) = from_utf8(digits) else {
        return true;
    };
    match digits.parse::<u64>() {
        Ok(value) => value > MOST_NUMBER,
        Err(_) => true,
    }
}

// How long the longest symbol at the front is, and 0 where none stands there.
fn symbol_len(rest: &[u8]) -> usize
    requires { 0 < length rest.now }
    ensures within { result ≤ length rest.now }
    ensures found { 0 < result → IsSymbol (take result rest.now) }
    ensures longest { (m : ℕ) → result < m → m ≤ length rest.now → ¬ (IsSymbol (take m rest.now)) }
{
    if rest.len() > 1 && rest[1] == b'=' && precedes_equals(rest[0]) {
        2
    } else if is_single(rest[0]) {
        1
    } else {
        0
    }
}

// Whether the byte alone is a symbol.
fn is_single(b: u8) -> bool
    ensures { IsTrue result ↔ Contains (codes "(){}[],;=<>+-*/%") b }
{
    SINGLES.contains(&b)
}

// Whether the byte and an equals sign are a symbol.
fn precedes_equals(b: u8) -> bool
    ensures { IsTrue result ↔ Contains (codes "=!<>") b }
{
    BEFORE_EQUALS.contains(&b)
}
