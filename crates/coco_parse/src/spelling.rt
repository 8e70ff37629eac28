//! What a token stands for.

ghost use Rattle.std.specs.Prelude.{◌≡◌, ℕ, ◌≤◌, true, None, nat_eq};
ghost use Rattle.std.specs.Cmp.Lexicographic.{pointwise};
ghost use Rattle.std.specs.Str.Parse.{digits_value};
ghost use Rattle.coco_lex.specs.Lexeme.{IsDigits};
ghost use Rattle.coco_parse.specs.Counting.{number_in};
ghost use Rattle.coco_parse.specs.Readable.{IsReadable};
ghost use Rattle.coco_parse.specs.Wording.{word_of, keyword_words, symbol_words, spelled_by, of_length};

use crate::quoted::Quoted;
use crate::spelled::Spelled;
use crate::word::Word;
use coco_ast::TwoOp;
use coco_lex::{MOST_NUMBER, Token, TokenKind};
use std::str::from_utf8;

// What a token of the text stands for.
pub(crate) fn word_of(text: &[u8], token: Token) -> Word<'_>
    requires { IsReadable text.now token }
    ensures word { result ≡ word_of text.now token }
    ensures least { (n : ℕ) → result ≡ Word.Number n → n ≤ MOST_NUMBER }
{
    let bytes = &text[token.start as usize..token.end as usize];
    match token.kind {
        TokenKind::Keyword => keyword_word(bytes),
        TokenKind::Symbol => symbol_word(bytes),
        TokenKind::Name => Word::Name(Spelled::of(bytes)),
        TokenKind::Number => number_word(bytes),
        TokenKind::Text => Word::Text(Quoted::of(bytes)),
    }
}

// By length, since the branches of one match with so many spellings are too many for a proof. Those
// of six bytes are too many already.
fn keyword_word<'a>(bytes: &[u8]) -> Word<'a>
    ensures spelled { result ≡ spelled_by keyword_words bytes.now }
    ensures no_number { number_in result ≡ None }
{
    match bytes.len() {
        2 => keyword_of_two(bytes),
        3 => keyword_of_three(bytes),
        4 => keyword_of_four(bytes),
        5 => keyword_of_five(bytes),
        6 => keyword_of_six(bytes),
        _ => Word::None,
    }
}

fn keyword_of_two<'a>(bytes: &[u8]) -> Word<'a>
    ensures spelled { result ≡ spelled_by (of_length 2 keyword_words) bytes.now }
    ensures no_number { number_in result ≡ None }
{
    match bytes {
        b"if" => Word::If,
        b"as" => Word::As,
        b"or" => Word::Two(TwoOp::Or),
        _ => Word::None,
    }
}

fn keyword_of_three<'a>(bytes: &[u8]) -> Word<'a>
    ensures spelled { result ≡ spelled_by (of_length 3 keyword_words) bytes.now }
    ensures no_number { number_in result ≡ None }
{
    match bytes {
        b"let" => Word::Let,
        b"get" => Word::Get,
        b"put" => Word::Put,
        b"not" => Word::Not,
        b"and" => Word::Two(TwoOp::And),
        _ => Word::None,
    }
}

fn keyword_of_four<'a>(bytes: &[u8]) -> Word<'a>
    ensures spelled { result ≡ spelled_by (of_length 4 keyword_words) bytes.now }
    ensures no_number { number_in result ≡ None }
{
    match bytes {
        b"else" => Word::Else,
        b"none" => Word::None,
        b"proc" => Word::Proc,
        _ => Word::None,
    }
}

fn keyword_of_five<'a>(bytes: &[u8]) -> Word<'a>
    ensures spelled { result ≡ spelled_by (of_length 5 keyword_words) bytes.now }
    ensures no_number { number_in result ≡ None }
{
    match bytes {
        b"reply" => Word::Reply,
        b"table" => Word::Table,
        _ => Word::None,
    }
}

fn keyword_of_six<'a>(bytes: &[u8]) -> Word<'a>
    ensures spelled { result ≡ spelled_by (of_length 6 keyword_words) bytes.now }
    ensures no_number { number_in result ≡ None }
{
    if is(b"delete", bytes) {
        Word::Delete
    } else if is(b"repeat", bytes) {
        Word::Repeat
    } else if is(b"refuse", bytes) {
        Word::Refuse
    } else {
        Word::None
    }
}

fn is(spelling: &[u8], bytes: &[u8]) -> bool
    ensures { result ≡ pointwise nat_eq spelling.now bytes.now }
{
    spelling == bytes
}

fn symbol_word<'a>(bytes: &[u8]) -> Word<'a>
    ensures spelled { result ≡ spelled_by symbol_words bytes.now }
    ensures no_number { number_in result ≡ None }
{
    match bytes {
        b"(" => Word::OpenParen,
        b")" => Word::CloseParen,
        b"{" => Word::OpenBrace,
        b"}" => Word::CloseBrace,
        b"[" => Word::OpenBracket,
        b"]" => Word::CloseBracket,
        b"," => Word::Comma,
        b";" => Word::Semicolon,
        b"=" => Word::Assign,
        b"==" => Word::Two(TwoOp::Equal),
        b"!=" => Word::Two(TwoOp::NotEqual),
        b"<" => Word::Two(TwoOp::Less),
        b"<=" => Word::Two(TwoOp::AtMost),
        b">" => Word::Two(TwoOp::Greater),
        b">=" => Word::Two(TwoOp::AtLeast),
        b"+" => Word::Two(TwoOp::Add),
        b"-" => Word::Two(TwoOp::Subtract),
        b"*" => Word::Two(TwoOp::Multiply),
        b"/" => Word::Two(TwoOp::Divide),
        b"%" => Word::Two(TwoOp::Remainder),
        _ => Word::None,
    }
}

fn number_word<'a>(bytes: &[u8]) -> Word<'a>
    requires digits { IsDigits bytes.now }
    requires fits { digits_value 10 bytes.now ≤ MOST_NUMBER }
    ensures { result ≡ Word.Number (digits_value 10 bytes.now) }
{
    let Ok(digits) = from_utf8(bytes) else {
        unreachable!()
    };
    match digits.parse::<u64>() {
        Ok(value) => Word::Number(value),
        Err(_) => unreachable!(),
    }
}
