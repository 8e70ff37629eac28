//! Texts in quotes, with their escapes.

ghost use Rattle.std.specs.Prelude.{◌≡◌, ◌<◌, ◌↔◌, length, slice_index, IsTrue, MatchResult};
ghost use Rattle.coco_lex.specs.Bytes.{quote, backslash};
ghost use Rattle.coco_lex.specs.Tokens.{IsFront};
ghost use Rattle.coco_lex.specs.Refusal.{IsFault, IsClosed};
ghost use Rattle.coco_lex.specs.Steps.{IsContent, IsPart};

use crate::error::LexKind;
use crate::front::{Fault, Front};
use crate::token::TokenKind;
use coco_types::limits::MOST_TEXT_BYTES;

// The content of a text up to where it stops: at its closing quote, at what is bad, or at the end.
#[derive(Clone, Copy, Debug)]
struct Content {
    end: usize,
    count: usize,
}

pub(crate) fn quoted_front(rest: &[u8]) -> Result<Front, Fault>
    requires { slice_index rest.now 0 ≡ quote }
    ensures { MatchResult result (λ f. IsFront rest.now f.kind f.len) (λ f. IsFault rest.now f.kind f.offset) }
{
    let content = content_of(rest);
    if content.end < rest.len() && rest[content.end] == b'"' {
        if content.count > MOST_TEXT_BYTES {
            return Err(Fault {
                kind: LexKind::LongText,
                offset: 0,
            });
        }
        return Ok(Front {
            kind: TokenKind::Text,
            len: content.end + 1,
        });
    }
    if is_closed(rest) {
        Err(Fault {
            kind: LexKind::BadText,
            offset: content.end,
        })
    } else {
        Err(Fault {
            kind: LexKind::OpenText,
            offset: 0,
        })
    }
}

fn content_of(rest: &[u8]) -> Content
    requires { slice_index rest.now 0 ≡ quote }
    ensures { IsContent rest.now result.end result.count }
{
    let mut end = 1;
    let mut count = 0;
    while end < rest.len() {
        let len = part_len(rest, end);
        if len == 0 {
            break;
        }
        end += len;
        count += 1;
    }
    Content { end, count }
}

// How many bytes the next byte of the content is written in, and 0 where none follows.
fn part_len(rest: &[u8], at: usize) -> usize
    requires { at < length rest.now }
    ensures { IsPart rest.now at result }
{
    match rest[at] {
        b'"' => 0,
        b'\\' => escape_len(rest, at),
        b => usize::from(b >= b' '),
    }
}

// A backslash is written with the quote or the backslash behind it.
fn escape_len(rest: &[u8], at: usize) -> usize
    requires within { at < length rest.now }
    requires escapes { slice_index rest.now at ≡ backslash }
    ensures { IsPart rest.now at result }
{
    if rest.len() - at < 2 {
        return 0;
    }
    match rest[at + 1] {
        b'"' | b'\\' => 2,
        _ => 0,
    }
}

// Whether a quote behind the first isn't escaped.
fn is_closed(rest: &[u8]) -> bool
    requires { slice_index rest.now 0 ≡ quote }
    ensures { IsTrue result ↔ IsClosed rest.now }
{
    let mut is_escaped = false;
    for b in &rest[1..] {
        if *b == b'"' && !is_escaped {
            return true;
        }
        is_escaped = *b == b'\\' && !is_escaped;
    }
    false
}
