//! Texts in quotes, as they stand in a procedure text.

ghost use Rattle.std.specs.Prelude.{◌≡◌, ℕ, ◌+◌, ◌<◌, ◌≤◌, ◌∷◌, length, drop, slice_index, IsUtf8};
ghost use Rattle.coco_parse.specs.Escapes.{content, unescaped};

use arrayvec::ArrayVec;
use coco_types::Text;
use coco_types::limits::MOST_TEXT_BYTES;
use std::marker::Model;
use std::str::from_utf8;

/// A text in quotes, lent by the procedure text that it stands in. Contracts see what it says, its escapes read.
#[derive(Drop)]
pub struct Quoted<'a> {
    bytes: &'a [u8],
}

impl<'a> Model for Quoted<'a> {
    ghost use Rattle.std.specs.Prelude.{◌≤◌, List, ℕ, length, IsUtf8};
    ghost use Rattle.coco_types.specs.Limits.{most_text_bytes};
    ghost use Rattle.coco_parse.specs.Escapes.{content};

    ghost Value = { List ℕ };

    ghost view = { λ q. content q.bytes.now };

    ghost invariant = { λ q. (2 ≤ length q.bytes.now) × (length (content q.bytes.now) ≤ most_text_bytes) × IsUtf8 (content q.bytes.now) };
}

impl<'a> Quoted<'a> {
    pub(crate) fn of(bytes: &'a [u8]) -> Quoted<'a>
        requires quoted { 2 ≤ length bytes.now }
        requires short { length (content bytes.now) ≤ MOST_TEXT_BYTES }
        requires utf8 { IsUtf8 (content bytes.now) }
        ensures { result ≡ content bytes.now }
    {
        Quoted { bytes }
    }

    // It stands apart, so that its callers need no room of a text for their other cases.
    #[inline(never)]
    pub(crate) fn text(&self) -> Text
        ensures { result ≡ self.now }
    {
        let content = unescaped(&self.bytes[1..self.bytes.len() - 1]);
        let Ok(content) = from_utf8(content.as_slice()) else {
            unreachable!()
        };
        match Text::of(content) {
            Some(text) => text,
            None => unreachable!(),
        }
    }
}

// A text's content, its escapes read.
fn unescaped(bytes: &[u8]) -> ArrayVec<u8, MOST_TEXT_BYTES>
    requires { length (unescaped bytes.now) ≤ MOST_TEXT_BYTES }
    ensures { result.items ≡ unescaped bytes.now }
{
    let mut content = ArrayVec::new();
    let mut at = 0;
    while at < bytes.len() {
        let byte = content_byte(bytes, at);
        content.push(bytes[byte]);
        at = byte + 1;
    }
    content
}

// Where the next byte of the content stands: behind a backslash that escapes it.
fn content_byte(bytes: &[u8], at: usize) -> usize
    requires { at < length bytes.now }
    ensures onward { at ≤ result }
    ensures within { result < length bytes.now }
    ensures byte { unescaped (drop at bytes.now) ≡ slice_index bytes.now result ∷ unescaped (drop (result + 1) bytes.now) }
{
    if bytes[at] == b'\\' && at + 1 < bytes.len() {
        at + 1
    } else {
        at
    }
}
