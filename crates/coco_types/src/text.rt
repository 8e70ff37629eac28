//! Texts of up to 256 bytes, held in place.
ghost use Rattle.std.specs.Prelude.{◌≡◌, ◌<◌, ◌≤◌, length, MatchOption, IsUtf8};

use crate::limits::MOST_TEXT_BYTES;
use crate::padding::padded;
use std::fmt;
use std::marker::Model;

/// A text of up to 256 bytes of UTF-8, held in place. Contracts see its bytes.
#[derive(Clone, Copy)]
pub struct Text {
    len: usize,
    bytes: [u8; MOST_TEXT_BYTES],
}

impl Model for Text {
    ghost use Rattle.std.specs.Prelude.{List, ℕ, length, take, IsUtf8};
    ghost use Rattle.coco_types.specs.Limits.{most_text_bytes};
    ghost use Rattle.coco_types.specs.Padded.{padded, IsPadded};
    ghost use Rattle.coco_types.specs.TextView.{text-view};

    ghost Value = { List ℕ };

    ghost view = { λ t. take t.len t.bytes };

    ghost invariant = { λ t. IsPadded most_text_bytes t.len t.bytes × IsUtf8 (take t.len t.bytes) };

    ghost inverse = { λ xs. record { len = length xs; bytes = padded most_text_bytes xs } };

    ghost inverse_ok = { λ t h. text-view t h.0 };
}

impl Text {
    /// The text, or None exactly where it is longer than 256 bytes.
    pub fn of(s: &str) -> Option<Text>
        ensures { MatchOption result (MOST_TEXT_BYTES < length s.now) (λ t. t ≡ s.now) }
    {
        let from = s.as_bytes();
        let len = from.len();
        if len > MOST_TEXT_BYTES {
            return None;
        }
        let bytes = padded(from);
        Some(Text { len, bytes })
    }

    /// Its bytes, in UTF-8.
    pub fn as_bytes(&self) -> &[u8]
        ensures value { result.now ≡ self.now }
        ensures len { length result.now ≤ MOST_TEXT_BYTES }
        ensures utf8 { IsUtf8 result.now }
    {
        &self.bytes[..self.len]
    }

    /// The text itself.
    pub fn as_str(&self) -> &str
        ensures value { result.now ≡ self.now }
        ensures len { length result.now ≤ MOST_TEXT_BYTES }
    {
        let bytes = self.as_bytes();
        unsafe { std::str::from_utf8_unchecked(bytes) }
    }
}

impl PartialEq for Text {
    ghost use Rattle.std.specs.Prelude.{nat_eq};
    ghost use Rattle.std.specs.Cmp.{partial_equiv_from_equiv};
    ghost use Rattle.std.specs.Cmp.Lexicographic.{nat_list_eq_equiv, pointwise};

    ghost eq = { λ s t. pointwise nat_eq s t };

    ghost laws = { partial_equiv_from_equiv nat_list_eq_equiv };

    fn eq(&self, other: &Self) -> bool {
        self.as_bytes() == other.as_bytes()
    }
}

impl Eq for Text {
    ghost use Rattle.std.specs.Cmp.Lexicographic.{nat_list_eq_equiv, pointwise};

    ghost laws = { nat_list_eq_equiv };
}

impl fmt::Debug for Text {
    fn fmt<W: fmt::Write>(&self, f: &mut fmt::Formatter<W>) -> fmt::Result {
        fmt::Debug::fmt(self.as_str(), f)
    }
}
