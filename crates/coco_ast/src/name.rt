//! Names of procedures, tables and variables, held in place.

ghost use Rattle.std.specs.Prelude.{◌≡◌, false, true, MatchOption};
ghost use Rattle.std.specs.List.{list_all};
ghost use Rattle.coco_ast.specs.Words.{is_word_start, is_word_byte, is_spelled_as_word, is_word};

use coco_types::padding::padded;
use std::cmp::Ordering;
use std::fmt;
use std::marker::Model;

/// How many bytes a name may have.
pub const MOST_NAME_BYTES: usize = 32;

/// The limit in numbers.
pub fn limits()
    ensures { MOST_NAME_BYTES ≡ 32 }
{}

/// A name: an ASCII letter or `_`, and then letters, digits and `_`, at most 32 bytes in all, held
/// in place. Contracts see its bytes.
#[derive(Clone, Copy)]
pub struct Name {
    len: u8,
    bytes: [u8; MOST_NAME_BYTES],
}

impl Model for Name {
    ghost use Rattle.std.specs.Prelude.{◌≡◌, List, ℕ, true, length, take};
    ghost use Rattle.coco_types.specs.Padded.{padded, IsPadded};
    ghost use Rattle.coco_ast.specs.declared.name.TheConstants.{MOST_NAME_BYTES};
    ghost use Rattle.coco_ast.specs.Words.{is_word};
    ghost use Rattle.coco_ast.specs.NameView.{name-view};

    ghost Value = { List ℕ };

    ghost view = { λ t. take t.len t.bytes };

    ghost invariant = { λ t. IsPadded MOST_NAME_BYTES t.len t.bytes × (is_word (take t.len t.bytes) ≡ true) };

    ghost inverse = { λ xs. record { len = length xs; bytes = padded MOST_NAME_BYTES xs } };

    ghost inverse_ok = { λ t h. name-view t h.0 };
}

impl Name {
    /// The name of these bytes, or None exactly where they are no word.
    pub fn of(bytes: &[u8]) -> Option<Name>
        ensures { MatchOption result (is_word bytes.now ≡ false) (λ n. n ≡ bytes.now) }
    {
        let len = bytes.len();
        if len > MOST_NAME_BYTES || !is_word_spelling(bytes) {
            return None;
        }
        let bytes = padded(bytes);
        let len = len as u8;
        Some(Name { len, bytes })
    }

    pub(crate) fn copied(&self) -> Name
        ensures value { result ≡ self.now }
        ensures word { is_word result ≡ true }
    {
        let Name { len, bytes } = *self;
        Name { len, bytes }
    }

    pub fn as_bytes(&self) -> &[u8]
        ensures value { result.now ≡ self.now }
        ensures word { is_word result.now ≡ true }
    {
        &self.bytes[..self.len as usize]
    }

    pub fn as_str(&self) -> &str
        ensures value { result.now ≡ self.now }
        ensures word { is_word result.now ≡ true }
    {
        let bytes = self.as_bytes();
        unsafe { std::str::from_utf8_unchecked(bytes) }
    }
}

// Whether the bytes are a word, however long.
fn is_word_spelling(bytes: &[u8]) -> bool
    ensures { result ≡ is_spelled_as_word bytes.now }
{
    match bytes.split_first() {
        None => false,
        Some((first, others)) => starts_word(*first) && all_continue_word(others),
    }
}

fn all_continue_word(bytes: &[u8]) -> bool
    ensures { result ≡ list_all is_word_byte bytes.now }
{
    bytes.iter().all(|b| continues_word(*b))
}

/// Whether a word may begin with this byte.
pub fn starts_word(b: u8) -> bool
    ensures { result ≡ is_word_start b }
{
    b.is_ascii_alphabetic() || b == b'_'
}

/// Whether a word may go on with this byte.
pub fn continues_word(b: u8) -> bool
    ensures { result ≡ is_word_byte b }
{
    starts_word(b) || b.is_ascii_digit()
}

impl PartialEq for Name {
    ghost use Rattle.std.specs.Prelude.{nat_eq};
    ghost use Rattle.std.specs.Cmp.{partial_equiv_from_equiv};
    ghost use Rattle.std.specs.Cmp.Lexicographic.{nat_list_eq_equiv, pointwise};

    ghost eq = { λ s t. pointwise nat_eq s t };

    ghost laws = { partial_equiv_from_equiv nat_list_eq_equiv };

    fn eq(&self, other: &Self) -> bool {
        self.as_bytes() == other.as_bytes()
    }
}

impl Eq for Name {
    ghost use Rattle.std.specs.Cmp.Lexicographic.{nat_list_eq_equiv, pointwise};

    ghost laws = { nat_list_eq_equiv };
}

impl PartialOrd for Name {
    ghost use Rattle.std.specs.Prelude.{Some};
    ghost use Rattle.std.specs.Ordering.{nat_cmp};
    ghost use Rattle.std.specs.Cmp.Lexicographic.{slice_cmp, texts_po};

    ghost partial_cmp = { λ s t. Some (slice_cmp nat_cmp s t) };

    ghost laws = { texts_po };

    fn partial_cmp(&self, other: &Name) -> Option<Ordering> {
        Some(self.cmp(other))
    }
}

impl Ord for Name {
    ghost use Rattle.std.specs.Prelude.{refl};
    ghost use Rattle.std.specs.Ordering.{nat_cmp};
    ghost use Rattle.std.specs.Cmp.Lexicographic.{slice_cmp, nat_list_cmp_total, texts_ties};

    ghost cmp = { slice_cmp nat_cmp };

    ghost total = { nat_list_cmp_total };

    ghost matches_partial_cmp = { λ s t. refl };

    ghost matches_eq = { texts_ties };

    fn cmp(&self, other: &Name) -> Ordering {
        self.as_bytes().cmp(other.as_bytes())
    }
}

impl fmt::Debug for Name {
    fn fmt<W: fmt::Write>(&self, f: &mut fmt::Formatter<W>) -> fmt::Result {
        fmt::Debug::fmt(self.as_str(), f)
    }
}
