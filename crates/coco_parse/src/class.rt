//! A class of words that the limits count, and that the grammar asks for too.

ghost use Rattle.std.specs.Prelude.{◌≡◌};
ghost use Rattle.coco_parse.specs.Limits.{closes_list};

use crate::word::Word;

pub(crate) fn closes_list(word: &Word) -> bool
    ensures { result ≡ closes_list word.now }
{
    matches!(word, Word::CloseParen)
}
