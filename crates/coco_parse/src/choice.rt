//! Words that may stand at a place or be missing there.

ghost use Rattle.std.specs.Prelude.{◌≡◌, ◌≤◌, ◌<◌, ◌++◌, [], ◌∷◌, List, ℕ, OnOk};
ghost use Rattle.coco_parse.specs.Machine.{Goal, Listed, Named};
ghost use Rattle.coco_parse.specs.Steps.{left, is_optional, Chooses, chosen, GoesOn, ReadsWords};

use crate::error::ParseError;
use crate::state::{Cursor, Parser};
use crate::word::Word;

// A word that may stand at a place and may be missing there.
#[derive(Clone, Copy)]
pub(crate) enum Optional {
    Get,
    Else,
    CloseParen,
}

impl<'a> Parser<'a> {
    // Goes over the word where it stands, and says whether it does.
    pub(crate) fn takes(&self, cursor: &mut Cursor, optional: Optional) -> Result<bool, ParseError>
        ensures onward { OnOk result (left self.now cursor.new ≤ left self.now cursor.old) }
        ensures reads { (g h o : Goal) → Chooses optional g h o → ReadsWords self.now cursor.old cursor.new g result (λ taken. chosen taken h o) }
    {
        let Some(word) = self.peek(cursor) else {
            return Ok(false);
        };
        if !optional.fits(&word) {
            return Ok(false);
        }
        self.advance(cursor, &word)?;
        Ok(true)
    }

    // Whether a comma stands behind a parameter, and a further one behind that, or the closing
    // parenthesis.
    pub(crate) fn has_more(&self, cursor: &mut Cursor) -> Result<bool, ParseError>
        ensures onward { GoesOn self.now cursor.old cursor.new result }
        ensures reads { (names : List (List ℕ)) (k : List (List ℕ) → Goal) → ReadsWords self.now cursor.old cursor.new (Listed names k) result (λ more. chosen more (Named (λ name. Listed (names ++ name ∷ []) k)) (k names)) }
    {
        let Some(word) = self.peek(cursor) else {
            return Err(self.unexpected(cursor));
        };
        match word {
            Word::Comma => {
                self.advance(cursor, &word)?;
                Ok(true)
            }
            Word::CloseParen => {
                self.advance(cursor, &word)?;
                Ok(false)
            }
            _ => Err(self.unexpected(cursor)),
        }
    }
}

impl Optional {
    fn fits(self, word: &Word) -> bool
        ensures { result ≡ is_optional self word.now }
    {
        match self {
            Optional::Get => matches!(word, Word::Get),
            Optional::Else => matches!(word, Word::Else),
            Optional::CloseParen => matches!(word, Word::CloseParen),
        }
    }
}
