//! The texts that stand in procedures, on the heap.

ghost use Rattle.std.specs.Prelude.{◌≡◌, ◌≤◌, length, IfOk};
ghost use Rattle.coco_types.specs.Limits.{most_text_bytes};

use coco_types::{NoMemory, Text};
use std::alloc::Global;
use std::fmt;
use std::marker::Model;

/// A text of up to 256 bytes of UTF-8 that takes the room of its own bytes, and of an empty one none.
/// Contracts see its bytes.
#[derive(Drop)]
pub struct Literal {
    text: String,
}

impl Model for Literal {
    ghost use Rattle.std.specs.Prelude.{◌≤◌, List, ℕ, length, string_bytes};
    ghost use Rattle.coco_types.specs.Limits.{most_text_bytes};

    ghost Value = { List ℕ };

    ghost view = { λ l. string_bytes l.text };

    ghost invariant = { λ l. length (string_bytes l.text) ≤ most_text_bytes };
}

impl Literal {
    /// This text.
    pub fn of(alloc: Global, text: &Text) -> Result<Literal, NoMemory>
        ensures { IfOk result (λ l. l ≡ text.now) }
    {
        let text = String::from_str(alloc, text.as_str())?;
        Ok(Literal { text })
    }

    /// Another of the same text.
    pub fn copied(&self, alloc: Global) -> Result<Literal, NoMemory>
        ensures { IfOk result (λ l. l ≡ self.now) }
    {
        let text = String::from_str(alloc, self.as_str())?;
        Ok(Literal { text })
    }

    /// The text itself.
    pub fn as_str(&self) -> &str
        ensures value { result.now ≡ self.now }
        ensures len { length result.now ≤ most_text_bytes }
    {
        self.text.as_str()
    }

    /// The text, held in place. It stands apart, so that its callers need no room of a text for their other
    /// cases.
    #[inline(never)]
    pub fn text(&self) -> Text
        ensures { result ≡ self.now }
    {
        match Text::of(self.as_str()) {
            Some(text) => text,
            None => unreachable!(),
        }
    }
}

impl fmt::Debug for Literal {
    fn fmt<W: fmt::Write>(&self, f: &mut fmt::Formatter<W>) -> fmt::Result {
        fmt::Debug::fmt(self.as_str(), f)
    }
}
