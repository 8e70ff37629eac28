//! Names, as they stand in a procedure text.

ghost use Rattle.std.specs.Prelude.{◌≡◌, true};
ghost use Rattle.coco_ast.specs.Words.{is_word};

use coco_ast::Name;
use std::marker::Model;

/// A name, lent by the procedure text that it stands in. Contracts see its bytes.
#[derive(Drop)]
pub struct Spelled<'a> {
    bytes: &'a [u8],
}

impl<'a> Model for Spelled<'a> {
    ghost use Rattle.std.specs.Prelude.{◌≡◌, List, ℕ, true};
    ghost use Rattle.coco_ast.specs.Words.{is_word};

    ghost Value = { List ℕ };

    ghost view = { λ s. s.bytes.now };

    ghost invariant = { λ s. is_word s.bytes.now ≡ true };
}

impl<'a> Spelled<'a> {
    pub(crate) fn of(bytes: &'a [u8]) -> Spelled<'a>
        requires { is_word bytes.now ≡ true }
        ensures { result ≡ bytes.now }
    {
        Spelled { bytes }
    }

    pub(crate) fn name(&self) -> Name
        ensures { result ≡ self.now }
    {
        match Name::of(self.bytes) {
            Some(name) => name,
            None => unreachable!(),
        }
    }
}
