//! Why a field could not be read.

use std::error::Error;
use std::fmt;

/// What is wrong with the field at a place.
#[derive(Clone, Copy, Debug, PartialEq, Eq)]
pub enum FieldFault {
    /// The bytes end within it.
    Short { at: usize },
    /// It can't stand there.
    Bad { at: usize },
}

impl fmt::Display for FieldFault {
    ghost use Rattle.std.specs.Prelude.{Some};
    ghost use Rattle.coco_bytes.specs.Messages.{fault_text};

    ghost output = { λ x. Some (fault_text x) };

    fn fmt<W: fmt::Write>(&self, f: &mut fmt::Formatter<W>) -> fmt::Result {
        match self {
            FieldFault::Short { at } => write!(f, "the bytes end within the field at {at}"),
            FieldFault::Bad { at } => write!(f, "no such field can stand at {at}"),
        }
    }
}

impl Error for FieldFault {}
