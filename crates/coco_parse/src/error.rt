//! Why tokens have no tree, and how that is printed.

use coco_types::NoMemory;
use std::alloc::AllocFailed;
use std::error::Error;
use std::fmt;

/// What is wrong at a token.
#[derive(Clone, Copy, Debug, PartialEq, Eq)]
pub enum ParseKind {
    /// No continuation of the grammar allows this token, or the text ends too early.
    Unexpected,
    /// More than 32 blocks and parentheses are open.
    TooDeep,
    /// More than 64 operators in an expression, or more than 16 parameters.
    TooMany,
    /// A number after `refuse` above 65,535.
    Range,
}

/// The first refusal of a text's tokens, `at` counted in bytes from the text's start.
#[derive(Clone, Copy, Debug, PartialEq, Eq)]
pub struct ParseError {
    pub at: u32,
    pub kind: ParseKind,
}

/// Why tokens gave no tree.
#[derive(Clone, Copy, Debug, PartialEq, Eq)]
pub enum ParseFault {
    Refused(ParseError),
    NoMemory,
}

impl fmt::Display for ParseKind {
    ghost use Rattle.std.specs.Prelude.{Some};
    ghost use Rattle.coco_parse.specs.Messages.{kind_text};

    ghost output = { λ x. Some (kind_text x) };

    fn fmt<W: fmt::Write>(&self, f: &mut fmt::Formatter<W>) -> fmt::Result {
        match self {
            ParseKind::Unexpected => f.write_str("unexpected"),
            ParseKind::TooDeep => f.write_str("too deep"),
            ParseKind::TooMany => f.write_str("too many"),
            ParseKind::Range => f.write_str("range"),
        }
    }
}

impl fmt::Display for ParseError {
    ghost use Rattle.std.specs.Prelude.{Some};
    ghost use Rattle.coco_parse.specs.Messages.{error_text};

    ghost output = { λ x. Some (error_text x) };

    fn fmt<W: fmt::Write>(&self, f: &mut fmt::Formatter<W>) -> fmt::Result {
        let kind = self.kind;
        let at = self.at;
        write!(f, "{kind} at byte {at}")
    }
}

impl fmt::Display for ParseFault {
    ghost use Rattle.std.specs.Prelude.{Some};
    ghost use Rattle.coco_parse.specs.Messages.{fault_text};

    ghost output = { λ x. Some (fault_text x) };

    fn fmt<W: fmt::Write>(&self, f: &mut fmt::Formatter<W>) -> fmt::Result {
        match self {
            ParseFault::Refused(error) => write!(f, "{error}"),
            ParseFault::NoMemory => f.write_str("out of memory"),
        }
    }
}

impl Error for ParseError {}

impl Error for ParseFault {}

impl From<ParseError> for ParseFault {
    ghost use Rattle.std.specs.Prelude.{◌≡◌};
    ghost use Rattle.coco_parse.specs.declared.error.ParseFault.TheVariants.{Refused};

    ghost from_gives = { λ error fault. fault ≡ Refused error };

    fn from(error: ParseError) -> ParseFault {
        ParseFault::Refused(error)
    }
}

impl<T: Drop> From<AllocFailed<T>> for ParseFault {
    ghost use Rattle.std.specs.Prelude.{◌≡◌};
    ghost use Rattle.coco_parse.specs.declared.error.ParseFault.TheVariants.{NoMemory};

    ghost from_gives = { λ _ fault. fault ≡ NoMemory };

    fn from(_failed: AllocFailed<T>) -> ParseFault {
        ParseFault::NoMemory
    }
}

impl From<NoMemory> for ParseFault {
    ghost use Rattle.std.specs.Prelude.{◌≡◌};
    ghost use Rattle.coco_parse.specs.declared.error.ParseFault.TheVariants.{NoMemory};

    ghost from_gives = { λ _ fault. fault ≡ NoMemory };

    fn from(_error: NoMemory) -> ParseFault {
        ParseFault::NoMemory
    }
}
