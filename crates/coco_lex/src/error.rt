//! Why a text has no tokens, and how that is printed.

use std::alloc::AllocFailed;
use std::error::Error;
use std::fmt;

/// What is wrong at a place of a text.
#[derive(Clone, Copy, Debug, PartialEq, Eq)]
pub enum LexKind {
    /// The text is not UTF-8 from here on.
    Utf8,
    /// No token begins with this byte.
    Stray,
    /// A word of more than 32 bytes.
    LongName,
    /// A number above 9223372036854775807.
    WideNumber,
    /// A text without its closing quote.
    OpenText,
    /// A control character in a text, or a backslash before neither a quote nor a backslash.
    BadText,
    /// A text of more than 256 bytes.
    LongText,
}

/// The first refusal of a text, `at` counted in bytes from its start.
#[derive(Clone, Copy, Debug, PartialEq, Eq)]
pub struct LexError {
    pub at: u32,
    pub kind: LexKind,
}

/// Why a text gave no tokens.
#[derive(Clone, Copy, Debug, PartialEq, Eq)]
pub enum LexFault {
    Refused(LexError),
    NoMemory,
}

impl fmt::Display for LexKind {
    ghost use Rattle.std.specs.Prelude.{Some};
    ghost use Rattle.coco_lex.specs.Messages.{kind_text};

    ghost output = { λ x. Some (kind_text x) };

    fn fmt<W: fmt::Write>(&self, f: &mut fmt::Formatter<W>) -> fmt::Result {
        match self {
            LexKind::Utf8 => f.write_str("utf8"),
            LexKind::Stray => f.write_str("stray"),
            LexKind::LongName => f.write_str("long name"),
            LexKind::WideNumber => f.write_str("wide number"),
            LexKind::OpenText => f.write_str("open text"),
            LexKind::BadText => f.write_str("bad text"),
            LexKind::LongText => f.write_str("long text"),
        }
    }
}

impl fmt::Display for LexError {
    ghost use Rattle.std.specs.Prelude.{Some};
    ghost use Rattle.coco_lex.specs.Messages.{error_text};

    ghost output = { λ x. Some (error_text x) };

    fn fmt<W: fmt::Write>(&self, f: &mut fmt::Formatter<W>) -> fmt::Result {
        let kind = self.kind;
        let at = self.at;
        write!(f, "{kind} at byte {at}")
    }
}

impl fmt::Display for LexFault {
    ghost use Rattle.std.specs.Prelude.{Some};
    ghost use Rattle.coco_lex.specs.Messages.{fault_text};

    ghost output = { λ x. Some (fault_text x) };

    fn fmt<W: fmt::Write>(&self, f: &mut fmt::Formatter<W>) -> fmt::Result {
        match self {
            LexFault::Refused(error) => write!(f, "{error}"),
            LexFault::NoMemory => f.write_str("out of memory"),
        }
    }
}

impl Error for LexError {}

impl Error for LexFault {}

impl From<LexError> for LexFault {
    ghost use Rattle.std.specs.Prelude.{◌≡◌};
    ghost use Rattle.coco_lex.specs.declared.error.LexFault.TheVariants.{Refused};

    ghost from_gives = { λ error fault. fault ≡ Refused error };

    fn from(error: LexError) -> LexFault {
        LexFault::Refused(error)
    }
}

impl<T: Drop> From<AllocFailed<T>> for LexFault {
    ghost use Rattle.std.specs.Prelude.{◌≡◌};
    ghost use Rattle.coco_lex.specs.declared.error.LexFault.TheVariants.{NoMemory};

    ghost from_gives = { λ _ fault. fault ≡ NoMemory };

    fn from(_failed: AllocFailed<T>) -> LexFault {
        LexFault::NoMemory
    }
}
