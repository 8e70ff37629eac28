//! Why a text of procedures is refused, and how that is printed.

use coco_ast::CheckError;
use coco_lex::LexError;
use coco_parse::ParseError;
use coco_types::limits::MOST_PROCEDURE_BYTES;
use std::error::Error;
use std::fmt;

/// Why a text of procedures is refused: the first thing that is wrong with it.
#[derive(Clone, Copy, Debug, PartialEq, Eq)]
pub enum TextError {
    /// It has too many bytes.
    Long,
    /// It has no tokens.
    Lex(LexError),
    /// Its tokens have no tree.
    Parse(ParseError),
    /// Its tables and procedures have an error.
    Check(CheckError),
}

impl fmt::Display for TextError {
    ghost use Rattle.std.specs.Prelude.{Some};
    ghost use Rattle.coco_ending.specs.Messages.{error_text};

    ghost output = { λ x. Some (error_text x) };

    fn fmt<W: fmt::Write>(&self, f: &mut fmt::Formatter<W>) -> fmt::Result {
        match self {
            TextError::Long => write!(f, "long at byte {MOST_PROCEDURE_BYTES}"),
            TextError::Lex(error) => write!(f, "{error}"),
            TextError::Parse(error) => write!(f, "{error}"),
            TextError::Check(error) => write!(f, "{error}"),
        }
    }
}

impl Error for TextError {}
