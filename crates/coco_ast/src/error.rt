//! What is wrong with a tree, and how it is printed.

use std::error::Error;
use std::fmt;

/// What is wrong with a table or a procedure.
#[derive(Clone, Copy, Debug, PartialEq, Eq)]
pub enum CheckKind {
    /// A table that isn't declared, or a variable that nothing before it names.
    UnknownName,
    /// A name that an earlier table, procedure or parameter has.
    Twice,
    /// A procedure that may need more than 64 keys. The count ends at 1,000,000.
    TooManyKeys { count: u32 },
    /// A bound that isn't 1 to 64, or repeats of more than 4,096 turns in all.
    RepeatBound,
    /// A procedure with a way through it that neither replies nor refuses.
    NoReply,
}

/// An error, `item` counted from 1 over the tables and then the procedures, and `statement` from 1
/// in the order of the text. Statement 0 is the item as a whole.
#[derive(Clone, Copy, Debug, PartialEq, Eq)]
pub struct CheckError {
    pub item: u32,
    pub statement: u32,
    pub kind: CheckKind,
}

impl fmt::Display for CheckKind {
    ghost use Rattle.std.specs.Prelude.{Some};
    ghost use Rattle.coco_ast.specs.Messages.{kind_text};

    ghost output = { λ x. Some (kind_text x) };

    fn fmt<W: fmt::Write>(&self, f: &mut fmt::Formatter<W>) -> fmt::Result {
        match self {
            CheckKind::UnknownName => f.write_str("unknown name"),
            CheckKind::Twice => f.write_str("twice"),
            CheckKind::TooManyKeys { .. } => f.write_str("too many keys"),
            CheckKind::RepeatBound => f.write_str("repeat bound"),
            CheckKind::NoReply => f.write_str("no reply"),
        }
    }
}

impl fmt::Display for CheckError {
    ghost use Rattle.std.specs.Prelude.{Some};
    ghost use Rattle.coco_ast.specs.Messages.{error_text};

    ghost output = { λ x. Some (error_text x) };

    fn fmt<W: fmt::Write>(&self, f: &mut fmt::Formatter<W>) -> fmt::Result {
        let kind = self.kind;
        let item = self.item;
        let statement = self.statement;
        write!(f, "{kind} at item {item} statement {statement}")
    }
}

impl Error for CheckError {}
