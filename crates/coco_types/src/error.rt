//! Errors that many layers pass on.
use std::alloc::{AllocError, AllocFailed};
use std::error::Error;
use std::fmt;

/// A read or a write failed, and the count of faults of the object rose.
#[derive(Clone, Copy, Debug, PartialEq, Eq)]
pub struct Failed;

/// Memory ran out.
#[derive(Clone, Copy, Debug, PartialEq, Eq)]
pub struct NoMemory;

/// Why a write took nothing.
#[derive(Clone, Copy, Debug, PartialEq, Eq)]
pub enum OutFault {
    Failed,
    NoMemory,
}

impl fmt::Display for Failed {
    ghost use Rattle.std.specs.Prelude.{Some, codes};

    ghost output = { λ _. Some (codes "a read or a write failed") };

    fn fmt<W: fmt::Write>(&self, f: &mut fmt::Formatter<W>) -> fmt::Result {
        f.write_str("a read or a write failed")
    }
}

impl fmt::Display for NoMemory {
    ghost use Rattle.std.specs.Prelude.{Some, codes};

    ghost output = { λ _. Some (codes "out of memory") };

    fn fmt<W: fmt::Write>(&self, f: &mut fmt::Formatter<W>) -> fmt::Result {
        f.write_str("out of memory")
    }
}

impl fmt::Display for OutFault {
    ghost use Rattle.std.specs.Prelude.{Some};
    ghost use Rattle.coco_types.specs.Messages.{fault_text};

    ghost output = { λ x. Some (fault_text x) };

    fn fmt<W: fmt::Write>(&self, f: &mut fmt::Formatter<W>) -> fmt::Result {
        match self {
            OutFault::Failed => f.write_str("a write failed"),
            OutFault::NoMemory => f.write_str("out of memory"),
        }
    }
}

impl Error for Failed {}

impl Error for NoMemory {}

impl Error for OutFault {}

impl From<AllocError> for NoMemory {
    fn from(_error: AllocError) -> NoMemory {
        NoMemory
    }
}

impl<T: Drop> From<AllocFailed<T>> for NoMemory {
    fn from(_error: AllocFailed<T>) -> NoMemory {
        NoMemory
    }
}
