//! Why a tree isn't accepted, and how that is printed.

ghost use Rattle.std.specs.Prelude.{◌≡◌};
ghost use Rattle.coco_check.specs.Search.{fault_at};

use coco_ast::{CheckError, CheckKind};
use coco_types::NoMemory;
use std::alloc::{AllocError, AllocFailed};
use std::error::Error;
use std::fmt;

/// Why a tree wasn't accepted.
#[derive(Clone, Copy, Debug, PartialEq, Eq)]
pub enum CheckFault {
    Refused(CheckError),
    NoMemory,
}

// What is wrong within one procedure.
#[derive(Clone, Copy, Debug)]
pub(crate) enum BodyFault {
    Refused { statement: u32, kind: CheckKind },
    NoMemory,
}

impl BodyFault {
    // The fault as one of an item.
    pub(crate) fn at(self, item: u32) -> CheckFault
        ensures { result ≡ fault_at item self }
    {
        match self {
            BodyFault::Refused { statement, kind } => CheckFault::Refused(CheckError {
                item,
                statement,
                kind,
            }),
            BodyFault::NoMemory => CheckFault::NoMemory,
        }
    }
}

impl fmt::Display for CheckFault {
    ghost use Rattle.std.specs.Prelude.{Some};
    ghost use Rattle.coco_check.specs.Messages.{fault_text};

    ghost output = { λ x. Some (fault_text x) };

    fn fmt<W: fmt::Write>(&self, f: &mut fmt::Formatter<W>) -> fmt::Result {
        match self {
            CheckFault::Refused(error) => write!(f, "{error}"),
            CheckFault::NoMemory => f.write_str("out of memory"),
        }
    }
}

impl Error for CheckFault {}

impl From<NoMemory> for CheckFault {
    ghost use Rattle.std.specs.Prelude.{◌≡◌};
    ghost use Rattle.coco_check.specs.declared.fault.CheckFault.TheVariants.{NoMemory};

    ghost from_gives = { λ _ fault. fault ≡ NoMemory };

    fn from(_error: NoMemory) -> CheckFault {
        CheckFault::NoMemory
    }
}

impl<T: Drop> From<AllocFailed<T>> for CheckFault {
    ghost use Rattle.std.specs.Prelude.{◌≡◌};
    ghost use Rattle.coco_check.specs.declared.fault.CheckFault.TheVariants.{NoMemory};

    ghost from_gives = { λ _ fault. fault ≡ NoMemory };

    fn from(_failed: AllocFailed<T>) -> CheckFault {
        CheckFault::NoMemory
    }
}

impl<T: Drop> From<AllocFailed<T>> for BodyFault {
    ghost use Rattle.std.specs.Prelude.{◌≡◌};
    ghost use Rattle.coco_check.specs.declared.fault.BodyFault.TheVariants.{NoMemory};

    ghost from_gives = { λ _ fault. fault ≡ NoMemory };

    fn from(_failed: AllocFailed<T>) -> BodyFault {
        BodyFault::NoMemory
    }
}

impl From<NoMemory> for BodyFault {
    ghost use Rattle.std.specs.Prelude.{◌≡◌};
    ghost use Rattle.coco_check.specs.declared.fault.BodyFault.TheVariants.{NoMemory};

    ghost from_gives = { λ _ fault. fault ≡ NoMemory };

    fn from(_error: NoMemory) -> BodyFault {
        BodyFault::NoMemory
    }
}

impl From<AllocError> for CheckFault {
    ghost use Rattle.std.specs.Prelude.{◌≡◌};
    ghost use Rattle.coco_check.specs.declared.fault.CheckFault.TheVariants.{NoMemory};

    ghost from_gives = { λ _ fault. fault ≡ NoMemory };

    fn from(_error: AllocError) -> CheckFault {
        CheckFault::NoMemory
    }
}

impl From<AllocError> for BodyFault {
    ghost use Rattle.std.specs.Prelude.{◌≡◌};
    ghost use Rattle.coco_check.specs.declared.fault.BodyFault.TheVariants.{NoMemory};

    ghost from_gives = { λ _ fault. fault ≡ NoMemory };

    fn from(_error: AllocError) -> BodyFault {
        BodyFault::NoMemory
    }
}
