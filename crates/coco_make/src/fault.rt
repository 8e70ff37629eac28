//! Why a store was not made.

ghost use Rattle.std.specs.Prelude.{◌≡◌};
ghost use Rattle.coco_make.specs.declared.fault.MakeFault.TheVariants.{NoMemory as Spent};

use coco_log::LogFault;
use coco_types::NoMemory;
use std::error::Error;
use std::fmt;

/// Why a store was not made.
#[derive(Clone, Copy, Debug, PartialEq, Eq)]
pub enum MakeFault {
    /// The host failed.
    Disk,
    NoMemory,
}

impl fmt::Display for MakeFault {
    ghost use Rattle.std.specs.Prelude.{Some};
    ghost use Rattle.coco_make.specs.Messages.{fault_text};

    ghost output = { λ x. Some (fault_text x) };

    fn fmt<W: fmt::Write>(&self, f: &mut fmt::Formatter<W>) -> fmt::Result {
        match self {
            MakeFault::Disk => f.write_str("disk fault"),
            MakeFault::NoMemory => f.write_str("out of memory"),
        }
    }
}

impl Error for MakeFault {}

impl From<NoMemory> for MakeFault {
    ghost from_gives = { λ _ e. e ≡ Spent };

    fn from(_error: NoMemory) -> MakeFault {
        MakeFault::NoMemory
    }
}

impl From<LogFault> for MakeFault {
    ghost use Rattle.coco_make.specs.Faults.{make_fault_of};

    ghost from_gives = { λ fault e. e ≡ make_fault_of fault };

    // Making a log refuses no file.
    fn from(fault: LogFault) -> MakeFault {
        match fault {
            LogFault::Disk | LogFault::NotALog { .. } | LogFault::TooLong => MakeFault::Disk,
            LogFault::NoMemory => MakeFault::NoMemory,
        }
    }
}
