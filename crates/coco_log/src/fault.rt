//! Why a call on a log failed.
ghost use Rattle.std.specs.Prelude.{◌≡◌};
ghost use Rattle.coco_types.specs.declared.error.OutFault.TheVariants as out;
ghost use Rattle.coco_log.specs.declared.fault.LogFault.TheVariants as fault;

use coco_types::{Failed, NoMemory, OutFault};
use std::alloc::{AllocError, AllocFailed};

/// Why a call on a log failed.
#[derive(Clone, Copy, Debug, PartialEq, Eq)]
pub enum LogFault {
    /// The host failed.
    Disk,
    NoMemory,
    /// The file is no log: its bytes fit no more from this place on.
    NotALog { at: u64 },
    /// The file is longer than a log may be that is opened.
    TooLong,
}

impl From<Failed> for LogFault {
    ghost from_gives = { λ _ e. e ≡ fault.Disk };

    fn from(_: Failed) -> LogFault {
        LogFault::Disk
    }
}

impl From<NoMemory> for LogFault {
    ghost from_gives = { λ _ e. e ≡ fault.NoMemory };

    fn from(_: NoMemory) -> LogFault {
        LogFault::NoMemory
    }
}

impl From<OutFault> for LogFault {
    ghost use Rattle.coco_log.specs.Faults.{log_fault_of};

    ghost from_gives = { λ f e. e ≡ log_fault_of f };

    fn from(fault: OutFault) -> LogFault {
        match fault {
            OutFault::Failed => LogFault::Disk,
            OutFault::NoMemory => LogFault::NoMemory,
        }
    }
}

impl From<AllocError> for LogFault {
    ghost from_gives = { λ _ e. e ≡ fault.NoMemory };

    fn from(_: AllocError) -> LogFault {
        LogFault::NoMemory
    }
}

impl<T: Drop> From<AllocFailed<T>> for LogFault {
    ghost from_gives = { λ _ e. e ≡ fault.NoMemory };

    fn from(_: AllocFailed<T>) -> LogFault {
        LogFault::NoMemory
    }
}
