//! Why an entry wasn't added.
ghost use Rattle.std.specs.Prelude.{◌≡◌};
ghost use Rattle.coco_append.specs.Adding.{add_fault_of, log_fault_of};
ghost use Rattle.coco_append.specs.declared.fault.AddFault.TheVariants as fault;

use coco_log::LogFault;
use coco_types::NoMemory;

/// Why an entry wasn't added to its log.
#[derive(Clone, Copy, Debug, PartialEq, Eq)]
pub enum AddFault {
    /// The host failed.
    Disk,
    NoMemory,
    /// The entry's body is longer than one may be. Nothing has changed.
    TooLong,
}

impl From<NoMemory> for AddFault {
    ghost from_gives = { λ _ e. e ≡ fault.NoMemory };

    fn from(_: NoMemory) -> AddFault {
        AddFault::NoMemory
    }
}

impl From<LogFault> for AddFault {
    ghost from_gives = { λ f e. e ≡ add_fault_of f };

    // An append refuses no file.
    fn from(fault: LogFault) -> AddFault {
        match fault {
            LogFault::NoMemory => AddFault::NoMemory,
            LogFault::Disk | LogFault::NotALog { .. } | LogFault::TooLong => AddFault::Disk,
        }
    }
}

impl From<AddFault> for LogFault {
    ghost from_gives = { λ f e. e ≡ log_fault_of f };

    // Who can't make the entry shorter lacks the memory for it.
    fn from(fault: AddFault) -> LogFault {
        match fault {
            AddFault::Disk => LogFault::Disk,
            AddFault::NoMemory | AddFault::TooLong => LogFault::NoMemory,
        }
    }
}
